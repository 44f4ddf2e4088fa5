use arrayvec::ArrayVec;
use std::mem;
use stmt_codec::{FrameFault, OwnClaim, Payload, Pid, PidSet, UpdateFault};

/// What is handed to a process. One event is taken whole.
#[derive(Clone, Copy)]
pub enum Event<'a> {
    /// The process is to multicast this payload.
    Submit(&'a [u8]),

    /// These bytes came as a frame from that process. Who they came from is the link's word.
    Frame { from: Pid, bytes: &'a [u8] },

    /// The process is to be removed.
    Suspect(Pid),

    /// The process is to be added.
    Join(Pid),

    /// A new view of the same members is to begin.
    Renew,

    /// What was signed is to be sent again, and what is lacked to be asked for.
    Tick,
}

/// Why an event was refused: the first of these that holds. Nothing has changed, nothing was signed, nothing is sent.
#[derive(Clone, Copy, Debug, PartialEq, Eq)]
pub enum EventFault {
    /// The process halted for good, with `delivered` places delivered and that cut decided. The other members are to
    /// blame: more of them were corrupt than the group bears.
    HaltedNow { delivered: u16, cut: u16 },

    /// The bytes of a Frame are no frame of claims. Whoever made them is to blame.
    BadFrame(FrameFault),

    /// A Submit, Suspect, Join or Renew, where the process is no member of its view.
    Outsider,

    /// A Submit of more than 1,024 bytes.
    TooLong,

    /// A Submit, where 256 accepted payloads are not delivered yet. It may be tried again after a delivery.
    Backlog,

    /// A Join of a process of which the roster has no key.
    NoKey,

    /// A Suspect, Join or Renew after which no view follows.
    NoNext(UpdateFault),
}

/// What became of an event.
#[derive(Clone, Copy, Debug, PartialEq, Eq)]
pub enum EventVerdict {
    /// It was taken in.
    Taken,

    /// It was refused, and changed nothing.
    Refused(EventFault),
}

/// A frame, and to whom it goes.
#[derive(Debug, Drop)]
pub struct Sending {
    /// To each of these processes.
    pub to: PidSet,

    /// At most 61,000 bytes.
    pub frame: Payload,
}

/// A message that was delivered, with its place and its payload.
#[derive(Debug, Drop)]
pub struct Delivered {
    pub place: u16,
    pub sender: Pid,
    pub number: u16,
    pub payload: Payload,
}

/// What an event brought about that is reported to the process's user.
#[derive(Debug, Drop)]
pub enum Note {
    /// The message of this number of that sender was delivered at the place.
    Delivered {
        view: u16,
        place: u16,
        sender: Pid,
        number: u16,
        payload: Payload,
    },

    /// The process is in the view of this number now. Its members are in rank order.
    Installed {
        view: u16,
        members: ArrayVec<Pid, 16>,
    },

    /// Two valid claims of this signer that conflict are kept now.
    Liar(Pid),

    /// A statement was due, and no signature was left.
    Spent,

    /// The process halted for good, with `delivered` places delivered and that cut decided.
    Halted {
        delivered: u16,
        cut: u16,
    },
}

/// What one event brought about.
#[derive(Debug)]
pub struct Outcome {
    /// Whether the event was taken.
    pub verdict: EventVerdict,

    /// How many claims were newly heard.
    pub heard: u16,

    /// What was signed, in order of signing.
    pub signed: Vec<OwnClaim>,

    /// Whether a statement was due, and no signature was left.
    pub spent: bool,

    /// What is to be sent, in this order.
    pub sends: Vec<Sending>,

    /// Deliveries, the view that was installed, liars, Spent and Halted, in this order.
    pub notes: Vec<Note>,
}

// Written out, so that whoever drops a value makes one call (docs/CONTRIBUTING.md).
impl Drop for Outcome {
    fn drop(self) {
        let Outcome {
            verdict: _,
            heard: _,
            signed,
            spent: _,
            sends,
            notes,
        } = self;
        mem::drop(signed);
        mem::drop(sends);
        mem::drop(notes);
    }
}

impl Outcome {
    ghost use Rattle.std.specs.Prelude.{◌≡◌};

    /// What was signed, what is to be sent, and the notes.
    pub fn into_parts(self) -> (Vec<OwnClaim>, Vec<Sending>, Vec<Note>)
        ensures signed { result.0 ≡ self.signed }
        ensures sends { result.1 ≡ self.sends }
        ensures notes { result.2 ≡ self.notes }
    {
        let Outcome {
            verdict: _,
            heard: _,
            signed,
            spent: _,
            sends,
            notes,
        } = self;
        (signed, sends, notes)
    }
}
