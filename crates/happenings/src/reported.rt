//! What happens, and who asks for it.
ghost use Rattle.std.specs.Prelude.{◌≡◌, ◌∷◌, [], is_some, OnOk};
ghost use Rattle.happenings.specs.Reported.{happening, reported_of, WasReported};

use crate::seen::Seen;
use member_events::Payload;
use rp_base::{NoMemory, Pid, PidSet};
use std::mem;

/// What a process is handed.
#[derive(Clone, Copy)]
pub enum Handed {
    /// A payload, to be sent to the group.
    Payload,

    /// The frame of this number, from the process that sent it.
    Frame { number: u64, from: Pid },

    /// Bytes that no process sent, as a frame from this one.
    Bytes { from: Pid },

    /// The wish that this process be removed.
    Suspects(Pid),

    /// The wish that this process be added.
    Joins(Pid),

    /// The wish that a next view begin.
    Renews,

    /// Word that time passes.
    Ticks,
}

/// What happens to a process, or between processes.
pub enum Happening {
    /// The process takes what it is handed, and this is seen of it. The next frame that is sent gets the number `first`.
    Takes {
        at: Pid,
        handed: Handed,
        first: u64,
        seen: Seen,
    },

    /// A frame is lost on its way.
    Loses {
        frame: u64,
        from: Pid,
        to: Pid,
    },

    /// A corrupt process signs a statement, by its bytes, and sends it in this frame.
    Lies {
        signer: Pid,
        statement: Payload,
        frame: u64,
        to: PidSet,
    },

    /// A corrupt process has no signature left for its lie.
    Silent {
        signer: Pid,
    },
}

// Written out, so that whoever drops a value makes one call (docs/CONTRIBUTING.md).
impl Drop for Happening {
    fn drop(self) {
        match self {
            Happening::Takes {
                at: _,
                handed: _,
                first: _,
                seen,
            } => mem::drop(seen),
            Happening::Lies {
                signer: _,
                statement,
                frame: _,
                to: _,
            } => mem::drop(statement),
            Happening::Loses {
                frame: _,
                from: _,
                to: _,
            }
            | Happening::Silent { signer: _ } => {}
        }
    }
}

/// What is reported of what happens: all of it in its order, or nothing, where nobody asks.
#[derive(Drop)]
pub enum Reported {
    Unasked,
    Kept(Vec<Happening>),
}

impl Reported {
    /// Whether somebody asks.
    pub fn is_asked(&self) -> bool
        ensures { result ≡ is_some (reported_of self.now) }
    {
        match self {
            Reported::Unasked => false,
            Reported::Kept(_) => true,
        }
    }

    /// This happens.
    pub fn add(&mut self, what: Happening) -> Result<(), NoMemory>
        ensures { OnOk result (WasReported self.old (happening what ∷ []) self.new) }
    {
        match self {
            Reported::Unasked => Ok(()),
            Reported::Kept(all) => Ok(all.push(what)?),
        }
    }
}
