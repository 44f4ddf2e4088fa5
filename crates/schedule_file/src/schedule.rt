//! Schedules: who takes part, and what happens. Contracts see them as the plain ones of `replay_defs`.
ghost use Rattle.std.specs.Prelude.{◌≡◌};
ghost use Rattle.replay_defs.specs.Schedules.{steps_of};
ghost use Rattle.schedule_file.specs.Views as views;

use arrayvec::ArrayVec;
use replay_defs::Scheme;
use rp_base::{GroupId, Pid, PidSet};
use signature_defs::OtsType;
use std::mem;

/// What a process signs with.
#[derive(Clone, Copy)]
pub enum Key {
    /// A plain key, private and public at once.
    Plain {
        key: [u8; 32],

        /// How many signatures it makes.
        total: u32,
    },

    /// One LMS tree.
    Lms {
        /// The typecode of the tree's height, 5 to 7 (RFC 8554, section 5.1).
        height: u8,

        /// The parameter set of the one-time keys (RFC 8554, section 4.1).
        ots: OtsType,
        id: [u8; 16],
        seed: [u8; 32],
    },

    /// LMS trees in levels, all of one height and one-time type (RFC 8554, section 6).
    Hss {
        /// 1 to 3.
        levels: u8,

        /// The typecode of the trees' height, 5 to 7, and in three levels 5 or 6.
        height: u8,

        /// In two or three levels not `W1`, whose signatures would be too long.
        ots: OtsType,

        /// I and SEED are those of the top tree.
        id: [u8; 16],
        seed: [u8; 32],
    },
}

/// A plain key that makes no signature, which fills the unused room of lists of a fixed size.
impl Default for Key {
    ghost use Rattle.std.specs.Prelude.{◌≡◌, replicate};
    ghost use Rattle.schedule_file.specs.declared.schedule.Key.TheVariants.{Plain};

    ghost is_default = { λ k. k ≡ Plain (replicate 32 0) 0 };

    fn default() -> Key {
        Key::Plain {
            key: [0; 32],
            total: 0,
        }
    }
}

/// A process that takes part.
#[derive(Clone, Copy, Default)]
pub struct Listed {
    pub process: Pid,

    /// Its frames are handed over as raw bytes or as lies, and it does nothing of its own.
    pub corrupt: bool,

    /// Of the schedule's scheme.
    pub key: Key,
}

/// Who takes part in a run.
pub struct Header {
    pub scheme: Scheme,

    /// The most messages of an Order of a correct process, 1 to 16.
    pub batch: u8,
    pub group: GroupId,

    /// By rising numbers, 1 to 64.
    pub processes: Vec<Listed>,

    /// The members of the first view, by rank, 1 to 16 and each of them listed.
    pub genesis: ArrayVec<Pid, 16>,
}

// Written out, so that whoever drops a value makes one call (docs/CONTRIBUTING.md).
impl Drop for Header {
    fn drop(self) {
        let Header {
            scheme: _,
            batch: _,
            group: _,
            processes,
            genesis,
        } = self;
        mem::drop(processes);
        mem::drop(genesis);
    }
}

/// What happens to a correct process, or between processes.
pub enum ScheduleEvent {
    /// A payload of at most 65,535 bytes is handed to a process, to be sent to the group.
    Submit {
        at: Pid,
        payload: Vec<u8>,
    },

    /// Bytes, at most 61,440, are handed to a process as a frame from another.
    Raw {
        to: Pid,
        from: Pid,
        bytes: Vec<u8>,
    },

    /// A frame that was sent is handed to a process. Frames are numbered from 0 as they are sent.
    Pass {
        frame: u32,
        to: Pid,
    },

    /// `count` deliveries are made, the oldest first, to these processes, and are lost to the others.
    Drain {
        count: u32,
        to: PidSet,
    },

    /// A corrupt process signs a statement, by its bytes, and sends it to these processes.
    Lie {
        signer: Pid,
        to: PidSet,
        statement: Vec<u8>,
    },

    /// A process is asked to have another removed.
    Suspect {
        at: Pid,
        of: Pid,
    },

    /// A process is asked to have another added.
    Join {
        at: Pid,
        of: Pid,
    },

    /// A process is asked to have a next view with the same members.
    Renew {
        at: Pid,
    },

    /// Time passes for a process.
    Tick {
        at: Pid,
    },
}

// Written out, so that whoever drops a value makes one call (docs/CONTRIBUTING.md).
impl Drop for ScheduleEvent {
    fn drop(self) {
        match self {
            ScheduleEvent::Submit { at: _, payload } => mem::drop(payload),
            ScheduleEvent::Raw {
                to: _,
                from: _,
                bytes,
            } => mem::drop(bytes),
            ScheduleEvent::Lie {
                signer: _,
                to: _,
                statement,
            } => mem::drop(statement),
            ScheduleEvent::Pass { frame: _, to: _ }
            | ScheduleEvent::Drain { count: _, to: _ }
            | ScheduleEvent::Suspect { at: _, of: _ }
            | ScheduleEvent::Join { at: _, of: _ }
            | ScheduleEvent::Renew { at: _ }
            | ScheduleEvent::Tick { at: _ } => {}
        }
    }
}

impl ScheduleEvent {
    /// How many steps it takes: as many as a Drain counts, else one.
    pub fn steps(&self) -> u32
        ensures { result ≡ steps_of (views.event self.now) }
    {
        match self {
            ScheduleEvent::Drain { count, .. } => *count,
            _ => 1,
        }
    }
}

/// Who takes part in a run, and what happens in it. docs/FORMATS.md says how it is spelled.
#[derive(Drop)]
pub struct Schedule {
    pub header: Header,

    /// At most 1,000,000 steps: a Drain takes as many as it counts, every other event one.
    pub events: Vec<ScheduleEvent>,
}
