ghost use Rattle.std.specs.Prelude.{◌≡◌};
ghost use Rattle.schedule_fields.specs.declared.fault.ScheduleFault.TheVariants as errors;
ghost use Rattle.schedule_fields.specs.declared.fault.ReadError.TheVariants as reads;

use replay_defs::{Fault, FaultKind, Found};
use std::alloc::{AllocError, AllocFailed};
use thiserror::Error;

/// Why no schedule was read: the first fault of the bytes from left to right. All but the last are the writer's. The place is the
/// number of bytes before the field that has the fault.
#[derive(Clone, Copy, Debug, PartialEq, Eq, Error)]
pub enum ScheduleFault {
    /// The input ends in the field.
    #[error("the input ends in the field at byte {place}")]
    Short { place: usize },

    /// The first four bytes are not those of a schedule.
    #[error("the input begins as no schedule does, at byte {place}")]
    Magic { place: usize },

    /// A schedule that begins so has no such signature scheme.
    #[error("no such scheme, at byte {place}")]
    Scheme { place: usize },

    /// A count, a process number, the order of processes or a role is wrong, or a genesis entry is not in the roster or is given twice.
    #[error("a wrong count, process or role at byte {place}")]
    Roster { place: usize },

    /// No key has this number of levels, this height or this one-time type.
    #[error("no key has these parameters, at byte {place}")]
    Key { place: usize },

    /// No event has this tag.
    #[error("no event has the tag at byte {place}")]
    Tag { place: usize },

    /// A process is not of the role that is asked for, or a number, a length or a statement is out of its limits.
    #[error("the field at byte {place} is out of its limits")]
    Field { place: usize },

    /// The input passes 67,108,864 bytes; that number is the place.
    #[error("the input passes {place} bytes")]
    TooLong { place: usize },

    /// With the event whose tag is here the steps pass 1,000,000.
    #[error("the steps pass 1,000,000 with the event at byte {place}")]
    TooMany { place: usize },

    /// Memory ran out, which is nobody's fault: the same bytes may be read again.
    #[error("out of memory")]
    NoMemory,
}

impl From<Fault> for ScheduleFault {
    ghost use Rattle.schedule_fields.specs.Faults.{IsFault};

    ghost from_gives = { λ f e. IsFault f e };

    fn from(fault: Fault) -> ScheduleFault {
        let place = fault.place;
        match fault.kind {
            FaultKind::Short => ScheduleFault::Short { place },
            FaultKind::Magic => ScheduleFault::Magic { place },
            FaultKind::Scheme => ScheduleFault::Scheme { place },
            FaultKind::Roster => ScheduleFault::Roster { place },
            FaultKind::Key => ScheduleFault::Key { place },
            FaultKind::Tag => ScheduleFault::Tag { place },
            FaultKind::Field => ScheduleFault::Field { place },
            FaultKind::TooLong => ScheduleFault::TooLong { place },
            FaultKind::TooMany => ScheduleFault::TooMany { place },
        }
    }
}

impl From<AllocError> for ScheduleFault {
    ghost from_gives = { λ _ e. e ≡ errors.NoMemory };

    fn from(_refused: AllocError) -> ScheduleFault {
        ScheduleFault::NoMemory
    }
}

impl<T: Drop> From<AllocFailed<T>> for ScheduleFault {
    ghost from_gives = { λ _ e. e ≡ errors.NoMemory };

    fn from(_refused: AllocFailed<T>) -> ScheduleFault {
        ScheduleFault::NoMemory
    }
}

/// Why reading stopped, before the place of a fault is known.
#[derive(Clone, Copy)]
pub enum ReadError {
    NoMemory,
    Found(Found),
}

impl From<Found> for ReadError {
    ghost from_gives = { λ f e. e ≡ reads.Found f };

    fn from(found: Found) -> ReadError {
        ReadError::Found(found)
    }
}

impl From<AllocError> for ReadError {
    ghost from_gives = { λ _ e. e ≡ reads.NoMemory };

    fn from(_refused: AllocError) -> ReadError {
        ReadError::NoMemory
    }
}

impl<T: Drop> From<AllocFailed<T>> for ReadError {
    ghost from_gives = { λ _ e. e ≡ reads.NoMemory };

    fn from(_refused: AllocFailed<T>) -> ReadError {
        ReadError::NoMemory
    }
}
