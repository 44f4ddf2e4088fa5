ghost use Rattle.std.specs.Prelude.{◌≡◌};
ghost use Rattle.replay_run.specs.declared.fault.ReplayFault.TheVariants as faults;
ghost use Rattle.replay_run.specs.declared.fault.Stop.TheVariants as stops;
ghost use Rattle.replay_run.specs.Faults.{IsOfRun, IsOfBytes};

use replay_defs::{Fault, FaultKind};
use replay_report::WorldFault;
use rp_base::NoMemory;
use schedule_pieces::ScheduleFault;

/// Why bytes have no report. The schedule's author is to blame. Events are numbered from 0.
#[derive(Clone, Copy, Debug, PartialEq, Eq)]
pub enum ReplayFault {
    /// The bytes are no schedule: the first fault from the left. It comes before any fault of the run.
    Schedule(Fault),

    /// A Pass names a frame that is not sent yet: `sent` frames were.
    NoSuchFrame { event: u64, frame: u32, sent: usize },

    /// The bytes of all frames pass 1,073,741,824: with the first frame that passes it they are `bytes`.
    TooMuchSent { event: u64, bytes: u64 },
}

/// Why a replay ends without a report.
#[derive(Clone, Copy)]
pub(crate) enum Stop {
    /// The bytes have no report, for this reason.
    Fault(ReplayFault),

    /// Memory ran out, which is nobody's fault.
    NoMemory,
}

impl From<NoMemory> for Stop {
    ghost from_gives = { λ _ e. e ≡ stops.NoMemory };

    fn from(_refused: NoMemory) -> Stop {
        Stop::NoMemory
    }
}

impl From<WorldFault> for Stop {
    ghost from_gives = { λ f e. IsOfRun f e };

    fn from(fault: WorldFault) -> Stop {
        match fault {
            WorldFault::NoSuchFrame { event, frame, sent } => {
                Stop::Fault(ReplayFault::NoSuchFrame { event, frame, sent })
            }
            WorldFault::TooMuchSent { event, bytes } => {
                Stop::Fault(ReplayFault::TooMuchSent { event, bytes })
            }
            WorldFault::NoMemory => Stop::NoMemory,
        }
    }
}

// A fault of this kind at this place.
fn schedule_stop(kind: FaultKind, place: usize) -> Stop
    ensures { result ≡ stops.Fault (faults.Schedule (record { kind = kind; place = place })) }
{
    Stop::Fault(ReplayFault::Schedule(Fault { kind, place }))
}

impl From<ScheduleFault> for Stop {
    ghost from_gives = { λ f e. IsOfBytes f e };

    fn from(fault: ScheduleFault) -> Stop {
        match fault {
            ScheduleFault::Short { place } => schedule_stop(FaultKind::Short, place),
            ScheduleFault::Magic { place } => schedule_stop(FaultKind::Magic, place),
            ScheduleFault::Scheme { place } => schedule_stop(FaultKind::Scheme, place),
            ScheduleFault::Roster { place } => schedule_stop(FaultKind::Roster, place),
            ScheduleFault::Key { place } => schedule_stop(FaultKind::Key, place),
            ScheduleFault::Tag { place } => schedule_stop(FaultKind::Tag, place),
            ScheduleFault::Field { place } => schedule_stop(FaultKind::Field, place),
            ScheduleFault::TooLong { place } => schedule_stop(FaultKind::TooLong, place),
            ScheduleFault::TooMany { place } => schedule_stop(FaultKind::TooMany, place),
            ScheduleFault::NoMemory => Stop::NoMemory,
        }
    }
}
