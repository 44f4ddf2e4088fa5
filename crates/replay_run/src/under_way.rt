ghost use Rattle.replay_run.specs.Midway.{IsReal};

use crate::run::Run;
use schedule_pieces::ScheduleReader;
use std::alloc::Global;

/// A replay that is fed a schedule in pieces, and runs each event as soon as it is whole. `HasFed` of the specs says which bytes it
/// was fed so far. It holds the frames and what the processes keep, and room of a fixed size for bytes that wait.
#[derive(Drop)]
pub struct Replay {
    pub(crate) alloc: Global,
    pub(crate) reader: ScheduleReader,
    pub(crate) run: Run,
    ghost real: { IsReal reader run },
}
