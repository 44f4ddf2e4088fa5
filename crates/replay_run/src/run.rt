//! The run of a schedule whose bytes still come.
ghost use Rattle.std.specs.Prelude.{[], IfOk, IfSome};
ghost use Rattle.replay_defs.specs.Schedules.{IsHeader};
ghost use Rattle.schedule_file.specs.Views as views;
ghost use Rattle.replay_run.specs.Running.{HasRun, CanCount, Begins, IsStoppedBy, RunsOn};

use crate::fault::{ReplayFault, Stop};
use replay_report::{Reported, World, WorldFault};
use rp_base::NoMemory;
use schedule_file::ScheduleEvent;
use schedule_pieces::ScheduleReader;
use std::alloc::Global;

/// How far the run of a schedule is.
#[derive(Drop)]
pub enum Run {
    /// The run has not begun: the header is not whole yet.
    Waits,

    /// All events so far were run.
    Runs(World),

    /// An event stopped the run, for this reason. The events after it are not run.
    Stops(ReplayFault),
}

/// A run that has not begun begins where the header is whole. Any other is as before.
pub(crate) fn begin(alloc: Global, reader: &ScheduleReader, run: Run) -> Result<Run, NoMemory>
    requires { IfSome reader.now.header IsHeader }
    ensures { IfOk result (Begins reader.now.header run) }
{
    match run {
        Run::Waits => first(alloc, reader),
        Run::Runs(world) => Ok(Run::Runs(world)),
        Run::Stops(fault) => Ok(Run::Stops(fault)),
    }
}

// The run before the first event, where the header is whole.
fn first(alloc: Global, reader: &ScheduleReader) -> Result<Run, NoMemory>
    requires { IfSome reader.now.header IsHeader }
    ensures { IfOk result (HasRun reader.now.header []) }
{
    match reader.header() {
        Some(header) => Ok(Run::Runs(World::new(alloc, header)?)),
        None => Ok(Run::Waits),
    }
}

/// Runs one event more. A run that has stopped stays as it is.
pub(crate) fn run_event(alloc: Global, run: Run, event: &ScheduleEvent) -> Result<Run, NoMemory>
    requires { CanCount run }
    ensures { IfOk result (RunsOn (views.event event.now) run) }
{
    match run {
        Run::Runs(mut world) => match world.event(alloc, event, &mut Reported::Unasked) {
            Ok(()) => Ok(Run::Runs(world)),
            Err(fault) => stopped(fault),
        },
        Run::Stops(fault) => Ok(Run::Stops(fault)),
        Run::Waits => Ok(Run::Waits),
    }
}

// The run that a fault stops.
fn stopped(fault: WorldFault) -> Result<Run, NoMemory>
    ensures { IfOk result (IsStoppedBy fault) }
{
    match Stop::from(fault) {
        Stop::Fault(fault) => Ok(Run::Stops(fault)),
        Stop::NoMemory => Err(NoMemory),
    }
}
