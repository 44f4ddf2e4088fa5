ghost use Rattle.std.specs.Prelude.{◌≡◌, ◌<◌, ◌+◌, ◌-◌, ◌^◌, List, Some, Err, Result, map, IfOk, IfErr, OnOk};
ghost use Rattle.replay_defs.specs.Schedules as schedules;
ghost use Rattle.replay_defs.specs.Schedules.{IsEvent, IsSchedule};
ghost use Rattle.replay_defs.specs.Worlds as plain;
ghost use Rattle.schedule_file.specs.Views as views;
ghost use Rattle.trace_defs.specs.Happenings as trace;
ghost use Rattle.reported_defs.specs.Reported.{tells, reported_of, stop_of};
ghost use Rattle.happenings.specs.Reported as reported_views;
ghost use Rattle.happenings.specs.Reported.{happening, stopped};
ghost use Rattle.replay_world.specs.Worlds.{Happens, IsFault, Shows, Stops, count_of};
ghost use Rattle.story_telling.specs.Tellings.{events_of, stop_in};

use happenings::{Happening, Reported, Stopped};
use replay_world::{World, WorldFault};
use rp_base::NoMemory;
use schedule_file::{Schedule, ScheduleEvent};
use std::alloc::Global;

/// What a run reports.
#[derive(Drop)]
pub struct Telling {
    /// What happens in each event, up to one that stops the run.
    pub events: Vec<Vec<Happening>>,

    /// Why the run stops, where an event stops it.
    pub stop: Option<Stopped>,
}

// What was reported to one who asks.
fn kept(alloc: Global, reported: Reported) -> Vec<Happening>
    ensures { (all : List trace.Happening) → reported_views.reported_of reported ≡ Some all → map happening result.items ≡ all }
{
    match reported {
        Reported::Kept(all) => all,
        Reported::Unasked => Vec::new(alloc),
    }
}

// Why the run stops.
fn why(fault: WorldFault) -> Result<Stopped, NoMemory>
    ensures { IfOk result (λ stop. (r : Result plain.World plain.WorldFault) → IsFault fault r → r ≡ Err (stopped stop)) }
{
    match fault {
        WorldFault::NoSuchFrame { event, frame, sent } => {
            Ok(Stopped::NoSuchFrame { event, frame, sent })
        }
        WorldFault::TooMuchSent { event, bytes } => Ok(Stopped::TooMuchSent { event, bytes }),
        WorldFault::NoMemory => Err(NoMemory),
    }
}

// One event more, and what happens in it.
fn next(
    alloc: Global,
    world: &mut World,
    event: &ScheduleEvent,
) -> Result<Vec<Happening>, WorldFault>
    requires { count_of world.old < 2 ^ 64 - 1 }
    ensures tells { IfOk result (λ reported. (h : schedules.Header) (v : plain.World) → Shows h world.old v
        → IsEvent h.processes (views.event event.now) → map happening reported.items ≡ tells h v (views.event event.now)) }
    ensures happens { OnOk result (Happens world.old world.new (views.event event.now)) }
    ensures stops { IfErr result (Stops world.old (views.event event.now)) }
    ensures count { OnOk result (count_of world.new ≡ count_of world.old + 1) }
{
    let mut reported = Reported::Kept(Vec::new(alloc));
    match world.event(alloc, event, &mut reported) {
        Ok(()) => Ok(kept(alloc, reported)),
        Err(fault) => Err(fault),
    }
}

/// What happens in the run of a schedule.
pub fn tell(alloc: Global, schedule: &Schedule) -> Result<Telling, NoMemory>
    requires { IsSchedule (views.schedule schedule.now) }
    ensures events { IfOk result (λ t. events_of t ≡ reported_of (views.schedule schedule.now)) }
    ensures stop { IfOk result (λ t. stop_in t ≡ stop_of (views.schedule schedule.now)) }
{
    let mut world = World::new(alloc, &schedule.header)?;
    let mut events = Vec::new(alloc);
    for event in &schedule.events {
        match next(alloc, &mut world, event) {
            Ok(reported) => events.push(reported)?,
            Err(fault) => {
                let stop = Some(why(fault)?);
                return Ok(Telling { events, stop });
            }
        }
    }
    Ok(Telling { events, stop: None })
}
