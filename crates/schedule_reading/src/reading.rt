//! Schedules read whole. docs/FORMATS.md has the format.
ghost use Rattle.std.specs.Prelude.{◌≡◌, length, map, IfOk, Ok};
ghost use Rattle.byte_defs.specs.Reads.{Makes};
ghost use Rattle.replay_defs.specs.Schedules as schedules;
ghost use Rattle.replay_defs.specs.Schedules.{IsSchedule, schedule_bytes, most_steps};
ghost use Rattle.replay_defs.specs.Reading as plain;
ghost use Rattle.schedule_fields.specs.Faults.{fault_of, found_of};
ghost use Rattle.schedule_events.specs.Seen.{roles};
ghost use Rattle.schedule_file.specs.Views as views;

use schedule_events::{Roles, STEPS, read_event};
use schedule_fields::{
    ReadError, Reader, SCHEDULE_BYTES, ScheduleFault, placed, placed_past_limit, too_long,
};
use schedule_file::{Schedule, ScheduleEvent};
use schedule_header::{all_correct, all_corrupt, header_of, read_head};
use std::alloc::Global;

fn read_events(
    alloc: Global,
    of: &Roles,
    reader: &mut Reader<'_>,
) -> Result<Vec<ScheduleEvent>, ReadError>
    ensures { Makes found_of (λ es. map views.event es.items) result
        (plain.events_at (roles of.now) (length reader.old.rest.now) most_steps reader.old.rest.now) }
{
    let mut events = Vec::new(alloc);
    let mut left = STEPS;
    'events: while let [_, ..] = reader.rest {
        let event = read_event(alloc, of, left, reader)?;
        left = left.saturating_sub(event.steps());
        events.push(event)?;
    }
    Ok(events)
}

// The schedule that all of the bytes spell, however many they are.
#[tactic(auto, unfolding(replay_defs::specs::Reading::whole_of))]
fn read_whole(alloc: Global, bytes: &[u8]) -> Result<Schedule, ReadError>
    ensures { Makes found_of views.schedule result (plain.whole_of bytes.now) }
{
    let (head, rest) = read_head(bytes)?;
    let header = header_of(alloc, head)?;
    let of = Roles {
        correct: all_correct(&header.processes),
        corrupt: all_corrupt(&header.processes),
    };
    let mut reader = Reader { rest };
    let events = read_events(alloc, &of, &mut reader)?;
    Ok(Schedule { header, events })
}

// The schedule of bytes that are the whole input.
fn read_input(alloc: Global, bytes: &[u8]) -> Result<Schedule, ScheduleFault>
    ensures { Makes fault_of views.schedule result (plain.whole_input (length bytes.now) (plain.whole_of bytes.now)) }
{
    match read_whole(alloc, bytes) {
        Ok(schedule) => Ok(schedule),
        Err(ReadError::Found(found)) => Err(ScheduleFault::from(placed(bytes.len(), found))),
        Err(ReadError::NoMemory) => Err(ScheduleFault::NoMemory),
    }
}

// The schedule of bytes up to the limit, where more follow.
fn read_cut(alloc: Global, within: &[u8]) -> Result<Schedule, ScheduleFault>
    ensures { Makes fault_of views.schedule result (plain.cut_input (plain.whole_of within.now)) }
{
    match read_whole(alloc, within) {
        Ok(_) => Err(ScheduleFault::from(too_long())),
        Err(ReadError::Found(found)) => Err(ScheduleFault::from(placed_past_limit(found))),
        Err(ReadError::NoMemory) => Err(ScheduleFault::NoMemory),
    }
}

#[tactic(auto, unfolding(replay_defs::specs::Reading::schedule_of, replay_defs::specs::Schedules::most_bytes))]
fn read(alloc: Global, bytes: &[u8]) -> Result<Schedule, ScheduleFault>
    ensures { Makes fault_of views.schedule result (plain.schedule_of bytes.now) }
{
    if bytes.len() <= SCHEDULE_BYTES {
        return read_input(alloc, bytes);
    }
    let (within, _) = bytes.split_at(SCHEDULE_BYTES);
    read_cut(alloc, within)
}

/// The schedule that the bytes spell, all of them. docs/FORMATS.md has the format.
///
/// # Errors
/// The first fault of the bytes from left to right, with its place; [`ScheduleFault::NoMemory`] where memory is refused.
pub fn read_schedule(alloc: Global, bytes: &[u8]) -> Result<Schedule, ScheduleFault>
    // What is read is a schedule, and the bytes are its spelling.
    ensures found { IfOk result (λ s. IsSchedule (views.schedule s)) }
    ensures spelled { IfOk result (λ s. bytes.now ≡ schedule_bytes (views.schedule s)) }

    // What is a schedule, and so spelled, is read, unless memory runs out.
    ensures only { (s : schedules.Schedule) → IsSchedule s → bytes.now ≡ schedule_bytes s → Makes fault_of views.schedule result (Ok s) }

    // A fault is the first from the left, and is at its place.
    ensures exact { Makes fault_of views.schedule result (plain.schedule_of bytes.now) }
{
    read(alloc, bytes)
}
