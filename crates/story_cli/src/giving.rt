//! What each command makes of its input.
ghost use Rattle.std.specs.Prelude.{◌≡◌, ◌⊎◌, Ok, Err, IfOk, IfErr, IsErrOf, take, true, false};
ghost use Rattle.replay_defs.specs.declared.Fault.{Fault};
ghost use Rattle.replay_defs.specs.Reading.{schedule_of};
ghost use Rattle.replay_defs.specs.Schedules.{IsSchedule, schedule_bytes};
ghost use Rattle.schedule_file.specs.Views as views;
ghost use Rattle.schedule_fields.specs.Faults as read;
ghost use Rattle.story_defs.specs.declared.StoryFault.{StoryFault};
ghost use Rattle.story_defs.specs.Stories.{story_of};
ghost use Rattle.story_cli.specs.Stopping.{stop_of};
ghost use Rattle.story_cli.specs.Top.{Assembles, Draws, IsStoryOf, Traces, begins_as_schedule, bytes_in, picture_text, trace_text};

use crate::stops::Stop;
use replay_defs::{Fault, FaultKind};
use rp_base::NoMemory;
use schedule_file::Schedule;
use schedule_reading::{ScheduleFault, read_schedule};
use std::alloc::Global;
use story_picture::{push_picture, push_trace};
use story_reading::{AssembleFault, assemble};
use story_telling::tell;
use story_writing::push_story;

/// The bytes of the schedule that the text spells.
pub fn schedule_of_text(alloc: Global, text: &[u8]) -> Result<Vec<u8>, Stop>
    ensures made { IfOk result (λ bytes. Assembles text.now bytes.items) }
    ensures refused { (fault : StoryFault) → IsErrOf result (Stop.Story fault) → story_of text.now ≡ Err fault }
    ensures only { IfErr result (λ stop. (stop ≡ Stop.NoMemory) ⊎ ((fault : StoryFault) × (stop ≡ Stop.Story fault))) }
{
    match assemble(alloc, text) {
        Ok(bytes) => Ok(bytes),
        Err(AssembleFault::Story(fault)) => Err(Stop::Story(fault)),
        Err(AssembleFault::NoMemory) => Err(Stop::NoMemory),
    }
}

// Why no schedule was read.
fn stop_of(fault: ScheduleFault) -> Stop
    ensures { result ≡ stop_of (read.fault_of fault) }
{
    let (kind, place) = match fault {
        ScheduleFault::Short { place } => (FaultKind::Short, place),
        ScheduleFault::Magic { place } => (FaultKind::Magic, place),
        ScheduleFault::Scheme { place } => (FaultKind::Scheme, place),
        ScheduleFault::Roster { place } => (FaultKind::Roster, place),
        ScheduleFault::Key { place } => (FaultKind::Key, place),
        ScheduleFault::Tag { place } => (FaultKind::Tag, place),
        ScheduleFault::Field { place } => (FaultKind::Field, place),
        ScheduleFault::TooLong { place } => (FaultKind::TooLong, place),
        ScheduleFault::TooMany { place } => (FaultKind::TooMany, place),
        ScheduleFault::NoMemory => return Stop::NoMemory,
    };
    Stop::Schedule(Fault { kind, place })
}

// The schedule that the bytes spell.
fn schedule_in(alloc: Global, bytes: &[u8]) -> Result<Schedule, Stop>
    ensures fits { IfOk result (λ schedule. IsSchedule (views.schedule schedule)) }
    ensures spelled { IfOk result (λ schedule. bytes.now ≡ schedule_bytes (views.schedule schedule)) }
    ensures refused { (fault : Fault) → IsErrOf result (Stop.Schedule fault) → schedule_of bytes.now ≡ Err fault }
    ensures only { IfErr result (λ stop. (stop ≡ Stop.NoMemory) ⊎ ((fault : Fault) × (stop ≡ Stop.Schedule fault))) }
{
    match read_schedule(alloc, bytes) {
        Ok(schedule) => Ok(schedule),
        Err(fault) => Err(stop_of(fault)),
    }
}

// The first three bytes, or all where there are fewer.
fn front(input: &[u8]) -> &[u8]
    ensures { result.now ≡ take 3 input.now }
{
    let (front, _) = input.split_at(3usize.min(input.len()));
    front
}

// Whether an input begins as a schedule does.
fn is_like_schedule(input: &[u8]) -> bool
    ensures { result ≡ begins_as_schedule input.now }
{
    b"RPS".as_slice() == front(input)
}

// The schedule that a story spells. Only for want of memory is it not read.
fn schedule_of_story(alloc: Global, text: &[u8]) -> Result<Schedule, Stop>
    ensures fits { IfOk result (λ schedule. IsSchedule (views.schedule schedule)) }
    ensures spelled { IfOk result (λ schedule. story_of text.now ≡ Ok (schedule_bytes (views.schedule schedule))) }
    ensures refused { (fault : StoryFault) → IsErrOf result (Stop.Story fault) → story_of text.now ≡ Err fault }
    ensures only { IfErr result (λ stop. (stop ≡ Stop.NoMemory) ⊎ ((fault : StoryFault) × (stop ≡ Stop.Story fault))) }
{
    let bytes = schedule_of_text(alloc, text)?;
    match read_schedule(alloc, &bytes) {
        Ok(schedule) => Ok(schedule),
        Err(fault) => Err(stop_of(fault)),
    }
}

// The schedule that an input is, or that it spells as a story.
fn schedule_given(alloc: Global, input: &[u8]) -> Result<Schedule, Stop>
    ensures fits { IfOk result (λ schedule. IsSchedule (views.schedule schedule)) }
    ensures given { IfOk result (λ schedule. bytes_in input.now ≡ Ok (schedule_bytes (views.schedule schedule))) }
    ensures story { (fault : StoryFault) → IsErrOf result (Stop.Story fault)
        → (begins_as_schedule input.now ≡ false) × (story_of input.now ≡ Err fault) }
    ensures schedule { (fault : Fault) → IsErrOf result (Stop.Schedule fault)
        → (begins_as_schedule input.now ≡ true) × (schedule_of input.now ≡ Err fault) }
    ensures only { IfErr result (λ stop. (stop ≡ Stop.NoMemory) ⊎ ((fault : StoryFault) × (stop ≡ Stop.Story fault))
        ⊎ ((fault : Fault) × (stop ≡ Stop.Schedule fault))) }
{
    if is_like_schedule(input) {
        let schedule = schedule_in(alloc, input)?;
        return Ok(schedule);
    }
    let schedule = schedule_of_story(alloc, input)?;
    Ok(schedule)
}

/// The text of the schedule that the bytes spell.
pub fn text_of_schedule(alloc: Global, bytes: &[u8]) -> Result<Vec<u8>, Stop>
    ensures made { IfOk result (λ text. IsStoryOf bytes.now text.items) }
    ensures refused { (fault : Fault) → IsErrOf result (Stop.Schedule fault) → schedule_of bytes.now ≡ Err fault }
    ensures only { IfErr result (λ stop. (stop ≡ Stop.NoMemory) ⊎ ((fault : Fault) × (stop ≡ Stop.Schedule fault))) }
{
    let schedule = schedule_in(alloc, bytes)?;
    let mut text = Vec::new(alloc);
    push_story(&schedule, &mut text)?;
    Ok(text)
}

// What happens in the run of a schedule, as text.
fn trace(alloc: Global, schedule: &Schedule) -> Result<Vec<u8>, NoMemory>
    requires { IsSchedule (views.schedule schedule.now) }
    ensures { IfOk result (λ text. text.items ≡ trace_text (views.schedule schedule.now)) }
{
    let reported = tell(alloc, schedule)?;
    let mut text = Vec::new(alloc);
    push_trace(&mut text, schedule, &reported.events, reported.stop)?;
    Ok(text)
}

/// What happens in the run of the schedule that an input is, or that it spells as a story.
pub fn trace_of(alloc: Global, input: &[u8]) -> Result<Vec<u8>, Stop>
    ensures made { IfOk result (λ text. Traces input.now text.items) }
    ensures story { (fault : StoryFault) → IsErrOf result (Stop.Story fault)
        → (begins_as_schedule input.now ≡ false) × (story_of input.now ≡ Err fault) }
    ensures schedule { (fault : Fault) → IsErrOf result (Stop.Schedule fault)
        → (begins_as_schedule input.now ≡ true) × (schedule_of input.now ≡ Err fault) }
    ensures only { IfErr result (λ stop. (stop ≡ Stop.NoMemory) ⊎ ((fault : StoryFault) × (stop ≡ Stop.Story fault))
        ⊎ ((fault : Fault) × (stop ≡ Stop.Schedule fault))) }
{
    let schedule = schedule_given(alloc, input)?;
    let text = trace(alloc, &schedule)?;
    Ok(text)
}

// The picture of the run of a schedule, as text.
fn picture(alloc: Global, schedule: &Schedule) -> Result<Vec<u8>, NoMemory>
    requires { IsSchedule (views.schedule schedule.now) }
    ensures { IfOk result (λ text. text.items ≡ picture_text (views.schedule schedule.now)) }
{
    let reported = tell(alloc, schedule)?;
    let mut text = Vec::new(alloc);
    push_picture(
        alloc,
        &mut text,
        &schedule.header,
        reported.events,
        reported.stop,
    )?;
    Ok(text)
}

/// The picture of the run of the schedule that an input is, or that it spells as a story.
pub fn picture_of(alloc: Global, input: &[u8]) -> Result<Vec<u8>, Stop>
    ensures made { IfOk result (λ text. Draws input.now text.items) }
    ensures story { (fault : StoryFault) → IsErrOf result (Stop.Story fault)
        → (begins_as_schedule input.now ≡ false) × (story_of input.now ≡ Err fault) }
    ensures schedule { (fault : Fault) → IsErrOf result (Stop.Schedule fault)
        → (begins_as_schedule input.now ≡ true) × (schedule_of input.now ≡ Err fault) }
    ensures only { IfErr result (λ stop. (stop ≡ Stop.NoMemory) ⊎ ((fault : StoryFault) × (stop ≡ Stop.Story fault))
        ⊎ ((fault : Fault) × (stop ≡ Stop.Schedule fault))) }
{
    let schedule = schedule_given(alloc, input)?;
    let text = picture(alloc, &schedule)?;
    Ok(text)
}
