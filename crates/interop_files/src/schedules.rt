//! What bytes say as a schedule.
ghost use Rattle.std.specs.Prelude.{◌≡◌, ◌++◌, codes, IfOk, Some, option_map};
ghost use Rattle.hex.specs.Hex.{encode_lower};
ghost use Rattle.replay_defs.specs.Schedules.{IsSchedule, schedule_bytes};
ghost use Rattle.replay_defs.specs.Reading.{schedule_of};
ghost use Rattle.schedule_file.specs.Views as views;
ghost use Rattle.schedule_fields.specs.Faults.{fault_of};
ghost use Rattle.interop_files.specs.Files.{schedule_fault_words, schedule_said};

use crate::numbered::numbered;
use rp_base::NoMemory;
use schedule_file::{Schedule, write_schedule};
use schedule_reading::{ScheduleFault, read_schedule};
use std::alloc::Global;
use text_codec::push_hex;

// What is said of a fault, unless it is want of memory.
fn fault_words(alloc: Global, fault: ScheduleFault) -> Result<Vec<u8>, NoMemory>
    ensures { IfOk result (λ reported. option_map schedule_fault_words (fault_of fault) ≡ Some reported.items) }
{
    match fault {
        ScheduleFault::Short { place } => numbered(alloc, b"short ", place),
        ScheduleFault::Magic { place } => numbered(alloc, b"magic ", place),
        ScheduleFault::Scheme { place } => numbered(alloc, b"scheme ", place),
        ScheduleFault::Roster { place } => numbered(alloc, b"roster ", place),
        ScheduleFault::Key { place } => numbered(alloc, b"key ", place),
        ScheduleFault::Tag { place } => numbered(alloc, b"tag ", place),
        ScheduleFault::Field { place } => numbered(alloc, b"field ", place),
        ScheduleFault::TooLong { place } => numbered(alloc, b"toolong ", place),
        ScheduleFault::TooMany { place } => numbered(alloc, b"toomany ", place),
        ScheduleFault::NoMemory => Err(NoMemory),
    }
}

// The schedule, spelled again.
fn schedule_words(alloc: Global, schedule: &Schedule) -> Result<Vec<u8>, NoMemory>
    requires { IsSchedule (views.schedule schedule.now) }
    ensures { IfOk result (λ reported. reported.items ≡ codes "schedule " ++ encode_lower (schedule_bytes (views.schedule schedule.now))) }
{
    let mut bytes = Vec::new(alloc);
    write_schedule(schedule, &mut bytes)?;
    let mut reported = b"schedule ".to_vec(alloc)?;
    push_hex(&mut reported, &bytes)?;
    Ok(reported)
}

/// What the bytes say as a schedule: `schedule` and the schedule spelled again from what was read, or its fault and the fault's place.
pub(crate) fn answer_schedule(alloc: Global, bytes: &[u8]) -> Result<Vec<u8>, NoMemory>
    ensures { IfOk result (λ reported. reported.items ≡ schedule_said (schedule_of bytes.now)) }
{
    match read_schedule(alloc, bytes) {
        Ok(schedule) => schedule_words(alloc, &schedule),
        Err(fault) => fault_words(alloc, fault),
    }
}
