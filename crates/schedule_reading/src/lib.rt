//! Schedules read whole from bytes (docs/FORMATS.md).
#![tactic(auto)]

mod reading;

pub use reading::read_schedule;
pub use schedule_fields::{SCHEDULE_BYTES, ScheduleFault};
