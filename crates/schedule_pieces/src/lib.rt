//! Schedules read in pieces, as an input comes, in room of a fixed size (docs/FORMATS.md).
#![tactic(auto)]

mod ending;
mod front;
mod reader;
mod window;

pub use reader::ScheduleReader;
pub use schedule_fields::ScheduleFault;
pub use window::WINDOW_BYTES;
