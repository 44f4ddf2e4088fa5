//! The fields of a schedule, read one after another, and what is wrong with bytes that are none (docs/FORMATS.md).
#![tactic(auto)]

mod fault;
mod fields;
mod placing;

pub use fault::{ReadError, ScheduleFault};
pub use fields::Reader;
pub use placing::{SCHEDULE_BYTES, placed, placed_past_limit, too_long};
