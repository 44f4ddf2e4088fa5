//! What an event sends: the Bundle of what was signed, and answers to Wants and Ticks (docs/PROTOCOL.md, «What is sent»).
#![tactic(auto)]

mod answers;
mod base;
mod bundle;
mod sends;

pub use answers::send_answers;
pub use bundle::send_bundle;
pub use member_taking::{Frames, Input, Judge, admit, is_signed, take_in};
