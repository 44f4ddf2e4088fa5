//! What an event hands to a process: whether it is refused, and what is taken in before anything is signed
//! (docs/PROTOCOL.md, «Hearing», «Events and refusals»).
#![tactic(auto)]

mod inputs;
mod refusals;
mod taking_in;

pub use claim_hearing::{Judge, is_signed};
pub use inputs::Input;
pub use member_state::{Delivered, Frames, ProcessState};
pub use refusals::admit;
pub use taking_in::take_in;
