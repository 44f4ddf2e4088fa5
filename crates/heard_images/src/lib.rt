//! What an image's heard lists must be, asked of the pool that a member makes of them: it hears them claim by claim (docs/FORMATS.md,
//! «Images»).
#![tactic(auto)]

mod decided;
mod hearing;
mod own;
mod placed;

pub use claim_hearing::Judge;
pub use decided::is_decided;
pub use hearing::hear_list;
pub use own::{are_heard, are_once};
pub use placed::{are_paid, are_placed};
pub use pool_questions::{Own, Pool};
