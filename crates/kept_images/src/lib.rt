//! Which images are kept, as far as an image says it without its heard lists: a process is restored from no other (docs/FORMATS.md,
//! «Images»).
#![tactic(auto)]

mod accepted;
mod conflicts;
mod decided;
mod left;
mod perceived;
mod placed;
mod said;
mod signed;
mod valid;

pub use accepted::are_accepted;
pub use conflicts::are_conflicts;
pub use decided::{decides, is_halted_so};
pub use left::view_behind;
pub use perceived::are_perceived;
pub use placed::{are_by_place, count_places};
pub use signed::are_own;
pub use valid::is_valid;
