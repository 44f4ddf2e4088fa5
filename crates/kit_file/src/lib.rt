//! A kit: what the processes of a group start with, and how it is written as text. docs/FORMATS.md says how it is spelled.
#![tactic(auto)]

mod kit;
mod parts;
mod public_keys;
mod roster;
mod writing;

pub use kit::Kit;
pub use parts::{Host, Parts};
pub use public_keys::public_key_of;
pub use roster::roster_of;
pub use writing::write_kit;
