//! The line of a view, as it is read: its number, and its members in rank order (docs/FORMATS.md, «Chains from any view»).
#![tactic(auto)]

mod reading;

pub use reading::view_by;
