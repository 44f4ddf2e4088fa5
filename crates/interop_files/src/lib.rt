//! Questions on the files of a group: what bytes say as the text of a kit, and as a schedule.
#![tactic(auto)]

mod kits;
mod numbered;
mod questions;
mod schedules;

pub use questions::answer_files;
