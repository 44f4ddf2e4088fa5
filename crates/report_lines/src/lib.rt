//! The lines of a schedule's report, long or short (docs/FORMATS.md, «The report»): each function writes one kind of them after the text
//! so far. On `NoMemory` the end of the text is left open, and the caller discards it.
#![tactic(auto)]

mod answers;
mod heads;
mod histories;
mod process_report;
mod processes;
mod refusals;
mod words;

pub use answers::{Answers, push_answers};
pub use heads::{push_head, push_refused_count};
pub use process_report::ProcessReport;
pub use processes::{push_block, push_process};
pub use refusals::{frame_word, push_refused, refusal_word, update_word};
