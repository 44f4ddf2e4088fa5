//! Lines of a trace, word by word: what is at the front of a line, and what it ends with. Each function writes after the text so
//! far. On `NoMemory` the end of the text is left open, and the caller discards it.
#![tactic(auto)]

mod endings;
mod lines;
mod payloads;
mod words;

pub use endings::{push_members, push_messages, push_processes, push_update};
pub use lines::{
    begin_said, event_line, event_with_payload, event_with_processes, push_said, said_with_batch,
    said_with_members, said_with_payload, said_with_processes, said_with_update,
};
pub use payloads::{push_payload, push_quoted};
pub use report_lines::refusal_word;
pub use words::{
    Word, end_line, process_word, push_line, push_more, push_next, push_pieces, push_word,
};
