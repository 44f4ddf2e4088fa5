//! The words of a served store: the lines of a script that ask a server something, and the lines that it writes (docs/FORMATS.md, «The
//! store»).
#![tactic(auto)]

mod lines;
mod reading;

pub use lines::{
    AROUND, append_count_line, append_hex_line, append_line, push_hex_line, push_line,
};
pub use reading::{Word, key_in, listed_process, read_word, some_bytes};
