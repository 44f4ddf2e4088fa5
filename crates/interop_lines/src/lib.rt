//! Questions of one line each, with which another program's answers are compared with this one's.
#![tactic(auto)]

ghost use Rattle.interop_lines.specs.Lines.{OneAnswer};

mod answers;
mod line_reader;
mod serving;
mod stops;

pub use answers::answer;
pub use interop_runs::{FailingDisk, FailingLink, Outside, Program};
pub use interop_words::LineFault;
pub use serving::interop;

/// No line has two answers, but for one that asks for a run of the program.
pub fn one_answer()
    ensures { OneAnswer }
{}
