//! The last lines of a report: a question each, answered by yes or no.
ghost use Rattle.std.specs.Prelude.{◌≡◌, ◌++◌, codes, OnOk, if◌then◌else◌};
ghost use Rattle.replay_defs.specs.Reports.{answer_line};

use crate::words::{end_line, push_word};
use rp_base::NoMemory;

/// The two premises of the theorems, and what follows from them.
#[derive(Clone, Copy, PartialEq, Eq)]
pub struct Answers {
    /// What was handed over of correct processes is their own word.
    pub honest: bool,

    /// In each view at most f members are not correct.
    pub bounded: bool,

    /// All correct processes agree.
    pub agree: bool,

    /// Views have causes, and messages are in order.
    pub sound: bool,
}

fn yes_or_no(holds: bool) -> &'static [u8]
    ensures { result.now ≡ (if holds then codes "yes" else codes "no") }
{
    if holds { b"yes" } else { b"no" }
}

fn push_answer(out: &mut Vec<u8>, question: &[u8], holds: bool) -> Result<(), NoMemory>
    ensures { OnOk result (out.new.items ≡ out.old.items ++ answer_line question.now holds) }
{
    out.extend_from_slice(question)?;
    push_word(out, yes_or_no(holds))?;
    end_line(out)
}

/// The four answers.
pub fn push_answers(out: &mut Vec<u8>, answers: Answers) -> Result<(), NoMemory>
    ensures { OnOk result (out.new.items ≡ out.old.items
        ++ (answer_line (codes "honest") answers.honest ++ answer_line (codes "bounded") answers.bounded
        ++ answer_line (codes "agree") answers.agree ++ answer_line (codes "sound") answers.sound)) }
{
    push_answer(out, b"honest", answers.honest)?;
    push_answer(out, b"bounded", answers.bounded)?;
    push_answer(out, b"agree", answers.agree)?;
    push_answer(out, b"sound", answers.sound)?;
    Ok(())
}
