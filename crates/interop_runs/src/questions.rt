ghost use Rattle.std.specs.Prelude.{◌≡◌, ℕ, List, [], ◌∷◌, map, codes, IfOk, IsErrOf};
ghost use Rattle.interop_runs.specs.Questions as plain;
ghost use Rattle.interop_runs.specs.Questions.{Asks};
ghost use Rattle.interop_runs.specs.Runs.{Answers};

use crate::calls::Nth;
use crate::fields::{read_calls, read_cut, read_datagrams, read_words};
use crate::running::{Program, run};
use interop_words::{LineFault, read_bytes};
use rp_devices::Datagram;
use std::alloc::Global;

/// What is asked: the program's words, its input, what its disk has, which calls fail, which datagrams wait, and where it is cut off.
#[derive(Drop)]
pub(crate) struct Question {
    pub(crate) words: Vec<String>,
    pub(crate) input: Vec<u8>,
    pub(crate) journal: Vec<u8>,
    pub(crate) failing: Vec<Nth>,
    pub(crate) coming: Vec<Datagram>,
    pub(crate) cut: Option<Nth>,
}

// The question of these words after `run`.
fn question_of(
    alloc: Global,
    words: &[u8],
    input: &[u8],
    journal: &[u8],
    fails: &[u8],
    coming: &[u8],
    stop: &[u8],
) -> Result<Question, LineFault>
    ensures read { IfOk result (λ q. Asks (codes "run" ∷ words.now ∷ input.now ∷ journal.now ∷ fails.now ∷ coming.now ∷ stop.now ∷ [])
        (plain.question q)) }
    ensures none { IsErrOf result LineFault.NoQuestion → (q : plain.Question)
        → ¬ Asks (codes "run" ∷ words.now ∷ input.now ∷ journal.now ∷ fails.now ∷ coming.now ∷ stop.now ∷ []) q }
{
    let words = read_words(alloc, words)?;
    let input = read_bytes(alloc, input)?;
    let journal = read_bytes(alloc, journal)?;
    let failing = read_calls(alloc, fails)?;
    let coming = read_datagrams(alloc, coming)?;
    let cut = read_cut(alloc, stop)?;
    Ok(Question {
        words,
        input,
        journal,
        failing,
        coming,
        cut,
    })
}

/// The answer to a question on a run of the program, by the words of a line.
pub fn answer_runs<P: Program>(
    alloc: Global,
    program: &P,
    words: &[&[u8]],
) -> Result<Vec<u8>, LineFault>
    ensures answers { IfOk result (λ reported. Answers (P.comes_to program.now) (map (λ word. word.now) words.now) reported.items) }
    ensures no_question { IsErrOf result LineFault.NoQuestion
        → (reported : List ℕ) → ¬ Answers (P.comes_to program.now) (map (λ word. word.now) words.now) reported }
{
    match words {
        [verb, said, input, journal, fails, coming, stop] if *verb == b"run".as_slice() => {
            let asked = question_of(alloc, said, input, journal, fails, coming, stop)?;
            Ok(run(alloc, program, &asked)?)
        }
        _ => Err(LineFault::NoQuestion),
    }
}
