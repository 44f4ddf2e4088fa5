ghost use Rattle.std.specs.Prelude.{ℕ, List, [], ◌∷◌, map, codes, IfOk, IsErrOf};
ghost use Rattle.interop_files.specs.Files.{Answers};

use crate::kits::answer_kit;
use crate::schedules::answer_schedule;
use interop_words::{LineFault, read_bytes};
use std::alloc::Global;

// The answer to `kit WORD`.
fn answer_on_kit(alloc: Global, word: &[u8]) -> Result<Vec<u8>, LineFault>
    ensures answers { IfOk result (λ reported. Answers (codes "kit" ∷ word.now ∷ []) reported.items) }
    ensures no_question { IsErrOf result LineFault.NoQuestion
        → (reported : List ℕ) → ¬ Answers (codes "kit" ∷ word.now ∷ []) reported }
{
    let bytes = read_bytes(alloc, word)?;
    Ok(answer_kit(alloc, &bytes)?)
}

// The answer to `schedule WORD`.
fn answer_on_schedule(alloc: Global, word: &[u8]) -> Result<Vec<u8>, LineFault>
    ensures answers { IfOk result (λ reported. Answers (codes "schedule" ∷ word.now ∷ []) reported.items) }
    ensures no_question { IsErrOf result LineFault.NoQuestion
        → (reported : List ℕ) → ¬ Answers (codes "schedule" ∷ word.now ∷ []) reported }
{
    let bytes = read_bytes(alloc, word)?;
    Ok(answer_schedule(alloc, &bytes)?)
}

/// The answer to a question on a kit or a schedule, by the words of a line.
pub fn answer_files(alloc: Global, words: &[&[u8]]) -> Result<Vec<u8>, LineFault>
    ensures answers { IfOk result (λ reported. Answers (map (λ word. word.now) words.now) reported.items) }
    ensures no_question { IsErrOf result LineFault.NoQuestion
        → (reported : List ℕ) → ¬ Answers (map (λ word. word.now) words.now) reported }
{
    match words {
        [verb, bytes] if *verb == b"kit".as_slice() => answer_on_kit(alloc, bytes),
        [verb, bytes] if *verb == b"schedule".as_slice() => answer_on_schedule(alloc, bytes),
        _ => Err(LineFault::NoQuestion),
    }
}
