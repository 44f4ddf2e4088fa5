ghost use Rattle.std.specs.Prelude.{ℕ, List, map, IfOk, IsErrOf};
ghost use Rattle.interop_signatures.specs.Signatures.{Answers};

use crate::levels::sign_by_levels;
use crate::trees::sign_by_tree;
use crate::verifying::verify;
use interop_words::LineFault;
use std::alloc::Global;

/// The answer to a question on signatures, by the words of a line.
pub fn answer_signatures(alloc: Global, words: &[&[u8]]) -> Result<Vec<u8>, LineFault>
    ensures answers { IfOk result (λ reported. Answers (map (λ word. word.now) words.now) reported.items) }
    ensures no_question { IsErrOf result LineFault.NoQuestion
        → (reported : List ℕ) → ¬ Answers (map (λ word. word.now) words.now) reported }
{
    let Some((verb, words)) = words.split_first() else {
        return Err(LineFault::NoQuestion);
    };
    if *verb == b"verify".as_slice() {
        verify(alloc, words)
    } else if *verb == b"lms".as_slice() {
        sign_by_tree(alloc, words)
    } else if *verb == b"hss".as_slice() {
        sign_by_levels(alloc, words)
    } else {
        Err(LineFault::NoQuestion)
    }
}
