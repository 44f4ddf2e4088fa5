ghost use Rattle.std.specs.Prelude.{ℕ, List, [], ◌∷◌, map, codes, IfOk, IsErrOf};
ghost use Rattle.interop_node.specs.Questions.{Answers};

use crate::datagrams::answer_datagram;
use crate::journals::answer_journal;
use interop_words::{LineFault, read_array, read_bytes};
use std::alloc::Global;

// The answer to `journal WORD`.
fn answer_on_journal(alloc: Global, word: &[u8]) -> Result<Vec<u8>, LineFault>
    ensures answers { IfOk result (λ reported. Answers (codes "journal" ∷ word.now ∷ []) reported.items) }
    ensures no_question { IsErrOf result LineFault.NoQuestion
        → (reported : List ℕ) → ¬ Answers (codes "journal" ∷ word.now ∷ []) reported }
{
    let bytes = read_bytes(alloc, word)?;
    Ok(answer_journal(alloc, &bytes)?)
}

// The answer to `datagram KEY WORD`.
fn answer_on_datagram(alloc: Global, key: &[u8], word: &[u8]) -> Result<Vec<u8>, LineFault>
    ensures answers { IfOk result (λ reported. Answers (codes "datagram" ∷ key.now ∷ word.now ∷ []) reported.items) }
    ensures no_question { IsErrOf result LineFault.NoQuestion
        → (reported : List ℕ) → ¬ Answers (codes "datagram" ∷ key.now ∷ word.now ∷ []) reported }
{
    let key = read_array(key)?;
    let bytes = read_bytes(alloc, word)?;
    Ok(answer_datagram(alloc, &key, &bytes)?)
}

// The answer to a question that begins with `journal`, by the words after it.
fn journal(alloc: Global, words: &[&[u8]]) -> Result<Vec<u8>, LineFault>
    ensures answers { IfOk result (λ reported. Answers (codes "journal" ∷ map (λ word. word.now) words.now) reported.items) }
    ensures no_question { IsErrOf result LineFault.NoQuestion
        → (reported : List ℕ) → ¬ Answers (codes "journal" ∷ map (λ word. word.now) words.now) reported }
{
    if words.len() == 1 {
        answer_on_journal(alloc, words[0])
    } else {
        Err(LineFault::NoQuestion)
    }
}

// The answer to a question that begins with `datagram`, by the words after it.
fn datagram(alloc: Global, words: &[&[u8]]) -> Result<Vec<u8>, LineFault>
    ensures answers { IfOk result (λ reported. Answers (codes "datagram" ∷ map (λ word. word.now) words.now) reported.items) }
    ensures no_question { IsErrOf result LineFault.NoQuestion
        → (reported : List ℕ) → ¬ Answers (codes "datagram" ∷ map (λ word. word.now) words.now) reported }
{
    if words.len() == 2 {
        answer_on_datagram(alloc, words[0], words[1])
    } else {
        Err(LineFault::NoQuestion)
    }
}

/// The answer to a question on a journal or a datagram, by the words of a line.
pub fn answer_nodes(alloc: Global, words: &[&[u8]]) -> Result<Vec<u8>, LineFault>
    ensures answers { IfOk result (λ reported. Answers (map (λ word. word.now) words.now) reported.items) }
    ensures no_question { IsErrOf result LineFault.NoQuestion
        → (reported : List ℕ) → ¬ Answers (map (λ word. word.now) words.now) reported }
{
    let Some((verb, words)) = words.split_first() else {
        return Err(LineFault::NoQuestion);
    };
    if *verb == b"journal".as_slice() {
        journal(alloc, words)
    } else if *verb == b"datagram".as_slice() {
        datagram(alloc, words)
    } else {
        Err(LineFault::NoQuestion)
    }
}
