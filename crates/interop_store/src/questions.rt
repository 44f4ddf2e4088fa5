ghost use Rattle.std.specs.Prelude.{◌≡◌, ◌++◌, ℕ, List, [], ◌∷◌, map, codes, IfOk, IsErrOf, OnOk};
ghost use Rattle.interop_store.specs.Telling.{payloads_in};
ghost use Rattle.interop_store.specs.Questions.{Answers, SpellEach};

use crate::records::{answer_reply, answer_state};
use crate::requests::answer_apply;
use interop_words::{LineFault, read_bytes};
use rp_base::NoMemory;
use std::alloc::Global;

fn keep(payloads: &mut Vec<Vec<u8>>, payload: Vec<u8>) -> Result<(), NoMemory>
    ensures { OnOk result (payloads.new.items ≡ payloads.old.items ++ payload ∷ []) }
{
    payloads.push(payload)?;
    Ok(())
}

// The bytes that each word spells. `NoQuestion` comes exactly where a word spells none.
fn read_payloads(alloc: Global, words: &[&[u8]]) -> Result<Vec<Vec<u8>>, LineFault>
    ensures read { IfOk result (λ found. SpellEach (map (λ word. word.now) words.now) (payloads_in found.items)) }
    ensures none { IsErrOf result LineFault.NoQuestion
        → (found : List (List ℕ)) → ¬ SpellEach (map (λ word. word.now) words.now) found }
{
    let mut payloads = Vec::new(alloc);
    for word in words {
        let payload = read_bytes(alloc, word)?;
        keep(&mut payloads, payload)?;
    }
    Ok(payloads)
}

// The answer to a question that begins with `apply`, by the words after it.
fn apply(alloc: Global, words: &[&[u8]]) -> Result<Vec<u8>, LineFault>
    ensures answers { IfOk result (λ reported. Answers (codes "apply" ∷ map (λ word. word.now) words.now) reported.items) }
    ensures no_question { IsErrOf result LineFault.NoQuestion
        → (reported : List ℕ) → ¬ Answers (codes "apply" ∷ map (λ word. word.now) words.now) reported }
{
    if words.is_empty() {
        return Err(LineFault::NoQuestion);
    }
    let payloads = read_payloads(alloc, words)?;
    Ok(answer_apply(alloc, &payloads)?)
}

// The answer to `reply WORD`.
fn answer_on_reply(alloc: Global, word: &[u8]) -> Result<Vec<u8>, LineFault>
    ensures answers { IfOk result (λ reported. Answers (codes "reply" ∷ word.now ∷ []) reported.items) }
    ensures no_question { IsErrOf result LineFault.NoQuestion
        → (reported : List ℕ) → ¬ Answers (codes "reply" ∷ word.now ∷ []) reported }
{
    let bytes = read_bytes(alloc, word)?;
    Ok(answer_reply(alloc, &bytes)?)
}

// The answer to `state WORD`.
fn answer_on_state(alloc: Global, word: &[u8]) -> Result<Vec<u8>, LineFault>
    ensures answers { IfOk result (λ reported. Answers (codes "state" ∷ word.now ∷ []) reported.items) }
    ensures no_question { IsErrOf result LineFault.NoQuestion
        → (reported : List ℕ) → ¬ Answers (codes "state" ∷ word.now ∷ []) reported }
{
    let bytes = read_bytes(alloc, word)?;
    Ok(answer_state(alloc, &bytes)?)
}

// The answer to a question that begins with `reply`, by the words after it.
fn reply(alloc: Global, words: &[&[u8]]) -> Result<Vec<u8>, LineFault>
    ensures answers { IfOk result (λ reported. Answers (codes "reply" ∷ map (λ word. word.now) words.now) reported.items) }
    ensures no_question { IsErrOf result LineFault.NoQuestion
        → (reported : List ℕ) → ¬ Answers (codes "reply" ∷ map (λ word. word.now) words.now) reported }
{
    if words.len() == 1 {
        answer_on_reply(alloc, words[0])
    } else {
        Err(LineFault::NoQuestion)
    }
}

// The answer to a question that begins with `state`, by the words after it.
fn state(alloc: Global, words: &[&[u8]]) -> Result<Vec<u8>, LineFault>
    ensures answers { IfOk result (λ reported. Answers (codes "state" ∷ map (λ word. word.now) words.now) reported.items) }
    ensures no_question { IsErrOf result LineFault.NoQuestion
        → (reported : List ℕ) → ¬ Answers (codes "state" ∷ map (λ word. word.now) words.now) reported }
{
    if words.len() == 1 {
        answer_on_state(alloc, words[0])
    } else {
        Err(LineFault::NoQuestion)
    }
}

/// The answer to a question on a store, a reply or a state, by the words of a line.
pub fn answer_stores(alloc: Global, words: &[&[u8]]) -> Result<Vec<u8>, LineFault>
    ensures answers { IfOk result (λ reported. Answers (map (λ word. word.now) words.now) reported.items) }
    ensures no_question { IsErrOf result LineFault.NoQuestion
        → (reported : List ℕ) → ¬ Answers (map (λ word. word.now) words.now) reported }
{
    let Some((verb, words)) = words.split_first() else {
        return Err(LineFault::NoQuestion);
    };
    if *verb == b"apply".as_slice() {
        apply(alloc, words)
    } else if *verb == b"reply".as_slice() {
        reply(alloc, words)
    } else if *verb == b"state".as_slice() {
        state(alloc, words)
    } else {
        Err(LineFault::NoQuestion)
    }
}
