// What each command answers and leaves. One byte of the answer has room before the store changes.
ghost use Rattle.std.specs.Prelude.{◌≡◌, ◌+◌, ◌≤◌, ◌++◌, vec_len, vec_capacity, OnOk, OnErr};
ghost use Rattle.store_defs.specs.Stores as stores;
ghost use Rattle.store_defs.specs.Stores.{IsStore, carried_out, answer_bytes};
ghost use Rattle.kv_service.specs.Pairs.{pairs_of};

use crate::answers::{ABSENT, DIFFERS, DONE, FULL, VALUE, say, say_value};
use crate::pairs::{PairMap, are_same, insert, remove, replace, value_of};
use rp_base::NoMemory;
use std::alloc::Global;

const MOST_KEYS: usize = 4096;

/// Sets the key to the value.
///
/// # Errors
/// [`NoMemory`] where room is refused; nothing has changed then.
#[tactic(auto, using(crate::proofs::Carrying::set_there, crate::proofs::Carrying::set_full, crate::proofs::Carrying::set_new))]
pub(crate) fn set(
    pairs: &mut PairMap,
    alloc: Global,
    key: &[u8],
    value: &[u8],
    answer: &mut Vec<u8>,
) -> Result<(), NoMemory>
    requires store { IsStore (pairs_of pairs.old) }
    requires room { vec_len answer.old + 1 ≤ vec_capacity answer.old }
    ensures store { OnOk result (pairs_of pairs.new ≡ (carried_out (stores.Set key.now value.now) (pairs_of pairs.old)).1) }
    ensures answer { OnOk result (answer.new.items
        ≡ answer.old.items ++ answer_bytes (carried_out (stores.Set key.now value.now) (pairs_of pairs.old)).0) }
    ensures unchanged { OnErr result (pairs_of pairs.new ≡ pairs_of pairs.old) }
    ensures unanswered { OnErr result (answer.new.items ≡ answer.old.items) }
{
    let is_there = replace(pairs, key, value)?;
    if is_there {
        say(answer, DONE);
        return Ok(());
    }
    if pairs.len() == MOST_KEYS {
        say(answer, FULL);
        return Ok(());
    }
    insert(pairs, alloc, key, value)?;
    say(answer, DONE);
    Ok(())
}

/// Answers with the value of the key.
///
/// # Errors
/// [`NoMemory`] where room for the answer is refused; nothing is appended then.
pub(crate) fn get(pairs: &PairMap, key: &[u8], answer: &mut Vec<u8>) -> Result<(), NoMemory>
    requires { vec_len answer.old + 1 ≤ vec_capacity answer.old }
    ensures answer { OnOk result (answer.new.items
        ≡ answer.old.items ++ answer_bytes (carried_out (stores.Get key.now) (pairs_of pairs.now)).0) }
    ensures unanswered { OnErr result (answer.new.items ≡ answer.old.items) }
{
    let Some(value) = value_of(pairs, key) else {
        say(answer, ABSENT);
        return Ok(());
    };
    say_value(answer, VALUE, value)?;
    Ok(())
}

/// Removes the key.
#[tactic(auto, using(crate::proofs::Carrying::remove_there, crate::proofs::Carrying::remove_absent))]
pub(crate) fn take_out(pairs: &mut PairMap, key: &[u8], answer: &mut Vec<u8>)
    requires store { IsStore (pairs_of pairs.old) }
    requires room { vec_len answer.old + 1 ≤ vec_capacity answer.old }
    ensures store { pairs_of pairs.new ≡ (carried_out (stores.Remove key.now) (pairs_of pairs.old)).1 }
    ensures answer { answer.new.items
        ≡ answer.old.items ++ answer_bytes (carried_out (stores.Remove key.now) (pairs_of pairs.old)).0 }
{
    let was_there = remove(pairs, key);
    if was_there {
        say(answer, DONE);
        return;
    }
    say(answer, ABSENT);
}

/// Sets the key to the value, where its value is the expected one.
///
/// # Errors
/// [`NoMemory`] where room is refused; nothing has changed then.
pub(crate) fn exchange(
    pairs: &mut PairMap,
    key: &[u8],
    expected: &[u8],
    value: &[u8],
    answer: &mut Vec<u8>,
) -> Result<(), NoMemory>
    requires store { IsStore (pairs_of pairs.old) }
    requires room { vec_len answer.old + 1 ≤ vec_capacity answer.old }
    ensures store { OnOk result (pairs_of pairs.new
        ≡ (carried_out (stores.Exchange key.now expected.now value.now) (pairs_of pairs.old)).1) }
    ensures answer { OnOk result (answer.new.items ≡ answer.old.items
        ++ answer_bytes (carried_out (stores.Exchange key.now expected.now value.now) (pairs_of pairs.old)).0) }
    ensures unchanged { OnErr result (pairs_of pairs.new ≡ pairs_of pairs.old) }
    ensures unanswered { OnErr result (answer.new.items ≡ answer.old.items) }
{
    let Some(old) = value_of(pairs, key) else {
        say(answer, ABSENT);
        return Ok(());
    };
    let is_expected = are_same(old, expected);
    if is_expected {
        replace(pairs, key, value)?;
        say(answer, DONE);
        return Ok(());
    }
    say_value(answer, DIFFERS, old)?;
    Ok(())
}
