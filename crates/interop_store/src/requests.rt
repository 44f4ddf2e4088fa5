//! Payloads that a store carries out, one after the other.
ghost use Rattle.std.specs.Prelude.{◌≡◌, ◌++◌, codes, IfOk, OnOk};
ghost use Rattle.store_defs.specs.Stores.{answer_to, applied, store_after, store_bytes};
ghost use Rattle.interop_store.specs.Telling.{answer_words, apply_words, bytes_next, payloads_in};

use crate::words::push_next_bytes;
use kv_service::Store;
use rp_base::NoMemory;
use std::alloc::Global;

// Carries a payload out, and writes its answer.
fn push_answer(
    alloc: Global,
    out: &mut Vec<u8>,
    store: &mut Store,
    payload: &[u8],
) -> Result<(), NoMemory>
    ensures reported { OnOk result (out.new.items ≡ out.old.items ++ bytes_next (answer_to store.old payload.now)) }
    ensures store { OnOk result (store.new ≡ (applied store.old payload.now).1) }
{
    let mut answer = Vec::new(alloc);
    store.apply(alloc, payload, &mut answer)?;
    push_next_bytes(out, &answer)
}

// Carries payloads out, one after the other, and writes the answer to each.
fn push_answers(
    alloc: Global,
    out: &mut Vec<u8>,
    store: &mut Store,
    payloads: &[Vec<u8>],
) -> Result<(), NoMemory>
    ensures reported { OnOk result (out.new.items ≡ out.old.items ++ answer_words store.old (payloads_in payloads.now)) }
    ensures store { OnOk result (store.new ≡ store_after store.old (payloads_in payloads.now)) }
{
    for payload in payloads {
        push_answer(alloc, out, store, payload)?;
    }
    Ok(())
}

// The state of a store.
fn push_state(alloc: Global, out: &mut Vec<u8>, store: &Store) -> Result<(), NoMemory>
    ensures { OnOk result (out.new.items ≡ out.old.items ++ (codes " state" ++ bytes_next (store_bytes store.now))) }
{
    let mut state = Vec::new(alloc);
    store.state_into(&mut state)?;
    out.extend_from_slice(b" state")?;
    push_next_bytes(out, &state)
}

/// `applied`, the answer to each payload of a store that has no key before the first one, `state` and its state after the last one.
pub(crate) fn answer_apply(alloc: Global, payloads: &[Vec<u8>]) -> Result<Vec<u8>, NoMemory>
    ensures { IfOk result (λ reported. reported.items ≡ apply_words (payloads_in payloads.now)) }
{
    let mut store = Store::new(alloc);
    let mut reported = b"applied".to_vec(alloc)?;
    push_answers(alloc, &mut reported, &mut store, payloads)?;
    push_state(alloc, &mut reported, &store)?;
    Ok(reported)
}
