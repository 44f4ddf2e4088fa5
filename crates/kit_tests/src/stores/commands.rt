//! What the store answers to each command, and its state.
use kv_service::Store;
use std::alloc::Global;
use std::test::Fail;

// Whether the payloads, carried out one after the other, are answered as is said beside each.
fn are_answered(alloc: Global, store: &mut Store, rows: &[(&[u8], &[u8])]) -> Result<bool, Fail> {
    let mut answer = Vec::new(alloc);
    for (payload, wanted) in rows {
        answer.clear();
        store.apply(alloc, payload, &mut answer)?;
        if answer.as_slice() != *wanted {
            return Ok(false);
        }
    }
    Ok(true)
}

// Commands on what is there and what is not, and the answers to them.
const FOUND: [(&[u8], &[u8]); 14] = [
    (b"\0\0\0\0\0\0\0\x01\x02\x01a", b"\x02"),
    (b"\0\0\0\0\0\0\0\x01\x01\x01b\0\x01x", b"\0"),
    (b"\0\0\0\0\0\0\0\x01\x01\x01a\0\x01y", b"\0"),
    (b"\0\0\0\0\0\0\0\x02\x02\x01a", b"\x01y"),
    (b"\0\0\0\0\0\0\0\x02\x01\x01b\0\0", b"\0"),
    (b"\0\0\0\0\0\0\0\x03\x02\x01b", b"\x01"),
    (b"\0\0\0\0\0\0\0\x01\x04\x01a\0\x01x\0\x01z", b"\x05y"),
    (b"\0\0\0\0\0\0\0\x01\x04\x01a\0\x01y\0\x01z", b"\0"),
    (b"\0\0\0\0\0\0\0\x04\x02\x01a", b"\x01z"),
    (b"\0\0\0\0\0\0\0\x01\x04\x01c\0\0\0\x01z", b"\x02"),
    (b"\0\0\0\0\0\0\0\x01\x03\x01c", b"\x02"),
    (b"\0\0\0\0\0\0\0\x01\x03\x01a", b"\0"),
    (b"\0\0\0\0\0\0\0\x05\x02\x01a", b"\x02"),
    (b"\0\0\0\0\0\0\0\x01\x01\x01b\0\x01x", b"\0"),
];

// Payloads that are no requests, or out of their ranges.
const NO_REQUESTS: [(&[u8], &[u8]); 9] = [
    (b"", b"\x03"),
    (b"\0\0\0\0\0\0\0", b"\x03"),
    (b"\0\0\0\0\0\0\0\0", b"\x03"),
    (b"\0\0\0\0\0\0\0\x01\x05\x01a", b"\x03"),
    (b"\0\0\0\0\0\0\0\x01\x02\0", b"\x03"),
    (b"\0\0\0\0\0\0\0\x01\x02\x01a\0", b"\x03"),
    (b"\0\0\0\0\0\0\0\x01\x01\x01a\0\x01", b"\x03"),
    (
        b"\0\0\0\0\0\0\0\x01\x02Akkkkkkkkkkkkkkkkkkkkkkkkkkkkkkkkkkkkkkkkkkkkkkkkkkkkkkkkkkkkkkkkk",
        b"\x03",
    ),
    (b"\0\0\0\0\0\0\0\x01\x01\x01a\0\0\0", b"\x03"),
];

// Keys in another order than that of a state.
const RISING: [(&[u8], &[u8]); 4] = [
    (
        b"\0\0\0\0\0\0\0\x01\x02@kkkkkkkkkkkkkkkkkkkkkkkkkkkkkkkkkkkkkkkkkkkkkkkkkkkkkkkkkkkkkkkk",
        b"\x02",
    ),
    (b"\0\0\0\0\0\0\0\x01\x01\x02ab\0\x011", b"\0"),
    (b"\0\0\0\0\0\0\0\x01\x01\x02aa\0\x012", b"\0"),
    (b"\0\0\0\0\0\0\0\x01\x01\x01a\0\x013", b"\0"),
];

#[test]
fn each_command_is_answered(rt: HostRuntime) -> Result<(), Fail> {
    let mut store = Store::new(rt.alloc());
    assert!(rt; are_answered(rt.alloc(), &mut store, &FOUND)?);
    assert!(rt; are_answered(rt.alloc(), &mut store, &NO_REQUESTS)?);
    assert!(rt; are_answered(rt.alloc(), &mut store, &RISING)?);
    let mut state = Vec::new(rt.alloc());
    store.state_into(&mut state)?;
    let wanted = b"\0\x04\x01a\0\x013\x02aa\0\x012\x02ab\0\x011\x01b\0\x01x";
    assert_eq!(rt; state.as_slice(), wanted.as_slice());
    Ok(())
}

// The answer to a payload whose key is two bytes: to a Set of an empty value, or to a Remove.
fn answered(alloc: Global, store: &mut Store, what: u8, key: u16) -> Result<Vec<u8>, Fail> {
    let [high, low] = key.to_be_bytes();
    let set = [0, 0, 0, 0, 0, 0, 0, 1, what, 2, high, low, 0, 0];
    let used = if what == 1 { 14 } else { 12 };
    let mut answer = Vec::new(alloc);
    store.apply(alloc, &set[..used], &mut answer)?;
    Ok(answer)
}

// A store of `keys` keys.
fn filled(alloc: Global, keys: u16) -> Result<Store, Fail> {
    let mut store = Store::new(alloc);
    for key in 0..keys {
        answered(alloc, &mut store, 1, key)?;
    }
    Ok(store)
}

#[test]
fn a_full_store_takes_no_new_key(rt: HostRuntime) -> Result<(), Fail> {
    let mut store = filled(rt.alloc(), 4096)?;
    let mut answers = Vec::new(rt.alloc());
    for (what, key) in [(1, 4096), (1, 4095), (3, 17), (1, 4096), (1, 17)] {
        answers.extend_from_slice(&answered(rt.alloc(), &mut store, what, key)?)?;
    }
    assert_eq!(rt; answers.as_slice(), [4, 0, 0, 0, 4].as_slice());
    Ok(())
}

#[test]
fn a_state_is_read_as_the_same_store(rt: HostRuntime) -> Result<(), Fail> {
    let store = filled(rt.alloc(), 4096)?;
    let mut state = Vec::new(rt.alloc());
    store.state_into(&mut state)?;
    assert_eq!(rt; state.len(), 2 + 4096 * 5);
    let read = Store::of_state(rt.alloc(), &state)?.ok_or("no store")?;
    let mut again = Vec::new(rt.alloc());
    read.state_into(&mut again)?;
    assert_eq!(rt; again, state);
    assert!(rt; Store::of_state(rt.alloc(), &state[1..])?.is_none());
    Ok(())
}
