//! Requests, replies and states, read and spelled, and the keys that sign them.
use rp_base::{GroupId, PlainScheme, Scheme};
use sig_scheme::Secret;
use std::alloc::Global;
use std::test::Fail;
use store_records::{
    Command, Pair, Pairs, is_store, push_reply, push_reply_body, push_state, push_state_body,
    read_reply, read_request, read_state, reply_secret, state_secret,
};
use text_codec::{byte_list, bytes};

const KEY: &[u8; 64] = b"2dd447ac7305bc84b2dc0da0fe9411f33e1af724d30036daa8b9c930ce8b3722";

const REPLY_KEY: &[u8; 64] = b"c812792564484ed2db7d7a0479050f49eb7bcd71e7fcd29432c45a891508a94b";

const STATE_KEY: &[u8; 64] = b"3870ef34517471704c4edbd01958d3793eb40ce23eb7005b96a38961a888f9bd";

const GROUP: &[u8; 32] = b"6f289d5b5aa425dc2f365877e4cf8595";

const REPLY: &[u8] =
    b"000000000000000e00000000000000000101610001620001000020c30f02c6e7865639d258b1b374c743a79fefcd59d5cd8383a7c50c8939ebe0db";

const STATE: &[u8] =
    b"00000100000007000101610001620020eb6f94fc669abaf5834d61ae87f1286692bb03f4d88eb00290d43c9670fe92df";

fn group() -> Result<GroupId, Fail> {
    let name = bytes::<16>(GROUP).ok_or("no group")?;
    Ok(GroupId(name))
}

// The public keys of replies and of states of a process with this key.
fn public_keys(alloc: Global) -> Result<(Vec<u8>, Vec<u8>), Fail> {
    let secret = Secret::Plain {
        key: bytes::<32>(KEY).ok_or("no key")?,
        total: 100,
    };
    let reply_key = reply_secret(&secret).public_key(alloc)?;
    let state_key = state_secret(&secret).public_key(alloc)?;
    Ok((
        reply_key.as_bytes().to_vec(alloc)?,
        state_key.as_bytes().to_vec(alloc)?,
    ))
}

// Whether the key is the one that these digits spell.
fn is_key(key: &[u8], digits: &[u8]) -> bool {
    match bytes::<32>(digits) {
        Some(wanted) => key == wanted.as_slice(),
        None => false,
    }
}

#[test]
fn keys_of_replies_and_states_are_derived(rt: HostRuntime) -> Result<(), Fail> {
    let (reply_key, state_key) = public_keys(rt.alloc())?;
    assert!(rt; is_key(&reply_key, REPLY_KEY));
    assert!(rt; is_key(&state_key, STATE_KEY));
    Ok(())
}

#[test]
fn a_request_is_read(rt: HostRuntime) {
    let set = b"\0\0\0\0\0\0\0\0\x01\x01a\0\x01b";
    let is_set = matches!(
        read_request(set),
        Some(Command::Set {
            key: b"a",
            value: b"b"
        })
    );
    assert!(rt; is_set);
    assert!(rt; read_request(&set[..13]).is_none());
}

// Whether the bytes are the reply of process 0, of view 0, place 0 and position 0, with the answer 0.
fn is_first_reply(record: &[u8]) -> bool {
    let Some(reply) = read_reply(record) else {
        return false;
    };
    let numbers = [
        reply.view,
        reply.place,
        u16::from(reply.position),
        u16::from(reply.signer.get()),
    ];
    numbers == [0; 4] && reply.answer == b"\0".as_slice()
}

// Whether a reply with these bytes is spelled so.
fn is_spelled_reply(alloc: Global, record: &[u8]) -> Result<bool, Fail> {
    let Some(reply) = read_reply(record) else {
        return Ok(false);
    };
    let mut spelled = Vec::new(alloc);
    push_reply(&mut spelled, &reply)?;
    Ok(spelled.as_slice() == record)
}

// Whether the reply with these bytes is signed.
fn is_signed_reply(alloc: Global, record: &[u8]) -> Result<bool, Fail> {
    let Some(reply) = read_reply(record) else {
        return Ok(false);
    };
    let mut body = Vec::new(alloc);
    push_reply_body(&mut body, &group()?, &reply)?;
    let (reply_key, _state_key) = public_keys(alloc)?;
    Ok(PlainScheme.verify(&reply_key, &body, reply.signature))
}

#[test]
fn a_reply_is_read_spelled_and_signed(rt: HostRuntime) -> Result<(), Fail> {
    let record = byte_list(rt.alloc(), REPLY)?;
    assert!(rt; is_first_reply(&record));
    assert!(rt; is_spelled_reply(rt.alloc(), &record)?);
    assert!(rt; is_signed_reply(rt.alloc(), &record)?);
    assert!(rt; read_reply(&record[1..]).is_none());
    Ok(())
}

// Whether a state record with these bytes has this state, and is spelled so.
fn is_spelled_state(alloc: Global, record: &[u8], state: &[u8]) -> Result<bool, Fail> {
    let Some(given) = read_state(record) else {
        return Ok(false);
    };
    let mut spelled = Vec::new(alloc);
    push_state(&mut spelled, &given)?;
    Ok(given.state == state && spelled.as_slice() == record)
}

// Whether the state record with these bytes is signed.
fn is_signed_state(alloc: Global, record: &[u8]) -> Result<bool, Fail> {
    let Some(given) = read_state(record) else {
        return Ok(false);
    };
    let mut body = Vec::new(alloc);
    push_state_body(&mut body, &group()?, &given)?;
    let (_reply_key, state_key) = public_keys(alloc)?;
    Ok(PlainScheme.verify(&state_key, &body, given.signature))
}

#[test]
fn a_state_is_read_spelled_and_signed(rt: HostRuntime) -> Result<(), Fail> {
    let record = byte_list(rt.alloc(), STATE)?;
    assert!(rt; is_spelled_state(rt.alloc(), &record, b"\0\x01\x01a\0\x01b")?);
    assert!(rt; is_signed_state(rt.alloc(), &record)?);
    assert!(rt; read_state(&record[1..]).is_none());
    Ok(())
}

// Whether the next pairs have these keys, and no pair is left then.
fn are_left(pairs: &mut Pairs<'_>, keys: &[&[u8]]) -> bool {
    for wanted in keys {
        match pairs.next() {
            Ok(Some(Pair { key, .. })) if key == *wanted => {}
            _ => return false,
        }
    }
    matches!(pairs.next(), Ok(None))
}

#[test]
fn the_pairs_of_a_state_are_read(rt: HostRuntime) -> Result<(), Fail> {
    let state = b"\0\x02\x01a\0\x01b\x01b\0\0";
    let mut pairs = Pairs::of(state).ok_or("no store")?;
    assert!(rt; is_store(state) && are_left(&mut pairs, &[b"a", b"b"]));
    for no_store in [
        b"\0\x02\x01b\0\0\x01a\0\0".as_slice(),
        b"\0\x01\x01a\0\x02b",
        b"\0\0\0",
        b"\x10\x01",
    ] {
        assert!(rt; !is_store(no_store));
    }
    Ok(())
}
