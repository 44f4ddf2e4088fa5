//! Requests of a store that has as many keys as it may have.
use kv_service::Store;
use rp_base::NoMemory;
use std::alloc::{AllocError, Global};

/// As many keys as a store has at most.
pub(crate) const KEYS: u16 = 4096;

// The longest answer: a byte and a value.
const ANSWER_BYTES: usize = 513;

/// What is asked of a full store: the value of a key, another value for it, that it be removed, and another value where it has one that it
/// does not have.
#[derive(Clone, Copy)]
pub(crate) enum Asked {
    Get,
    Set,
    Remove,
    Exchange,
}

impl Asked {
    /// What the word names, if anything.
    pub(crate) fn of(word: &str) -> Option<Asked> {
        match word {
            "get" => Some(Asked::Get),
            "set" => Some(Asked::Set),
            "remove" => Some(Asked::Remove),
            "exchange" => Some(Asked::Exchange),
            _ => None,
        }
    }

    // The byte of its command.
    fn command(self) -> u8 {
        match self {
            Asked::Set => 1,
            Asked::Get => 2,
            Asked::Remove => 3,
            Asked::Exchange => 4,
        }
    }

    // The first byte of the answer where the key is present: a value, done, or that the value is another one.
    fn answer(self) -> u8 {
        match self {
            Asked::Get => 1,
            Asked::Set | Asked::Remove => 0,
            Asked::Exchange => 5,
        }
    }
}

// The length of a value, and the value.
const VALUE_LENGTH: [u8; 2] = [2, 0];

const VALUE: [u8; 512] = [3; 512];

// A value of one byte, after its length, which no key has.
const OTHER: [u8; 3] = [0, 1, 4];

// A request for this key. Keys differ in their last two bytes, so that they are compared to the end.
fn request(alloc: Global, asked: Asked, key: u16) -> Result<Vec<u8>, AllocError> {
    let mut bytes = Vec::new(alloc);
    bytes.extend_from_slice(&[7; 8])?;
    bytes.push(asked.command())?;
    bytes.push(64)?;
    bytes.extend_from_slice(&[5; 62])?;
    bytes.extend_from_slice(&key.to_be_bytes())?;
    push_values(&mut bytes, asked)?;
    Ok(bytes)
}

// The values that a request has.
fn push_values(bytes: &mut Vec<u8>, asked: Asked) -> Result<(), AllocError> {
    match asked {
        Asked::Get | Asked::Remove => return Ok(()),
        Asked::Set => {}
        Asked::Exchange => bytes.extend_from_slice(&OTHER)?,
    }
    bytes.extend_from_slice(&VALUE_LENGTH)?;
    bytes.extend_from_slice(&VALUE)
}

/// A request for each of 4,096 keys, in an order that goes to and fro, and room for an answer.
#[derive(Drop)]
pub(crate) struct Requests {
    asked: Asked,
    all: Vec<Vec<u8>>,
    answer: Vec<u8>,
}

impl Requests {
    pub(crate) fn new(alloc: Global, asked: Asked) -> Result<Requests, AllocError> {
        let mut all = Vec::new(alloc);
        for n in 0..KEYS {
            all.push(request(alloc, asked, n.wrapping_mul(2477) % KEYS)?)?;
        }
        let answer = Vec::with_capacity(alloc, ANSWER_BYTES)?;
        Ok(Requests { asked, all, answer })
    }

    /// Carries out the first so many of them; how many are answered as they should be.
    pub(crate) fn carry_out(
        &mut self,
        alloc: Global,
        store: &mut Store,
        count: u16,
    ) -> Result<u16, NoMemory> {
        let mut answered = 0u16;
        for request in self.all.iter().take(count as usize) {
            self.answer.clear();
            store.apply(alloc, request.as_slice(), &mut self.answer)?;
            if self.answer.first() == Some(&self.asked.answer()) {
                answered = answered.wrapping_add(1);
            }
        }
        Ok(answered)
    }
}

/// A store with as many keys as it may have.
pub(crate) fn full_store(alloc: Global) -> Result<Store, NoMemory> {
    let mut store = Store::new(alloc);
    Requests::new(alloc, Asked::Set)?.carry_out(alloc, &mut store, KEYS)?;
    Ok(store)
}
