//! The time of what a store does that has as many keys as it may have, 4,096 of 64 bytes, each with a value of 512: of `apply` for a Get, a
//! Set of a present key and a Remove; of its state, beside a plain copy of as many bytes in the same run; and of the store of that state.
//! With a command and a number so many requests are carried out, and no time is printed: as many are made each time, so that what the calls
//! allocate can be counted from outside.
#![tactic(auto)]

mod asking;
mod timing;

use crate::asking::{Asked, KEYS, Requests, full_store};
use crate::timing::{state_of, time_calls, time_copy, time_reading, time_state};
use anyhow::{Result, anyhow};
use kv_service::Store;
use std::alloc::Global;
use std::time::CpuClock;

fn filled(alloc: Global) -> Result<Store> {
    match full_store(alloc) {
        Ok(store) => Ok(store),
        Err(_) => Err(anyhow!("no memory for a store")),
    }
}

// A line of what was measured.
fn tell(rt: &impl Print, what: &str, measured: f64, unit: &str) -> Result<()> {
    println!(rt; "{what}: {measured:.2} {unit}")?;
    Ok(())
}

fn tell_calls(rt: &(impl Print + AllocGlobal + CpuClock), store: &mut Store) -> Result<()> {
    let get = time_calls(rt, store, Asked::Get)?;
    tell(rt, "Get", get, "us (goal: at most 1)")?;
    let set = time_calls(rt, store, Asked::Set)?;
    tell(rt, "Set of a present key", set, "us (goal: at most 1.5)")?;
    let remove = time_calls(rt, store, Asked::Remove)?;
    tell(rt, "Remove", remove, "us")
}

fn tell_state(rt: &(impl Print + AllocGlobal + CpuClock), store: &Store) -> Result<()> {
    let state = state_of(rt.alloc(), store)?;
    let ours = time_state(rt, store)?;
    tell(rt, "state", ours * 1e3, "ms")?;
    let times = ours / time_copy(rt, &state)?;
    tell(rt, "beside a plain copy", times, "times (goal: at most 2)")?;
    let reading = time_reading(rt, &state)? * 1e3;
    tell(rt, "store of the state", reading, "ms (goal: at most 3)")
}

fn times(rt: &(impl Print + AllocGlobal + CpuClock)) -> Result<()> {
    let mut store = filled(rt.alloc())?;
    tell_calls(rt, &mut store)?;
    tell_state(rt, &filled(rt.alloc())?)
}

// Carries out so many requests of a full store.
fn carry_out(rt: &(impl Print + AllocGlobal), asked: Asked, count: u16) -> Result<()> {
    let mut store = filled(rt.alloc())?;
    let mut requests = Requests::new(rt.alloc(), asked)?;
    let Ok(answered) = requests.carry_out(rt.alloc(), &mut store, count) else {
        return Err(anyhow!("no memory for requests"));
    };
    println!(rt; "{answered} of {count} requests were answered as they should be")?;
    Ok(())
}

/// Fills a store and prints the length of its state, and carries a few requests out.
pub fn once(rt: &(impl Print + AllocGlobal)) -> Result<()> {
    let store = filled(rt.alloc())?;
    let bytes = state_of(rt.alloc(), &store)?.len();
    println!(rt; "a store of {KEYS} keys, a state of {bytes} bytes")?;
    carry_out(rt, Asked::Get, 10)
}

/// Prints the times of a full store; with a command and a number it carries so many requests out, at most 4,096.
pub fn times_of(rt: &(impl Print + AllocGlobal + CpuClock), words: &[String]) -> Result<()> {
    let Some(first) = words.first() else {
        return times(rt);
    };
    let count = words.get(1).and_then(|word| word.parse().ok());
    match (Asked::of(first.as_str()), count) {
        (Some(asked), Some(count)) => carry_out(rt, asked, count),
        _ => Err(anyhow!("the words are get, set, remove or exchange, and a number")),
    }
}
