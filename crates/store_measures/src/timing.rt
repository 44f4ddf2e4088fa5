//! The seconds of calls. Each is timed nine times, of which the quickest counts.
use crate::asking::{Asked, KEYS, Requests};
use anyhow::{Result, anyhow};
use bench_parts::seconds;
use kv_service::Store;
use std::alloc::Global;
use std::time::CpuClock;

const RUNS: u32 = 9;

// Carries out a request for each key; each is answered as it should be.
fn carry_out_all(alloc: Global, store: &mut Store, requests: &mut Requests) -> Result<()> {
    match requests.carry_out(alloc, store, KEYS) {
        Ok(KEYS) => Ok(()),
        _ => Err(anyhow!("a request was answered otherwise")),
    }
}

/// The microseconds of a call of `apply`, over a request for each key, all of which are there before.
pub(crate) fn time_calls(
    rt: &(impl AllocGlobal + CpuClock),
    store: &mut Store,
    asked: Asked,
) -> Result<f64> {
    let mut filling = Requests::new(rt.alloc(), Asked::Set)?;
    let mut requests = Requests::new(rt.alloc(), asked)?;
    let mut least = f64::INFINITY;
    for _ in 0..RUNS {
        carry_out_all(rt.alloc(), store, &mut filling)?;
        let begun = seconds(rt)?;
        carry_out_all(rt.alloc(), store, &mut requests)?;
        least = least.min(seconds(rt)? - begun);
    }
    Ok(least / 4096.0 * 1e6)
}

/// The state of a store.
pub(crate) fn state_of(alloc: Global, store: &Store) -> Result<Vec<u8>> {
    let mut state = Vec::new(alloc);
    match store.state_into(&mut state) {
        Ok(()) => Ok(state),
        Err(_) => Err(anyhow!("no memory for a state")),
    }
}

/// The seconds of the state of a store, in room of its own.
pub(crate) fn time_state(rt: &(impl AllocGlobal + CpuClock), store: &Store) -> Result<f64> {
    let mut least = f64::INFINITY;
    for _ in 0..RUNS {
        let begun = seconds(rt)?;
        let _state = state_of(rt.alloc(), store)?;
        least = least.min(seconds(rt)? - begun);
    }
    Ok(least)
}

/// The seconds of a plain copy, in room of its own.
pub(crate) fn time_copy(rt: &(impl AllocGlobal + CpuClock), bytes: &[u8]) -> Result<f64> {
    let mut least = f64::INFINITY;
    for _ in 0..RUNS {
        let begun = seconds(rt)?;
        let _copy = bytes.to_vec(rt.alloc())?;
        least = least.min(seconds(rt)? - begun);
    }
    Ok(least)
}

fn read(alloc: Global, state: &[u8]) -> Result<Store> {
    match Store::of_state(alloc, state) {
        Ok(Some(store)) => Ok(store),
        _ => Err(anyhow!("a state was not read")),
    }
}

/// The seconds of reading a state as a store.
pub(crate) fn time_reading(rt: &(impl AllocGlobal + CpuClock), state: &[u8]) -> Result<f64> {
    let mut least = f64::INFINITY;
    for _ in 0..RUNS {
        let begun = seconds(rt)?;
        let _store = read(rt.alloc(), state)?;
        least = least.min(seconds(rt)? - begun);
    }
    Ok(least)
}
