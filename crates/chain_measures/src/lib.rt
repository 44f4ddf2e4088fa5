//! What it costs to check a chain of views: proofs of views of 16 members, beside the bare verification of their signatures. In small two
//! proofs are taken.
#![tactic(auto)]

mod proofs;
mod signing;

use crate::proofs::prove;
use anyhow::Result;
use std::time::CpuClock;

/// How many proofs are timed.
const PROOFS: u16 = 1_000;

/// The typecodes of trees of height 10 and 5.
const H10: u32 = 6;

const H5: u32 = 5;

/// Takes two proofs.
pub fn once(rt: &(impl Print + AllocGlobal + CpuClock)) -> Result<()> {
    prove(rt, H5, 2)?;
    println!(rt; "2 proofs are taken")?;
    Ok(())
}

/// Prints the time of 1,000 proofs, and of their signatures alone.
pub fn print_times(rt: &(impl Print + AllocGlobal + CpuClock)) -> Result<()> {
    let spent = prove(rt, H10, PROOFS)?;
    let advance = spent.advance;
    let bare = spent.bare;
    let ratio = advance / bare;
    println!(rt;
        "{PROOFS} proofs of a view of 16: {advance:.3} s, their signatures alone {bare:.3} s, {ratio:.3} times (goal: at most 1.05)"
    )?;
    Ok(())
}
