//! The time of an audit, that of taking the same entries alone, and that of the SHA-256 blocks of the signatures, each hashed once.
//! The input is that of `rampart audit`: a kit, and a journal of each member of its first view, in their order.
#![tactic(auto)]

mod absorbing;
mod auditing;

ghost use Rattle.std.specs.Prelude.{IfOk};
ghost use Rattle.kit_defs.specs.Kits.{IsKit};

use crate::absorbing::{Counts, absorb_all};
use anyhow::{Result, anyhow};
use audit_input::{Input, Source};
use bench_parts::{seconds, time_blocks};
use std::alloc::Global;
use std::time::CpuClock;

fn input_of<S: Source>(alloc: Global, source: &mut S) -> Result<Input>
    ensures { IfOk result (λ input. IsKit input.kit) }
{
    match auditing::read(alloc, source) {
        Some(input) => Ok(input),
        None => Err(anyhow!("no kit and journals")),
    }
}

fn absorbed(alloc: Global, input: &Input) -> Result<Counts> {
    absorb_all(alloc, input).ok_or_else(|| anyhow!("an entry differs"))
}

fn audited(alloc: Global, input: &Input) -> Result<()>
    requires { IsKit input.now.kit }
{
    match auditing::is_clean(alloc, input) {
        Some(true) => Ok(()),
        _ => Err(anyhow!("a lie was found")),
    }
}

// The seconds of an audit.
fn time_audit(rt: &(impl AllocGlobal + CpuClock), input: &Input) -> Result<f64>
    requires { IsKit input.now.kit }
{
    let begun = seconds(rt)?;
    audited(rt.alloc(), input)?;
    let ended = seconds(rt)?;
    Ok(ended - begun)
}

// The seconds of taking the entries alone, and what they have.
fn time_absorb(rt: &(impl AllocGlobal + CpuClock), input: &Input) -> Result<(f64, Counts)> {
    let begun = seconds(rt)?;
    let counts = absorbed(rt.alloc(), input)?;
    let ended = seconds(rt)?;
    Ok((ended - begun, counts))
}

// The seconds of hashing `blocks` blocks, and nothing else.
fn time_hashing(rt: &impl CpuClock, blocks: u64) -> Result<f64> {
    match u32::try_from(blocks) {
        Ok(count) => Ok(time_blocks(rt, count)?.seconds),
        Err(_) => Err(anyhow!("too many blocks")),
    }
}

fn tell_counts(rt: &impl Print, counts: Counts) -> Result<()> {
    let entries = counts.entries;
    let heard = counts.heard;
    let signed = counts.signed.signatures;
    let blocks = counts.signed.blocks;
    println!(rt;
        "{entries} entries, {heard} claims heard, {signed} signatures of {blocks} blocks"
    )?;
    Ok(())
}

fn tell_times(rt: &impl Print, whole: f64, alone: f64, hashing: f64) -> Result<()> {
    let ratio = whole / alone;
    let times = whole / hashing;
    println!(rt;
        "audit {whole:.3} s, absorb alone {alone:.3} s, {ratio:.2} times (goal: at most 1.2)"
    )?;
    println!(rt; "the blocks alone {hashing:.3} s, {times:.2} times")?;
    Ok(())
}

fn times(rt: &(impl Print + AllocGlobal + CpuClock), input: &Input) -> Result<()>
    requires { IsKit input.now.kit }
{
    let (alone, counts) = time_absorb(rt, input)?;
    let whole = time_audit(rt, input)?;
    let hashing = time_hashing(rt, counts.signed.blocks)?;
    tell_counts(rt, counts)?;
    tell_times(rt, whole, alone, hashing)
}

/// Audits the input, and takes its entries alone.
pub fn once<S: Source>(rt: &(impl Print + AllocGlobal), source: &mut S) -> Result<()> {
    let input = input_of(rt.alloc(), source)?;
    audited(rt.alloc(), &input)?;
    tell_counts(rt, absorbed(rt.alloc(), &input)?)
}

/// Prints the times of an audit of the input; with a word nothing but what its entries have, which are then taken alone.
pub fn times_of<S: Source>(
    rt: &(impl Print + AllocGlobal + CpuClock),
    source: &mut S,
    words: &[String],
) -> Result<()> {
    let input = input_of(rt.alloc(), source)?;
    if words.is_empty() {
        times(rt, &input)
    } else {
        tell_counts(rt, absorbed(rt.alloc(), &input)?)
    }
}
