//! Runs the schedule in the file that the first word names, and counts: the frames that were sent and those that correct processes
//! took, the claims that were signed, the signatures that were checked, and the blocks that SHA-256 hashes for both. With a second
//! word it prints the time of one block too, hashed alone. In small the schedule is one of eight Submits.
mod running;

use crate::replay::running::Run;
use anyhow::{Result, anyhow};
use bench_parts::time_blocks;
use schedule_reading::read_schedule;
use std::alloc::Global;
use std::fs;
use std::rt::Files;
use std::time::CpuClock;

/// This many blocks are hashed alone.
const BLOCKS: u32 = 1_000_000;

// The run of the schedule that the bytes spell.
fn run_of(alloc: Global, bytes: &[u8]) -> Result<Run> {
    match read_schedule(alloc, bytes) {
        Ok(schedule) => Run::of(alloc, &schedule),
        Err(_) => Err(anyhow!("no schedule")),
    }
}

// Processes 0 to 3 with plain keys, all of them members.
fn four_members(alloc: Global) -> Result<Vec<u8>> {
    let mut bytes = b"RPS1\x00".to_vec(alloc)?;
    bytes.extend_from_slice(&[0; 16])?;
    bytes.push(4)?;
    for n in 0..4u8 {
        bytes.extend_from_slice(&[n, 0])?;
        bytes.extend_from_slice(&[n; 32])?;
        bytes.extend_from_slice(&100_000u32.to_be_bytes())?;
    }
    bytes.extend_from_slice(&[4, 0, 1, 2, 3])?;
    Ok(bytes)
}

// Each of them submits 32 bytes and then 32 others, and all frames are delivered after each four Submits.
fn eight_submits(alloc: Global) -> Result<Vec<u8>> {
    let mut bytes = four_members(alloc)?;
    for n in 0..8u8 {
        bytes.extend_from_slice(&[1, n % 4, 0, 32])?;
        bytes.extend_from_slice(&[n; 32])?;
        if n % 4 == 3 {
            bytes.push(4)?;
            bytes.extend_from_slice(&4_000u32.to_be_bytes())?;
            bytes.extend_from_slice(&[255; 8])?;
        }
    }
    Ok(bytes)
}

fn count(rt: &(impl Print + AllocGlobal), bytes: &[u8]) -> Result<()> {
    let run = run_of(rt.alloc(), bytes)?;
    let frames = run.frames();
    let deliveries = run.deliveries();
    let claims = run.claims();
    let checks = run.checks();
    let blocks = run.blocks();
    println!(rt;
        "frames {frames} taken {deliveries} claims {claims} checks {checks} blocks {blocks}"
    )?;
    Ok(())
}

/// Counts in the run of eight Submits.
pub fn once(rt: &(impl Print + AllocGlobal)) -> Result<()> {
    count(rt, &eight_submits(rt.alloc())?)
}

/// Counts in the run of the schedule in the file that the first word names, and prints the time of a block where there is a second.
pub fn count_in(
    rt: &(impl Print + Files + CpuClock + AllocGlobal),
    words: &[String],
) -> Result<()> {
    let Some(path) = words.first() else {
        return Err(anyhow!("the word is a schedule's file"));
    };
    count(rt, &fs::read(rt, path.as_str())?)?;
    if words.len() > 1 {
        let hashed = time_blocks(rt, BLOCKS)?;
        let block = hashed.seconds * 1e9 / f64::from(BLOCKS);
        println!(rt; "block {block:.1}")?;
    }
    Ok(())
}
