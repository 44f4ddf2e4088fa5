//! Each call is timed in several runs, all calls one after another in each of them, and of each call the quickest time counts: so the
//! blocks that are hashed alone and the calls are measured at like moments of the machine, and what disturbs one run is left out.
use crate::lms::{MESSAGE, make, make_levels, sign};
use anyhow::{Result, anyhow};
use bench_parts::{seconds, time_blocks};
use lms_tree::{OtsType, lms_verify};
use rp_base::Signer;
use sha256_lanes::{from_lane, hash_short, splat};
use std::alloc::Global;
use std::time::CpuClock;

const RUNS: u32 = 5;

/// So many blocks are hashed alone before each call, and as many in each lane.
const BLOCKS: u32 = 250_000;

/// A tree of height 10 with W4: 1,024 leaves of 67 chains with 16 blocks each, 34 of a public key and one of the leaf, and 1,023 inner
/// nodes of 2.
const TREE_BLOCKS: f64 = 1_135_614.0;

/// A tree of height 5 with W1: 32 leaves of 265 chains with 2 blocks each, 133 of a public key and one of the leaf, and 31 inner
/// nodes of 2.
const W1_TREE_BLOCKS: f64 = 21_310.0;

/// A tree of height 5 with W8.
const SMALL_TREE_BLOCKS: f64 = 279_198.0;

/// A signature with W4 and with W8, made and verified: the means over all hashes of messages.
const W4_BLOCKS: (f64, f64) = (567.0, 556.0);

const W8_BLOCKS: (f64, f64) = (4_260.0, 4_478.0);

/// How many signatures a key of two levels of height 5 makes, and after which of them a lower tree ends.
const SIGNATURES: usize = 1_024;

const LEAVES: usize = 32;

/// The seconds of a signature with each leaf of a tree of height 5, and of verifying it.
#[derive(Clone, Copy)]
struct Leaves {
    ots: OtsType,
    sign: [f64; 32],
    verify: [f64; 32],
}

/// The seconds of a key of two levels of height 5 with W8, and of each of its signatures.
#[derive(Drop)]
struct Levels {
    make: f64,
    sign: Vec<f64>,
}

/// The least seconds of one block, alone and in lanes, of a tree of height 10 with W4 and one of height 5 with W1, and of the signatures.
#[derive(Drop)]
struct Times {
    block: f64,
    in_lanes: f64,
    tree: f64,
    w1_tree: f64,
    w4: Leaves,
    w8: Leaves,
    levels: Levels,
}

// The digest and the seconds of 55 zeros hashed `count` times, each time with the digest in front, in four lanes.
fn time_lanes(rt: &impl CpuClock, count: u32) -> Result<([u8; 32], f64)> {
    let begun = seconds(rt)?;
    let mut block = [splat(0); 16];
    block[13] = splat(0x80);
    block[15] = splat(8 * 55);
    let mut words = [splat(0); 8];
    for _ in 0..count {
        block[..8].copy_from_slice(&words);
        let next = hash_short(block);
        words = next;
    }
    Ok((from_lane(&words, 0), seconds(rt)? - begun))
}

fn sum(times: &[f64]) -> f64 {
    let mut sum = 0.0;
    for time in times {
        sum += *time;
    }
    sum
}

impl Leaves {
    fn new(ots: OtsType) -> Leaves {
        Leaves {
            ots,
            sign: [f64::INFINITY; 32],
            verify: [f64::INFINITY; 32],
        }
    }

    fn run(&mut self, rt: &(impl CpuClock + AllocGlobal)) -> Result<()> {
        let mut key = make(rt.alloc(), 5, self.ots)?;
        let mut sig = vec![in rt.alloc(); 0u8; key.sig_len()]?;
        for leaf in 0..LEAVES {
            let begun = seconds(rt)?;
            sign(&mut key, &mut sig)?;
            let signed = seconds(rt)?;
            let valid = lms_verify(key.public(), MESSAGE, &sig);
            let verified = seconds(rt)?;
            if !valid {
                return Err(anyhow!("not valid"));
            }
            self.sign[leaf] = self.sign[leaf].min(signed - begun);
            self.verify[leaf] = self.verify[leaf].min(verified - signed);
        }
        Ok(())
    }

    // Compared with the blocks of signing and verifying.
    fn tell(&self, rt: &impl Print, block: f64, blocks: (f64, f64)) -> Result<()> {
        let ots = self.ots;
        let signed = sum(&self.sign) / 32.0 / block / blocks.0;
        let verified = sum(&self.verify) / 32.0 / block / blocks.1;
        println!(rt; "sign H5 {ots:?}: {signed:.3} (goal: at most 0.55)")?;
        println!(rt; "verify H5 {ots:?}: {verified:.3} (goal: at most 0.6)")?;
        Ok(())
    }
}

impl Levels {
    fn new(alloc: Global) -> Result<Levels> {
        Ok(Levels {
            make: f64::INFINITY,
            sign: vec![in alloc; f64::INFINITY; SIGNATURES]?,
        })
    }

    fn run(&mut self, rt: &(impl CpuClock + AllocGlobal)) -> Result<()> {
        let begun = seconds(rt)?;
        let mut key = make_levels(rt.alloc())?;
        self.make = self.make.min(seconds(rt)? - begun);
        let mut sig = vec![in rt.alloc(); 0u8; key.sig_len()]?;
        for least in &mut self.sign {
            let begun = seconds(rt)?;
            sign(&mut key, &mut sig)?;
            *least = least.min(seconds(rt)? - begun);
        }
        Ok(())
    }

    // The seconds of the signatures before which a tree ended.
    fn at_ends(&self) -> f64 {
        let mut sum = 0.0;
        for (number, time) in self.sign.iter().enumerate() {
            if number > 0 && number % LEAVES == 0 {
                sum += *time;
            }
        }
        sum
    }

    // A key takes two trees and a signature to make, and a signature where a lower tree ended one tree and two signatures.
    fn tell(&self, rt: &impl Print, block: f64) -> Result<()> {
        let all = sum(&self.sign);
        let at_ends = self.at_ends();
        let made = self.make / block / (2.0 * SMALL_TREE_BLOCKS + W8_BLOCKS.0);
        let within = (all - at_ends) / 993.0 / block / W8_BLOCKS.0;
        let ended = at_ends / 31.0 / block / (SMALL_TREE_BLOCKS + 2.0 * W8_BLOCKS.0);
        let mean = all / 1024.0 * 1e6;
        println!(rt; "make 2 levels H5 W8: {made:.3} (goal: at most 0.55)")?;
        println!(rt; "sign 2 levels H5 W8: {within:.3} (goal: at most 0.55)")?;
        println!(rt; "sign where a tree ended: {ended:.3} (goal: at most 0.55)")?;
        println!(rt; "mean of 1024 signatures: {mean:.0} us")?;
        Ok(())
    }
}

impl Times {
    fn new(alloc: Global) -> Result<Times> {
        Ok(Times {
            block: f64::INFINITY,
            in_lanes: f64::INFINITY,
            tree: f64::INFINITY,
            w1_tree: f64::INFINITY,
            w4: Leaves::new(OtsType::W4),
            w8: Leaves::new(OtsType::W8),
            levels: Levels::new(alloc)?,
        })
    }

    fn hash(&mut self, rt: &impl CpuClock) -> Result<()> {
        let hashed = time_blocks(rt, BLOCKS)?;
        let (digest, lanes) = time_lanes(rt, BLOCKS)?;
        if !hashed.bytes.starts_with(&digest) {
            return Err(anyhow!("not the same digest"));
        }
        self.block = self.block.min(hashed.seconds / f64::from(BLOCKS));
        self.in_lanes = self.in_lanes.min(lanes / 4.0 / f64::from(BLOCKS));
        Ok(())
    }

    fn make(&mut self, rt: &(impl CpuClock + AllocGlobal)) -> Result<()> {
        let begun = seconds(rt)?;
        let key = make(rt.alloc(), 6, OtsType::W4)?;
        self.tree = self.tree.min(seconds(rt)? - begun);
        drop(key);
        let begun = seconds(rt)?;
        let key = make(rt.alloc(), 5, OtsType::W1)?;
        self.w1_tree = self.w1_tree.min(seconds(rt)? - begun);
        drop(key);
        Ok(())
    }

    fn run(&mut self, rt: &(impl CpuClock + AllocGlobal)) -> Result<()> {
        self.hash(rt)?;
        self.make(rt)?;
        self.hash(rt)?;
        self.w4.run(rt)?;
        self.w8.run(rt)?;
        self.hash(rt)?;
        self.levels.run(rt)
    }

    fn tell(&self, rt: &impl Print) -> Result<()> {
        let block = self.block;
        let nanos = block * 1e9;
        println!(rt; "one block: {nanos:.0} ns")?;
        let nanos = self.in_lanes * 1e9;
        let gain = block / self.in_lanes;
        println!(rt;
            "one block in lanes: {nanos:.0} ns, {gain:.2} times as fast (goal: at least 2.2)"
        )?;
        let made = self.tree / block / TREE_BLOCKS;
        println!(rt; "make H10 W4: {made:.3} (goal: at most 0.55)")?;
        let made = self.w1_tree / block / W1_TREE_BLOCKS;
        println!(rt; "make H5 W1: {made:.3} (goal: at most 0.65)")?;
        self.w4.tell(rt, block, W4_BLOCKS)?;
        self.w8.tell(rt, block, W8_BLOCKS)?;
        self.levels.tell(rt, block)
    }
}

/// Prints each call's time beside that of its blocks.
pub(crate) fn print_times(rt: &(impl Print + AllocGlobal + CpuClock)) -> Result<()> {
    let mut times = Times::new(rt.alloc())?;
    for _ in 0..RUNS {
        times.run(rt)?;
    }
    times.tell(rt)
}
