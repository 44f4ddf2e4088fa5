//! The time of a group's cores that hand each other their frames, without a disk or a socket: as many members as the first word says
//! deliver as many hundred places as the second word says, of one message each, in their first view. It prints the nanoseconds a claim,
//! signed or heard, in the first and in the last hundred places, and which share of the whole time the SHA-256 blocks of the signatures
//! take, hashed alone in the same run. In small four members deliver three places.
mod group;

use crate::cores::group::Group;
use anyhow::{Result, anyhow};
use bench_parts::{seconds, time_blocks};
use std::num::nearest_u64_to_f64;
use std::time::CpuClock;

const PAYLOAD: &[u8] = &[5; 32];

/// The places are timed by the hundred.
const HUNDRED: u32 = 100;

/// This many blocks are hashed alone after each hundred places, so that what else the machine does slows both alike.
const BLOCKS: u32 = 100_000;

/// A hundred places: the seconds, and the claims that were signed or heard.
#[derive(Clone, Copy)]
struct Spent {
    seconds: f64,
    claims: u64,
}

impl Spent {
    fn nanos_a_claim(&self) -> f64 {
        self.seconds * 1e9 / nearest_u64_to_f64(self.claims)
    }
}

// `places` places, each of a message of the next member.
fn deliver(group: &mut Group, members: u32, places: u32) -> Result<()> {
    for n in 0..places {
        group.submit((n % members.max(1)) as usize, PAYLOAD)?;
    }
    Ok(())
}

// A hundred places, timed.
fn deliver_hundred(rt: &impl CpuClock, group: &mut Group, members: u32) -> Result<Spent> {
    let before = group.claims();
    let begun = seconds(rt)?;
    deliver(group, members, HUNDRED)?;
    let ended = seconds(rt)?;
    Ok(Spent {
        seconds: ended - begun,
        claims: group.claims().wrapping_sub(before),
    })
}

/// Four members deliver three places.
pub fn once(rt: &(impl Print + AllocGlobal)) -> Result<()> {
    let mut group = Group::new(rt.alloc(), 4)?;
    deliver(&mut group, 4, 3)?;
    let delivered = group.delivered();
    let signed = group.signed();
    let checks = group.checks();
    let blocks = group.blocks();
    println!(rt;
        "4 members delivered {delivered} messages: {signed} signatures, {checks} checks, {blocks} blocks"
    )?;
    Ok(())
}

fn times(rt: &(impl Print + AllocGlobal + CpuClock), members: u32, hundreds: u32) -> Result<()> {
    let mut group = Group::new(rt.alloc(), members as usize)?;
    let first = deliver_hundred(rt, &mut group, members)?;
    let mut last = first;
    let mut whole = first.seconds;
    let mut hashed = time_blocks(rt, BLOCKS)?.seconds;
    for _ in 1..hundreds {
        last = deliver_hundred(rt, &mut group, members)?;
        whole += last.seconds;
        hashed += time_blocks(rt, BLOCKS)?.seconds;
    }
    let block = hashed * 1e9 / (f64::from(BLOCKS) * f64::from(hundreds.max(1)));
    tell_claims(rt, &group, first, last)?;
    tell_blocks(rt, &group, whole, block)
}

fn tell_claims(rt: &impl Print, group: &Group, first: Spent, last: Spent) -> Result<()> {
    let delivered = group.delivered();
    let signed = group.signed();
    let early = first.nanos_a_claim();
    let late = last.nanos_a_claim();
    let ratio = late / early;
    println!(rt; "{delivered} places, {signed} claims")?;
    println!(rt;
        "a claim in the first hundred places: {early:.0} ns, in the last: {late:.0} ns, {ratio:.2} times (goal: at most 1.3)"
    )?;
    Ok(())
}

fn tell_blocks(rt: &impl Print, group: &Group, whole: f64, block: f64) -> Result<()> {
    let blocks = group.blocks();
    let checks = group.checks();
    let hashing = nearest_u64_to_f64(blocks) * block / 1e9;
    let share = hashing / whole * 100.0;
    println!(rt;
        "{checks} signatures checked, {blocks} blocks of {block:.0} ns: {hashing:.3} s of {whole:.3} s, {share:.0} % (goal: at least 40 %)"
    )?;
    Ok(())
}

// The number that a word spells.
fn number(word: Option<&String>) -> Result<u32> {
    match word.and_then(|word| word.parse().ok()) {
        Some(number) => Ok(number),
        None => Err(anyhow!("the words are a number of members and of hundreds of places")),
    }
}

/// Prints the times of a group as the words say.
pub fn times_of(rt: &(impl Print + AllocGlobal + CpuClock), words: &[String]) -> Result<()> {
    let members = number(words.first())?;
    let hundreds = number(words.get(1))?;
    times(rt, members, hundreds)
}
