//! The time of sealing a frame and of opening its datagram, beside that of hashing two texts as long as those which the tag hashes, in the
//! same run. In small a frame is sealed and opened once.
ghost use Rattle.std.specs.Prelude.{◌≡◌, ◌≢◌, ◌≤◌, ◌+◌, IsSome, length};
ghost use Rattle.auth_link.specs.Keys.{pair_key};

use anyhow::{Result, anyhow};
use auth_link::{FRAME_BYTES, LinkKeys, SEAL_BYTES, seal_into, unseal};
use bench_parts::{process, seconds};
use rp_base::{GroupId, Pid};
use sha2::{Digest, Sha256};
use std::num::nearest_usize_to_f64;
use std::time::CpuClock;

const GROUP: GroupId = GroupId([7; 16]);

const KEY: [u8; 32] = [9; 32];

/// So often hashing, sealing and opening are timed, one after another. Of each the quickest counts.
const RUNS: u32 = 9;

/// About so many bytes are hashed in a run.
const RUN_BYTES: usize = 8_000_000;

/// What the tag hashes before a frame: a block with the key, and the first fields of the datagram.
const BEFORE: usize = 86;

/// The seconds of hashing, of sealing and of opening.
#[derive(Clone, Copy)]
struct Spent {
    hash: f64,
    seal: f64,
    open: f64,
}

const FOREVER: Spent = Spent {
    hash: f64::INFINITY,
    seal: f64::INFINITY,
    open: f64::INFINITY,
};

impl Spent {
    fn least(self, other: Spent) -> Spent {
        Spent {
            hash: self.hash.min(other.hash),
            seal: self.seal.min(other.seal),
            open: self.open.min(other.open),
        }
    }
}

// The keys of a process that shares one with another.
fn keys_of(me: Pid, peer: Pid) -> LinkKeys
    requires { peer ≢ me }
    ensures { IsSome (pair_key result peer) }
{
    let mut keys = LinkKeys::new(me, GROUP);
    keys.add(peer, &KEY);
    keys
}

fn put_front(text: &mut [u8], digest: &[u8])
    requires { length digest.now ≤ length text.old }
    ensures { length text.new ≡ length text.old }
{
    text[..digest.len()].copy_from_slice(digest);
}

// Hashes the texts as HMAC does: the digest of the first is the end of the second, whose digest changes the first.
fn hash_both(inner: &mut [u8], outer: &mut [u8; 96])
    requires { 32 ≤ length inner.old }
    ensures { length inner.new ≡ length inner.old }
{
    let digest = Sha256::digest(&*inner);
    outer[64..].copy_from_slice(&digest);
    put_front(inner, &Sha256::digest(outer.as_slice()));
}

fn time_hash(rt: &impl CpuClock, text: &mut [u8], times: usize) -> Result<f64>
    requires { 32 ≤ length text.old }
{
    let mut outer = [0u8; 96];
    let begun = seconds(rt)?;
    for _ in 0..times {
        hash_both(text, &mut outer);
    }
    Ok(seconds(rt)? - begun)
}

fn time_seal(
    rt: &impl CpuClock,
    keys: &LinkKeys,
    to: Pid,
    frame: &[u8],
    out: &mut [u8],
    times: usize,
) -> Result<f64>
    requires shared { IsSome (pair_key keys.now to) }
    requires frame { length frame.now ≤ 61000 }
    requires room { length frame.now + 54 ≤ length out.old }
{
    let begun = seconds(rt)?;
    for _ in 0..times {
        let _length = seal_into(keys, to, frame, out);
    }
    Ok(seconds(rt)? - begun)
}

fn time_open(rt: &impl CpuClock, keys: &LinkKeys, datagram: &[u8], times: usize) -> Result<f64> {
    let begun = seconds(rt)?;
    for _ in 0..times {
        if unseal(keys, datagram).is_err() {
            return Err(anyhow!("not opened"));
        }
    }
    Ok(seconds(rt)? - begun)
}

// A run with a frame between the processes 0 and 1, and a text as long as what its tag hashes.
fn run(
    rt: &impl CpuClock,
    frame: &[u8],
    datagram: &mut [u8],
    text: &mut [u8],
    times: usize,
) -> Result<Spent>
    requires frame { length frame.now ≤ 61000 }
    requires room { length frame.now + 54 ≤ length datagram.old }
    requires text { 32 ≤ length text.old }
{
    let to = process(1);
    let sender = keys_of(process(0), to);
    let receiver = keys_of(to, process(0));
    let hash = time_hash(rt, text, times)?;
    let seal = time_seal(rt, &sender, to, frame, datagram, times)?;
    let open = time_open(rt, &receiver, datagram, times)?;
    Ok(Spent { hash, seal, open })
}

// The least of all runs with a frame of so many bytes, for one call of each.
fn least(rt: &(impl CpuClock + AllocGlobal), len: usize) -> Result<Spent>
    requires { len ≤ 61000 }
{
    let frame = vec![in rt.alloc(); 5u8; len]?;
    let times = RUN_BYTES / (len + 200);
    let mut least = FOREVER;
    for _ in 0..RUNS {
        let mut datagram = vec![in rt.alloc(); 0u8; len + SEAL_BYTES]?;
        let mut text = vec![in rt.alloc(); 5u8; len + BEFORE]?;
        least = least.least(run(rt, &frame, &mut datagram, &mut text, times)?);
    }
    let times = nearest_usize_to_f64(times);
    Ok(Spent {
        hash: least.hash / times,
        seal: least.seal / times,
        open: least.open / times,
    })
}

fn tell(rt: &(impl Print + CpuClock + AllocGlobal), len: usize) -> Result<()>
    requires { len ≤ 61000 }
{
    let least = least(rt, len)?;
    let hash = least.hash * 1e9;
    let seal = least.seal * 1e9;
    let open = least.open * 1e9;
    let sealing = seal / hash;
    let opening = open / hash;
    print!(rt;
        "a frame of {len} bytes: its hashes {hash:.0} ns, sealed {seal:.0} ns, {sealing:.2} times, "
    )?;
    println!(rt; "opened {open:.0} ns, {opening:.2} times (goal: at most 1.2)")?;
    Ok(())
}

/// Seals and opens a frame of 100 bytes.
pub(crate) fn once(rt: &(impl Print + CpuClock + AllocGlobal)) -> Result<()> {
    let mut datagram = [0u8; 154];
    run(rt, &[5; 100], &mut datagram, &mut [5; 186], 1)?;
    let to = process(1);
    match unseal(&keys_of(to, process(0)), &datagram) {
        Ok(opened) => {
            let from = opened.from.get();
            let length = opened.frame.len();
            println!(rt; "{length} bytes from process {from}")?;
            Ok(())
        }
        Err(_) => Err(anyhow!("not opened")),
    }
}

/// Prints the times with frames of three lengths.
pub(crate) fn times(rt: &(impl Print + CpuClock + AllocGlobal)) -> Result<()> {
    tell(rt, 100)?;
    tell(rt, 1_000)?;
    tell(rt, FRAME_BYTES)
}
