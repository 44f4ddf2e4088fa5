ghost use Rattle.std.specs.Prelude.{◌≡◌, IfOk};
ghost use Rattle.bench_parts.specs.Hashes.{hashed, hashed_once};
ghost use Rattle.bench_parts.specs.Hashes as defs;

use sha2::{Digest, Sha256};
use std::io;
use std::time::CpuClock;

/// How many blocks of 64 bytes SHA-256 hashes for a text of `len` bytes, with one byte more and the length in 8 after it.
pub fn blocks_of(len: u64) -> u64
    ensures { result ≡ defs.blocks_of len }
{
    let whole = len / 64;
    if len % 64 < 56 { whole + 1 } else { whole + 2 }
}

/// 55 bytes that were hashed again and again, and the seconds that it took.
#[derive(Clone, Copy)]
pub struct TimedBlocks {
    pub bytes: [u8; 55],
    pub seconds: f64,
}

/// The seconds of the processor that this thread has had.
pub fn seconds(rt: &impl CpuClock) -> io::Result<f64> {
    Ok(rt.thread_cpu_time()?.as_secs_f64())
}

// Hashes one block, and puts the digest into it.
fn hash_block(block: &mut [u8; 55])
    ensures { block.new ≡ hashed_once block.old }
{
    let digest = Sha256::digest(block.as_slice());
    block[..32].copy_from_slice(&digest);
}

fn hash_blocks(count: u32) -> [u8; 55]
    ensures { result ≡ hashed count }
{
    let mut block = [0u8; 55];
    'rounds: for _ in 0..count {
        hash_block(&mut block);
    }
    block
}

/// Hashes `count` blocks, each with the digest of the one before it, and nothing else.
pub fn time_blocks(rt: &impl CpuClock, count: u32) -> io::Result<TimedBlocks>
    ensures { IfOk result (λ timed. timed.bytes ≡ hashed count) }
{
    let begun = seconds(rt)?;
    let bytes = hash_blocks(count);
    let ended = seconds(rt)?;
    Ok(TimedBlocks {
        bytes,
        seconds: ended - begun,
    })
}
