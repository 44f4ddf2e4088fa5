// Messages of at most 55 bytes, each of which is one block with its padding (FIPS 180-4, section 5.1.1).
ghost use Rattle.std.specs.Prelude.{◌≡◌, ℕ, ◌<◌, ◌≤◌, List, length, slice_index};
ghost use Rattle.sha2.specs.Sha256.{digest_bytes, initial_hash_256, padded_message, sha256};
ghost use Rattle.sha256_lanes.specs.Lanes.{IsBlock, lane, words_in};

use crate::block::compress;
use crate::words::splat;
use std::simd::u32x4;

// The initial hash value (FIPS 180-4, section 5.3.3), in each lane.
#[inline(always)]
fn initial() -> [u32x4; 8]
    ensures { (j : ℕ) → j < 4 → lane j result ≡ initial_hash_256 }
{
    [
        splat(0x6A09_E667),
        splat(0xBB67_AE85),
        splat(0x3C6E_F372),
        splat(0xA54F_F53A),
        splat(0x510E_527F),
        splat(0x9B05_688C),
        splat(0x1F83_D9AB),
        splat(0x5BE0_CD19),
    ]
}

/// The words of four digests, of messages whose only blocks these are.
#[inline(always)]
pub fn hash_short(block: [u32x4; 16]) -> [u32x4; 8]
    ensures { (j : ℕ) → j < 4 → (m : List ℕ) → length m ≤ 55 → IsBlock (words_in j block) (padded_message m)
        → digest_bytes (lane j result) 8 ≡ sha256 m }
{
    compress(initial(), block)
}
