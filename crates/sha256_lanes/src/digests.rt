// Four digests as bytes, and as words in lanes.
ghost use Rattle.std.specs.Prelude.{◌≡◌, ℕ, ◌+◌, ◌<◌, ◌≤◌, [], length, slice_index, slice_index_or};
ghost use Rattle.sha2.specs.Sha256.{digest_bytes, word_at};
ghost use Rattle.sha256_lanes.specs.Lanes.{lane};

use std::simd::u32x4;

fn word(bytes: &[u8; 32], at: usize) -> u32
    requires { at + 4 ≤ 32 }
    ensures { result ≡ word_at bytes.now at }
{
    u32::from_be_bytes([bytes[at], bytes[at + 1], bytes[at + 2], bytes[at + 3]])
}

fn words(digest: &[u8; 32]) -> [u32; 8]
    ensures { digest_bytes result 8 ≡ digest.now }
{
    [
        word(digest, 0),
        word(digest, 4),
        word(digest, 8),
        word(digest, 12),
        word(digest, 16),
        word(digest, 20),
        word(digest, 24),
        word(digest, 28),
    ]
}

/// The words of four digests, each in its lane.
pub fn to_lanes(digests: &[[u8; 32]; 4]) -> [u32x4; 8]
    ensures { (j : ℕ) → j < 4 → digest_bytes (lane j result) 8 ≡ slice_index_or digests.now j [] }
{
    let a = words(&digests[0]);
    let b = words(&digests[1]);
    let c = words(&digests[2]);
    let d = words(&digests[3]);
    [
        u32x4::from_array([a[0], b[0], c[0], d[0]]),
        u32x4::from_array([a[1], b[1], c[1], d[1]]),
        u32x4::from_array([a[2], b[2], c[2], d[2]]),
        u32x4::from_array([a[3], b[3], c[3], d[3]]),
        u32x4::from_array([a[4], b[4], c[4], d[4]]),
        u32x4::from_array([a[5], b[5], c[5], d[5]]),
        u32x4::from_array([a[6], b[6], c[6], d[6]]),
        u32x4::from_array([a[7], b[7], c[7], d[7]]),
    ]
}

/// The digest whose words are in a lane.
pub fn from_lane(words: &[u32x4; 8], j: usize) -> [u8; 32]
    requires { j < 4 }
    ensures { result ≡ digest_bytes (lane j words.now) 8 }
{
    let mut digest = [0u8; 32];
    'words: for k in 0..8 {
        digest[4 * k..4 * k + 4].copy_from_slice(&words[k].to_array()[j].to_be_bytes());
    }
    digest
}
