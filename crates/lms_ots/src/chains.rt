// Chains of hashes (RFC 8554, sections 4.3, 4.5 and 4.6). A step takes in one block of SHA-256:
//
// | Bytes | 0 to 15 | 16 to 19 | 20 to 21 | 22 | 23 to 54 |
// |---|---|---|---|---|---|
// | Field | I | q | chain i | step j | value |
ghost use Rattle.std.specs.Prelude.{◌≡◌, ◌++◌, length, take};
ghost use Rattle.sha2.specs.Sha256.{sha256};
ghost use Rattle.signature_defs.specs.Strings.{u8str, u16str, u32str};

use sha2::{Digest, Sha256};

// What each hash of one-time key `q` begins with.
pub(crate) fn key_head(id: &[u8; 16], q: u32) -> [u8; 20]
    ensures { result ≡ id.now ++ u32str q }
{
    let mut head = [0u8; 20];
    head[..16].copy_from_slice(id);
    head[16..].copy_from_slice(&q.to_be_bytes());
    head
}

// What each hash of its chain `i` begins with.
pub(crate) fn chain_head(key: &[u8; 20], i: u16) -> [u8; 22]
    ensures { result ≡ key.now ++ u16str i }
{
    let mut head = [0u8; 22];
    head[..20].copy_from_slice(key);
    head[20..].copy_from_slice(&i.to_be_bytes());
    head
}

fn block_of(head: &[u8; 22]) -> [u8; 55]
    ensures { take 22 result ≡ head.now }
{
    let mut block = [0u8; 55];
    block[..22].copy_from_slice(head);
    block
}

fn step(block: &mut [u8; 55], j: u8, value: &[u8]) -> [u8; 32]
    requires { length value.now ≡ 32 }
    ensures value { result ≡ sha256 (take 22 block.old ++ u8str j ++ value.now) }
    ensures head { take 22 block.new ≡ take 22 block.old }
{
    block[22] = j;
    block[23..].copy_from_slice(value);
    Sha256::digest(block.as_slice())
}

// The secret value at which a chain begins (RFC 8554, Appendix A).
pub(crate) fn secret(head: &[u8; 22], seed: &[u8; 32]) -> [u8; 32]
    ensures { result ≡ sha256 (head.now ++ u8str 0xff ++ seed.now) }
{
    step(&mut block_of(head), 0xff, seed)
}
