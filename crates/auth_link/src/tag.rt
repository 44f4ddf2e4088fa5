ghost use Rattle.std.specs.Prelude.{◌≡◌, ◌≤◌, ◌++◌, length};
ghost use Rattle.sha2.specs.Sha256.{sha256};
ghost use Rattle.link_defs.specs.Hmac.{block_of, hashed_if_long, xored};
ghost use Rattle.link_defs.specs.Hmac as defs;

use sha2::{Digest, Sha256};

const BLOCK_BYTES: usize = 64;

const IPAD: u8 = 0x36;

const OPAD: u8 = 0x5c;

/// HMAC with SHA-256 (RFC 2104): the tag of a message under a key. A key of more than 64 bytes is hashed first.
#[tactic(auto, unfolding(link_defs::specs::Hmac::hmac))]
pub fn hmac(key: &[u8], message: &[u8]) -> [u8; 32]
    ensures value { result ≡ defs.hmac key.now message.now }
    ensures length { length result ≡ 32 }
{
    let mut inner = key_block(key);
    let mut outer = inner;
    xor_with(IPAD, &mut inner);
    xor_with(OPAD, &mut outer);
    digest_behind(&outer, &digest_behind(&inner, message))
}

fn digest_behind(block: &[u8], message: &[u8]) -> [u8; 32]
    ensures value { result ≡ sha256 (block.now ++ message.now) }
    ensures length { length result ≡ 32 }
{
    let mut hasher = Sha256::new();
    hasher.update(block);
    hasher.update(message);
    hasher.finalize()
}

// The key, hashed if it is longer than a block, and filled up to a block with zeros.
#[tactic(auto, unfolding(link_defs::specs::Hmac::block_bytes))]
fn key_block(key: &[u8]) -> [u8; 64]
    ensures { result ≡ block_of (hashed_if_long key.now) }
{
    if key.len() > BLOCK_BYTES {
        padded(&Sha256::digest(key))
    } else {
        padded(key)
    }
}

fn padded(bytes: &[u8]) -> [u8; 64]
    requires { length bytes.now ≤ 64 }
    ensures { result ≡ block_of bytes.now }
{
    let mut block = [0; BLOCK_BYTES];
    block[..bytes.len()].copy_from_slice(bytes);
    block
}

fn xor_with(pad: u8, block: &mut [u8])
    ensures { block.new ≡ xored pad block.old }
{
    for b in block.iter_mut() {
        *b ^= pad;
    }
}
