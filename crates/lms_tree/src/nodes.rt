// The hashes of a tree's nodes (RFC 8554, section 5.3).
ghost use Rattle.std.specs.Prelude.{◌≡◌, ◌+◌, ◌<◌, ◌^◌};
ghost use Rattle.signature_defs.specs.Lms.{inner, leaf, parent, sibling};

use sha2::{Digest, Sha256};

const D_LEAF: u16 = 0x8282;

const D_INTR: u16 = 0x8383;

// Node `r`, a leaf, from its one-time public key.
pub(crate) fn leaf(id: &[u8; 16], r: u32, key: &[u8; 32]) -> [u8; 32]
    ensures { result ≡ leaf id.now r key.now }
{
    let mut hasher = Sha256::new();
    hasher.update(id);
    hasher.update(&r.to_be_bytes());
    hasher.update(&D_LEAF.to_be_bytes());
    hasher.update(key);
    hasher.finalize()
}

// Node `r` from its two children.
pub(crate) fn inner(id: &[u8; 16], r: u32, left: &[u8], right: &[u8]) -> [u8; 32]
    ensures { result ≡ inner id.now r left.now right.now }
{
    let mut hasher = Sha256::new();
    hasher.update(id);
    hasher.update(&r.to_be_bytes());
    hasher.update(&D_INTR.to_be_bytes());
    hasher.update(left);
    hasher.update(right);
    hasher.finalize()
}

// The parent of node `r`, from that node and its sibling.
pub(crate) fn parent(id: &[u8; 16], r: u32, value: &[u8], beside: &[u8]) -> [u8; 32]
    ensures { result ≡ parent id.now r value.now beside.now }
{
    if r % 2 == 0 {
        inner(id, r / 2, value, beside)
    } else {
        inner(id, r / 2, beside, value)
    }
}

// The other child of the parent of node `r`.
pub(crate) fn sibling(r: u32) -> u32
    requires { r + 1 < 2 ^ 32 }
    ensures { result ≡ sibling r }
{
    if r % 2 == 0 { r + 1 } else { r - 1 }
}
