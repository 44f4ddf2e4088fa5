// Keys of trees, which faults they have, and their public keys.
ghost use Rattle.std.specs.Prelude.{◌≡◌, ◌↔◌, true, None, IfOk, IsErrOf, IsOkUnless};
ghost use Rattle.std.specs.Option.{MatchOption};
ghost use Rattle.signature_defs.specs.Hss.{height_in_range, length_in_range, levels_in_range};
ghost use Rattle.signature_defs.specs.Secrets.{levels_are_built};
ghost use Rattle.lms_tree.specs.Key as trees;
ghost use Rattle.lms_hss.specs.Key as levels;
ghost use Rattle.lms_hss.specs.Refusals.{refusal};
ghost use Rattle.sig_scheme.specs.Keys.{tree_refusal};

use lms_hss::{HssKey, KeyFault};
use lms_ots::OtsType;
use lms_tree::LmsKey;
use rp_base::Signer;
use std::alloc::Global;

/// The key of one tree; its faults are those of keys in levels.
pub(crate) fn lms_key(
    alloc: Global,
    height: u32,
    ots: OtsType,
    id: [u8; 16],
    seed: [u8; 32],
) -> Result<LmsKey, KeyFault>
    ensures made { IfOk result (trees.IsMadeFrom height ots id seed) }
    ensures refused { MatchOption (tree_refusal height) (IsOkUnless result KeyFault.NoMemory) (IsErrOf result) }
{
    match LmsKey::make(alloc, height, ots, id, seed) {
        Ok(key) => Ok(key),
        Err(lms_tree::KeyFault::TooTall) => Err(KeyFault::TooTall),
        Err(lms_tree::KeyFault::NoMemory) => Err(KeyFault::NoMemory),
    }
}

/// The bytes of a tree's public key.
pub(crate) fn lms_bytes(key: &LmsKey) -> [u8; 56]
    ensures { result ≡ trees.public_of key.now }
{
    let mut bytes = [0u8; 56];
    bytes.copy_from_slice(key.public());
    bytes
}

/// The bytes of the public key of trees in levels.
pub(crate) fn hss_bytes(key: &HssKey) -> [u8; 60]
    ensures { result ≡ levels.public_of key.now }
{
    let mut bytes = [0u8; 60];
    bytes.copy_from_slice(key.public());
    bytes
}

fn levels_fit(levels: u32) -> bool
    ensures { result ≡ levels_in_range levels }
{
    levels >= 1 && levels <= 3
}

// Typecodes 5, 6 and 7, but 7 not in three levels.
fn height_fits(levels: u32, height: u32) -> bool
    ensures { result ≡ height_in_range levels height }
{
    height >= 5 && (height <= 6 || (height == 7 && levels <= 2))
}

// W1 in one level alone.
fn length_fits(levels: u32, ots: OtsType) -> bool
    ensures { result ≡ length_in_range levels ots }
{
    match ots {
        OtsType::W1 => levels <= 1,
        OtsType::W2 | OtsType::W4 | OtsType::W8 => true,
    }
}

/// Whether a key in `levels` levels, of trees of a height's typecode and with a one-time parameter set, is refused for want of
/// memory at most: 1 to 3 levels of typecodes 5, 6 and 7, but 7 not in three levels, and W1 in one level alone.
pub fn levels_are_built(levels: u32, height: u32, ots: OtsType) -> bool
    ensures value { result ≡ levels_are_built levels height ots }
    ensures refused { (result ≡ true) ↔ (refusal levels height ots ≡ None) }
{
    levels_fit(levels) && height_fits(levels, height) && length_fits(levels, ots)
}
