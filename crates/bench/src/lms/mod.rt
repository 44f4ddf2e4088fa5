//! The time of LMS against the hashes that it takes: how much longer each call takes than as many blocks hashed by SHA-256 alone, in the
//! same run. In small it signs and verifies once.
mod timing;

use anyhow::{Result, anyhow};
use lms_hss::{HssKey, hss_verify};
use lms_tree::{LmsKey, OtsType, lms_verify};
use rp_base::Signer;
use std::alloc::Global;
pub(crate) use timing::print_times;

const ID: [u8; 16] = [7; 16];

const SEED: [u8; 32] = [9; 32];

const MESSAGE: &[u8] = b"a message";

// A key of one tree.
fn make(alloc: Global, height: u32, ots: OtsType) -> Result<LmsKey> {
    match LmsKey::make(alloc, height, ots, ID, SEED) {
        Ok(key) => Ok(key),
        Err(_) => Err(anyhow!("no key")),
    }
}

// A key of two levels of height 5 with W8: 1,024 signatures.
fn make_levels(alloc: Global) -> Result<HssKey> {
    match HssKey::make(alloc, 2, 5, OtsType::W8, ID, SEED) {
        Ok(key) => Ok(key),
        Err(_) => Err(anyhow!("no key")),
    }
}

// Signs the message with the next leaf.
fn sign<G: Signer>(key: &mut G, out: &mut [u8]) -> Result<()> {
    if key.sig_len() > out.len() {
        return Err(anyhow!("no room"));
    }
    match key.sign(MESSAGE, out) {
        Ok(_) => Ok(()),
        Err(_) => Err(anyhow!("spent")),
    }
}

/// Signs and verifies with a key of one tree, and with one of two levels.
pub(crate) fn once(rt: &(impl Print + AllocGlobal)) -> Result<()> {
    let mut key = make(rt.alloc(), 5, OtsType::W8)?;
    let mut sig = vec![in rt.alloc(); 0u8; key.sig_len()]?;
    sign(&mut key, &mut sig)?;
    let length = sig.len();
    let valid = lms_verify(key.public(), MESSAGE, &sig);
    println!(rt; "{length} bytes, {valid}")?;
    let mut key = make_levels(rt.alloc())?;
    let mut sig = vec![in rt.alloc(); 0u8; key.sig_len()]?;
    sign(&mut key, &mut sig)?;
    let length = sig.len();
    let valid = hss_verify(key.public(), MESSAGE, &sig);
    println!(rt; "two levels: {length} bytes, {valid}")?;
    Ok(())
}
