//! HSS signatures, trees in levels, with SHA-256 (RFC 8554, section 6).
#![tactic(auto)]

ghost use Rattle.std.specs.Prelude.{◌≡◌};
ghost use Rattle.signature_defs.specs.Hss.{hss_signature_length};
ghost use Rattle.signature_defs.specs.Laws.{HssSignatureIsValid, LeafSignsOneText};

mod faults;
mod key;
mod plan;
mod trees;
mod verify;

pub use faults::KeyFault;
pub use key::HssKey;
pub use lms_ots::OtsType;
pub use verify::{HssScheme, hss_verify};

/// What a key of 1 to 8 levels signs with any number is valid under its public key (RFC 8554, section 6.2).
pub fn hss_signature_is_valid()
    ensures { HssSignatureIsValid }
{}

/// Where two numbers use one leaf of one tree, it signs one text for both.
pub fn leaf_signs_one_text()
    ensures { LeafSignsOneText }
{}

/// The lengths of three signatures (RFC 8554, section 6.2): trees of height 5 with W8 in two and in three levels, and the longest
/// that is made, of height 10 with W2 in three.
pub fn length_rows()
    ensures two { hss_signature_length 2 OtsType.W8 5 ≡ 2644 }
    ensures three { hss_signature_length 3 OtsType.W8 5 ≡ 3992 }
    ensures longest { hss_signature_length 3 OtsType.W2 10 ≡ 13976 }
{}
