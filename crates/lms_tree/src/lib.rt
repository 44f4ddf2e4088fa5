//! LMS signatures, a tree over one-time keys, with SHA-256 (RFC 8554, section 5).
#![tactic(auto)]

ghost use Rattle.std.specs.Prelude.{◌≡◌};
ghost use Rattle.signature_defs.specs.Laws.{SignatureIsValid};
ghost use Rattle.signature_defs.specs.Lms.{lms_signature_length};

mod fill;
mod heights;
mod key;
mod nodes;
mod tree;
mod verify;

pub use heights::lms_height_of;
pub use key::LmsKey;
pub use lms_ots::OtsType;
pub use tree::{KeyFault, LmsTree};
pub use verify::{LmsScheme, lms_verify};

/// What any leaf of a tree signs is valid under the tree's public key (RFC 8554, section 5.4).
pub fn signature_is_valid()
    ensures { SignatureIsValid }
{}

/// The lengths of two signatures (RFC 8554, section 5.4): a tree of height 5 with W8, and one of height 10 with W4.
pub fn length_rows()
    ensures low { lms_signature_length OtsType.W8 5 ≡ 1292 }
    ensures high { lms_signature_length OtsType.W4 10 ≡ 2508 }
{}
