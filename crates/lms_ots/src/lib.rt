//! LM-OTS one-time signatures with SHA-256 (RFC 8554, section 4).
#![tactic(auto)]

ghost use Rattle.std.specs.Prelude.{◌≡◌, [], ◌∷◌, map, replicate};
ghost use Rattle.signature_defs.specs.Laws.{CandidateIsKey};
ghost use Rattle.signature_defs.specs.LmOts.{ots_signature_length};
ghost use Rattle.lms_ots.specs.Rows.{checksum_digits, sets};

mod chains;
mod digits;
mod fields;
mod kinds;
mod signatures;

pub use fields::u32_at;
pub use kinds::{ots_signature_length, ots_type_of, ots_typecode};
pub use signature_defs::OtsType;
pub use signatures::{ots_candidate, ots_public, ots_sign_into};

/// What a one-time key signs leads to its public key (RFC 8554, section 4.6).
pub fn candidate_is_key()
    ensures { CandidateIsKey }
{}

/// W1, W2, W4 and W8 (RFC 8554, section 4.1): the lengths of their signatures, and the digits of the checksum of a hash
/// of 32 zero bytes.
pub fn parameter_rows()
    ensures lengths { map ots_signature_length sets ≡ 8516 ∷ 4292 ∷ 2180 ∷ 1124 ∷ [] }
    ensures checksums { map (checksum_digits (replicate 32 0)) sets
        ≡ (1 ∷ 0 ∷ 0 ∷ 0 ∷ 0 ∷ 0 ∷ 0 ∷ 0 ∷ 0 ∷ []) ∷ (1 ∷ 2 ∷ 0 ∷ 0 ∷ 0 ∷ []) ∷ (3 ∷ 12 ∷ 0 ∷ []) ∷ (31 ∷ 224 ∷ []) ∷ [] }
{}
