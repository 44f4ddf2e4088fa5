// The parameter sets of RFC 8554, section 4.1:
//
// | Typecode | Name | w | p | ls | Signature bytes |
// |---|---|---|---|---|---|
// | 1 | W1 | 1 | 265 | 7 | 8,516 |
// | 2 | W2 | 2 | 133 | 6 | 4,292 |
// | 3 | W4 | 4 | 67 | 4 | 2,180 |
// | 4 | W8 | 8 | 34 | 0 | 1,124 |
ghost use Rattle.std.specs.Prelude.{◌≡◌, ◌<◌, ◌≤◌, ◌*◌};
ghost use Rattle.signature_defs.specs.LmOts.{ots_typecode, ots_type_of, ots_width, ots_chains, ots_shift, ots_steps, ots_signature_length};

use signature_defs::OtsType;

/// The typecode of a parameter set, 1 to 4 (RFC 8554, section 4.1).
pub fn ots_typecode(kind: OtsType) -> u32
    ensures { result ≡ ots_typecode kind }
{
    match kind {
        OtsType::W1 => 1,
        OtsType::W2 => 2,
        OtsType::W4 => 3,
        OtsType::W8 => 4,
    }
}

/// The parameter set of a typecode; None exactly where it is not 1 to 4 (RFC 8554, section 4.1).
pub fn ots_type_of(typecode: u32) -> Option<OtsType>
    ensures { result ≡ ots_type_of typecode }
{
    match typecode {
        1 => Some(OtsType::W1),
        2 => Some(OtsType::W2),
        3 => Some(OtsType::W4),
        4 => Some(OtsType::W8),
        _ => None,
    }
}

/// The bytes of a signature: 8,516, 4,292, 2,180 or 1,124.
pub fn ots_signature_length(kind: OtsType) -> usize
    ensures { result ≡ ots_signature_length kind }
{
    4 + 32 * (usize::from(ots_chains(kind)) + 1)
}

// w, the bits of a digit.
pub(crate) fn ots_width(kind: OtsType) -> usize
    ensures { result ≡ ots_width kind }
{
    match kind {
        OtsType::W1 => 1,
        OtsType::W2 => 2,
        OtsType::W4 => 4,
        OtsType::W8 => 8,
    }
}

// p, the number of chains.
pub(crate) fn ots_chains(kind: OtsType) -> u16
    ensures value { result ≡ ots_chains kind }
    ensures some { 1 ≤ result }
    ensures bound { result ≤ 265 }
{
    match kind {
        OtsType::W1 => 265,
        OtsType::W2 => 133,
        OtsType::W4 => 67,
        OtsType::W8 => 34,
    }
}

// ls, by how many bits the checksum is shifted to the left.
pub(crate) fn ots_shift(kind: OtsType) -> u32
    ensures { result ≡ ots_shift kind }
{
    match kind {
        OtsType::W1 => 7,
        OtsType::W2 => 6,
        OtsType::W4 => 4,
        OtsType::W8 => 0,
    }
}

// The number of a chain's steps, which is the largest digit too.
pub(crate) fn ots_steps(kind: OtsType) -> u8
    ensures { result ≡ ots_steps kind }
{
    match kind {
        OtsType::W1 => 1,
        OtsType::W2 => 3,
        OtsType::W4 => 15,
        OtsType::W8 => 255,
    }
}
