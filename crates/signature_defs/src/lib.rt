//! Signatures on lists of bytes: what is valid, and which signature is made.
#![tactic(auto)]

/// The parameter set of an LM-OTS one-time key with SHA-256 (RFC 8554, section 4.1), named for the bits of a digit.
#[derive(Clone, Copy, Debug, PartialEq, Eq)]
pub enum OtsType {
    /// LMOTS_SHA256_N32_W1
    W1,

    /// LMOTS_SHA256_N32_W2
    W2,

    /// LMOTS_SHA256_N32_W4
    W4,

    /// LMOTS_SHA256_N32_W8
    W8,
}
