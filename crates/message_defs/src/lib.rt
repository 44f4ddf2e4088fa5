//! Statements, claims and frames on plain data, and how each is spelled in bytes.
#![tactic(auto)]

/// Why bytes are no frame of claims: the first fault from left to right. Whoever made the bytes is to blame.
#[derive(Clone, Copy, Debug, PartialEq, Eq)]
pub enum FrameFault {
    /// The bytes end in the version, the kind, a count, a length, a signer, or a Want's fields.
    Short,

    /// The first byte is not 1.
    Version,

    /// The second byte is not that of a Bundle, a Proof or a Want.
    Kind,

    /// There is no group, or a group has no signature or more than 16.
    Count,

    /// A length passes the bytes that are left or its limit.
    Length,

    /// A signer is not above the one before it in its group.
    Unordered,

    /// Bytes are left after the last field.
    Trailing,

    /// A statement is not in its grammar.
    Statement,

    /// A number of a statement, a signer or a Want's field is out of its range.
    Range,

    /// A frame of this kind does not carry statements of that kind.
    Misplaced,
}
