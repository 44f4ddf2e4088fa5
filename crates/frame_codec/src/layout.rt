//! How a frame is spelled in bytes. Numbers are big-endian.
//!
//! | Frame | Bytes |
//! |---|---|
//! | Bundle | `01 01`, number of groups 1 byte (1 to 255), groups |
//! | Proof | `01 02`, number of groups 1 byte (1 to 255), groups |
//! | Want | `01 03`, view 2 bytes, place 2 bytes |
//! | group | length 2 bytes, statement; number of signatures 1 byte (1 to 16), signatures |
//! | signature | signer 1 byte, length 2 bytes (at most 16,384), signature |
//!
//! A frame has at most 61,000 bytes, and nothing follows its last field. The signers of a group rise.

pub(crate) const VERSION: u8 = 1;

/// The kind of a frame that may carry each kind of claim.
pub const BUNDLE: u8 = 1;

/// The kind of a frame that answers a Want.
pub const PROOF: u8 = 2;

pub(crate) const WANT: u8 = 3;

/// The most bytes of a frame.
pub const FRAME_BYTES: usize = 61_000;

pub(crate) const FRAME_GROUPS: u8 = 255;

pub(crate) const GROUP_SIGNATURES: u8 = 16;

/// The most bytes of a signature.
pub const SIGNATURE_BYTES: u16 = 16_384;

/// The bytes of a group apart from its statement and its signatures.
pub(crate) const GROUP_HEAD: usize = 3;

/// The bytes of a signature's signer and length.
pub(crate) const SIGNATURE_HEAD: usize = 3;
