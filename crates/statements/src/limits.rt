//! The ranges of a statement's numbers.

/// The last number of a view, of a place, and of a sender's messages in one view.
pub const LAST_NUMBER: u16 = 1023;

/// The most places of a view: an End's length, a value's cut and a Want's place go up to it.
pub const MOST_PLACES: u16 = 1024;

/// The most messages of a place.
pub(crate) const MOST_MESSAGES: u8 = 16;

/// The last rank of a member.
pub(crate) const LAST_RANK: u8 = 15;

/// The most bytes of a payload.
pub const PAYLOAD_BYTES: usize = 1024;

/// The most bytes of a statement: an Echo's, with the longest payload.
pub const STATEMENT_BYTES: usize = 1032;

/// The room for the body of a statement, which has at most 1,053 bytes.
pub const BODY_BYTES: usize = 1_100;
