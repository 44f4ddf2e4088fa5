//! The kit of a group, on plain data: how it is spelled, read and made.
#![tactic(auto)]

ghost use Rattle.kit_defs.specs.KitLaws.{ReadIsSpelled, SpelledIsRead};

pub use signature_defs::OtsType;

/// Which keys the processes of a new kit get.
#[derive(Clone, Copy, Debug, PartialEq, Eq)]
pub enum KeyPlan {
    /// Plain keys, for rehearsals, and how many signatures each can make.
    Plain(u32),

    /// LMS trees by the typecode of their height, 5 to 7, and the one-time parameter set (RFC 8554, sections 5.1 and 4.1).
    Lms(u32, OtsType),

    /// HSS keys: 1 to 3 levels of such trees, their typecode and one-time parameter set (RFC 8554, section 6). Three levels are not
    /// of typecode 7, and two or three not of W1.
    Hss(u32, u32, OtsType),
}

/// A text that is read as a kit is the kit's spelling.
pub fn read_is_spelled()
    ensures { ReadIsSpelled }
{}

/// A kit in its ranges is read of its spelling.
pub fn spelled_is_read()
    ensures { SpelledIsRead }
{}
