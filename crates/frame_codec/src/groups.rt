//! A frame that was read whole, and its groups, one after another.
ghost use Rattle.std.specs.Prelude.{IsOk};
ghost use Rattle.message_defs.specs.Frames.{signatures_at, groups_at};

use crate::reading::{read_group, read_signature};

/// What the bytes of a frame say, and where.
#[derive(Clone, Copy)]
pub enum FrameView<'a> {
    /// Claims of all kinds.
    Bundle(Groups<'a>),

    /// Claims that answer a Want.
    Proof(Groups<'a>),

    /// A process asks for what it lacks, from this view and this place on.
    Want { view: u16, place: u16 },
}

/// The groups that are left in a frame.
#[derive(Clone, Copy)]
pub struct Groups<'a> {
    pub(crate) left: u8,
    pub(crate) bytes: &'a [u8],
    pub ghost readable: { IsOk (groups_at left bytes.now) },
}

/// A statement's bytes, and who signed them.
#[derive(Clone, Copy)]
pub struct Group<'a> {
    pub statement: &'a [u8],
    pub signatures: Signatures<'a>,
}

/// The signatures that are left in a group, by rising signer.
#[derive(Clone, Copy)]
pub struct Signatures<'a> {
    pub(crate) left: u8,
    pub(crate) least: u16,
    pub(crate) bytes: &'a [u8],
    pub ghost readable: { IsOk (signatures_at left least bytes.now) },
}

impl<'a> Iterator for Groups<'a> {
    ghost use Rattle.std.specs.Iterator.{YieldsFirstBy, item_count};
    ghost use Rattle.frame_codec.specs.Views.{group_view, groups_left};

    type Item = Group<'a>;

    ghost next_gives = { YieldsFirstBy group_view groups_left };

    ghost remaining = { item_count groups_left };

    fn next(&mut self) -> Option<Group<'a>> {
        if self.left == 0 {
            return None;
        }
        let Ok((group, rest)) = read_group(self.bytes) else {
            unreachable!();
        };
        *self = Groups {
            left: self.left - 1,
            bytes: rest,
        };
        Some(group)
    }
}

impl<'a> Iterator for Signatures<'a> {
    ghost use Rattle.std.specs.Iterator.{YieldsFirstBy, item_count};
    ghost use Rattle.frame_codec.specs.Views.{signature_view, signatures_left};

    type Item = (u8, &'a [u8]);

    ghost next_gives = { YieldsFirstBy signature_view signatures_left };

    ghost remaining = { item_count signatures_left };

    fn next(&mut self) -> Option<(u8, &'a [u8])> {
        if self.left == 0 {
            return None;
        }
        let Ok((signature, rest)) = read_signature(self.least, self.bytes) else {
            unreachable!();
        };
        *self = Signatures {
            left: self.left - 1,
            least: signature.0 as u16 + 1,
            bytes: rest,
        };
        Some(signature)
    }
}
