use crate::pid::Pid;

/// How the members of the next view differ from those of this one.
///
/// Updates are ordered: Remove by process number, then Add by process number, then Renew.
#[derive(Clone, Copy, Debug, PartialEq, Eq, PartialOrd, Ord, Hash)]
pub enum Update {
    /// This member leaves, and those after it close up.
    Remove(Pid),

    /// This process becomes the last member.
    Add(Pid),

    /// The members stay, and a new view begins.
    Renew,
}

/// What ends a view: an update, and the cut, which is the number of places of the closing view that count
/// (0 to 1,024).
///
/// Values are ordered by update, then by cut.
#[derive(Clone, Copy, Debug, PartialEq, Eq, PartialOrd, Ord)]
pub struct Value {
    /// What becomes of the members.
    pub update: Update,

    /// How many places of the closing view count.
    pub cut: u16,
}

/// Why no view follows from a view and an update: the first of these that holds, in this order. Whoever handed the
/// update in, or signed for it, is to blame; a view that is at its limit is nobody's fault.
#[derive(Clone, Copy, Debug, PartialEq, Eq)]
pub enum UpdateFault {
    /// The view has the last number, 1,023. No update can follow it.
    ViewsSpent,

    /// The process of an Add is a member already.
    AlreadyMember,

    /// An Add, where the view has 16 members.
    GroupFull,

    /// The process of a Remove is no member.
    NotMember,

    /// A Remove of the only member.
    LastMember,
}

impl Update {
    ghost use Rattle.std.specs.Prelude.{◌≡◌};
    ghost use Rattle.message_defs.specs.Updates.{update_below};
    ghost use Rattle.rp_base.specs.Views.{update};

    /// Whether it comes before the other in the order of updates.
    pub fn is_before(self, other: Update) -> bool
        ensures { result ≡ update_below (update self) (update other) }
    {
        self < other
    }
}

impl Value {
    ghost use Rattle.std.specs.Prelude.{◌≡◌};
    ghost use Rattle.message_defs.specs.Updates.{value_below};
    ghost use Rattle.rp_base.specs.Views.{value};

    /// Whether it comes before the other in the order of values.
    pub fn is_before(self, other: Value) -> bool
        ensures { result ≡ value_below (value self) (value other) }
    {
        self < other
    }
}
