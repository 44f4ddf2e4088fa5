//! Whether statements are one, or conflict.
ghost use Rattle.std.specs.Prelude.{◌≡◌};
ghost use Rattle.message_defs.specs.Statements.{same_statement};
ghost use Rattle.member_events.specs.Below.{stmt};
ghost use Rattle.kept_images.specs.Tests as tests;

use member_events::{Statement, conflicts, is_same_slot};

/// Whether they are of one slot, and differ.
pub(crate) fn are_conflicting(a: &Statement<'_>, b: &Statement<'_>) -> bool
    ensures { result ≡ tests.conflicting (stmt a.now) (stmt b.now) }
{
    conflicts(a, b)
}

/// Whether they are one statement.
pub(crate) fn is_same(a: &Statement<'_>, b: &Statement<'_>) -> bool
    ensures { result ≡ same_statement (stmt a.now) (stmt b.now) }
{
    let slot = is_same_slot(a, b);
    let differ = conflicts(a, b);
    slot && !differ
}
