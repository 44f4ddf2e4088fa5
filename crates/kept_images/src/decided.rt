ghost use Rattle.std.specs.Prelude.{◌≡◌, ◌↔◌, IsTrue};
ghost use Rattle.member_events.specs.Below.{report};
ghost use Rattle.kept_images.specs.Facts.{Decides, IsHaltedSo};
ghost use Rattle.kept_images.specs.Tests as tests;

use rp_base::{Pid, PidSet, Value};
use view_table::{View, is_possible};

// Whether the value ends the view: its update is possible there, the process is a member, and `places` is not the cut.
fn ends(view: &View, keyed: PidSet, me: Pid, places: u32, decision: Option<(u8, Value)>) -> bool
    ensures { result ≡ tests.ends keyed view.now me places (report decision) }
{
    match decision {
        None => true,
        Some((_, value)) => {
            is_possible(view, keyed, &value.update)
                && view.is_member(me)
                && places != u32::from(value.cut)
        }
    }
}

/// Whether the update of what is decided, if anything is, is possible in the view, the process is a member of it, and the number of places
/// that it has delivered is not the cut. `keyed` is the processes with keys.
pub fn decides(
    view: &View,
    keyed: PidSet,
    me: Pid,
    places: u32,
    decision: Option<(u8, Value)>,
) -> bool
    ensures { IsTrue result ↔ Decides keyed view.now me places (report decision) }
{
    ends(view, keyed, me, places, decision)
}

// Whether something is decided, and `places` is beyond the cut.
fn is_passed(places: u32, decision: Option<(u8, Value)>) -> bool
    ensures { result ≡ tests.is_passed places (report decision) }
{
    match decision {
        None => false,
        Some((_, value)) => u32::from(value.cut) < places,
    }
}

/// Whether the process has halted exactly where something is decided, and it has delivered more `places` than the cut.
pub fn is_halted_so(halted: bool, places: u32, decision: Option<(u8, Value)>) -> bool
    ensures { IsTrue result ↔ IsHaltedSo halted places (report decision) }
{
    halted == is_passed(places, decision)
}
