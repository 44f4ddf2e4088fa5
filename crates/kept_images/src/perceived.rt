ghost use Rattle.std.specs.Prelude.{◌≡◌, ◌↔◌, map, IsTrue};
ghost use Rattle.std.specs.List.{list_all};
ghost use Rattle.snapshot_rp.specs.Views.{perceived as plain};
ghost use Rattle.kept_images.specs.Facts.{ArePerceived};
ghost use Rattle.kept_images.specs.Tests as tests;

use rp_base::{PidSet, Update};
use view_table::{View, is_possible};

// Whether the update is of an earlier view, or of this one and possible in it.
fn is_perceived(view: &View, keyed: PidSet, entry: &(u16, Update)) -> bool
    ensures { result ≡ tests.is_perceived keyed view.now (plain entry.now) }
{
    let number = view.number();
    entry.0 < number || entry.0 == number && is_possible(view, keyed, &entry.1)
}

fn each_is_perceived(view: &View, keyed: PidSet, perceived: &[(u16, Update)]) -> bool
    ensures { result ≡ list_all (λ e. tests.is_perceived keyed view.now (plain e)) perceived.now }
{
    perceived
        .iter()
        .all(|entry| is_perceived(view, keyed, entry))
}

/// Whether each update that is perceived is of no later view than this one, and possible in it where it is of this one. `keyed` is the
/// processes with keys.
pub fn are_perceived(view: &View, keyed: PidSet, perceived: &[(u16, Update)]) -> bool
    ensures { IsTrue result ↔ ArePerceived keyed view.now (map plain perceived.now) }
{
    each_is_perceived(view, keyed, perceived)
}
