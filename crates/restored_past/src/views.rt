//! The views that were installed.
ghost use Rattle.std.specs.Prelude.{◌≡◌, ◌++◌, ◌∷◌, [], ℕ, map, is_some, IfOk, IfSome, IsTrue};
ghost use Rattle.group_defs.specs.Process.{Setting};
ghost use Rattle.image_defs.specs.Kept.{AreLeft};
ghost use Rattle.snapshot_rp.specs.Views.{left_view};
ghost use Rattle.restored_past.specs.Installed.{installed_from};

use rp_base::NoMemory;
use snapshot_rp::LeftView;
use std::alloc::Global;
use view_table::{View, next};

/// The views that were installed, from the genesis view to the current one, where `left` says how each before it was left. None only
/// where after one of them no view follows.
pub fn installed(
    alloc: Global,
    genesis: View,
    left: &[LeftView],
) -> Result<Option<Vec<View>>, NoMemory>
    ensures views { IfOk result (λ r. IfSome r (λ views. views.items ≡ installed_from genesis (map left_view left.now))) }
    ensures some { (s : Setting) → AreLeft s genesis (map left_view left.now) → IfOk result (λ r. IsTrue (is_some r)) }
{
    let mut views = Vec::new(alloc);
    let mut view = genesis;
    for one in left {
        let Ok(following) = next(&view, one.value.update) else {
            return Ok(None);
        };
        views.push(view)?;
        view = following;
    }
    views.push(view)?;
    Ok(Some(views))
}
