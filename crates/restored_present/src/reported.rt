//! What an image tells of its process without its heard lists.
ghost use Rattle.std.specs.Prelude.{◌↔◌, IsTrue};
ghost use Rattle.group_defs.specs.Process.{Setting};
ghost use Rattle.snapshot_rp.specs.Views.{image as image_as};
ghost use Rattle.restored_left.specs.Facts.{Shares};
ghost use Rattle.restored_present.specs.Parts.{IsReportedSo};

use restored_left::{Judge, are_accepted, are_conflicts, are_own, are_perceived};
use rp_base::Scheme;
use snapshot_rp::Image;
use view_table::View;

// Whether all of these hold.
fn hold(accepted: bool, perceived: bool, conflicts: bool, own: bool) -> bool
    ensures { IsTrue result ↔ (IsTrue accepted × IsTrue perceived × IsTrue conflicts × IsTrue own) }
{
    accepted && perceived && conflicts && own
}

/// Whether what is accepted, perceived, signed, and kept as conflicts is kept by a process that is in this view.
pub fn is_reported<V: Scheme>(judge: &Judge<'_, V>, view: &View, image: &Image) -> bool
    ensures { (s : Setting) → Shares s (V.valid judge.now.scheme.now) judge.now.group.now judge.now.roster.now
        → IsTrue result ↔ IsReportedSo s view.now (image_as image.now) }
{
    let (scheme, roster, group) = (judge.scheme, judge.roster, judge.group);
    let keyed = roster.processes();
    let accepted = are_accepted(image.me, &image.accepted, &image.delivered);
    let perceived = are_perceived(view, keyed, &image.perceived);
    let conflicts = are_conflicts(scheme, roster, group, &image.conflicts);
    let own = are_own(scheme, roster, group, image.me, view, &image.signed);
    hold(accepted, perceived, conflicts, own)
}
