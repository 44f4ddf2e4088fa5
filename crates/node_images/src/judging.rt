//! What a snapshot has of one process, judged.
ghost use Rattle.std.specs.Prelude.{◌≡◌, ◌↔◌, ◌≤◌, is_some, IfOk, IfSome, IsTrue};
ghost use Rattle.byte_defs.specs.Members.{has};
ghost use Rattle.kit_defs.specs.Kits.{IsKit};
ghost use Rattle.member_restoring.specs.States.{IsImage, Two};
ghost use Rattle.snapshot_lines.specs.Said.{image as image_as};
ghost use Rattle.snapshot_lines.specs.Views.{part_as};
ghost use Rattle.view_table.specs.Views.{as_view};
ghost use Rattle.node_defs.specs.Casts.{hosted_by};
ghost use Rattle.node_images.specs.Judging.{IsFitFor, IsJudged, IsPartFor};

use crate::judged::Judged;
use member_restoring::{RestoreFault, judge};
use node_keys::{Kit, roster_of, signer_of};
use rp_base::{NoMemory, Pid};
use snapshot_lines::{Image, Part};
use std::alloc::Global;
use view_table::View;

// The first view of a kit's group.
fn genesis_of(kit: &Kit) -> View
    requires { IsKit kit.now }
    ensures { result ≡ as_view 0 kit.now.genesis }
{
    View::new(0, kit.genesis()).unwrap()
}

// The process of an image, which has its number; None exactly where the image is not kept, or has more signed claims than the key can make
// signatures.
fn process_of(
    alloc: Global,
    kit: &Kit,
    process: Pid,
    entries: u64,
    image: Image,
) -> Result<Option<Judged>, NoMemory>
    requires kit { IsKit kit.now }
    requires hosted { IsTrue (has (hosted_by kit.now) process) }
    requires writable { IsImage Two (image_as image) }
    requires number { image.me ≡ process }
    ensures exact { IfOk result (λ r. IsTrue (is_some r) ↔ IsFitFor kit.now process (image_as image)) }
    ensures is { IfOk result (λ r. IfSome r (IsJudged kit.now (process, entries, image_as image))) }
{
    let roster = roster_of(alloc, kit)?;
    let signer = signer_of(alloc, kit, process)?;
    let genesis = genesis_of(kit);
    match judge(
        alloc,
        &kit.scheme(),
        kit.group(),
        roster,
        genesis,
        image,
        signer,
    ) {
        Ok(restored) => Ok(Some(Judged {
            process,
            entries,
            restored,
        })),
        Err(RestoreFault::NotKept) => Ok(None),
        Err(RestoreFault::NoMemory) => Err(NoMemory),
    }
}

// Whether the image has the process's number, and the entries are no more than the place.
fn is_counted(me: Pid, process: Pid, entries: u64, place: u64) -> bool
    ensures { IsTrue result ↔ ((me ≡ process) × (entries ≤ place)) }
{
    me == process && entries <= place
}

/// The process of a part; None exactly where the part is none for the kit's node at this place.
pub(crate) fn judge_part(
    alloc: Global,
    kit: &Kit,
    place: u64,
    part: Part,
) -> Result<Option<Judged>, NoMemory>
    requires kit { IsKit kit.now }
    requires hosted { IsTrue (has (hosted_by kit.now) part.process) }
    requires writable { IsImage Two (image_as part.image) }
    ensures exact { IfOk result (λ r. IsTrue (is_some r) ↔ IsPartFor kit.now place (part_as part)) }
    ensures is { IfOk result (λ r. IfSome r (IsJudged kit.now (part_as part))) }
{
    let Part {
        process,
        entries,
        image,
    } = part;
    if !is_counted(image.me, process, entries, place) {
        return Ok(None);
    }
    process_of(alloc, kit, process, entries, image)
}
