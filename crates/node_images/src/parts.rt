//! All parts of a snapshot, judged.
ghost use Rattle.std.specs.Prelude.{◌≡◌, ◌↔◌, ◌<◌, ◌^◌, is_some, map, All, IfOk, IfSome, IsTrue};
ghost use Rattle.kit_defs.specs.Kits.{IsKit};
ghost use Rattle.node_defs.specs.Casts.{hosted_by};
ghost use Rattle.snapshot_lines.specs.Views.{ArePartsOf, part_as};
ghost use Rattle.node_images.specs.Judging.{AreJudged, IsPartFor};

use crate::judged::Judged;
use crate::judging::judge_part;
use node_keys::Kit;
use rp_base::NoMemory;
use snapshot_lines::Part;
use std::alloc::Global;

/// The processes of these parts, in their order; None exactly where one of the parts is none for the kit's node at this place.
pub(crate) fn judge_parts(
    alloc: Global,
    kit: &Kit,
    place: u64,
    parts: Vec<Part>,
) -> Result<Option<Vec<Judged>>, NoMemory>
    requires kit { IsKit kit.now }
    requires parts { ArePartsOf (hosted_by kit.now) (map part_as parts.items) }
    ensures exact { IfOk result (λ r. IsTrue (is_some r) ↔ All (IsPartFor kit.now place) (map part_as parts.items)) }
    ensures within { place < 2 ^ 64 }
    ensures are { IfOk result (λ r. IfSome r (λ all. AreJudged kit.now (map part_as parts.items) all.items)) }
{
    let mut all = Vec::new(alloc);
    let mut left = parts.into_iter();
    'parts: while let Some(part) = left.next() {
        match judge_part(alloc, kit, place, part)? {
            Some(one) => all.push(one)?,
            None => return Ok(None),
        }
    }
    Ok(Some(all))
}
