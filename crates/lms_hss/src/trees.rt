// The trees in memory, one for each level, and the keys that they sign.
ghost use Rattle.std.specs.Prelude.{◌≡◌, ◌+◌, ◌*◌, ◌-◌, ◌<◌, IfOk, length};
ghost use Rattle.signature_defs.specs.Lms.{lms_signature_length};
ghost use Rattle.signature_defs.specs.Hss.{signed_key, signed_keys, tree_number};
ghost use Rattle.lms_hss.specs.Plans.{secret};
ghost use Rattle.lms_hss.specs.Trees.{AreTreesOf, IsTreeOf};

use crate::plan::Plan;
use lms_tree::LmsTree;
use std::alloc::{AllocError, Global};

// The first tree of each level.
pub(crate) fn first_trees(alloc: Global, plan: &Plan) -> Result<Vec<LmsTree>, AllocError>
    ensures { IfOk result (λ trees. AreTreesOf (secret plan.now) 0 trees.items) }
{
    let mut trees = Vec::with_capacity(alloc, plan.levels() as usize)?;
    for level in 0..plan.levels() {
        trees.push(plan.make_tree(alloc, level, 0)?)?;
    }
    Ok(trees)
}

// Replaces the trees for signature number `from` by those for number `to`.
pub(crate) fn renew_trees(plan: &Plan, from: u32, to: u32, trees: &mut [LmsTree])
    requires { AreTreesOf (secret plan.now) from trees.old }
    ensures { AreTreesOf (secret plan.now) to trees.new }
{
    for level in 0..plan.levels() {
        plan.renew_tree(level, from, to, &mut trees[level as usize]);
    }
}

// Writes the signature of level `level` on the key of the tree below, and this key.
fn write_signed_key(
    plan: &Plan,
    level: u32,
    number: u32,
    above: &LmsTree,
    below: &LmsTree,
    out: &mut [u8],
)
    requires level { level + 1 < plan.now.levels }
    requires above { IsTreeOf (secret plan.now) level (tree_number (secret plan.now) level number) above.now }
    requires below { IsTreeOf (secret plan.now) (level + 1) (tree_number (secret plan.now) (level + 1) number) below.now }
    requires room { length out.old ≡ lms_signature_length plan.now.ots plan.now.height + 56 }
    ensures { out.new ≡ signed_key (secret plan.now) number level }
{
    let length = plan.level_len();
    let leaf = plan.leaf_number(level, number);
    above.sign_into(leaf, below.public(), &mut out[..length]);
    out[length..].copy_from_slice(below.public());
}

// Writes what each signature with these trees begins with: Nspk, and each level's signature on the key below it.
pub(crate) fn write_signed_keys(plan: &Plan, number: u32, trees: &[LmsTree], out: &mut [u8])
    requires trees { AreTreesOf (secret plan.now) number trees.now }
    requires room { length out.old ≡ 4 + (plan.now.levels - 1) * (lms_signature_length plan.now.ots plan.now.height + 56) }
    ensures { out.new ≡ signed_keys (secret plan.now) number }
{
    let count = plan.levels() - 1;
    let length = plan.level_len() + 56;
    out[..4].copy_from_slice(&count.to_be_bytes());
    for level in 0..count {
        let d = level as usize;
        let at = 4 + d * length;
        write_signed_key(
            plan,
            level,
            number,
            &trees[d],
            &trees[d + 1],
            &mut out[at..at + length],
        );
    }
}
