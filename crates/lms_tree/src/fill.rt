// All nodes of a tree (RFC 8554, section 5.3): the root is node 1, the children of node r are 2r and 2r + 1, and the
// leaves are the nodes from 2^h on.
ghost use Rattle.std.specs.Prelude.{◌≡◌, ◌*◌, ◌≤◌, ◌^◌, length, IfOk};
ghost use Rattle.lms_tree.specs.Tree.{HoldsFrom, IsTree};

use crate::nodes::{inner, leaf};
use lms_ots::{OtsType, ots_public};
use std::alloc::{AllocError, Global};

fn put_leaves(nodes: &mut [[u8; 32]], kind: OtsType, height: usize, id: &[u8; 16], seed: &[u8; 32])
    requires height { height ≤ 15 }
    requires room { length nodes.old ≡ 2 * 2 ^ height }
    ensures { HoldsFrom (2 ^ height) kind height id.now seed.now nodes.new }
{
    let leaves = 1u32 << height;
    for q in 0..leaves {
        let r = leaves + q;
        nodes[r as usize] = leaf(id, r, &ots_public(kind, id, q, seed));
    }
}

fn put_inner(nodes: &mut [[u8; 32]], kind: OtsType, height: usize, id: &[u8; 16], seed: &[u8; 32])
    requires height { height ≤ 15 }
    requires room { length nodes.old ≡ 2 * 2 ^ height }
    requires leaves { HoldsFrom (2 ^ height) kind height id.now seed.now nodes.old }
    ensures { HoldsFrom 1 kind height id.now seed.now nodes.new }
{
    for r in (1..1u32 << height).rev() {
        let left = 2 * r as usize;
        nodes[r as usize] = inner(id, r, &nodes[left], &nodes[left + 1]);
    }
}

// Fills a tree's list of nodes, whatever was in it.
pub(crate) fn fill_nodes(
    nodes: &mut [[u8; 32]],
    kind: OtsType,
    height: usize,
    id: &[u8; 16],
    seed: &[u8; 32],
)
    requires height { height ≤ 15 }
    requires room { length nodes.old ≡ 2 * 2 ^ height }
    ensures { IsTree kind height id.now seed.now nodes.new }
{
    put_leaves(nodes, kind, height, id, seed);
    put_inner(nodes, kind, height, id, seed);
}

pub(crate) fn make_nodes(
    alloc: Global,
    kind: OtsType,
    height: usize,
    id: &[u8; 16],
    seed: &[u8; 32],
) -> Result<Vec<[u8; 32]>, AllocError>
    requires { height ≤ 15 }
    ensures { IfOk result (λ nodes. IsTree kind height id.now seed.now nodes.items) }
{
    let mut nodes = vec![in alloc; [0u8; 32]; 2 << height]?;
    fill_nodes(&mut nodes, kind, height, id, seed);
    Ok(nodes)
}
