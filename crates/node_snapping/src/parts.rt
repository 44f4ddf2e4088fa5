//! The parts of a node's snapshot, one of each process that it hosts.
ghost use Rattle.std.specs.Prelude.{◌≡◌, ◌++◌, ◌∷◌, [], ℕ, List, map, None, IfOk, IsTrue, OnOk};
ghost use Rattle.byte_defs.specs.Members.{has};
ghost use Rattle.kit_defs.specs.Kits.{Kit};
ghost use Rattle.group_defs.specs.Process.{Process};
ghost use Rattle.image_defs.specs.Images.{image_of as plain_image};
ghost use Rattle.state_image.specs.States.{image as image_as};
ghost use Rattle.node_defs.specs.Casts.{Cast};
ghost use Rattle.node_snapshots.specs.Parts.{part_as};
ghost use Rattle.node_serving.specs.Hosts.{AreHosts, IsHost, count_in};
ghost use Rattle.node_snapping.specs.Snapping.{part_now};

use node_serving::{Counts, Host, Hosts};
use node_snapshots::Part;
use rp_base::{NoMemory, Pid};
use state_image::{Image, image_in};
use std::alloc::Global;

// The image of a hosted process.
fn image_of(alloc: Global, host: &Host) -> Result<Image, NoMemory>
    ensures { (c : Cast) (kit : Kit) (p : ℕ) (now : Process) → IsHost c kit p now host.now
        → IfOk result (λ image. image_as image ≡ plain_image now) }
{
    let core = host.process.core();
    image_in(alloc, core.state(), core.used() as usize)
}

// The part of a process behind the others, if it is hosted.
fn push_one(
    alloc: Global,
    hosts: &Hosts,
    counts: &Counts,
    p: Pid,
    parts: &mut Vec<Part>,
) -> Result<(), NoMemory>
    ensures { (c : Cast) (kit : Kit) (now : ℕ → Process) → AreHosts c kit now None hosts.now → IsTrue (has c.hosted p)
        → OnOk result (map part_as parts.new.items ≡ map part_as parts.old.items ++ part_now counts.now now p ∷ []) }
{
    match hosts.host(p) {
        Some(host) => {
            let image = image_of(alloc, host)?;
            let entries = counts.of(p);
            parts.push(Part { entries, image })?;
            Ok(())
        }
        None => Ok(()),
    }
}

/// The parts of the hosted processes, by rising number: how many entries each has, and its image.
///
/// # Errors
/// [`NoMemory`].
pub(crate) fn parts_of(alloc: Global, hosts: &Hosts, counts: &Counts) -> Result<Vec<Part>, NoMemory>
    ensures { (c : Cast) (kit : Kit) (now : ℕ → Process) → AreHosts c kit now None hosts.now
        → IfOk result (λ parts. map part_as parts.items ≡ map (part_now counts.now now) c.hosted) }
{
    let mut parts = Vec::new(alloc);
    'hosts: for p in hosts.numbers().iter() {
        push_one(alloc, hosts, counts, p, &mut parts)?;
    }
    Ok(parts)
}
