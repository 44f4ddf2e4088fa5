//! All hosted processes of a snapshot.
ghost use Rattle.std.specs.Prelude.{◌≡◌, ◌≤◌, IfOk};
ghost use Rattle.journal_defs.specs.declared.Version.{Version};
ghost use Rattle.journal_defs.specs.Journals.{batch_limit as limit_of};
ghost use Rattle.kit_defs.specs.Kits.{IsKit};
ghost use Rattle.node_defs.specs.Casts.{cast_of, hosted_by};
ghost use Rattle.node_defs.specs.Snapshots.{IsSnapshotFor};
ghost use Rattle.node_images.specs.Said.{ArePartsOf, SnapSaid, snapshot_said};
ghost use Rattle.node_images.specs.Judging.{AreJudged};
ghost use Rattle.restored_hosts.specs.Begun.{HasBegun};

use crate::again::go_on;
use node_images::{Judged, Kit};
use node_service::{Counts, Hosts};
use rp_base::NoMemory;
use std::alloc::Global;

/// The hosted processes with which a node begins.
#[derive(Drop)]
pub struct Begun {
    /// The processes.
    pub hosts: Hosts,

    /// How many entries each had before.
    pub counts: Counts,
}

/// The hosts of these processes, which are all that the kit hosts. An own Order has at most `batch_limit` messages: 1 with a journal of the
/// first version, 16 with one of the second.
///
/// # Errors
/// [`NoMemory`].
pub fn hosts_of(
    alloc: Global,
    kit: &Kit,
    processes: Vec<Judged>,
    batch_limit: u8,
) -> Result<Begun, NoMemory>
    requires kit { IsKit kit.now }
    requires some { 1 ≤ batch_limit }
    requires few { batch_limit ≤ 16 }
    requires judged { (t : SnapSaid) × ArePartsOf (hosted_by kit.now) t.parts × AreJudged kit.now t.parts processes.items }

    // Each process begins as its image says, and has as many entries as the snapshot says.
    ensures { (version : Version) (t : SnapSaid) → limit_of version ≡ batch_limit → ArePartsOf (hosted_by kit.now) t.parts
        → AreJudged kit.now t.parts processes.items → IsSnapshotFor (cast_of kit.now version) (snapshot_said t)
        → IfOk result (HasBegun kit.now version t) }
{
    let mut hosts = Hosts::none_yet(alloc, kit)?;
    let mut counts = Counts::new();
    let mut left = processes.into_iter();
    'processes: while let Some(judged) = left.next() {
        counts.begin(judged.process, judged.entries);
        let process = go_on(alloc, judged, batch_limit)?;
        hosts.put(kit, process);
    }
    Ok(Begun { hosts, counts })
}
