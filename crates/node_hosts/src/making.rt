//! A host of a kit, as it starts.
ghost use Rattle.std.specs.Prelude.{◌≡◌, ◌<◌, ◌≤◌, IfOk, IfSome, IsTrue};
ghost use Rattle.byte_defs.specs.Members.{has};
ghost use Rattle.kit_defs.specs.Kits.{IsKit};
ghost use Rattle.journal_defs.specs.declared.Version.{Version};
ghost use Rattle.group_defs.specs.Process.{Process, start};
ghost use Rattle.view_table.specs.Views.{as_view};
ghost use Rattle.node_defs.specs.Casts.{cast_of, hosted_by, setting_of};
ghost use Rattle.sig_scheme.specs.Signers.{used};
ghost use Rattle.hosted_core.specs.Hosts.{IsReal};
ghost use Rattle.node_hosts.specs.Places.{IsHost, IsHosted, IsPlace, number_of};

use crate::host::Host;
use hosted_core::Hosted;
use node_keys::{Kit, link_keys, port_of, roster_of, signer_of};
use rp_base::{NoMemory, Pid};
use sig_scheme::AnySigner;
use std::alloc::Global;
use view_table::View;

// The first view of a kit's group.
fn genesis_of(kit: &Kit) -> View
    requires { IsKit kit.now }
    ensures { result ≡ as_view 0 kit.now.genesis }
{
    View::new(0, kit.genesis()).unwrap()
}

// The host of a process, as it starts.
fn host_of(alloc: Global, kit: &Kit, me: Pid, batch_limit: u8) -> Result<Host, NoMemory>
    requires kit { IsKit kit.now }
    requires hosted { IsTrue (has (hosted_by kit.now) me) }
    requires some { 1 ≤ batch_limit }
    requires few { batch_limit ≤ 16 }
    ensures starts { (version : Version)
        → IfOk result (IsHost (cast_of kit.now version) kit.now me (start (setting_of kit.now) me batch_limit)) }
    ensures number { IfOk result (λ host. number_of host ≡ me) }
{
    let roster = roster_of(alloc, kit)?;
    let signer = signer_of(alloc, kit, me)?;
    let genesis = genesis_of(kit);
    let process = Hosted::new(alloc, kit.group(), roster, genesis, me, batch_limit, signer)?;
    Ok(Host {
        process,
        keys: link_keys(kit, me),
        port: port_of(kit, me),
    })
}

/// The host of a process that begins again.
pub(crate) fn host_again(kit: &Kit, me: Pid, process: Hosted<AnySigner>) -> Host
    requires kit { IsKit kit.now }
    requires real { IsReal used process }
    requires hosted { IsTrue (has (hosted_by kit.now) me) }
    ensures is { (version : Version) (p : Process) → IsHosted (cast_of kit.now version) me p process
        → IsHost (cast_of kit.now version) kit.now me p result }
    ensures process { result.process ≡ process }
{
    Host {
        process,
        keys: link_keys(kit, me),
        port: port_of(kit, me),
    }
}

// What is in the place of this number: its host, where it is hosted.
pub(crate) fn place_of(
    alloc: Global,
    kit: &Kit,
    number: u8,
    batch_limit: u8,
) -> Result<Option<Host>, NoMemory>
    requires kit { IsKit kit.now }
    requires some { 1 ≤ batch_limit }
    requires few { batch_limit ≤ 16 }
    requires within { number < 64 }
    ensures starts { (version : Version)
        → IfOk result (IsPlace (cast_of kit.now version) kit.now number (start (setting_of kit.now) number batch_limit)) }
    ensures number { IfOk result (λ place. IfSome place (λ host. number_of host ≡ number)) }
{
    let Some(me) = Pid::new(number) else {
        return Ok(None);
    };
    if !kit.hosted().contains(me) {
        return Ok(None);
    }
    let host = host_of(alloc, kit, me, batch_limit)?;
    Ok(Some(host))
}
