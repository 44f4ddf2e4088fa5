//! What is said of the hosted processes as a node begins.
ghost use Rattle.std.specs.Prelude.{◌≡◌, ◌++◌, ℕ, None, IfOk, IsTrue, OnOk};
ghost use Rattle.std.specs.List.{flat_map};
ghost use Rattle.byte_defs.specs.Members.{has};
ghost use Rattle.kit_defs.specs.Kits.{Kit};
ghost use Rattle.group_defs.specs.Process.{Process};
ghost use Rattle.node_defs.specs.Lines.{host_line};
ghost use Rattle.node_defs.specs.Casts.{Cast};
ghost use Rattle.restored_hosts.specs.Below.{AreHosts, count_in};

use restored_hosts::{Counts, Hosts, push_host};
use rp_base::{NoMemory, Pid};
use std::alloc::Global;

// The line of a process, if it is hosted.
fn push_one(hosts: &Hosts, counts: &Counts, p: Pid, text: &mut Vec<u8>) -> Result<(), NoMemory>
    ensures { (c : Cast) (kit : Kit) (now : ℕ → Process) → AreHosts c kit now None hosts.now → IsTrue (has c.hosted p)
        → OnOk result (text.new.items ≡ text.old.items ++ host_line (now p) (count_in counts.now p)) }
{
    match hosts.host(p) {
        Some(host) => push_host(text, host.process.core().account(), counts.of(p)),
        None => Ok(()),
    }
}

/// The lines of the hosted processes, by rising number.
///
/// # Errors
/// [`NoMemory`].
pub(crate) fn host_lines(alloc: Global, hosts: &Hosts, counts: &Counts) -> Result<Vec<u8>, NoMemory>
    ensures { (c : Cast) (kit : Kit) (now : ℕ → Process) → AreHosts c kit now None hosts.now
        → IfOk result (λ text. text.items ≡ flat_map (λ p. host_line (now p) (count_in counts.now p)) c.hosted) }
{
    let mut text = Vec::new(alloc);
    'hosts: for p in hosts.numbers().iter() {
        push_one(hosts, counts, p, &mut text)?;
    }
    Ok(text)
}
