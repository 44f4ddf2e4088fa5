//! The ports of the hosted processes.
ghost use Rattle.std.specs.Prelude.{◌≡◌, OnErr, OnOk};
ghost use Rattle.node_traces.specs.Outside.{LinkFailed};
ghost use Rattle.node_traces.specs.Seen.{link_seen};
ghost use Rattle.opening_laws.specs.Opening.{FailsAtOne};
ghost use Rattle.restored_hosts.specs.Below.{numbers_of};

use restored_hosts::Hosts;
use rp_base::{Failed, Link, Pid};

// The port of a process, if it is hosted.
fn bind_one<L: Link>(hosts: &Hosts, p: Pid, link: &mut L) -> Result<(), Failed>
    ensures bound { OnOk result (link_seen L.sent L.coming L.faults link.new ≡ link_seen L.sent L.coming L.faults link.old) }
    ensures failed { OnErr result (LinkFailed (link_seen L.sent L.coming L.faults link.old) (link_seen L.sent L.coming L.faults link.new)) }
{
    match hosts.host(p) {
        Some(host) => link.bind(host.port),
        None => Ok(()),
    }
}

/// Binds the port of each hosted process, by rising number.
///
/// # Errors
/// [`Failed`] where the link failed at one of them; those before it are bound.
pub(crate) fn bind_all<L: Link>(hosts: &Hosts, link: &mut L) -> Result<(), Failed>
    ensures bound { OnOk result (link_seen L.sent L.coming L.faults link.new ≡ link_seen L.sent L.coming L.faults link.old) }
    ensures failed { OnErr result (FailsAtOne (numbers_of hosts.now)
        (link_seen L.sent L.coming L.faults link.old) (link_seen L.sent L.coming L.faults link.new)) }
{
    'ports: for p in hosts.numbers().iter() {
        bind_one(hosts, p, link)?;
    }
    Ok(())
}
