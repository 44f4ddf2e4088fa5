//! What a hosted process receives with.
ghost use Rattle.std.specs.Prelude.{◌≡◌, ◌≢◌, IfOk, IsTrue};
ghost use Rattle.byte_defs.specs.Members.{has};
ghost use Rattle.byte_defs.specs.Reads.{Gives};
ghost use Rattle.journal_defs.specs.declared.Version.{Version};
ghost use Rattle.auth_link.specs.Opening.{parts};
ghost use Rattle.node_defs.specs.Casts.{cast_of};
ghost use Rattle.node_taking.specs.Hosts.{numbers_of};
ghost use Rattle.node_taking.specs.Turns.{HasHosts};

use auth_link::{Opened, unseal};
use node_taking::{LinkFault, Running};
use rp_base::Pid;

/// The port of a hosted process.
pub(crate) fn port_of(running: &Running<'_>, me: Pid) -> u16
    requires hosts { HasHosts running.now.kit.now running.now.hosts }
    requires hosted { IsTrue (has (numbers_of running.now.hosts) me) }
    ensures { (version : Version) → (cast_of running.now.kit.now version).port me ≡ result }
{
    let Some(host) = running.hosts.host(me) else {
        unreachable!();
    };
    host.port
}

/// Opens a datagram that came to a hosted process: who sent it, and the frame. Any bytes may come. A fault is the first that holds.
pub(crate) fn open_datagram<'d>(
    running: &Running<'_>,
    me: Pid,
    datagram: &'d [u8],
) -> Result<Opened<'d>, LinkFault>
    requires hosts { HasHosts running.now.kit.now running.now.hosts }
    requires hosted { IsTrue (has (numbers_of running.now.hosts) me) }
    ensures opened { (version : Version) → Gives parts result ((cast_of running.now.kit.now version).unseal me datagram.now) }

    // No process shares a key with itself.
    ensures other { IfOk result (λ opened. opened.from ≢ me) }
{
    let Some(host) = running.hosts.host(me) else {
        unreachable!();
    };
    unseal(&host.keys, datagram)
}
