//! The servers of the hosted processes, as a node begins.
ghost use Rattle.std.specs.Prelude.{◌≡◌, ◌++◌, ℕ, List, map, None, IfOk, IsTrue, OnOk};
ghost use Rattle.node_service.specs.Histories.{Process, Version, cast_of, has};
ghost use Rattle.node_service.specs.Kits.{IsKit};
ghost use Rattle.node_service.specs.Words.{AreHosts};
ghost use Rattle.store_service.specs.Served.{AreThese};
ghost use Rattle.store_service.specs.Service.{Serving, begun, begun_of};

use node_service::{Hosts, Kit};
use std::alloc::Global;
use store_server::{NoMemory, Pid, Server};

// The server of a hosted process, after these.
fn begin_one(
    alloc: Global,
    kit: &Kit,
    hosts: &Hosts,
    p: Pid,
    servers: &mut Vec<Server>,
) -> Result<(), NoMemory>
    requires { IsKit kit.now }
    ensures { (version : Version) (now : ℕ → Process) (xs : List Serving) → let c = cast_of kit.now version in
        AreHosts c kit.now now None hosts.now → IsTrue (has c.hosted p) → AreThese xs servers.old.items
        → OnOk result (AreThese (xs ++ begun_of c (now p)) servers.new.items) }
{
    let Some(host) = hosts.host(p) else {
        return Ok(());
    };
    let Some(secret) = kit.secret(p) else {
        return Ok(());
    };
    let reported = host.process.core().account();
    let server = Server::begin(alloc, secret, kit.group(), reported)?;
    servers.push(server)?;
    Ok(())
}

/// The servers of all hosted processes, by rising number.
///
/// # Errors
/// [`NoMemory`].
pub(crate) fn begin_all(alloc: Global, kit: &Kit, hosts: &Hosts) -> Result<Vec<Server>, NoMemory>
    requires { IsKit kit.now }
    ensures { (version : Version) (now : ℕ → Process) → let c = cast_of kit.now version in AreHosts c kit.now now None hosts.now
        → IfOk result (λ servers. AreThese (begun c (map now c.hosted)) servers.items) }
{
    let mut servers = Vec::new(alloc);
    'hosts: for p in hosts.numbers().iter() {
        begin_one(alloc, kit, hosts, p, &mut servers)?;
    }
    Ok(servers)
}
