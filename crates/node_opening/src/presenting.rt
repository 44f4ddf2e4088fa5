//! A node that binds its ports, reports its processes and begins its service.
ghost use Rattle.std.specs.Prelude.{◌≡◌, ◌++◌, ◌∷◌, [], ℕ, List, None, IfErr, OnOk};
ghost use Rattle.kit_defs.specs.Kits.{IsKit};
ghost use Rattle.journal_defs.specs.declared.Version.{Version};
ghost use Rattle.node_defs.specs.Casts.{cast_of};
ghost use Rattle.node_defs.specs.Nodes.{Node, Finish, Greet, Serve, Snapper};
ghost use Rattle.node_traces.specs.Outside.{LinkSeen, SourceSeen};
ghost use Rattle.node_traces.specs.Goes.{Goes};
ghost use Rattle.node_traces.specs.Seen.{link_seen, sink_seen};
ghost use Rattle.node_traces.specs.Service.{Asked, HeardBy};
ghost use Rattle.opening_laws.specs.Opening.{HasToOpen, StopsBy, binds, left_to_open};
ghost use Rattle.restored_hosts.specs.Below.{AreHosts, numbers_of, stop as stop_of, HasDiskCause, outside};

use crate::binding::bind_all;
use restored_hosts::{Hosts, Kit, Service, Stop};
use rp_base::{Failed, Link, Sink, write_all};
use std::alloc::Global;

// Begins the service, and writes what it says.
fn serve<K: Sink, V: Service>(
    alloc: Global,
    kit: &Kit,
    hosts: &Hosts,
    output: &mut K,
    service: &mut V,
) -> Result<(), Stop>
    requires { IsKit kit.now }
    ensures serves { (version : Version) (snap : Snapper) (most : ℕ) (n : Node) (link : LinkSeen) (source : SourceSeen) (h : List Asked)
        → let c = cast_of kit.now version in
        AreHosts c kit.now n.now None hosts.now → V.heard service.old h → HasToOpen n (Serve ∷ Finish ∷ [])
        → OnOk result (HeardBy V.heard service.new (λ i. Goes c snap most n
        (outside link (sink_seen K.written K.faults output.old) source h) (left_to_open n (Finish ∷ []))
        (outside link (sink_seen K.written K.faults output.new) source i))) }
    ensures stops { (version : Version) (snap : Snapper) (most : ℕ) (n : Node) (link : LinkSeen) (source : SourceSeen) (h : List Asked)
        → let c = cast_of kit.now version in
        AreHosts c kit.now n.now None hosts.now → V.heard service.old h → HasToOpen n (Serve ∷ Finish ∷ [])
        → IfErr result (λ why. HeardBy V.heard service.new (λ i. StopsBy c snap most n
        (outside link (sink_seen K.written K.faults output.old) source h) (stop_of why)
        (outside link (sink_seen K.written K.faults output.new) source i))) }
    ensures no_disk { (count : ℕ) → HasDiskCause count count result }
{
    let mut text = Vec::new(alloc);
    service.start(kit, hosts, &mut text)?;
    match write_all(output, text.as_slice()) {
        Ok(()) => Ok(()),
        Err(Failed) => Err(Stop::WriteFailed),
    }
}

/// Binds the ports of the hosted processes, and writes what is said of them in one write. Then the service begins, and what it says is written.
///
/// # Errors
/// `BindFailed`, `WriteFailed`, and `NoMemory` for what the service says.
pub(crate) fn present<L: Link, K: Sink, V: Service>(
    alloc: Global,
    kit: &Kit,
    hosts: &Hosts,
    greeting: &[u8],
    link: &mut L,
    output: &mut K,
    service: &mut V,
) -> Result<(), Stop>
    requires { IsKit kit.now }
    ensures presents { (version : Version) (snap : Snapper) (most : ℕ) (n : Node) (source : SourceSeen) (h : List Asked)
        → let c = cast_of kit.now version in
        AreHosts c kit.now n.now None hosts.now → V.heard service.old h
        → HasToOpen n (binds c c.hosted ++ Greet greeting.now ∷ Serve ∷ Finish ∷ [])
        → OnOk result (HeardBy V.heard service.new (λ i. Goes c snap most n
        (outside (link_seen L.sent L.coming L.faults link.old) (sink_seen K.written K.faults output.old) source h)
        (left_to_open n (Finish ∷ []))
        (outside (link_seen L.sent L.coming L.faults link.new) (sink_seen K.written K.faults output.new) source i))) }
    ensures stops { (version : Version) (snap : Snapper) (most : ℕ) (n : Node) (source : SourceSeen) (h : List Asked)
        → let c = cast_of kit.now version in
        AreHosts c kit.now n.now None hosts.now → V.heard service.old h
        → HasToOpen n (binds c c.hosted ++ Greet greeting.now ∷ Serve ∷ Finish ∷ [])
        → IfErr result (λ why. HeardBy V.heard service.new (λ i. StopsBy c snap most n
        (outside (link_seen L.sent L.coming L.faults link.old) (sink_seen K.written K.faults output.old) source h) (stop_of why)
        (outside (link_seen L.sent L.coming L.faults link.new) (sink_seen K.written K.faults output.new) source i))) }

    // It does not stop by the disk.
    ensures no_disk { (count : ℕ) → HasDiskCause count count result }
{
    match bind_all(hosts, link) {
        Ok(()) => match write_all(output, greeting) {
            Ok(()) => serve(alloc, kit, hosts, output, service),
            Err(Failed) => Err(Stop::WriteFailed),
        },
        Err(Failed) => Err(Stop::BindFailed),
    }
}
