//! A datagram that came to a hosted process.
ghost use Rattle.std.specs.Prelude.{◌≤◌, ◌++◌, ℕ, List, length, IfOk, IfErr, IsTrue};
ghost use Rattle.byte_defs.specs.Members.{has};
ghost use Rattle.node_defs.specs.Nodes.{Node, Snapper, Task, after_came};
ghost use Rattle.node_traces.specs.Stops.{Outset};
ghost use Rattle.node_traces.specs.Outside.{SourceSeen};
ghost use Rattle.node_traces.specs.Seen.{link_seen, sink_seen};
ghost use Rattle.node_traces.specs.Service.{Asked, HeardBy};
ghost use Rattle.node_taking.specs.Hosts.{IsNode, cast_in, numbers_of};
ghost use Rattle.node_taking.specs.Stops.{stop as stop_of};
ghost use Rattle.node_taking.specs.Taking.{outside, HasNode, HasDiskCause, GoesOnTo, StopsSo};

use crate::hosting::open_datagram;
use crate::telling::say_drop;
use node_taking::{Event, Running, Service, Stop, take};
use rp_base::{Disk, Link, Pid, Sink};
use std::alloc::Global;

/// A datagram that came to a hosted process: its frame is taken, as an event of the process that sent it; or it is dropped, which a line
/// says. The room has at least 61,054 bytes.
///
/// # Errors
/// The node ends, as `node_taking::take` says; and `NoMemory` and `WriteFailed` for the line.
pub(crate) fn take_datagram<'a, D: Disk, L: Link, K: Sink, V: Service>(
    alloc: Global,
    running: Running<'a>,
    me: Pid,
    datagram: &[u8],
    disk: &mut D,
    link: &mut L,
    output: &mut K,
    room: &mut [u8],
    service: &mut V,
) -> Result<Running<'a>, Stop>
    requires node { HasNode (D.seen disk.old) (D.may_leave disk.old) running }
    requires hosted { IsTrue (has (numbers_of running.hosts) me) }
    requires room { 61054 ≤ length room.old }
    ensures goes_on { (snap : Snapper) (most : ℕ) (f : Outset) (source : SourceSeen) (h : List Asked) (n : Node) (ts : List Task)
        → V.heard service.old h → IsNode f (D.seen disk.old) (D.may_leave disk.old) running.entry n
        (after_came me ((cast_in running.entry).unseal me datagram.now) ++ ts)
        → IfOk result (λ r. HeardBy V.heard service.new (λ i. GoesOnTo D.seen D.may_leave D.moment D.left_since (cast_in running.entry) snap most f n
        (outside (link_seen L.sent L.coming L.faults link.old) (sink_seen K.written K.faults output.old) source h) disk.old ts
        (outside (link_seen L.sent L.coming L.faults link.new) (sink_seen K.written K.faults output.new) source i) disk.new r)) }
    ensures stops { (snap : Snapper) (most : ℕ) (f : Outset) (source : SourceSeen) (h : List Asked) (n : Node) (ts : List Task)
        → V.heard service.old h → IsNode f (D.seen disk.old) (D.may_leave disk.old) running.entry n
        (after_came me ((cast_in running.entry).unseal me datagram.now) ++ ts)
        → IfErr result (λ why. HeardBy V.heard service.new (λ i. StopsSo D.seen D.may_leave D.moment D.left_since (cast_in running.entry) snap most f n
        (outside (link_seen L.sent L.coming L.faults link.old) (sink_seen K.written K.faults output.old) source h) disk.old (stop_of why)
        (outside (link_seen L.sent L.coming L.faults link.new) (sink_seen K.written K.faults output.new) source i) disk.new)) }
    ensures cause { HasDiskCause (D.faults disk.old) (D.faults disk.new) result }
{
    match open_datagram(&running, me, datagram) {
        Ok(opened) => {
            let event = Event::Frame {
                from: opened.from,
                bytes: opened.frame,
            };
            take(
                alloc, running, me, &event, disk, link, output, room, service,
            )
        }
        Err(fault) => {
            say_drop(alloc, me, fault, output)?;
            Ok(running)
        }
    }
}
