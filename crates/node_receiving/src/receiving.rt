//! One line that receives.
ghost use Rattle.std.specs.Prelude.{◌≡◌, ◌≤◌, ◌∷◌, ◌++◌, [], ℕ, suc, List, length, IfOk, IfErr, IsTrue};
ghost use Rattle.byte_defs.specs.Members.{has};
ghost use Rattle.node_defs.specs.Nodes.{Node, Snapper, Task, Get, Say};
ghost use Rattle.node_traces.specs.Stops.{Outset};
ghost use Rattle.node_traces.specs.Outside.{SourceSeen};
ghost use Rattle.node_traces.specs.Seen.{link_seen, sink_seen};
ghost use Rattle.node_traces.specs.Service.{Asked, HeardBy};
ghost use Rattle.node_taking.specs.Hosts.{IsNode, cast_in, numbers_of};
ghost use Rattle.node_taking.specs.Stops.{stop as stop_of};
ghost use Rattle.node_taking.specs.Taking.{outside, HasNode, HasDiskCause, GoesOnTo, StopsSo};
ghost use Rattle.node_receiving.specs.Receiving.{end_text, left_to_get, running_in};

use crate::fetching::fetch;
use crate::hosting::port_of;
use crate::rooms::Rooms;
use crate::taking::take_datagram;
use crate::telling::say_end;
use node_taking::{Running, Service, Stop};
use rp_base::{Disk, Failed, Got, Link, Pid, Sink};
use std::alloc::Global;

/// What came of one receive, and the node after it.
#[derive(Drop)]
pub(crate) enum Came<'a> {
    /// A datagram.
    One(Running<'a>),

    /// Nothing was coming.
    Nothing(Running<'a>),

    /// The link failed.
    Fault(Running<'a>),
}

/// The node, after all that came.
#[derive(Drop)]
struct Received<'a> {
    running: Running<'a>,

    /// Whether the link failed at last.
    failed: bool,

    /// How many datagrams came.
    count: u16,
}

// One receive.
fn receive_one<'a, D: Disk, L: Link, K: Sink, V: Service>(
    alloc: Global,
    running: Running<'a>,
    me: Pid,
    disk: &mut D,
    link: &mut L,
    output: &mut K,
    coming: &mut [u8],
    sealed: &mut [u8],
    service: &mut V,
) -> Result<Came<'a>, Stop>
    requires node { HasNode (D.seen disk.old) (D.may_leave disk.old) running }
    requires hosted { IsTrue (has (numbers_of running.hosts) me) }
    requires coming { length coming.old ≡ 61440 }
    requires sealed { 61054 ≤ length sealed.old }
    ensures goes_on { (snap : Snapper) (most : ℕ) (f : Outset) (source : SourceSeen) (h : List Asked) (n : Node) (left count : ℕ) (ts : List Task)
        → V.heard service.old h → IsNode f (D.seen disk.old) (D.may_leave disk.old) running.entry n (Get me (suc left) count ∷ ts)
        → IfOk result (λ came. HeardBy V.heard service.new (λ i. GoesOnTo D.seen D.may_leave D.moment D.left_since (cast_in running.entry) snap most f n
        (outside (link_seen L.sent L.coming L.faults link.old) (sink_seen K.written K.faults output.old) source h) disk.old
        (left_to_get me left count came ++ ts)
        (outside (link_seen L.sent L.coming L.faults link.new) (sink_seen K.written K.faults output.new) source i) disk.new
        (running_in came))) }
    ensures stops { (snap : Snapper) (most : ℕ) (f : Outset) (source : SourceSeen) (h : List Asked) (n : Node) (left count : ℕ) (ts : List Task)
        → V.heard service.old h → IsNode f (D.seen disk.old) (D.may_leave disk.old) running.entry n (Get me (suc left) count ∷ ts)
        → IfErr result (λ why. HeardBy V.heard service.new (λ i. StopsSo D.seen D.may_leave D.moment D.left_since (cast_in running.entry) snap most f n
        (outside (link_seen L.sent L.coming L.faults link.old) (sink_seen K.written K.faults output.old) source h) disk.old (stop_of why)
        (outside (link_seen L.sent L.coming L.faults link.new) (sink_seen K.written K.faults output.new) source i) disk.new)) }
    ensures cause { HasDiskCause (D.faults disk.old) (D.faults disk.new) result }
{
    let port = port_of(&running, me);
    match fetch(port, link, coming) {
        Ok(Got::Datagram(len)) => {
            let (datagram, _) = coming.split_at(len);
            match take_datagram(
                alloc, running, me, datagram, disk, link, output, sealed, service,
            ) {
                Ok(running) => Ok(Came::One(running)),
                Err(why) => Err(why),
            }
        }
        Ok(Got::Nothing) => Ok(Came::Nothing(running)),
        Err(Failed) => Ok(Came::Fault(running)),
    }
}

// As many receives as there are datagrams, at most `most`.
fn receive_each<'a, D: Disk, L: Link, K: Sink, V: Service>(
    alloc: Global,
    running: Running<'a>,
    me: Pid,
    most: u16,
    disk: &mut D,
    link: &mut L,
    output: &mut K,
    coming: &mut [u8],
    sealed: &mut [u8],
    service: &mut V,
) -> Result<Received<'a>, Stop>
    requires node { HasNode (D.seen disk.old) (D.may_leave disk.old) running }
    requires hosted { IsTrue (has (numbers_of running.hosts) me) }
    requires some { 1 ≤ most }
    requires coming { length coming.old ≡ 61440 }
    requires sealed { 61054 ≤ length sealed.old }
    ensures goes_on { (snap : Snapper) (line : ℕ) (f : Outset) (source : SourceSeen) (h : List Asked) (n : Node) (ts : List Task)
        → V.heard service.old h → IsNode f (D.seen disk.old) (D.may_leave disk.old) running.entry n (Get me most 0 ∷ ts)
        → IfOk result (λ r. HeardBy V.heard service.new (λ i. GoesOnTo D.seen D.may_leave D.moment D.left_since (cast_in running.entry) snap line f n
        (outside (link_seen L.sent L.coming L.faults link.old) (sink_seen K.written K.faults output.old) source h) disk.old
        (Say (end_text me r.failed r.count) ∷ ts)
        (outside (link_seen L.sent L.coming L.faults link.new) (sink_seen K.written K.faults output.new) source i) disk.new r.running)) }
    ensures stops { (snap : Snapper) (line : ℕ) (f : Outset) (source : SourceSeen) (h : List Asked) (n : Node) (ts : List Task)
        → V.heard service.old h → IsNode f (D.seen disk.old) (D.may_leave disk.old) running.entry n (Get me most 0 ∷ ts)
        → IfErr result (λ why. HeardBy V.heard service.new (λ i. StopsSo D.seen D.may_leave D.moment D.left_since (cast_in running.entry) snap line f n
        (outside (link_seen L.sent L.coming L.faults link.old) (sink_seen K.written K.faults output.old) source h) disk.old (stop_of why)
        (outside (link_seen L.sent L.coming L.faults link.new) (sink_seen K.written K.faults output.new) source i) disk.new)) }
    ensures cause { HasDiskCause (D.faults disk.old) (D.faults disk.new) result }
{
    let mut last = running;
    'receives: for count in 0..most {
        match receive_one(alloc, last, me, disk, link, output, coming, sealed, service) {
            Ok(Came::One(next)) => last = next,
            Ok(Came::Nothing(running)) => {
                return Ok(Received {
                    running,
                    failed: false,
                    count,
                });
            }
            Ok(Came::Fault(running)) => {
                return Ok(Received {
                    running,
                    failed: true,
                    count,
                });
            }
            Err(why) => return Err(why),
        }
    }
    Ok(Received {
        running: last,
        failed: false,
        count: most,
    })
}

/// One line that receives, of a hosted process: datagram by datagram, at most `most` and until none is coming or the link fails. Each is
/// opened and its frame taken, as an event of the process that sent it, or it is dropped, which a line says. A line that the link failed,
/// where it did, and how many came are written last.
///
/// # Errors
/// The node ends: `NoMemory`, `DiskFailed`, `Full` exactly where the journal would pass 2^30 bytes, `WriteFailed`.
pub fn receive<'a, D: Disk, L: Link, K: Sink, V: Service>(
    alloc: Global,
    running: Running<'a>,
    me: Pid,
    most: u16,
    disk: &mut D,
    link: &mut L,
    output: &mut K,
    rooms: &mut Rooms,
    service: &mut V,
) -> Result<Running<'a>, Stop>
    requires node { HasNode (D.seen disk.old) (D.may_leave disk.old) running }
    requires hosted { IsTrue (has (numbers_of running.hosts) me) }
    requires some { 1 ≤ most }
    requires few { most ≤ 1000 }

    // What came is taken, and the node goes on with its other tasks.
    ensures goes_on { (snap : Snapper) (line : ℕ) (f : Outset) (source : SourceSeen) (h : List Asked) (n : Node) (ts : List Task)
        → V.heard service.old h → IsNode f (D.seen disk.old) (D.may_leave disk.old) running.entry n (Get me most 0 ∷ ts)
        → IfOk result (λ r. HeardBy V.heard service.new (λ i. GoesOnTo D.seen D.may_leave D.moment D.left_since (cast_in running.entry) snap line f n
        (outside (link_seen L.sent L.coming L.faults link.old) (sink_seen K.written K.faults output.old) source h) disk.old ts
        (outside (link_seen L.sent L.coming L.faults link.new) (sink_seen K.written K.faults output.new) source i) disk.new r)) }

    // Or it stops, after some calls and their answers.
    ensures stops { (snap : Snapper) (line : ℕ) (f : Outset) (source : SourceSeen) (h : List Asked) (n : Node) (ts : List Task)
        → V.heard service.old h → IsNode f (D.seen disk.old) (D.may_leave disk.old) running.entry n (Get me most 0 ∷ ts)
        → IfErr result (λ why. HeardBy V.heard service.new (λ i. StopsSo D.seen D.may_leave D.moment D.left_since (cast_in running.entry) snap line f n
        (outside (link_seen L.sent L.coming L.faults link.old) (sink_seen K.written K.faults output.old) source h) disk.old (stop_of why)
        (outside (link_seen L.sent L.coming L.faults link.new) (sink_seen K.written K.faults output.new) source i) disk.new)) }
    ensures cause { HasDiskCause (D.faults disk.old) (D.faults disk.new) result }
{
    let coming = rooms.coming.as_mut_slice();
    let sealed = rooms.sealed.as_mut_slice();
    match receive_each(
        alloc, running, me, most, disk, link, output, coming, sealed, service,
    ) {
        Ok(received) => {
            let Received {
                running,
                failed,
                count,
            } = received;
            say_end(alloc, me, failed, count, output)?;
            Ok(running)
        }
        Err(why) => Err(why),
    }
}
