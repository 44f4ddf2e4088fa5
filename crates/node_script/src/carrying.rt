//! What a line of the script asks for, carried out.
ghost use Rattle.std.specs.Prelude.{◌≡◌, [], ◌∷◌, ℕ, Bool, List, IfErr, IfOk, IsSome, IsTrue};
ghost use Rattle.byte_defs.specs.Members.{has};
ghost use Rattle.node_defs.specs.Nodes.{Node, Snapper, Task, tasks_of_line};
ghost use Rattle.node_defs.specs.Scripts as plain;
ghost use Rattle.node_traces.specs.Stops.{Outset};
ghost use Rattle.node_traces.specs.Outside.{SourceSeen};
ghost use Rattle.node_traces.specs.Seen.{link_seen, sink_seen};
ghost use Rattle.node_traces.specs.Service.{Asked, HeardBy};
ghost use Rattle.node_input.specs.Texts.{line as line_of, said as said_of};
ghost use Rattle.node_snapping.specs.Stops.{stop as stop_of};
ghost use Rattle.node_input.specs.Reads.{IsFor, IsRange};
ghost use Rattle.node_snapping.specs.Hosts.{IsNode, cast_in, numbers_of};
ghost use Rattle.node_snapping.specs.Taking.{GoesOnTo, HasDiskCause, HasNode, StopsSo, outside};
ghost use Rattle.node_snapping.specs.Snapping.{snapper};

use node_input::{Line, Said, Stop};
use node_snapping::{Rooms, Running, Service, receive, serve, snap, take};
use rp_base::{Disk, Link, Pid, Sink};
use std::alloc::Global;

// What a line asks of a process, carried out.
fn ask<'a, D: Disk, L: Link, K: Sink, V: Service>(
    alloc: Global,
    running: Running<'a>,
    me: Pid,
    said: Said,
    line: &[u8],
    number: u64,
    disk: &mut D,
    link: &mut L,
    output: &mut K,
    rooms: &mut Rooms,
    service: &mut V,
) -> Result<Running<'a>, Stop>
    requires node { HasNode (D.seen disk.old) (D.may_leave disk.old) running }
    requires hosted { IsTrue (has (numbers_of running.hosts) me) }
    requires range { IsRange line.now (said_of said) }
    ensures goes_on { (snap : Snapper) (most : ℕ) (f : Outset) (source : SourceSeen) (h : List Asked) (n : Node)
        → V.heard service.old h → IsNode f (D.seen disk.old) (D.may_leave disk.old) running.entry n (tasks_of_line line.now (plain.Of me (said_of said)))
        → n.lines ≡ number
        → IfOk result (λ r. HeardBy V.heard service.new (λ i. GoesOnTo D.seen D.may_leave D.moment D.left_since (cast_in running.entry) snap most f n
        (outside (link_seen L.sent L.coming L.faults link.old) (sink_seen K.written K.faults output.old) source h) disk.old []
        (outside (link_seen L.sent L.coming L.faults link.new) (sink_seen K.written K.faults output.new) source i) disk.new r)) }
    ensures stops { (snap : Snapper) (most : ℕ) (f : Outset) (source : SourceSeen) (h : List Asked) (n : Node)
        → V.heard service.old h → IsNode f (D.seen disk.old) (D.may_leave disk.old) running.entry n (tasks_of_line line.now (plain.Of me (said_of said)))
        → n.lines ≡ number
        → IfErr result (λ why. HeardBy V.heard service.new (λ i. StopsSo D.seen D.may_leave D.moment D.left_since (cast_in running.entry) snap most f n
        (outside (link_seen L.sent L.coming L.faults link.old) (sink_seen K.written K.faults output.old) source h) disk.old (stop_of why)
        (outside (link_seen L.sent L.coming L.faults link.new) (sink_seen K.written K.faults output.new) source i) disk.new)) }
    ensures cause { HasDiskCause (D.faults disk.old) (D.faults disk.new) result }
{
    match said {
        Said::Hand(event) => take(
            alloc,
            running,
            me,
            &event.event(),
            disk,
            link,
            output,
            &mut rooms.sealed,
            service,
        ),
        Said::Receive(most) => receive(
            alloc,
            running,
            me,
            most as u16,
            disk,
            link,
            output,
            rooms,
            service,
        ),
        Said::Other => {
            serve(
                alloc,
                &running,
                me,
                line,
                number,
                link,
                output,
                &mut rooms.sealed,
                service,
            )?;
            Ok(running)
        }
    }
}

/// Carries out one line of the script, which has this number and these bytes: a process takes an event, or receives datagrams, or the service
/// answers the line; or the line of the node's snapshot is written.
///
/// # Errors
/// The node ends: `BadLine` for a line that the service has none of; else as `take`, `receive`, `serve` and `snap` say.
pub fn carry_out<'a, D: Disk, L: Link, K: Sink, V: Service>(
    alloc: Global,
    running: Running<'a>,
    said: Line,
    line: &[u8],
    number: u64,
    disk: &mut D,
    link: &mut L,
    output: &mut K,
    rooms: &mut Rooms,
    service: &mut V,
) -> Result<Running<'a>, Stop>
    requires node { HasNode (D.seen disk.old) (D.may_leave disk.old) running }
    requires asks { IsFor (numbers_of running.hosts) line.now (line_of said) }

    // A node that has read this line does what it asks, and then has nothing to do. `reported` says that the disk tells what it holds: then
    // the digest in the line of a snapshot is the journal's.
    ensures goes_on { (reported : Bool) (most : ℕ) (f : Outset) (source : SourceSeen) (h : List Asked) (n : Node)
        → (IsTrue reported → IsSome (D.seen disk.old)) → V.heard service.old h
        → IsNode f (D.seen disk.old) (D.may_leave disk.old) running.entry n (tasks_of_line line.now (line_of said)) → n.lines ≡ number
        → IfOk result (λ r. HeardBy V.heard service.new (λ i. GoesOnTo D.seen D.may_leave D.moment D.left_since (cast_in running.entry)
        (snapper f.head f.begins reported (cast_in running.entry)) most f n
        (outside (link_seen L.sent L.coming L.faults link.old) (sink_seen K.written K.faults output.old) source h) disk.old []
        (outside (link_seen L.sent L.coming L.faults link.new) (sink_seen K.written K.faults output.new) source i) disk.new r)) }

    // Or it stops, after some calls and their answers.
    ensures stops { (reported : Bool) (most : ℕ) (f : Outset) (source : SourceSeen) (h : List Asked) (n : Node)
        → (IsTrue reported → IsSome (D.seen disk.old)) → V.heard service.old h
        → IsNode f (D.seen disk.old) (D.may_leave disk.old) running.entry n (tasks_of_line line.now (line_of said)) → n.lines ≡ number
        → IfErr result (λ why. HeardBy V.heard service.new (λ i. StopsSo D.seen D.may_leave D.moment D.left_since (cast_in running.entry)
        (snapper f.head f.begins reported (cast_in running.entry)) most f n
        (outside (link_seen L.sent L.coming L.faults link.old) (sink_seen K.written K.faults output.old) source h) disk.old (stop_of why)
        (outside (link_seen L.sent L.coming L.faults link.new) (sink_seen K.written K.faults output.new) source i) disk.new)) }
    ensures cause { HasDiskCause (D.faults disk.old) (D.faults disk.new) result }
{
    match said {
        Line::Of { process, said } => ask(
            alloc, running, process, said, line, number, disk, link, output, rooms, service,
        ),
        Line::Snap => snap(alloc, running, disk, output),
    }
}
