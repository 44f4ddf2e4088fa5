//! The script of a node, from its first line to the node's end.
ghost use Rattle.std.specs.Prelude.{◌≡◌, [], ℕ, Bool, List, IfErr, IfOk, IsSome, IsTrue};
ghost use Rattle.node_defs.specs.Nodes.{Node};
ghost use Rattle.node_defs.specs.Scripts.{most_lines};
ghost use Rattle.node_traces.specs.Stops.{Outset};
ghost use Rattle.node_traces.specs.Outside.{SourceSeen};
ghost use Rattle.node_traces.specs.Seen.{link_seen, sink_seen};
ghost use Rattle.node_traces.specs.Service.{Asked, HeardBy};
ghost use Rattle.node_snapping.specs.Stops.{stop as stop_of};
ghost use Rattle.node_input.specs.Sources.{IsSeen, SeenAs};
ghost use Rattle.node_snapping.specs.Hosts.{IsNode, cast_in};
ghost use Rattle.node_snapping.specs.Taking.{HasDiskCause, HasNode, StopsSo, outside};
ghost use Rattle.node_snapping.specs.Snapping.{snapper};
ghost use Rattle.node_script.specs.Ends.{HasStopCause, ReadsOn};

use crate::reading::{MOST_LINES, end_at_last, next_line};
use node_input::{Lines, Source, Stop};
use node_snapping::{Rooms, Running, Service};
use rp_base::{Disk, Link, NoMemory, Sink};
use std::alloc::Global;

// Reads the first 1,000,000 lines of the script, one after the other, and carries them out.
fn each_line<'a, S: Source, D: Disk, L: Link, K: Sink, V: Service>(
    alloc: Global,
    running: Running<'a>,
    go: usize,
    most: usize,
    lines: &mut Lines,
    input: &mut S,
    disk: &mut D,
    link: &mut L,
    output: &mut K,
    rooms: &mut Rooms,
    service: &mut V,
) -> Result<Running<'a>, Stop>
    requires node { HasNode (D.seen disk.old) (D.may_leave disk.old) running }
    ensures goes_on { (reported : Bool) (f : Outset) (k : SourceSeen) (h : List Asked) (n : Node)
        → (IsTrue reported → IsSome (D.seen disk.old)) → V.heard service.old h
        → IsSeen k lines.old.ahead (S.left input.old) (S.faults input.old)
        → IsNode f (D.seen disk.old) (D.may_leave disk.old) running.entry n [] → n.lines ≡ go → n.script ≡ 0
        → IfOk result (λ r. HeardBy V.heard service.new (λ i. SeenAs (λ l. ReadsOn D.seen D.may_leave D.moment D.left_since
        (cast_in running.entry) (snapper f.head f.begins reported (cast_in running.entry)) most f n
        (outside (link_seen L.sent L.coming L.faults link.old) (sink_seen K.written K.faults output.old) k h) disk.old most_lines
        (outside (link_seen L.sent L.coming L.faults link.new) (sink_seen K.written K.faults output.new) l i) disk.new r)
        lines.new.ahead (S.left input.new) (S.faults input.new))) }
    ensures stops { (reported : Bool) (f : Outset) (k : SourceSeen) (h : List Asked) (n : Node)
        → (IsTrue reported → IsSome (D.seen disk.old)) → V.heard service.old h
        → IsSeen k lines.old.ahead (S.left input.old) (S.faults input.old)
        → IsNode f (D.seen disk.old) (D.may_leave disk.old) running.entry n [] → n.lines ≡ go → n.script ≡ 0
        → IfErr result (λ why. HeardBy V.heard service.new (λ i. (ahead : List ℕ) × SeenAs (λ l.
        StopsSo D.seen D.may_leave D.moment D.left_since (cast_in running.entry) (snapper f.head f.begins reported (cast_in running.entry)) most f n
        (outside (link_seen L.sent L.coming L.faults link.old) (sink_seen K.written K.faults output.old) k h) disk.old (stop_of why)
        (outside (link_seen L.sent L.coming L.faults link.new) (sink_seen K.written K.faults output.new) l i) disk.new)
        ahead (S.left input.new) (S.faults input.new))) }
    ensures cause { HasDiskCause (D.faults disk.old) (D.faults disk.new) result }
{
    let mut running = running;
    'lines: for count in 0..MOST_LINES {
        match next_line(
            alloc, running, go, most, count, lines, input, disk, link, output, rooms, service,
        ) {
            Ok(next) => running = next,
            Err(stop) => return Err(stop),
        }
    }
    Ok(running)
}

// The script, in these rooms.
fn run_within<'a, S: Source, D: Disk, L: Link, K: Sink, V: Service>(
    alloc: Global,
    running: Running<'a>,
    go: usize,
    most: usize,
    lines: &mut Lines,
    input: &mut S,
    disk: &mut D,
    link: &mut L,
    output: &mut K,
    rooms: &mut Rooms,
    service: &mut V,
) -> Stop
    requires node { HasNode (D.seen disk.old) (D.may_leave disk.old) running }
    ensures ends { (reported : Bool) (f : Outset) (k : SourceSeen) (h : List Asked) (n : Node)
        → (IsTrue reported → IsSome (D.seen disk.old)) → V.heard service.old h
        → IsSeen k lines.old.ahead (S.left input.old) (S.faults input.old)
        → IsNode f (D.seen disk.old) (D.may_leave disk.old) running.entry n [] → n.lines ≡ go → n.script ≡ 0
        → HeardBy V.heard service.new (λ i. (ahead : List ℕ) × SeenAs (λ l.
        StopsSo D.seen D.may_leave D.moment D.left_since (cast_in running.entry) (snapper f.head f.begins reported (cast_in running.entry)) most f n
        (outside (link_seen L.sent L.coming L.faults link.old) (sink_seen K.written K.faults output.old) k h) disk.old (stop_of result)
        (outside (link_seen L.sent L.coming L.faults link.new) (sink_seen K.written K.faults output.new) l i) disk.new)
        ahead (S.left input.new) (S.faults input.new)) }
    ensures cause { HasStopCause (D.faults disk.old) (D.faults disk.new) result }
{
    match each_line(
        alloc, running, go, most, lines, input, disk, link, output, rooms, service,
    ) {
        Ok(_node) => end_at_last(go, most, lines, input),
        Err(stop) => stop,
    }
}

/// Reads the script line by line and carries it out, until the node ends; it answers why. The line `go` of the kit has the number that is
/// given, and nothing after it is taken yet. A script has at most 1,000,000 lines, each of at most so many bytes. The memory for a datagram,
/// and for what is sealed, is taken once, before the first line.
pub fn run_script<'a, S: Source, D: Disk, L: Link, K: Sink, V: Service>(
    alloc: Global,
    running: Running<'a>,
    go: usize,
    most: usize,
    lines: &mut Lines,
    input: &mut S,
    disk: &mut D,
    link: &mut L,
    output: &mut K,
    service: &mut V,
) -> Stop
    requires node { HasNode (D.seen disk.old) (D.may_leave disk.old) running }

    // The node of the definitions goes on, line by line, to this stop. Its calls did this to input, link, output and disk. `reported` says that
    // the disk tells what it holds: then the digest in the line of a snapshot is the journal's.
    ensures ends { (reported : Bool) (f : Outset) (k : SourceSeen) (h : List Asked) (n : Node)
        → (IsTrue reported → IsSome (D.seen disk.old)) → V.heard service.old h
        → IsSeen k lines.old.ahead (S.left input.old) (S.faults input.old)
        → IsNode f (D.seen disk.old) (D.may_leave disk.old) running.entry n [] → n.lines ≡ go → n.script ≡ 0
        → HeardBy V.heard service.new (λ i. (ahead : List ℕ) × SeenAs (λ l.
        StopsSo D.seen D.may_leave D.moment D.left_since (cast_in running.entry) (snapper f.head f.begins reported (cast_in running.entry)) most f n
        (outside (link_seen L.sent L.coming L.faults link.old) (sink_seen K.written K.faults output.old) k h) disk.old (stop_of result)
        (outside (link_seen L.sent L.coming L.faults link.new) (sink_seen K.written K.faults output.new) l i) disk.new)
        ahead (S.left input.new) (S.faults input.new)) }
    ensures cause { HasStopCause (D.faults disk.old) (D.faults disk.new) result }
{
    match Rooms::new(alloc) {
        Ok(mut rooms) => run_within(
            alloc, running, go, most, lines, input, disk, link, output, &mut rooms, service,
        ),
        Err(NoMemory) => Stop::NoMemory,
    }
}
