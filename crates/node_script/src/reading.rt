//! The next line of the script, read and carried out; and one line too many.
ghost use Rattle.std.specs.Prelude.{◌≡◌, ◌<◌, ◌+◌, [], ℕ, Bool, List, IfErr, IfOk, IsSome, IsTrue};
ghost use Rattle.node_defs.specs.Nodes.{Node};
ghost use Rattle.node_defs.specs.Scripts.{most_lines};
ghost use Rattle.node_traces.specs.Stops.{Outset};
ghost use Rattle.node_traces.specs.Outside.{SourceSeen};
ghost use Rattle.node_traces.specs.Seen.{link_seen, sink_seen};
ghost use Rattle.node_traces.specs.Service.{Asked, HeardBy};
ghost use Rattle.node_snapping.specs.Stops.{stop as stop_of};
ghost use Rattle.node_input.specs.Reads.{EndsAfter};
ghost use Rattle.node_input.specs.Sources.{IsSeen, SeenAs};
ghost use Rattle.node_snapping.specs.Hosts.{IsNode, cast_in};
ghost use Rattle.node_snapping.specs.Taking.{HasDiskCause, HasNode, StopsSo, outside};
ghost use Rattle.node_snapping.specs.Snapping.{snapper};
ghost use Rattle.node_script.specs.Ends.{ReadsOn};

use crate::carrying::carry_out;
use node_input::{Lines, Source, Stop, end_after, number_after, read_next};
use node_snapping::{Rooms, Running, Service};
use rp_base::{Disk, Link, NoMemory, Sink};
use std::alloc::Global;

/// How many lines a script has at most.
pub(crate) const MOST_LINES: u32 = 1_000_000;

/// Reads the next line of the script, which has at most so many bytes, and carries it out. So many lines of the script, fewer than 1,000,000,
/// came before it, and the line `go` has the number that is given.
///
/// # Errors
/// The node ends: `Ended` at the input's end; `BadLine` at what is no line of the script; `ReadFailed`; `NoMemory`; and as
/// `carry_out` says.
pub(crate) fn next_line<'a, S: Source, D: Disk, L: Link, K: Sink, V: Service>(
    alloc: Global,
    running: Running<'a>,
    go: usize,
    most: usize,
    count: u32,
    lines: &mut Lines,
    input: &mut S,
    disk: &mut D,
    link: &mut L,
    output: &mut K,
    rooms: &mut Rooms,
    service: &mut V,
) -> Result<Running<'a>, Stop>
    requires node { HasNode (D.seen disk.old) (D.may_leave disk.old) running }
    requires few { count < 1000000 }
    ensures goes_on { (reported : Bool) (f : Outset) (k : SourceSeen) (h : List Asked) (n : Node)
        → (IsTrue reported → IsSome (D.seen disk.old)) → V.heard service.old h
        → IsSeen k lines.old.ahead (S.left input.old) (S.faults input.old)
        → IsNode f (D.seen disk.old) (D.may_leave disk.old) running.entry n [] → n.lines ≡ go + count → n.script ≡ count
        → IfOk result (λ r. HeardBy V.heard service.new (λ i. SeenAs (λ l. ReadsOn D.seen D.may_leave D.moment D.left_since
        (cast_in running.entry) (snapper f.head f.begins reported (cast_in running.entry)) most f n
        (outside (link_seen L.sent L.coming L.faults link.old) (sink_seen K.written K.faults output.old) k h) disk.old 1
        (outside (link_seen L.sent L.coming L.faults link.new) (sink_seen K.written K.faults output.new) l i) disk.new r)
        lines.new.ahead (S.left input.new) (S.faults input.new))) }
    ensures stops { (reported : Bool) (f : Outset) (k : SourceSeen) (h : List Asked) (n : Node)
        → (IsTrue reported → IsSome (D.seen disk.old)) → V.heard service.old h
        → IsSeen k lines.old.ahead (S.left input.old) (S.faults input.old)
        → IsNode f (D.seen disk.old) (D.may_leave disk.old) running.entry n [] → n.lines ≡ go + count → n.script ≡ count
        → IfErr result (λ why. HeardBy V.heard service.new (λ i. (ahead : List ℕ) × SeenAs (λ l.
        StopsSo D.seen D.may_leave D.moment D.left_since (cast_in running.entry) (snapper f.head f.begins reported (cast_in running.entry)) most f n
        (outside (link_seen L.sent L.coming L.faults link.old) (sink_seen K.written K.faults output.old) k h) disk.old (stop_of why)
        (outside (link_seen L.sent L.coming L.faults link.new) (sink_seen K.written K.faults output.new) l i) disk.new)
        ahead (S.left input.new) (S.faults input.new))) }
    ensures cause { HasDiskCause (D.faults disk.old) (D.faults disk.new) result }
{
    let number = number_after(go, count + 1)?;
    let said = read_next(alloc, running.hosts.numbers(), lines, input, most, number)?;
    carry_out(
        alloc,
        running,
        said,
        lines.line(),
        number,
        disk,
        link,
        output,
        rooms,
        service,
    )
}

/// Why a node ends that has read 1,000,000 lines of the script: a further one is not carried out, whatever it says.
pub(crate) fn end_at_last<S: Source>(
    go: usize,
    most: usize,
    lines: &mut Lines,
    input: &mut S,
) -> Stop
    ensures { (k : SourceSeen) → IsSeen k lines.old.ahead (S.left input.old) (S.faults input.old)
        → SeenAs (λ l. EndsAfter most (go + most_lines + 1) k l (stop_of result)) lines.new.ahead (S.left input.new) (S.faults input.new) }
{
    match number_after(go, MOST_LINES + 1) {
        Ok(number) => end_after(lines, input, most, number),
        Err(NoMemory) => Stop::NoMemory,
    }
}
