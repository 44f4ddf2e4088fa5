//! A node from its kit to its stop.
ghost use Rattle.std.specs.Prelude.{◌≡◌, ◌≢◌, ◌⊎◌, [], ℕ, List, Option, codes};
ghost use Rattle.kit_defs.specs.Kits.{IsKit};
ghost use Rattle.rp_base.specs.Causes.{Rose};
ghost use Rattle.node_defs.specs.Lives.{Found};
ghost use Rattle.node_traces.specs.Outside.{SourceSeen};
ghost use Rattle.node_traces.specs.Seen.{link_seen, sink_seen, source_seen};
ghost use Rattle.node_traces.specs.Service.{Asked, HeardBy};
ghost use Rattle.node_opening.specs.Below.{SnapSaid};
ghost use Rattle.node_opening.specs.Begins.{BeginsBy};
ghost use Rattle.node_script.specs.Words.{stop as stop_of};
ghost use Rattle.node_script.specs.Sources.{IsSeen, line_limit};
ghost use Rattle.node_script.specs.Words.{StopsByDisk};
ghost use Rattle.node_loop.specs.Ended.{HasEnded, SaysLast};
ghost use Rattle.node_loop.specs.Inputs.{TellInOrder};
ghost use Rattle.node_loop.specs.Resumed.{NodeEnds};
ghost use Rattle.node_loop.specs.Runs.{HasStopped};

use crate::last_lines::tell;
use node_opening::{Snap, open};
use node_script::{Front, Kit, Lines, Service, Stop, most_of_line, read_kit, run_script};
use rp_base::{Disk, Link, Sink, Source};
use std::alloc::Global;

/// Opens the node of the kit, by the snapshot if there is one, and carries out its script. The line before the script's first has this number.
#[tactic(none)]
pub(crate) fn run_node<S: Source, K: Sink, D: Disk, L: Link, V: Service>(
    alloc: Global,
    kit: &Kit,
    snap: Option<Snap>,
    go: usize,
    lines: &mut Lines,
    input: &mut S,
    output: &mut K,
    disk: &mut D,
    link: &mut L,
    service: &mut V,
) -> Stop
    requires kit { IsKit kit.now }
    requires begins { (s : Option SnapSaid) × BeginsBy kit.now s snap }
    ensures stops { (s : Option SnapSaid) (f : Found) (l : SourceSeen) (h : List Asked) → BeginsBy kit.now s snap → V.heard service.old h
        → IsSeen l lines.old.ahead (S.left input.old) (S.faults input.old)
        → HeardBy V.heard service.new (λ i. NodeEnds D.seen D.may_leave D.moment D.left_since kit.now s
        (line_limit (V.longest_line service.old)) f go l
        (link_seen L.sent L.coming L.faults link.old) (sink_seen K.written K.faults output.old) disk.old (S.left input.new) (S.faults input.new)
        (link_seen L.sent L.coming L.faults link.new) (sink_seen K.written K.faults output.new) disk.new h i (stop_of result)) }
    ensures cause { StopsByDisk (D.faults disk.old) (D.faults disk.new) (stop_of result) }
{
    let most = most_of_line(service.longest());
    match open(alloc, kit, snap, disk, link, output, service) {
        Ok(running) => run_script(
            alloc, running, go, most, lines, input, disk, link, output, service,
        ),
        Err(why) => why,
    }
}

// Reads the kit, opens its node and carries out the script.
#[tactic(none)]
fn run<S: Source, K: Sink, D: Disk, L: Link, V: Service>(
    alloc: Global,
    input: &mut S,
    output: &mut K,
    disk: &mut D,
    link: &mut L,
    service: &mut V,
) -> Stop
    ensures stops { (f : Found) (h : List Asked) → V.heard service.old h
        → HeardBy V.heard service.new (λ i. HasStopped D.seen D.may_leave D.moment D.left_since
        (line_limit (V.longest_line service.old)) f (source_seen S.left S.faults input.old)
        (link_seen L.sent L.coming L.faults link.old) (sink_seen K.written K.faults output.old) disk.old (S.left input.new) (S.faults input.new)
        (link_seen L.sent L.coming L.faults link.new) (sink_seen K.written K.faults output.new) disk.new h i (stop_of result)) }
    ensures cause { StopsByDisk (D.faults disk.old) (D.faults disk.new) (stop_of result) }
{
    let mut lines = Lines::new(alloc);
    match read_kit(alloc, &mut lines, input) {
        Ok(Front { kit, go }) => run_node(
            alloc, &kit, None, go, &mut lines, input, output, disk, link, service,
        ),
        Err(stop) => stop,
    }
}

/// A node: reads a kit up to the line `go`, opens the journal of the processes that it hosts, or begins one on an empty disk, and then carries
/// out the lines of the script to the input's end. The service is given what happens, takes the lines that are for it, and names whom to
/// suspect. It answers the status that the program ends with.
///
/// | Status | Written last | Comes |
/// |---|---|---|
/// | 0 | the lines of the script's last turn, or those of the hosts | the input was read to its end |
/// | 1 | what was written before | no memory is left |
/// | 3 | `stop 3 read` | only where a read failed |
/// | 4 | a front of some lines | only where a write failed |
/// | 5 | `stop 5 disk` | only where a call of the disk failed |
/// | 6 | `stop 6 link` | only where a bind failed |
/// | 7 | `stop 7 ..` with the number of a line, counted from 1 | the line has this fault, or is none of the script |
/// | 8 | `stop 8 journal 0 PLACE` | the journal is another node's, or what it has at this place is no entry of this one |
/// | 9 | `stop 9 full LENGTH ENTRY` | the journal has no room for an entry |
///
/// A line that says why it stops is written or not, as the output takes it or fails; the status is the same.
#[tactic(none)]
pub fn host<S: Source, K: Sink, D: Disk, L: Link, V: Service>(
    alloc: Global,
    input: &mut S,
    output: &mut K,
    disk: &mut D,
    link: &mut L,
    service: &mut V,
) -> u8
    // Whatever the status: what was done is a run of the node of the definitions, up to a stop with this status, and then the stop's line. And
    // what a call of the service answered in this run is the service's own: the run lengthens whatever history it had to one that it has.
    ensures ended { (f : Found) (h : List Asked) → V.heard service.old h
        → HeardBy V.heard service.new (λ i. HasEnded D.seen D.may_leave D.moment D.left_since
        (line_limit (V.longest_line service.old)) f (source_seen S.left S.faults input.old)
        (link_seen L.sent L.coming L.faults link.old) (sink_seen K.written K.faults output.old) disk.old (S.left input.new) (S.faults input.new)
        (link_seen L.sent L.coming L.faults link.new) (sink_seen K.written K.faults output.new) disk.new h i result) }

    // 0: nothing failed but sends and receives, each of which has its line.
    ensures steady { result ≡ 0 → K.faults output.new ≡ K.faults output.old }

    // 3, 4, 5, 6: only where the source, the sink, the disk or a bind failed; at 6 nothing was sent, and nothing written but the last line.
    // But for 1, each read and each call of the disk that fails ends the run with its own status.
    ensures read { result ≡ 3 → Rose (S.faults input.old) (S.faults input.new) }
    ensures written { result ≡ 4 → Rose (K.faults output.old) (K.faults output.new) }
    ensures kept { result ≡ 5 → Rose (D.faults disk.old) (D.faults disk.new) }
    ensures bound { result ≡ 6 → Rose (L.faults link.old) (L.faults link.new) }
    ensures untold { result ≡ 6 → (L.sent link.new ≡ L.sent link.old)
        × SaysLast (codes "stop 6 link\n") (sink_seen K.written K.faults output.old) (sink_seen K.written K.faults output.new) }
    ensures no_read { result ≢ 1 → result ≢ 3 → S.faults input.new ≡ S.faults input.old }
    ensures no_disk { result ≢ 1 → result ≢ 5 → D.faults disk.new ≡ D.faults disk.old }

    // An input and a journal in order give 0, where memory and room are left and nothing failed; a send or receive that fails changes no
    // status.
    ensures completes { TellInOrder (line_limit (V.longest_line service.old)) (S.left input.old) (D.seen disk.old)
        → ¬ Rose (S.faults input.old) (S.faults input.new) → ¬ Rose (K.faults output.old) (K.faults output.new)
        → ¬ Rose (D.faults disk.old) (D.faults disk.new) → (result ≡ 0) ⊎ (result ≡ 1) ⊎ (result ≡ 6) ⊎ (result ≡ 9) }
    ensures only { (result ≡ 0) ⊎ (result ≡ 1) ⊎ (result ≡ 3) ⊎ (result ≡ 4) ⊎ (result ≡ 5) ⊎ (result ≡ 6) ⊎ (result ≡ 7) ⊎ (result ≡ 8)
        ⊎ (result ≡ 9) }
{
    let stop = run(alloc, input, output, disk, link, service);
    tell(alloc, output, stop)
}
