//! A node that begins by a snapshot, from its kit to its stop.
ghost use Rattle.std.specs.Prelude.{◌≡◌, ◌≢◌, ◌⊎◌, ◌+◌, ◌<◌, ◌^◌, [], ℕ, List, Some, IfErr, IfOk, OnOk, codes};
ghost use Rattle.kit_defs.specs.Kits.{IsKit};
ghost use Rattle.journal_defs.specs.declared.Version.{Version};
ghost use Rattle.rp_base.specs.Causes.{Rose};
ghost use Rattle.node_defs.specs.Casts.{cast_of, hosted_by};
ghost use Rattle.node_defs.specs.Lines as plain;
ghost use Rattle.node_defs.specs.Lives.{Found};
ghost use Rattle.node_traces.specs.Outside.{SourceSeen};
ghost use Rattle.node_traces.specs.Seen.{link_seen, sink_seen, source_seen};
ghost use Rattle.node_traces.specs.Service.{Asked, HeardBy};
ghost use Rattle.node_opening.specs.Below.{SnapSaid, snap_said, IsSaidFor};
ghost use Rattle.node_opening.specs.Begins.{IsSnapFor};
ghost use Rattle.node_script.specs.Words.{stop as stop_of};
ghost use Rattle.node_script.specs.Words.{StopsByDisk};
ghost use Rattle.node_script.specs.Inputs.{HasKit};
ghost use Rattle.node_script.specs.Sources.{IsSeen, SeenAs, line_limit};
ghost use Rattle.node_loop.specs.Ended.{HasEndedResuming, SaysLast};
ghost use Rattle.node_loop.specs.Inputs.{TellInOrderResuming};
ghost use Rattle.node_loop.specs.Resumed.{HasStoppedResuming, IsNoSnap, IsSnap, as_snap};

use crate::hosting::run_node;
use crate::last_lines::tell;
use node_opening::{Snap, judge_line};
use node_script::{Front, Kit, Lines, Service, Stop, number_after, read_kit, take_line};
use rp_base::{Disk, Link, Sink, Source};
use std::alloc::Global;

/// The most bytes of the line of a snapshot.
const MOST_SNAP: usize = 16_777_221;

// The snapshot that the line says, which has this number.
fn judge(alloc: Global, kit: &Kit, line: &[u8], number: u64) -> Result<Snap, Stop>
    requires { IsKit kit.now }
    ensures is { IfOk result (λ snap. (t : SnapSaid) × (snap_said (hosted_by kit.now) line.now ≡ Some t) × IsSnapFor kit.now t snap) }
    ensures none { IfErr result (λ why. (stop_of why ≡ plain.NoMemory)
        ⊎ ((stop_of why ≡ plain.BadSnap number) × ((version : Version) → ¬ IsSaidFor (cast_of kit.now version) line.now))) }
{
    match judge_line(alloc, kit, line)? {
        Some(snap) => Ok(snap),
        None => Err(Stop::BadSnap(number)),
    }
}

// How a node stops that has no line of this number, where its input stops it so.
fn no_snap(stop: Stop, number: u64) -> Stop
    ensures { stop_of result ≡ as_snap number (stop_of stop) }
{
    match stop {
        Stop::Ended | Stop::BadLine(_) => Stop::BadSnap(number),
        stop => stop,
    }
}

// Reads the line after the line `go`, whose number is given: a snapshot by which the kit's node may begin. Nothing else is touched.
fn read_snap<S: Source>(
    alloc: Global,
    kit: &Kit,
    go: usize,
    lines: &mut Lines,
    input: &mut S,
) -> Result<Snap, Stop>
    requires { IsKit kit.now }
    ensures is { (k : SourceSeen) → IsSeen k lines.old.ahead (S.left input.old) (S.faults input.old)
        → IfOk result (λ snap. (t : SnapSaid) × IsSnapFor kit.now t snap
        × SeenAs (λ l. IsSnap kit.now t k l) lines.new.ahead (S.left input.new) (S.faults input.new)) }
    ensures none { (k : SourceSeen) → IsSeen k lines.old.ahead (S.left input.old) (S.faults input.old)
        → IfErr result (λ why. (ahead : List ℕ)
        × SeenAs (λ l. IsNoSnap kit.now go k l (stop_of why)) ahead (S.left input.new) (S.faults input.new)) }
    ensures few { OnOk result (go + 1 < 2 ^ 64) }
{
    let number = number_after(go, 1)?;
    match take_line(lines, input, MOST_SNAP, number) {
        Ok(()) => judge(alloc, kit, lines.line(), number),
        Err(stop) => Err(no_snap(stop, number)),
    }
}

// Reads the line of the snapshot, which is the one after the line `go`, opens the kit's node at the snapshot's place and carries out the script.
#[tactic(none)]
fn resume_node<S: Source, K: Sink, D: Disk, L: Link, V: Service>(
    alloc: Global,
    kit: &Kit,
    go: usize,
    lines: &mut Lines,
    input: &mut S,
    output: &mut K,
    disk: &mut D,
    link: &mut L,
    service: &mut V,
) -> Stop
    requires { IsKit kit.now }
    ensures stops { (f : Found) (k l : SourceSeen) (h : List Asked) → V.heard service.old h → HasKit k kit.now go l
        → IsSeen l lines.old.ahead (S.left input.old) (S.faults input.old)
        → HeardBy V.heard service.new (λ i. HasStoppedResuming D.seen D.may_leave D.moment D.left_since
        (line_limit (V.longest_line service.old)) f k
        (link_seen L.sent L.coming L.faults link.old) (sink_seen K.written K.faults output.old) disk.old (S.left input.new) (S.faults input.new)
        (link_seen L.sent L.coming L.faults link.new) (sink_seen K.written K.faults output.new) disk.new h i (stop_of result)) }
    ensures cause { StopsByDisk (D.faults disk.old) (D.faults disk.new) (stop_of result) }
{
    match read_snap(alloc, kit, go, lines, input) {
        Ok(snap) => run_node(
            alloc,
            kit,
            Some(snap),
            go + 1,
            lines,
            input,
            output,
            disk,
            link,
            service,
        ),
        Err(stop) => stop,
    }
}

// Reads the kit, and begins its node by the snapshot after it.
#[tactic(none)]
fn resume<S: Source, K: Sink, D: Disk, L: Link, V: Service>(
    alloc: Global,
    input: &mut S,
    output: &mut K,
    disk: &mut D,
    link: &mut L,
    service: &mut V,
) -> Stop
    ensures stops { (f : Found) (h : List Asked) → V.heard service.old h
        → HeardBy V.heard service.new (λ i. HasStoppedResuming D.seen D.may_leave D.moment D.left_since
        (line_limit (V.longest_line service.old)) f (source_seen S.left S.faults input.old)
        (link_seen L.sent L.coming L.faults link.old) (sink_seen K.written K.faults output.old) disk.old (S.left input.new) (S.faults input.new)
        (link_seen L.sent L.coming L.faults link.new) (sink_seen K.written K.faults output.new) disk.new h i (stop_of result)) }
    ensures cause { StopsByDisk (D.faults disk.old) (D.faults disk.new) (stop_of result) }
{
    let mut lines = Lines::new(alloc);
    match read_kit(alloc, &mut lines, input) {
        Ok(Front { kit, go }) => resume_node(
            alloc, &kit, go, &mut lines, input, output, disk, link, service,
        ),
        Err(stop) => stop,
    }
}

/// A node that begins by a snapshot: reads a kit up to the line `go`, and after it one line `snap HEX`, of at most 16,777,221 bytes. Each hosted
/// process begins as its image tells, its entries are counted on from the snapshot's number, and the journal is read from the snapshot's place
/// on. From there all is as `host` does it, with the script after the line of the snapshot. The bytes before the place are hashed, and not read:
/// what is there changes no answer. It answers the status that the program ends with, those of `host` and
///
/// | Status | Written last | Comes |
/// |---|---|---|
/// | 7 | `stop 7 snap N` | line N, the one after `go`, is no such line; or an image is another process's, or not kept, or the key signed more |
/// | 8 | `stop 8 journal 0 PLACE` | PLACE is the snapshot's, and the journal has another header, or no byte at the place, or other bytes before it |
/// | 8 | `stop 8 journal 0 PLACE` | PLACE is the snapshot's, the journal is of the second kind, and the images are of the first version |
///
/// The line is judged before any call of the disk, and a journal with no header of the kit is still `stop 8 journal 0 0`. A refusal leaves a disk
/// that is not empty as it was.
#[tactic(none)]
pub fn resume_host<S: Source, K: Sink, D: Disk, L: Link, V: Service>(
    alloc: Global,
    input: &mut S,
    output: &mut K,
    disk: &mut D,
    link: &mut L,
    service: &mut V,
) -> u8
    // Whatever the status: what was done is a run of the node of the definitions that begins by the snapshot, up to a stop with this status, and
    // then the stop's line. And what a call of the service answered in this run is the service's own.
    ensures ended { (f : Found) (h : List Asked) → V.heard service.old h
        → HeardBy V.heard service.new (λ i. HasEndedResuming D.seen D.may_leave D.moment D.left_since
        (line_limit (V.longest_line service.old)) f (source_seen S.left S.faults input.old)
        (link_seen L.sent L.coming L.faults link.old) (sink_seen K.written K.faults output.old) disk.old (S.left input.new) (S.faults input.new)
        (link_seen L.sent L.coming L.faults link.new) (sink_seen K.written K.faults output.new) disk.new h i result) }

    // 0: nothing failed but sends and receives, each of which has its line.
    ensures steady { result ≡ 0 → K.faults output.new ≡ K.faults output.old }

    // 3, 4, 5, 6: only where the source, the sink, the disk or a bind failed; at 6 nothing was sent, and nothing written but the last line.
    // But for 1, each read and each call of the disk that fails ends the run with its own status.
    ensures read { result ≡ 3 → Rose (S.faults input.old) (S.faults input.new) }
    ensures written { result ≡ 4 → Rose (K.faults output.old) (K.faults output.new) }
    ensures kept { result ≡ 5 → Rose (D.faults disk.old) (D.faults disk.new) }
    ensures bound { result ≡ 6 → Rose (L.faults link.old) (L.faults link.new) }
    ensures untold { result ≡ 6 → (L.sent link.new ≡ L.sent link.old)
        × SaysLast (codes "stop 6 link\n") (sink_seen K.written K.faults output.old) (sink_seen K.written K.faults output.new) }
    ensures no_read { result ≢ 1 → result ≢ 3 → S.faults input.new ≡ S.faults input.old }
    ensures no_disk { result ≢ 1 → result ≢ 5 → D.faults disk.new ≡ D.faults disk.old }

    // A snapshot and a script in order, and a journal in order from the snapshot's place on, give 0, where memory and room are left and nothing
    // failed.
    ensures completes { TellInOrderResuming (line_limit (V.longest_line service.old)) (S.left input.old) (D.seen disk.old)
        → ¬ Rose (S.faults input.old) (S.faults input.new) → ¬ Rose (K.faults output.old) (K.faults output.new)
        → ¬ Rose (D.faults disk.old) (D.faults disk.new) → (result ≡ 0) ⊎ (result ≡ 1) ⊎ (result ≡ 6) ⊎ (result ≡ 9) }
    ensures only { (result ≡ 0) ⊎ (result ≡ 1) ⊎ (result ≡ 3) ⊎ (result ≡ 4) ⊎ (result ≡ 5) ⊎ (result ≡ 6) ⊎ (result ≡ 7) ⊎ (result ≡ 8)
        ⊎ (result ≡ 9) }
{
    let stop = resume(alloc, input, output, disk, link, service);
    tell(alloc, output, stop)
}
