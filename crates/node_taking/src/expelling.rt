//! Whom the service names after a turn on a frame, and the event as a whole.
ghost use Rattle.std.specs.Prelude.{◌≤◌, [], ◌∷◌, ◌++◌, ℕ, List, length, map, None, IfOk, IfErr, IfSome, IsTrue};
ghost use Rattle.byte_defs.specs.Members.{has};
ghost use Rattle.sealing_laws.specs.Events.{event as event_of};
ghost use Rattle.group_defs.specs.Process.{Process};
ghost use Rattle.journal_defs.specs.declared.Version.{Version};
ghost use Rattle.journal_defs.specs.Entries.{Suspect};
ghost use Rattle.node_defs.specs.Casts.{cast_of, handed};
ghost use Rattle.node_defs.specs.Lines.{expel_line};
ghost use Rattle.node_defs.specs.Nodes.{Node, Snapper, Task, Take, Say, Ask, Asks, asks};
ghost use Rattle.node_traces.specs.Stops.{Outset};
ghost use Rattle.node_traces.specs.Outside.{SourceSeen};
ghost use Rattle.node_traces.specs.Seen.{link_seen, sink_seen};
ghost use Rattle.node_traces.specs.Service.{Asked, HeardBy, one_asked};
ghost use Rattle.sealing_laws.specs.Running.{AreHosts, numbers_of, IsNode, cast_in};
ghost use Rattle.sealing_laws.specs.Running.{stop as stop_of};
ghost use Rattle.sealing_laws.specs.Letters.{IsFromOther};
ghost use Rattle.sealing_laws.specs.Service.{IsAbove, named_by, note as note_of};
ghost use Rattle.node_taking.specs.Turns.{HasHosts};
ghost use Rattle.node_taking.specs.Taking.{outside, HasNode, HasDiskCause, GoesOnTo, StopsSo};

use crate::taking::{After, take_turn};
use crate::telling::say_expel;
use rp_base::{Disk, Link, Pid, Sink};
use sealing_laws::{Event, Note, Running, Service, Stop};
use std::alloc::Global;

// Whom the service has this process suspect next, above the one that it named last.
fn next_suspect<V: Service>(
    running: &Running<'_>,
    me: Pid,
    event: &Event<'_>,
    notes: &[Note],
    above: Option<Pid>,
    service: &mut V,
) -> Option<Pid>
    requires hosts { HasHosts running.now.kit.now running.now.hosts }
    requires hosted { IsTrue (has (numbers_of running.now.hosts) me) }
    ensures names { (version : Version) (now : ℕ → Process) (h : List Asked) → V.heard service.old h
        → AreHosts (cast_of running.now.kit.now version) running.now.kit.now now None running.now.hosts
        → V.heard service.new (h ++ one_asked (cast_of running.now.kit.now version) (now me ∷ [])
        (Asks me (event_of event.now) (map note_of notes.now) above) (named_by result)) }
    ensures rises { IfSome result (IsAbove above) }
{
    let Some(host) = running.hosts.host(me) else {
        unreachable!();
    };
    service.suspects(running.kit, &host.process, event, notes, above)
}

// A process that the service named: a line names it, and it is suspected. Its turn asks the service for no more.
fn expel<'a, D: Disk, L: Link, K: Sink, V: Service>(
    alloc: Global,
    running: Running<'a>,
    me: Pid,
    other: Pid,
    disk: &mut D,
    link: &mut L,
    output: &mut K,
    room: &mut [u8],
    service: &mut V,
) -> Result<Running<'a>, Stop>
    requires node { HasNode (D.seen disk.old) (D.may_leave disk.old) running }
    requires hosted { IsTrue (has (numbers_of running.hosts) me) }
    requires room { 61054 ≤ length room.old }
    ensures goes_on { (snap : Snapper) (most : ℕ) (f : Outset) (source : SourceSeen) (h : List Asked) (n : Node) (ts : List Task)
        → V.heard service.old h → IsNode f (D.seen disk.old) (D.may_leave disk.old) running.entry n (Say (expel_line me other) ∷ Take me (Suspect other) ∷ ts)
        → IfOk result (λ r. HeardBy V.heard service.new (λ i. GoesOnTo D.seen D.may_leave D.moment D.left_since (cast_in running.entry) snap
        most f n (outside (link_seen L.sent L.coming L.faults link.old) (sink_seen K.written K.faults output.old) source h) disk.old
        ts
        (outside (link_seen L.sent L.coming L.faults link.new) (sink_seen K.written K.faults output.new) source i) disk.new r)) }
    ensures stops { (snap : Snapper) (most : ℕ) (f : Outset) (source : SourceSeen) (h : List Asked) (n : Node) (ts : List Task)
        → V.heard service.old h → IsNode f (D.seen disk.old) (D.may_leave disk.old) running.entry n (Say (expel_line me other) ∷ Take me (Suspect other) ∷ ts)
        → IfErr result (λ why. HeardBy V.heard service.new (λ i. StopsSo D.seen D.may_leave D.moment D.left_since (cast_in running.entry) snap
        most f n (outside (link_seen L.sent L.coming L.faults link.old) (sink_seen K.written K.faults output.old) source h) disk.old
        (stop_of why)
        (outside (link_seen L.sent L.coming L.faults link.new) (sink_seen K.written K.faults output.new) source i) disk.new)) }
    ensures cause { HasDiskCause (D.faults disk.old) (D.faults disk.new) result }
{
    say_expel(alloc, me, other, output)?;
    let event = Event::Suspect(other);
    let After { running, .. } = take_turn(
        alloc, running, me, &event, disk, link, output, room, service,
    )?;
    Ok(running)
}

// Each process that the service names, one above the other, until it names nobody.
fn expel_each<'a, D: Disk, L: Link, K: Sink, V: Service>(
    alloc: Global,
    running: Running<'a>,
    me: Pid,
    event: &Event<'_>,
    notes: &[Note],
    disk: &mut D,
    link: &mut L,
    output: &mut K,
    room: &mut [u8],
    service: &mut V,
) -> Result<Running<'a>, Stop>
    requires node { HasNode (D.seen disk.old) (D.may_leave disk.old) running }
    requires hosted { IsTrue (has (numbers_of running.hosts) me) }
    requires room { 61054 ≤ length room.old }
    ensures goes_on { (snap : Snapper) (most : ℕ) (f : Outset) (source : SourceSeen) (h : List Asked) (n : Node) (ts : List Task)
        → V.heard service.old h → IsNode f (D.seen disk.old) (D.may_leave disk.old) running.entry n (Ask me (event_of event.now) (map note_of notes.now) None ∷ ts)
        → IfOk result (λ r. HeardBy V.heard service.new (λ i. GoesOnTo D.seen D.may_leave D.moment D.left_since (cast_in running.entry) snap
        most f n (outside (link_seen L.sent L.coming L.faults link.old) (sink_seen K.written K.faults output.old) source h) disk.old
        ts
        (outside (link_seen L.sent L.coming L.faults link.new) (sink_seen K.written K.faults output.new) source i) disk.new r)) }
    ensures stops { (snap : Snapper) (most : ℕ) (f : Outset) (source : SourceSeen) (h : List Asked) (n : Node) (ts : List Task)
        → V.heard service.old h → IsNode f (D.seen disk.old) (D.may_leave disk.old) running.entry n (Ask me (event_of event.now) (map note_of notes.now) None ∷ ts)
        → IfErr result (λ why. HeardBy V.heard service.new (λ i. StopsSo D.seen D.may_leave D.moment D.left_since (cast_in running.entry) snap
        most f n (outside (link_seen L.sent L.coming L.faults link.old) (sink_seen K.written K.faults output.old) source h) disk.old
        (stop_of why)
        (outside (link_seen L.sent L.coming L.faults link.new) (sink_seen K.written K.faults output.new) source i) disk.new)) }
    ensures cause { HasDiskCause (D.faults disk.old) (D.faults disk.new) result }
{
    let mut running = running;
    let mut above = None;
    'suspects: while let Some(other) = next_suspect(&running, me, event, notes, above, service) {
        // A number is below 64, and each is above the last.
        let _ = other.get();
        match expel(alloc, running, me, other, disk, link, output, room, service) {
            Ok(next) => running = next,
            Err(why) => return Err(why),
        }
        above = Some(other);
    }
    Ok(running)
}

// What the service names after a turn with these notes: after one on a frame it may name some, and after any other it is not asked.
fn ask<'a, D: Disk, L: Link, K: Sink, V: Service>(
    alloc: Global,
    running: Running<'a>,
    me: Pid,
    event: &Event<'_>,
    notes: &[Note],
    disk: &mut D,
    link: &mut L,
    output: &mut K,
    room: &mut [u8],
    service: &mut V,
) -> Result<Running<'a>, Stop>
    requires node { HasNode (D.seen disk.old) (D.may_leave disk.old) running }
    requires hosted { IsTrue (has (numbers_of running.hosts) me) }
    requires room { 61054 ≤ length room.old }
    ensures goes_on { (snap : Snapper) (most : ℕ) (f : Outset) (source : SourceSeen) (h : List Asked) (n : Node) (ts : List Task)
        → V.heard service.old h → IsNode f (D.seen disk.old) (D.may_leave disk.old) running.entry n (asks me (event_of event.now) (map note_of notes.now) ++ ts)
        → IfOk result (λ r. HeardBy V.heard service.new (λ i. GoesOnTo D.seen D.may_leave D.moment D.left_since (cast_in running.entry) snap
        most f n (outside (link_seen L.sent L.coming L.faults link.old) (sink_seen K.written K.faults output.old) source h) disk.old
        ts
        (outside (link_seen L.sent L.coming L.faults link.new) (sink_seen K.written K.faults output.new) source i) disk.new r)) }
    ensures stops { (snap : Snapper) (most : ℕ) (f : Outset) (source : SourceSeen) (h : List Asked) (n : Node) (ts : List Task)
        → V.heard service.old h → IsNode f (D.seen disk.old) (D.may_leave disk.old) running.entry n (asks me (event_of event.now) (map note_of notes.now) ++ ts)
        → IfErr result (λ why. HeardBy V.heard service.new (λ i. StopsSo D.seen D.may_leave D.moment D.left_since (cast_in running.entry) snap
        most f n (outside (link_seen L.sent L.coming L.faults link.old) (sink_seen K.written K.faults output.old) source h) disk.old
        (stop_of why)
        (outside (link_seen L.sent L.coming L.faults link.new) (sink_seen K.written K.faults output.new) source i) disk.new)) }
    ensures cause { HasDiskCause (D.faults disk.old) (D.faults disk.new) result }
{
    match event {
        Event::Frame { .. } => expel_each(
            alloc, running, me, event, notes, disk, link, output, room, service,
        ),
        _ => Ok(running),
    }
}

/// One event of a hosted process. It is refused, which a line says; or its turn is appended to the journal, and then what it sends goes
/// out, each frame sealed in the room, and its notes are written in one write, each followed by what the service says of it. After a
/// turn on a frame the service is asked whom to suspect: each process that it names has its line and is suspected. The room has at least
/// 61,054 bytes (`SEALED_BYTES`).
///
/// # Errors
/// The node ends: `NoMemory`, `DiskFailed`, `Full` exactly where the journal would pass 2^30 bytes, `WriteFailed`.
pub fn take<'a, D: Disk, L: Link, K: Sink, V: Service>(
    alloc: Global,
    running: Running<'a>,
    me: Pid,
    event: &Event<'_>,
    disk: &mut D,
    link: &mut L,
    output: &mut K,
    room: &mut [u8],
    service: &mut V,
) -> Result<Running<'a>, Stop>
    requires node { HasNode (D.seen disk.old) (D.may_leave disk.old) running }
    requires hosted { IsTrue (has (numbers_of running.hosts) me) }
    requires other { IsFromOther me (handed (event_of event.now)) }
    requires room { 61054 ≤ length room.old }

    // What it reports is written, and the node goes on with its other tasks.
    ensures goes_on { (snap : Snapper) (most : ℕ) (f : Outset) (source : SourceSeen) (h : List Asked) (n : Node) (ts : List Task)
        → V.heard service.old h → IsNode f (D.seen disk.old) (D.may_leave disk.old) running.entry n (Take me (event_of event.now) ∷ ts)
        → IfOk result (λ r. HeardBy V.heard service.new (λ i. GoesOnTo D.seen D.may_leave D.moment D.left_since (cast_in running.entry) snap
        most f n (outside (link_seen L.sent L.coming L.faults link.old) (sink_seen K.written K.faults output.old) source h) disk.old
        ts
        (outside (link_seen L.sent L.coming L.faults link.new) (sink_seen K.written K.faults output.new) source i) disk.new r)) }

    // Or it stops, after some calls and their answers.
    ensures stops { (snap : Snapper) (most : ℕ) (f : Outset) (source : SourceSeen) (h : List Asked) (n : Node) (ts : List Task)
        → V.heard service.old h → IsNode f (D.seen disk.old) (D.may_leave disk.old) running.entry n (Take me (event_of event.now) ∷ ts)
        → IfErr result (λ why. HeardBy V.heard service.new (λ i. StopsSo D.seen D.may_leave D.moment D.left_since (cast_in running.entry) snap
        most f n (outside (link_seen L.sent L.coming L.faults link.old) (sink_seen K.written K.faults output.old) source h) disk.old
        (stop_of why)
        (outside (link_seen L.sent L.coming L.faults link.new) (sink_seen K.written K.faults output.new) source i) disk.new)) }
    ensures cause { HasDiskCause (D.faults disk.old) (D.faults disk.new) result }
{
    let After { running, outcome } = take_turn(
        alloc, running, me, event, disk, link, output, room, service,
    )?;
    match outcome {
        Some(outcome) => ask(
            alloc,
            running,
            me,
            event,
            outcome.notes.as_slice(),
            disk,
            link,
            output,
            room,
            service,
        ),
        None => Ok(running),
    }
}
