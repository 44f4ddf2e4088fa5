//! One event, from whoever hands it over to what goes out of its turn.
ghost use Rattle.std.specs.Prelude.{◌≤◌, ◌∷◌, ◌++◌, ℕ, List, length, IfOk, IfErr, IsTrue};
ghost use Rattle.byte_defs.specs.Members.{has};
ghost use Rattle.sealing_laws.specs.Events.{event as event_of};
ghost use Rattle.node_defs.specs.Casts.{handed};
ghost use Rattle.node_defs.specs.Nodes.{Node, Snapper, Task, Take};
ghost use Rattle.node_traces.specs.Stops.{Outset};
ghost use Rattle.node_traces.specs.Outside.{SourceSeen};
ghost use Rattle.node_traces.specs.Seen.{link_seen, sink_seen};
ghost use Rattle.node_traces.specs.Service.{Asked, HeardBy};
ghost use Rattle.sealing_laws.specs.Running.{numbers_of, IsNode, cast_in};
ghost use Rattle.sealing_laws.specs.Running.{stop as stop_of};
ghost use Rattle.sealing_laws.specs.Letters.{IsFromOther};
ghost use Rattle.node_taking.specs.Asking.{left_to_ask};
ghost use Rattle.node_taking.specs.Taking.{outside, HasNode, HasDiskCause, GoesOnTo, StopsSo};

use crate::keeping::keep;
use crate::stepping::{Away, Fate, step};
use crate::telling::{say_refused, tell};
use rp_base::{Disk, Link, Pid, Sink};
use sealing_laws::{Event, Host, Outcome, Running, Service, Stop};
use std::alloc::Global;

/// The node after an event.
#[derive(Drop)]
pub(crate) struct After<'a> {
    pub(crate) running: Running<'a>,

    /// What the turn brought about, where the event was taken.
    pub(crate) outcome: Option<Outcome>,
}

/// One event of a hosted process. It is refused, which a line says; or its turn is appended to the journal, and then what it sends goes
/// out, each frame sealed in the room, and its notes are written in one write, each followed by what the service says of it. The room
/// has at least 61,054 bytes (`SEALED_BYTES`).
///
/// # Errors
/// The node ends: `NoMemory`, `DiskFailed`, `Full` exactly where the journal would pass 2^30 bytes, `WriteFailed`.
pub(crate) fn take_turn<'a, D: Disk, L: Link, K: Sink, V: Service>(
    alloc: Global,
    running: Running<'a>,
    me: Pid,
    event: &Event<'_>,
    disk: &mut D,
    link: &mut L,
    output: &mut K,
    room: &mut [u8],
    service: &mut V,
) -> Result<After<'a>, Stop>
    requires node { HasNode (D.seen disk.old) (D.may_leave disk.old) running }
    requires hosted { IsTrue (has (numbers_of running.hosts) me) }
    requires other { IsFromOther me (handed (event_of event.now)) }
    requires room { 61054 ≤ length room.old }

    // What it reports is written, and the node goes on: it asks the service whom to suspect, and then to its other tasks.
    ensures goes_on { (snap : Snapper) (most : ℕ) (f : Outset) (source : SourceSeen) (h : List Asked) (n : Node) (ts : List Task)
        → V.heard service.old h → IsNode f (D.seen disk.old) (D.may_leave disk.old) running.entry n (Take me (event_of event.now) ∷ ts)
        → IfOk result (λ r. HeardBy V.heard service.new (λ i. GoesOnTo D.seen D.may_leave D.moment D.left_since (cast_in running.entry) snap
        most f n (outside (link_seen L.sent L.coming L.faults link.old) (sink_seen K.written K.faults output.old) source h) disk.old
        (left_to_ask me (event_of event.now) r.outcome ++ ts)
        (outside (link_seen L.sent L.coming L.faults link.new) (sink_seen K.written K.faults output.new) source i) disk.new r.running)) }

    // Or it stops, after some calls and their answers.
    ensures stops { (snap : Snapper) (most : ℕ) (f : Outset) (source : SourceSeen) (h : List Asked) (n : Node) (ts : List Task)
        → V.heard service.old h → IsNode f (D.seen disk.old) (D.may_leave disk.old) running.entry n (Take me (event_of event.now) ∷ ts)
        → IfErr result (λ why. HeardBy V.heard service.new (λ i. StopsSo D.seen D.may_leave D.moment D.left_since (cast_in running.entry) snap
        most f n (outside (link_seen L.sent L.coming L.faults link.old) (sink_seen K.written K.faults output.old) source h) disk.old
        (stop_of why)
        (outside (link_seen L.sent L.coming L.faults link.new) (sink_seen K.written K.faults output.new) source i) disk.new)) }
    ensures cause { HasDiskCause (D.faults disk.old) (D.faults disk.new) result }
{
    let Running {
        kit,
        hosts,
        journal,
        counts,
    } = running;
    let mut hosts = hosts;
    let mut counts = counts;
    match step(alloc, kit, &mut hosts, me, event)? {
        Fate::Refused(fault) => {
            say_refused(alloc, me, fault, output)?;
            Ok(After {
                running: Running {
                    kit,
                    hosts,
                    journal,
                    counts,
                },
                outcome: None,
            })
        }
        Fate::Taken(away) => {
            let (journal, away) = keep(journal, away, disk)?;
            tell(alloc, kit, me, &away, disk, link, output, room, service)?;
            let Away { turn, keys, port } = away;
            let (process, outcome) = turn.into_parts();
            hosts.put_back(Host {
                process,
                keys,
                port,
            });
            counts.count(me);
            Ok(After {
                running: Running {
                    kit,
                    hosts,
                    journal,
                    counts,
                },
                outcome: Some(outcome),
            })
        }
    }
}
