//! What becomes of an event, up to the turn that the journal is to take in.
ghost use Rattle.std.specs.Prelude.{ℕ, IfOk, IsTrue, None};
ghost use Rattle.byte_defs.specs.Members.{has};
ghost use Rattle.journal_defs.specs.declared.Version.{Version};
ghost use Rattle.group_defs.specs.Process.{Process};
ghost use Rattle.sealing_laws.specs.Events.{event as event_of};
ghost use Rattle.node_defs.specs.Casts.{cast_of};
ghost use Rattle.sealing_laws.specs.Running.{AreHosts, numbers_of};
ghost use Rattle.node_taking.specs.Turns.{HasHosts, StepsTo};

use journal_rp::{Turn, Unsynced};
use rp_base::{NoMemory, Pid};
use sealing_laws::{AnySigner, Event, EventFault, Host, Hosted, Hosts, Kit, LinkKeys, Taken};
use std::alloc::Global;

/// A turn of a hosted process, which is away with it, and what the process speaks with.
#[derive(Drop)]
pub(crate) struct Away<S> {
    pub(crate) turn: Turn<S, Hosted<AnySigner>>,
    pub(crate) keys: LinkKeys,
    pub(crate) port: u16,
}

/// What has become of an event.
#[derive(Drop)]
pub(crate) enum Fate {
    /// It was refused, and its process is in its place as it was.
    Refused(EventFault),

    /// It was taken. The process is away until its entry is in the journal.
    Taken(Away<Unsynced>),
}

/// One event of a hosted process.
///
/// # Errors
/// `NoMemory`; the process may be lost then.
pub(crate) fn step(
    alloc: Global,
    kit: &Kit,
    hosts: &mut Hosts,
    me: Pid,
    event: &Event<'_>,
) -> Result<Fate, NoMemory>
    requires hosts { HasHosts kit.now hosts.old }
    requires hosted { IsTrue (has (numbers_of hosts.old) me) }
    ensures { (version : Version) (now : ℕ → Process) → AreHosts (cast_of kit.now version) kit.now now None hosts.old
        → IfOk result (StepsTo (cast_of kit.now version) kit.now now me (event_of event.now) hosts.new) }
{
    let Some(host) = hosts.take_out(me) else {
        unreachable!();
    };
    let Host {
        process,
        keys,
        port,
    } = host;
    match process.take(alloc, &kit.scheme(), event)? {
        Taken::Refused(process, fault) => {
            hosts.put_back(Host {
                process,
                keys,
                port,
            });
            Ok(Fate::Refused(fault))
        }
        Taken::Lost(_lost) => Err(NoMemory),
        Taken::Turn(turn) => Ok(Fate::Taken(Away { turn, keys, port })),
    }
}
