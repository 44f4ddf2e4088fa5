//! What goes out of a turn, and the lines of it.
ghost use Rattle.std.specs.Prelude.{◌≡◌, ◌≤◌, ℕ, List, length, All, IfSome};
ghost use Rattle.group_defs.specs.Process.{Process};
ghost use Rattle.group_defs.specs.Events.{Outcome};
ghost use Rattle.journal_defs.specs.declared.Version.{Version};
ghost use Rattle.journal_rp.specs.Turns.{outcome_of, process_of, staged_of};
ghost use Rattle.auth_link.specs.Keys.{known};
ghost use Rattle.node_defs.specs.Casts.{cast_of, known_of};
ghost use Rattle.node_defs.specs.Lines.{expel_line, refused_line};
ghost use Rattle.node_defs.specs.Nodes.{leaving_of};
ghost use Rattle.node_traces.specs.Seen.{link_seen, sink_seen};
ghost use Rattle.node_traces.specs.Service.{Asked, HeardBy};
ghost use Rattle.sealing_laws.specs.Running.{IsHosted, IsOutcome, fault as fault_of};
ghost use Rattle.sealing_laws.specs.Letters.{IsLast, IsSealable, letters_in};
ghost use Rattle.node_taking.specs.Taking.{HasDiskCause};
ghost use Rattle.node_taking.specs.Telling.{WritesText, TurnWasLetOut};

use crate::stepping::Away;
use journal_rp::Synced;
use rp_base::{Disk, Failed, Link, Pid, Sink, write_all};
use sealing_laws::{EventFault, Kit, Service, Speaker, Stop, let_out, push_expel, push_refused};
use std::alloc::Global;

/// Writes the text.
///
/// # Errors
/// `WriteFailed`; a front of the text was written then.
pub fn say<K: Sink>(output: &mut K, text: &[u8]) -> Result<(), Stop>
    ensures { WritesText result text.now (sink_seen K.written K.faults output.old) (sink_seen K.written K.faults output.new) }
{
    match write_all(output, text) {
        Ok(()) => Ok(()),
        Err(Failed) => Err(Stop::WriteFailed),
    }
}

/// Writes that an event of this process was refused, and why.
///
/// # Errors
/// `NoMemory` for the line, and `WriteFailed`.
pub(crate) fn say_refused<K: Sink>(
    alloc: Global,
    me: Pid,
    fault: EventFault,
    output: &mut K,
) -> Result<(), Stop>
    ensures { WritesText result (refused_line me (fault_of fault)) (sink_seen K.written K.faults output.old)
        (sink_seen K.written K.faults output.new) }
{
    let mut line = Vec::new(alloc);
    push_refused(&mut line, me, fault)?;
    say(output, line.as_slice())
}

/// Writes that this process is to suspect that one, on evidence.
///
/// # Errors
/// `NoMemory` for the line, and `WriteFailed`.
pub(crate) fn say_expel<K: Sink>(
    alloc: Global,
    me: Pid,
    other: Pid,
    output: &mut K,
) -> Result<(), Stop>
    ensures { WritesText result (expel_line me other) (sink_seen K.written K.faults output.old) (sink_seen K.written K.faults output.new) }
{
    let mut line = Vec::new(alloc);
    push_expel(&mut line, me, other)?;
    say(output, line.as_slice())
}

/// Lets out what a turn sends and reports, once its entry is in the journal for good, and writes its lines and those of the service in one
/// write.
///
/// # Errors
/// `NoMemory` for a line, where the first of it went out, and `WriteFailed`.
pub(crate) fn tell<D: Disk, L: Link, K: Sink, V: Service>(
    alloc: Global,
    kit: &Kit,
    me: Pid,
    away: &Away<Synced>,
    disk: &D,
    link: &mut L,
    output: &mut K,
    room: &mut [u8],
    service: &mut V,
) -> Result<(), Stop>
    requires keys { known away.now.keys ≡ known_of kit.now me }
    requires kept { IfSome (D.seen disk.now) (λ file. IsLast (D.seen disk.now) (D.may_leave disk.now) (staged_of away.now.turn)) }
    requires sealable { All (IsSealable kit.now me) (letters_in (outcome_of away.now.turn).sends.items) }
    requires room { 61054 ≤ length room.old }
    ensures reported { (version : Version) (o : Outcome) (at : ℕ → Process) (h : List Asked) → IsOutcome o (outcome_of away.now.turn)
        → V.heard service.old h → IsHosted (cast_of kit.now version) me (at me) (process_of away.now.turn)
        → HeardBy V.heard service.new (λ i. TurnWasLetOut result (cast_of kit.now version) at (leaving_of me o)
        (link_seen L.sent L.coming L.faults link.old) (link_seen L.sent L.coming L.faults link.new) h i
        (sink_seen K.written K.faults output.old) (sink_seen K.written K.faults output.new)) }
    ensures cause { HasDiskCause (D.faults disk.now) (D.faults disk.now) result }
{
    let speaker = Speaker {
        me,
        kit,
        keys: &away.keys,
    };
    let mut text = Vec::new(alloc);
    let out = let_out(
        alloc, &away.turn, &speaker, disk, link, room, &mut text, service,
    );

    // A speaker is not let go, but taken apart.
    let Speaker {
        me: _me,
        kit: _kit,
        keys: _keys,
    } = speaker;
    out?;
    say(output, text.as_slice())
}
