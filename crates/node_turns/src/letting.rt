//! Letting a turn out.
ghost use Rattle.std.specs.Prelude.{◌≡◌, ◌≤◌, ℕ, List, length, All, IfSome, OnOk, OnErr};
ghost use Rattle.group_defs.specs.Process.{Process};
ghost use Rattle.group_defs.specs.Events.{Outcome};
ghost use Rattle.journal_defs.specs.declared.Version.{Version};
ghost use Rattle.journal_rp.specs.Turns.{outcome_of, process_of, staged_of};
ghost use Rattle.node_service.specs.Lines.{IsOutcome};
ghost use Rattle.node_defs.specs.Casts.{cast_of};
ghost use Rattle.node_defs.specs.Nodes.{leaving_of};
ghost use Rattle.node_service.specs.Words.{IsHosted};
ghost use Rattle.node_traces.specs.Service.{Asked, HeardBy};
ghost use Rattle.node_turns.specs.Kept.{IsLast};
ghost use Rattle.letting_laws.specs.Letting.{HasBegun};
ghost use Rattle.node_turns.specs.Letters.{IsSealable, LetsTurnOut, letters_in, link_seen};

use crate::notes::tell_notes;
use crate::sending::let_frames_out;
use crate::speaker::Speaker;
use journal_rp::{Synced, Turn};
use node_service::{AnySigner, Hosted, Service};
use rp_base::{Disk, Link, NoMemory};
use std::alloc::Global;

/// Lets out what a turn sends and reports, once its entry is in the journal for good, as `kept` asks of the disk: each frame is sealed
/// in the room for each process that it goes to, by rising number, and sent to its port; then each note is a line after the text, and
/// what the service says of it follows, and last a line for each send that failed. The room has at least 61,054 bytes (`SEALED_BYTES`):
/// sealing takes no memory.
///
/// # Errors
/// `NoMemory` where memory for a line is refused, to the node or to its service: the first letters and notes went out, and the text is as it
/// was.
pub fn let_out<D: Disk, L: Link, V: Service>(
    alloc: Global,
    turn: &Turn<Synced, Hosted<AnySigner>>,
    speaker: &Speaker<'_>,
    disk: &D,
    link: &mut L,
    room: &mut [u8],
    text: &mut Vec<u8>,
    service: &mut V,
) -> Result<(), NoMemory>
    // Where the disk says what it holds, each of its images holds the turn's entry.
    requires kept { IfSome (D.seen disk.now) (λ file. IsLast (D.seen disk.now) (D.may_leave disk.now) (staged_of turn.now)) }
    requires sealable { All (IsSealable speaker.now.kit.now speaker.now.me) (letters_in (outcome_of turn.now).sends.items) }
    requires room { 61054 ≤ length room.old }

    // Just these calls, in this order, with answers that are as the text says, and the service's are its own.
    ensures out { (version : Version) (o : Outcome) (at : ℕ → Process) (h : List Asked) → IsOutcome o (outcome_of turn.now)
        → V.heard service.old h → IsHosted (cast_of speaker.now.kit.now version) speaker.now.me (at speaker.now.me) (process_of turn.now)
        → OnOk result (HeardBy V.heard service.new (λ i. LetsTurnOut (cast_of speaker.now.kit.now version) at (leaving_of speaker.now.me o)
        (link_seen L.sent L.coming L.faults link.old) (link_seen L.sent L.coming L.faults link.new) h i text.old.items text.new.items)) }

    // The first of these calls, in this order.
    ensures begun { (version : Version) (o : Outcome) (at : ℕ → Process) (h : List Asked) → IsOutcome o (outcome_of turn.now)
        → V.heard service.old h → IsHosted (cast_of speaker.now.kit.now version) speaker.now.me (at speaker.now.me) (process_of turn.now)
        → OnErr result (HeardBy V.heard service.new (λ i. HasBegun (cast_of speaker.now.kit.now version) at (leaving_of speaker.now.me o)
        (link_seen L.sent L.coming L.faults link.old) h (link_seen L.sent L.coming L.faults link.new) i)) }
    ensures unchanged { OnErr result (text.new.items ≡ text.old.items) }
{
    let _ = disk;
    let mut late = Vec::new(alloc);
    let_frames_out(speaker, turn.sends(), link, room, &mut late)?;
    tell_notes(
        turn.process(),
        speaker.me,
        turn.notes(),
        late.as_slice(),
        text,
        service,
    )
}
