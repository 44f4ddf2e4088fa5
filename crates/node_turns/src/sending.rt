//! The letters of a turn.
ghost use Rattle.std.specs.Prelude.{◌≡◌, ◌≤◌, [], ◌∷◌, ℕ, List, length, map, All, OnOk, OnErr};
ghost use Rattle.group_defs.specs.Process.{Process};
ghost use Rattle.journal_defs.specs.declared.Version.{Version};
ghost use Rattle.node_defs.specs.Casts.{cast_of};
ghost use Rattle.node_defs.specs.Nodes.{SendsTo};
ghost use Rattle.node_traces.specs.Outside.{LinkStep};
ghost use Rattle.node_traces.specs.Service.{Asked};
ghost use Rattle.node_service.specs.Lines.{frame_to};
ghost use Rattle.letting_laws.specs.Letting.{edge, LetOut, HasBegun};
ghost use Rattle.node_turns.specs.Letters.{IsSealable, letters_in, letters_to, sends_of, answer_of, link_seen};

use crate::speaker::Speaker;
use auth_link::{FRAME_BYTES, SEAL_BYTES, seal_into};
use member_events::Sending;
use node_service::push_fault;
use rp_base::{Failed, Link, NoMemory, Pid};

/// The most bytes of a frame that is sealed. A room of this size serves for each letter.
pub const SEALED_BYTES: usize = FRAME_BYTES + SEAL_BYTES;

// Seals the frame for this process, and sends it.
fn send_letter<L: Link>(
    speaker: &Speaker<'_>,
    to: Pid,
    frame: &[u8],
    link: &mut L,
    room: &mut [u8],
) -> Result<(), Failed>
    requires sealable { IsSealable speaker.now.kit.now speaker.now.me (to, frame.now) }
    requires room { 61054 ≤ length room.old }
    ensures { (version : Version) → let c = cast_of speaker.now.kit.now version in
        LinkStep (link_seen L.sent L.coming L.faults link.old) (SendsTo (c.port to) (c.seal speaker.now.me to frame.now), answer_of result)
        (link_seen L.sent L.coming L.faults link.new) }
{
    let len = seal_into(speaker.keys, to, frame, room);
    let (datagram, _) = room.split_at(len);
    link.send(speaker.port(to), datagram)
}

// Lets a letter out: where its send fails, a line says so.
fn let_letter_out<L: Link>(
    speaker: &Speaker<'_>,
    to: Pid,
    frame: &[u8],
    link: &mut L,
    room: &mut [u8],
    late: &mut Vec<u8>,
) -> Result<(), NoMemory>
    requires sealable { IsSealable speaker.now.kit.now speaker.now.me (to, frame.now) }
    requires room { 61054 ≤ length room.old }
    ensures out { (version : Version) (at : ℕ → Process) (h : List Asked) → OnOk result (LetOut (cast_of speaker.now.kit.now version) at
        (sends_of speaker.now.me ((to, frame.now) ∷ []))
        (edge (link_seen L.sent L.coming L.faults link.old) [] late.old.items h)
        (edge (link_seen L.sent L.coming L.faults link.new) [] late.new.items h)) }
    ensures begun { (version : Version) (at : ℕ → Process) (h : List Asked) → OnErr result (HasBegun (cast_of speaker.now.kit.now version) at
        (sends_of speaker.now.me ((to, frame.now) ∷ [])) (link_seen L.sent L.coming L.faults link.old) h
        (link_seen L.sent L.coming L.faults link.new) h) }
{
    match send_letter(speaker, to, frame, link, room) {
        Ok(()) => Ok(()),
        Err(Failed) => push_fault(late, speaker.me),
    }
}

// The letters of a frame, by rising number of the addressee.
fn let_frame_out<L: Link>(
    speaker: &Speaker<'_>,
    out: &Sending,
    link: &mut L,
    room: &mut [u8],
    late: &mut Vec<u8>,
) -> Result<(), NoMemory>
    requires sealable { All (IsSealable speaker.now.kit.now speaker.now.me) (letters_to (frame_to out.now)) }
    requires room { 61054 ≤ length room.old }
    ensures out { (version : Version) (at : ℕ → Process) (h : List Asked) → OnOk result (LetOut (cast_of speaker.now.kit.now version) at
        (sends_of speaker.now.me (letters_to (frame_to out.now)))
        (edge (link_seen L.sent L.coming L.faults link.old) [] late.old.items h)
        (edge (link_seen L.sent L.coming L.faults link.new) [] late.new.items h)) }
    ensures begun { (version : Version) (at : ℕ → Process) (h : List Asked) → OnErr result (HasBegun (cast_of speaker.now.kit.now version) at
        (sends_of speaker.now.me (letters_to (frame_to out.now))) (link_seen L.sent L.coming L.faults link.old) h
        (link_seen L.sent L.coming L.faults link.new) h) }
{
    'letters: for to in out.to.iter() {
        let_letter_out(speaker, to, out.frame.bytes(), link, room, late)?;
    }
    Ok(())
}

/// Lets the letters of these frames out, frame by frame and by rising number of the addressee: each is sealed in the room and sent.
/// For each send that fails a line is appended to `late`. The frames are those of a turn, or what the service has its process send.
///
/// # Errors
/// `NoMemory` where memory for such a line is refused: the first letters went out, and the others were not tried.
pub fn let_frames_out<L: Link>(
    speaker: &Speaker<'_>,
    sends: &[Sending],
    link: &mut L,
    room: &mut [u8],
    late: &mut Vec<u8>,
) -> Result<(), NoMemory>
    requires sealable { All (IsSealable speaker.now.kit.now speaker.now.me) (letters_in sends.now) }
    requires room { 61054 ≤ length room.old }
    ensures out { (version : Version) (at : ℕ → Process) (h : List Asked) → OnOk result (LetOut (cast_of speaker.now.kit.now version) at
        (sends_of speaker.now.me (letters_in sends.now))
        (edge (link_seen L.sent L.coming L.faults link.old) [] late.old.items h)
        (edge (link_seen L.sent L.coming L.faults link.new) [] late.new.items h)) }
    ensures begun { (version : Version) (at : ℕ → Process) (h : List Asked) → OnErr result (HasBegun (cast_of speaker.now.kit.now version) at
        (sends_of speaker.now.me (letters_in sends.now)) (link_seen L.sent L.coming L.faults link.old) h
        (link_seen L.sent L.coming L.faults link.new) h) }
{
    'frames: for out in sends {
        let_frame_out(speaker, out, link, room, late)?;
    }
    Ok(())
}
