//! Lines of the views that processes left.
ghost use Rattle.std.specs.Prelude.{◌≡◌, ◌++◌, ℕ, List, IfOk, OnOk, All, slice_get, Some, None};
ghost use Rattle.std.specs.List.{AllZip, flat_map};
ghost use Rattle.hex.specs.Hex.{IsBytes};
ghost use Rattle.group_defs.specs.Process.{Left, Process, Setting};
ghost use Rattle.audit_defs.specs.Players as plain;
ghost use Rattle.audit_core.specs.Walks.{IsPlayer};
ghost use Rattle.member_state.specs.States.{IsReal, IsStateOf};
ghost use Rattle.proof_defs.specs.Lines.{lines_of, proof_line};
ghost use Rattle.proof_lines.specs.Seen.{CanTravel, frame_line, large_line, line_by, only};

use audit_core::{Payload, Player};
use member_state::ProcessState;
use reliable_mcast::Frames;
use rp_base::{NoMemory, Pid};
use std::alloc::Global;
use text_codec::{push_hex, push_number};

/// A place beyond those of a view: a Want of it is answered by the commit certificate alone.
const BEYOND: u16 = 1024;

// The frame, where there is one and no other.
fn only_frame(frames: &mut Frames) -> Option<Payload>
    ensures { result ≡ only frames.old.frames }
{
    let first = frames.next_frame()?;
    match frames.next_frame() {
        Some(_) => None,
        None => Some(first),
    }
}

// Appends the line of a view whose one frame is this.
fn push_frame(out: &mut Vec<u8>, frame: &[u8]) -> Result<(), NoMemory>
    ensures pushed { OnOk result (out.new.items ≡ out.old.items ++ frame_line frame.now) }
    ensures bytes { IsBytes frame.now }
{
    out.extend_from_slice(b"proof ")?;
    push_hex(out, frame)?;
    out.push(b'\n')?;
    Ok(())
}

// Appends the line of a view that has not one frame.
fn push_large(out: &mut Vec<u8>, me: Pid) -> Result<(), NoMemory>
    ensures { OnOk result (out.new.items ≡ out.old.items ++ large_line me) }
{
    out.extend_from_slice(b"proof ")?;
    push_number(out, me.get().into())?;
    out.extend_from_slice(b" large\n")?;
    Ok(())
}

// Appends the line of a view whose frames are these, and takes them.
fn push_frames(out: &mut Vec<u8>, me: Pid, frames: &mut Frames) -> Result<(), NoMemory>
    ensures { OnOk result ((out.new.items ≡ out.old.items ++ line_by me (only frames.old.frames))
        × ((frame : List ℕ) → only frames.old.frames ≡ Some frame → IsBytes frame)) }
{
    match only_frame(frames) {
        Some(frame) => push_frame(out, frame.bytes()),
        None => push_large(out, me),
    }
}

// Appends the line of the view of this number, which the process left.
fn push_view(
    out: &mut Vec<u8>,
    state: &ProcessState,
    view: u16,
    frames: &mut Frames,
) -> Result<(), NoMemory>
    requires { IsReal state.now }
    ensures { (s : Setting) (p : Process) (l : Left) → IsStateOf s p state.now → slice_get p.left view ≡ Some l
        → OnOk result ((out.new.items ≡ out.old.items ++ proof_line p.me l) × CanTravel l) }
{
    frames.clear();
    state
        .archive
        .answer_want(&state.pool, view, BEYOND, frames)?;
    push_frames(out, state.own.me, frames)
}

// Appends a line for each view that the process left.
fn push_views(alloc: Global, out: &mut Vec<u8>, state: &ProcessState) -> Result<(), NoMemory>
    requires { IsReal state.now }
    ensures { (s : Setting) (p : Process) → IsStateOf s p state.now
        → OnOk result ((out.new.items ≡ out.old.items ++ lines_of p) × All CanTravel p.left) }
{
    let mut frames = Frames::new(alloc)?;
    'views: for view in 0..state.pool.view().number() {
        push_view(out, state, view, &mut frames)?;
    }
    Ok(())
}

// Appends a line for each view that the process left.
fn push_player(alloc: Global, out: &mut Vec<u8>, player: &Player<'_>) -> Result<(), NoMemory>
    ensures { (s : Setting) (c : plain.Player) → IsPlayer s c player.now
        → OnOk result ((out.new.items ≡ out.old.items ++ lines_of c.now) × All CanTravel c.now.left) }
{
    push_views(alloc, out, player.core().state())
}

/// A line for each view that each of these processes left.
pub(crate) fn lines_of_all(alloc: Global, players: &[Player<'_>]) -> Result<Vec<u8>, NoMemory>
    ensures { (s : Setting) (cs : List plain.Player) → AllZip (IsPlayer s) cs players.now
        → IfOk result (λ text. (text.items ≡ flat_map (λ c. lines_of c.now) cs) × All (λ c. All CanTravel c.now.left) cs) }
{
    let mut text = Vec::new(alloc);
    for player in players {
        push_player(alloc, &mut text, player)?;
    }
    Ok(text)
}
