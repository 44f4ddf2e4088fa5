//! Whom a frame shows, and whom a process expels.
ghost use Rattle.std.specs.Prelude.{◌≡◌, ◌<◌, ◌≤◌, ◌-◌, ◌==◌, ◌&&◌, not, ℕ, map, find, if◌then◌else◌, IfSome, None, Some};
ghost use Rattle.std.specs.List.{list_any, range_with_len};
ghost use Rattle.message_defs.specs.Claims.{frame_said};
ghost use Rattle.group_defs.specs.Views as views;
ghost use Rattle.group_defs.specs.Process.{Process};
ghost use Rattle.group_defs.specs.Events.{Hand};
ghost use Rattle.group_defs.specs.Family.{claims_in};
ghost use Rattle.node_service.specs.Histories.{Version};
ghost use Rattle.node_defs.specs.Casts.{Cast, cast_of, handed, setting_of};
ghost use Rattle.node_service.specs.Answers.{IsAbove};
ghost use Rattle.node_service.specs.Words.{IsHosted, note as note_of, event as event_of};
ghost use Rattle.conviction_defs.specs.Convictions.{is_convicted};
ghost use Rattle.guard_defs.specs.Guarding as defs;
ghost use Rattle.guard_service.specs.Evidence.{AreSigners, claims_shown, first_of, is_called, is_named as is_named_of, is_shown};

use crate::signers::signers_of;
use conviction::convicts;
use frame_codec::{FrameView, split_frame};
use node_service::{AnySigner, Event, Hosted, Kit, Note};
use rp_base::{Pid, PidSet, Update};
use view_table::View;

// Whether the note calls the process a liar.
fn calls_liar(note: &Note, q: Pid) -> bool
    ensures { result ≡ is_called note.now q }
{
    match note {
        Note::Liar(liar) => *liar == q,
        _ => false,
    }
}

// Whether one of these notes does.
fn is_liar(notes: &[Note], q: Pid) -> bool
    ensures { result ≡ list_any (λ note. is_called note q) notes.now }
{
    notes.iter().any(|note| calls_liar(note, q))
}

// Whether the two are members of the view, they are two, and the removal is not perceived.
fn is_expellable(view: &View, me: Pid, q: Pid, perceived: bool) -> bool
    ensures { result ≡ (not (q == me) && views.is_member view.now q && views.is_member view.now me && not perceived) }
{
    q != me && view.is_member(q) && view.is_member(me) && !perceived
}

// Whether the process may expel that one.
fn may_expel(process: &Hosted<AnySigner>, q: Pid) -> bool
    ensures { (c : Cast) (p : ℕ) (now : Process) → IsHosted c p now process.now → result ≡ defs.may_expel now q }
{
    let state = process.core().state();
    let perceived = state.perceived.contains(Update::Remove(q));
    is_expellable(state.pool.view(), state.own.me, q, perceived)
}

// Whether the frame, if there is one, convicts the process. Only who signs in it can be, so for others no claim is read.
fn is_convicted_by(kit: &Kit, frame: &Option<FrameView<'_>>, signers: PidSet, q: Pid) -> bool
    requires { AreSigners signers frame.now }
    ensures { result ≡ is_convicted (setting_of kit.now) (claims_shown frame.now) q }
{
    let Some(frame) = frame else {
        return false;
    };
    if !signers.contains(q) {
        return false;
    }
    let scheme = kit.scheme();
    let group = kit.group();
    convicts(&scheme, kit.roster(), &group, frame, q)
}

// Whether a note calls the process a liar, or the frame convicts it. A signature is verified only where the notes don't say so.
fn is_shown_by(
    kit: &Kit,
    frame: &Option<FrameView<'_>>,
    signers: PidSet,
    notes: &[Note],
    q: Pid,
) -> bool
    requires { AreSigners signers frame.now }
    ensures { result ≡ is_shown (setting_of kit.now) frame.now notes.now q }
{
    is_liar(notes, q) || is_convicted_by(kit, frame, signers, q)
}

// The first number above the process that was named last, if any was.
fn first_above(above: Option<Pid>) -> u8
    ensures value { result ≡ first_of above }
    ensures within { result ≤ 64 }
{
    match above {
        Some(last) => last.get() + 1,
        None => 0,
    }
}

// Whether the process is one to be named: such as may be expelled, and shown.
fn is_named(
    kit: &Kit,
    process: &Hosted<AnySigner>,
    frame: &Option<FrameView<'_>>,
    signers: PidSet,
    notes: &[Note],
    q: Pid,
) -> bool
    requires { AreSigners signers frame.now }
    ensures { (c : Cast) (p : ℕ) (now : Process) → IsHosted c p now process.now
        → result ≡ is_named_of (setting_of kit.now) frame.now notes.now now q }
{
    may_expel(process, q) && is_shown_by(kit, frame, signers, notes, q)
}

// The process of this number, if it is to be named.
fn named_at(
    kit: &Kit,
    process: &Hosted<AnySigner>,
    frame: &Option<FrameView<'_>>,
    signers: PidSet,
    notes: &[Note],
    number: u8,
) -> Option<Pid>
    requires within { number < 64 }
    requires signers { AreSigners signers frame.now }
    ensures named { (c : Cast) (p : ℕ) (now : Process) → IsHosted c p now process.now
        → result ≡ (if is_named_of (setting_of kit.now) frame.now notes.now now number then Some number else None) }
    ensures same { IfSome result (λ q. q ≡ number) }
{
    let q = Pid::new(number)?;
    if is_named(kit, process, frame, signers, notes, q) {
        Some(q)
    } else {
        None
    }
}

// The least process from this number on that is to be named.
fn least_named(
    kit: &Kit,
    process: &Hosted<AnySigner>,
    frame: &Option<FrameView<'_>>,
    signers: PidSet,
    notes: &[Note],
    first: u8,
) -> Option<Pid>
    requires within { first ≤ 64 }
    requires signers { AreSigners signers frame.now }
    ensures named { (c : Cast) (p : ℕ) (now : Process) → IsHosted c p now process.now
        → result ≡ find (is_named_of (setting_of kit.now) frame.now notes.now now) (range_with_len first (64 - first)) }
    ensures above { IfSome result (λ q. first ≤ q) }
{
    'numbers: for number in first..64 {
        if let Some(q) = named_at(kit, process, frame, signers, notes, number) {
            return Some(q);
        }
    }
    None
}

// The frame of these bytes, if they are one.
fn frame_in<'a>(bytes: &'a [u8]) -> Option<FrameView<'a>>
    ensures { (at : ℕ) → claims_in (Hand at (frame_said bytes.now)) ≡ claims_shown result }
{
    match split_frame(bytes) {
        Ok(frame) => Some(frame),
        Err(_) => None,
    }
}

// Who makes the claims of the frame, if there is one.
fn signers_in(frame: &Option<FrameView<'_>>) -> PidSet
    ensures { AreSigners result frame.now }
{
    match frame {
        Some(frame) => signers_of(frame),
        None => PidSet::new(),
    }
}

/// Whom a process that took this event, and let out these notes, is to suspect next: the least process above the given one that the event
/// shows, and that the process, as it is now, may expel. Only a frame shows any: those whom its claims convict, and those whom a note calls
/// a liar. It takes no memory. Who makes the claims is read once in a call, and only of these it is asked whom the claims convict. Whether
/// a claim is valid is asked last, and of one process after the other: over all calls after one frame each claim is verified at most once,
/// and none of a process that could not be expelled.
pub(crate) fn next_suspect(
    kit: &Kit,
    process: &Hosted<AnySigner>,
    event: &Event<'_>,
    notes: &[Note],
    above: Option<Pid>,
) -> Option<Pid>
    ensures names { (c : Cast) (p : ℕ) (now : Process) → IsHosted c p now process.now
        → result ≡ defs.next_suspect (setting_of kit.now) (handed (event_of event.now)) (map note_of notes.now) now above }
    ensures above { IfSome result (IsAbove above) }
{
    let Event::Frame { bytes, .. } = event else {
        return None;
    };
    let frame = frame_in(bytes);
    let signers = signers_in(&frame);
    least_named(kit, process, &frame, signers, notes, first_above(above))
}
