//! A mark for each thing that happens, and what came of it, in few words.
ghost use Rattle.std.specs.Prelude.{◌≡◌, ◌++◌, codes, map, IfOk, OnOk};
ghost use Rattle.std.specs.List.{list_any};
ghost use Rattle.replay_defs.specs.Reports.{refusal_word as refusal_word_of};
ghost use Rattle.happenings.specs.Events.{fault as fault_of};
ghost use Rattle.schedule_file.specs.Views.{listed};
ghost use Rattle.happenings.specs.Events.{note as note_of};
ghost use Rattle.happenings.specs.Reported.{handed as handed_of, seen as seen_of, happening as happening_of};
ghost use Rattle.picture_defs.specs.Elements as elements;
ghost use Rattle.picture_defs.specs.Labels as plain;
ghost use Rattle.picture_defs.specs.Layout as layouts;
ghost use Rattle.picture_labels.specs.Views.{point};

use crate::elements::{Point, begin_text, end_text, push_dot};
use crate::layout::place;
use crate::short::{push_all_short, push_short};
use crate::spans::{push_notes, push_one_span};
use happenings::{Handed, Happening, Seen};
use member_events::{EventFault, EventVerdict, Note};
use rp_base::{NoMemory, Pid};
use schedule_file::Listed;
use story_words::{Word, process_word, push_pieces, refusal_word};

// Beside a mark.
fn beside(at: Point) -> Result<Point, NoMemory>
    ensures { IfOk result (λ p. point p ≡ plain.beside (point at)) }
{
    Ok(Point {
        x: at.x.checked_add(9).ok_or(NoMemory)?,
        y: at.y.checked_add(4).ok_or(NoMemory)?,
    })
}

// What a process is asked for.
fn push_wish(out: &mut Vec<u8>, handed: &Handed) -> Result<(), NoMemory>
    ensures { OnOk result (out.new.items ≡ out.old.items ++ plain.wish (handed_of handed.now)) }
{
    match handed {
        Handed::Payload => push_pieces(out, &[Word::Text(b" submit")]),
        Handed::Suspects(other) => {
            push_pieces(out, &[Word::Text(b" remove "), process_word(*other)])
        }
        Handed::Joins(other) => push_pieces(out, &[Word::Text(b" add "), process_word(*other)]),
        Handed::Renews => push_pieces(out, &[Word::Text(b" renew")]),
        Handed::Ticks => push_pieces(out, &[Word::Text(b" tick")]),
        Handed::Frame { .. } | Handed::Bytes { .. } => Ok(()),
    }
}

fn is_frame(handed: &Handed) -> bool
    ensures { result ≡ plain.is_frame (handed_of handed.now) }
{
    matches!(handed, Handed::Frame { .. } | Handed::Bytes { .. })
}

// There is nothing to say.
fn is_quiet(handed: &Handed, seen: &Seen) -> bool
    ensures { result ≡ plain.is_quiet (handed_of handed.now) (seen_of seen.now) }
{
    is_frame(handed) && seen.notes.is_empty() && seen.signed.is_empty()
}

// What it was asked for, and why it refused it.
fn push_reason(out: &mut Vec<u8>, handed: &Handed, fault: EventFault) -> Result<(), NoMemory>
    ensures { OnOk result (out.new.items ≡ out.old.items
        ++ (plain.wish (handed_of handed.now) ++ plain.span (codes "bad") (refusal_word_of (fault_of fault)))) }
{
    push_wish(out, handed)?;
    push_one_span(out, b"bad", refusal_word(fault))
}

fn push_refusal(
    out: &mut Vec<u8>,
    at: Point,
    handed: &Handed,
    fault: EventFault,
) -> Result<(), NoMemory>
    ensures { OnOk result (out.new.items ≡ out.old.items
        ++ plain.refusal_text (point at) (handed_of handed.now) (fault_of fault)) }
{
    let side = beside(at)?;
    begin_text(out, b"said", side)?;
    push_reason(out, handed, fault)?;
    end_text(out)
}

// What it reported and what it signed.
fn push_outcome_words(out: &mut Vec<u8>, seen: &Seen) -> Result<(), NoMemory>
    ensures { OnOk result (out.new.items ≡ out.old.items ++ plain.outcome_words (seen_of seen.now)) }
{
    push_notes(out, &seen.notes)?;
    push_all_short(out, &seen.signed)?;
    Ok(())
}

// What it was asked for, and what came of it.
fn push_outcome(out: &mut Vec<u8>, handed: &Handed, seen: &Seen) -> Result<(), NoMemory>
    ensures { OnOk result (out.new.items ≡ out.old.items
        ++ (plain.wish (handed_of handed.now) ++ plain.outcome_words (seen_of seen.now))) }
{
    push_wish(out, handed)?;
    push_outcome_words(out, seen)
}

// What came of what was taken, where there is anything to say.
fn push_taken(out: &mut Vec<u8>, at: Point, handed: &Handed, seen: &Seen) -> Result<(), NoMemory>
    ensures { OnOk result (out.new.items ≡ out.old.items
        ++ plain.taken_text (point at) (handed_of handed.now) (seen_of seen.now)) }
{
    if is_quiet(handed, seen) {
        return Ok(());
    }
    let side = beside(at)?;
    begin_text(out, b"said", side)?;
    push_outcome(out, handed, seen)?;
    end_text(out)
}

// What it was asked for, and why it refused it or else what came of it.
fn push_outcome_text(
    out: &mut Vec<u8>,
    at: Point,
    handed: &Handed,
    seen: &Seen,
) -> Result<(), NoMemory>
    ensures { OnOk result (out.new.items ≡ out.old.items
        ++ plain.outcome_text (point at) (handed_of handed.now) (seen_of seen.now)) }
{
    match seen.verdict {
        EventVerdict::Refused(fault) => push_refusal(out, at, handed, fault),
        EventVerdict::Taken => push_taken(out, at, handed, seen),
    }
}

fn is_delivery(note: &Note) -> bool
    ensures { result ≡ plain.is_delivery (note_of note.now) }
{
    matches!(note, Note::Delivered { .. })
}

// Whether a message is delivered among these.
fn delivers(notes: &[Note]) -> bool
    ensures { result ≡ list_any (λ n. plain.is_delivery (note_of n)) notes.now }
{
    notes.iter().any(|note| is_delivery(note))
}

// Whether a message is delivered.
fn has_delivery(seen: &Seen) -> bool
    ensures { result ≡ list_any plain.is_delivery (map note_of seen.now.notes.items) }
{
    delivers(&seen.notes)
}

// The mark of what was taken.
fn push_taken_mark(
    out: &mut Vec<u8>,
    at: Point,
    handed: &Handed,
    seen: &Seen,
) -> Result<(), NoMemory>
    ensures { OnOk result (out.new.items ≡ out.old.items
        ++ plain.taken_mark (point at) (handed_of handed.now) (seen_of seen.now)) }
{
    if has_delivery(seen) {
        return push_dot(out, b"delivered", at, 5);
    }
    if is_frame(handed) {
        return push_dot(out, b"step", at, 2);
    }
    push_dot(out, b"asked", at, 4)
}

// The mark of what a process was handed.
fn push_mark(out: &mut Vec<u8>, at: Point, handed: &Handed, seen: &Seen) -> Result<(), NoMemory>
    ensures { OnOk result (out.new.items ≡ out.old.items ++ plain.mark (point at) (handed_of handed.now) (seen_of seen.now)) }
{
    match seen.verdict {
        EventVerdict::Refused(_) => push_dot(out, b"wrong", at, 4),
        EventVerdict::Taken => push_taken_mark(out, at, handed, seen),
    }
}

// The mark of what a process was handed, and what came of it.
#[tactic(auto, unfolding(picture_defs::specs::Labels::step_label))]
fn push_step(out: &mut Vec<u8>, at: Point, handed: &Handed, seen: &Seen) -> Result<(), NoMemory>
    ensures { OnOk result (out.new.items ≡ out.old.items
        ++ plain.step_label (point at) (handed_of handed.now) (seen_of seen.now)) }
{
    push_mark(out, at, handed, seen)?;
    push_outcome_text(out, at, handed, seen)
}

// The statement of a lie.
fn push_false(out: &mut Vec<u8>, at: Point, statement: &[u8]) -> Result<(), NoMemory>
    ensures { OnOk result (out.new.items ≡ out.old.items
        ++ elements.text_at (codes "bad") (plain.beside (point at)) (plain.short_of statement.now)) }
{
    let side = beside(at)?;
    begin_text(out, b"bad", side)?;
    push_short(out, statement)?;
    end_text(out)
}

// The mark of a lie, and its statement.
#[tactic(auto, unfolding(picture_defs::specs::Labels::lie_label))]
fn push_lie(out: &mut Vec<u8>, at: Point, statement: &[u8]) -> Result<(), NoMemory>
    ensures { OnOk result (out.new.items ≡ out.old.items ++ plain.lie_label (point at) statement.now) }
{
    push_dot(out, b"wrong", at, 4)?;
    push_false(out, at, statement)
}

// What process p was handed in row k.
fn label_step(
    out: &mut Vec<u8>,
    processes: &[Listed],
    k: u64,
    p: Pid,
    handed: &Handed,
    seen: &Seen,
) -> Result<(), NoMemory>
    ensures { OnOk result (out.new.items ≡ out.old.items
        ++ plain.step_label (layouts.place (map listed processes.now) p k) (handed_of handed.now) (seen_of seen.now)) }
{
    let at = place(processes, p, k)?;
    push_step(out, at, handed, seen)
}

// The lie of process p in row k.
fn label_lie(
    out: &mut Vec<u8>,
    processes: &[Listed],
    k: u64,
    p: Pid,
    statement: &[u8],
) -> Result<(), NoMemory>
    ensures { OnOk result (out.new.items ≡ out.old.items
        ++ plain.lie_label (layouts.place (map listed processes.now) p k) statement.now) }
{
    let at = place(processes, p, k)?;
    push_lie(out, at, statement)
}

// Process p has no signature left in row k.
fn label_silence(out: &mut Vec<u8>, processes: &[Listed], k: u64, p: Pid) -> Result<(), NoMemory>
    ensures { OnOk result (out.new.items ≡ out.old.items
        ++ elements.dot (codes "gone") (layouts.place (map listed processes.now) p k) 4) }
{
    let at = place(processes, p, k)?;
    push_dot(out, b"gone", at, 4)
}

/// The mark of what happens in row k, and beside it what came of it; nothing, where a frame is lost.
pub fn push_label(
    out: &mut Vec<u8>,
    processes: &[Listed],
    k: u64,
    what: &Happening,
) -> Result<(), NoMemory>
    ensures { OnOk result (out.new.items ≡ out.old.items ++ plain.label (map listed processes.now) k (happening_of what.now)) }
{
    match what {
        Happening::Takes {
            at,
            handed,
            seen,
            ..
        } => label_step(out, processes, k, *at, handed, seen),
        Happening::Lies {
            signer,
            statement,
            ..
        } => label_lie(out, processes, k, *signer, statement.bytes()),
        Happening::Silent { signer } => label_silence(out, processes, k, *signer),
        Happening::Loses { .. } => Ok(()),
    }
}
