//! What happens, line by line.
ghost use Rattle.std.specs.Prelude.{◌≡◌, ◌++◌, ◌∷◌, [], codes, map, OnOk};
ghost use Rattle.std.specs.List.{flat_map, enumerate_from, join_with_byte};
ghost use Rattle.std.specs.Fmt.{decimal};
ghost use Rattle.text_defs.specs.Words.{space, line_text};
ghost use Rattle.member_events.specs.Below.{signed as signed_of};
ghost use Rattle.happenings.specs.Events.{note as note_of};
ghost use Rattle.trace_defs.specs.Outcomes as lines;
ghost use Rattle.trace_defs.specs.Outcomes.{claims_word as claims_word_of};
ghost use Rattle.trace_defs.specs.Happenings as plain;
ghost use Rattle.schedule_file.specs.Views as views;
ghost use Rattle.reported_defs.specs.Reported.{event_lines};
ghost use Rattle.happenings.specs.Reported.{handed as handed_of, seen as seen_of, happening as happening_of};

use crate::claims::push_signed;
use crate::events::push_event;
use crate::handed::push_handed;
use crate::notes::push_note;
use crate::refusals::push_refusal;
use happenings::{Handed, Happening, Seen};
use member_events::{EventVerdict, Note, OwnClaim};
use rp_base::{NoMemory, Pid, PidSet};
use schedule_file::ScheduleEvent;
use story_words::{
    Word, begin_said, end_line, process_word, push_line, push_said, said_with_processes,
};

fn claims_word(n: u16) -> &'static [u8]
    ensures { result.now ≡ claims_word_of n }
{
    if n == 1 { b"new claim" } else { b"new claims" }
}

// `heard` claims were new to it.
fn begin_claims(out: &mut Vec<u8>, at: Pid, heard: u16) -> Result<(), NoMemory>
    ensures { OnOk result (out.new.items ≡ out.old.items
        ++ join_with_byte space (lines.of_process at (codes "hears" ∷ decimal heard ∷ claims_word_of heard ∷ codes "in" ∷ []))) }
{
    begin_said(
        out,
        at,
        &[
            Word::Text(b"hears"),
            Word::Number(heard.into()),
            Word::Text(claims_word(heard)),
            Word::Text(b"in"),
        ],
    )
}

// `heard` claims were new to it, in what it was handed.
fn push_claims(out: &mut Vec<u8>, at: Pid, handed: Handed, heard: u16) -> Result<(), NoMemory>
    ensures { OnOk result (out.new.items ≡ out.old.items
        ++ flat_map line_text (lines.heard_line at (plain.handed_words (handed_of handed)) heard ∷ [])) }
{
    begin_claims(out, at, heard)?;
    push_handed(out, handed)?;
    end_line(out)?;
    Ok(())
}

// What it hears, where it gets a frame.
fn push_heard(out: &mut Vec<u8>, at: Pid, handed: Handed, heard: u16) -> Result<(), NoMemory>
    ensures { OnOk result (out.new.items ≡ out.old.items ++ flat_map line_text (plain.heard_lines at (handed_of handed) heard)) }
{
    match handed {
        Handed::Frame { .. } | Handed::Bytes { .. } => push_claims(out, at, handed, heard),
        _ => Ok(()),
    }
}

fn push_all_signed(out: &mut Vec<u8>, at: Pid, signed: &[OwnClaim]) -> Result<(), NoMemory>
    ensures { OnOk result (out.new.items ≡ out.old.items ++ flat_map line_text (map (lines.signed_line at) (map signed_of signed.now))) }
{
    for claim in signed {
        push_signed(out, at, claim.statement.bytes())?;
    }
    Ok(())
}

fn push_notes(out: &mut Vec<u8>, at: Pid, notes: &[Note]) -> Result<(), NoMemory>
    ensures { OnOk result (out.new.items ≡ out.old.items ++ flat_map line_text (map (lines.note_line at) (map note_of notes.now))) }
{
    for note in notes {
        push_note(out, at, note)?;
    }
    Ok(())
}

// A frame, and to whom it goes.
fn push_sent(out: &mut Vec<u8>, at: Pid, frame: u64, to: PidSet) -> Result<(), NoMemory>
    ensures { OnOk result (out.new.items ≡ out.old.items ++ line_text (lines.frame_line at frame to)) }
{
    said_with_processes(
        out,
        at,
        &[
            Word::Text(b"sends frame"),
            Word::Number(frame),
            Word::Text(b"to"),
        ],
        to,
    )
}

// The frames that it sends, from this number on. More than fit into memory can't be numbered.
fn push_sends(out: &mut Vec<u8>, at: Pid, first: u64, sends: &[PidSet]) -> Result<(), NoMemory>
    ensures { OnOk result (out.new.items ≡ out.old.items
        ++ flat_map (λ e. line_text (lines.sent_line at e)) (enumerate_from first sends.now)) }
{
    for (i, to) in sends.iter().enumerate() {
        let frame = first.checked_add(i as u64).ok_or(NoMemory)?;
        push_sent(out, at, frame, *to)?;
    }
    Ok(())
}

// What came of an event that was taken.
fn push_taken(out: &mut Vec<u8>, at: Pid, first: u64, seen: &Seen) -> Result<(), NoMemory>
    ensures { OnOk result (out.new.items ≡ out.old.items ++ flat_map line_text (lines.taken_lines at first (seen_of seen.now))) }
{
    push_all_signed(out, at, &seen.signed)?;
    push_notes(out, at, &seen.notes)?;
    push_sends(out, at, first, &seen.to)?;
    Ok(())
}

// What came of what it was handed.
fn push_outcome(
    out: &mut Vec<u8>,
    at: Pid,
    handed: Handed,
    first: u64,
    seen: &Seen,
) -> Result<(), NoMemory>
    ensures { OnOk result (out.new.items ≡ out.old.items
        ++ flat_map line_text (plain.outcome_lines at (handed_of handed) first (seen_of seen.now))) }
{
    match seen.verdict {
        EventVerdict::Refused(fault) => push_refusal(out, at, handed, fault),
        EventVerdict::Taken => {
            push_heard(out, at, handed, seen.heard)?;
            push_taken(out, at, first, seen)?;
            Ok(())
        }
    }
}

// A frame that is lost on its way.
fn push_loss(out: &mut Vec<u8>, frame: u64, from: Pid, to: Pid) -> Result<(), NoMemory>
    ensures { OnOk result (out.new.items ≡ out.old.items ++ flat_map line_text (plain.lines_of (plain.Loses frame from to))) }
{
    push_line(
        out,
        Word::Text(b" "),
        &[
            Word::Text(b"frame"),
            Word::Number(frame),
            Word::Text(b"of"),
            process_word(from),
            Word::Text(b"to"),
            process_word(to),
            Word::Text(b"is lost"),
        ],
    )
}

// A lie, and to whom it goes.
fn push_lie(
    out: &mut Vec<u8>,
    signer: Pid,
    statement: &[u8],
    frame: u64,
    to: PidSet,
) -> Result<(), NoMemory>
    ensures { OnOk result (out.new.items ≡ out.old.items
        ++ flat_map line_text (plain.lines_of (plain.Lies signer statement.now frame to))) }
{
    push_signed(out, signer, statement)?;
    push_sent(out, signer, frame, to)?;
    Ok(())
}

// A corrupt process has no signature left.
fn push_silence(out: &mut Vec<u8>, signer: Pid) -> Result<(), NoMemory>
    ensures { OnOk result (out.new.items ≡ out.old.items ++ flat_map line_text (plain.lines_of (plain.Silent signer))) }
{
    push_said(
        out,
        signer,
        &[Word::Text(b"has no signature left, and sends nothing")],
    )
}

/// What happens, line by line.
fn push_happening(out: &mut Vec<u8>, happening: &Happening) -> Result<(), NoMemory>
    ensures { OnOk result (out.new.items ≡ out.old.items ++ flat_map line_text (plain.lines_of (happening_of happening.now))) }
{
    match happening {
        Happening::Takes {
            at,
            handed,
            first,
            seen,
        } => push_outcome(out, *at, *handed, *first, seen),
        Happening::Loses { frame, from, to } => push_loss(out, *frame, *from, *to),
        Happening::Lies {
            signer,
            statement,
            frame,
            to,
        } => push_lie(out, *signer, statement.bytes(), *frame, *to),
        Happening::Silent { signer } => push_silence(out, *signer),
    }
}

fn push_all(out: &mut Vec<u8>, reported: &[Happening]) -> Result<(), NoMemory>
    ensures { OnOk result (out.new.items ≡ out.old.items
        ++ flat_map (λ x. flat_map line_text (plain.lines_of x)) (map happening_of reported.now)) }
{
    for happening in reported {
        push_happening(out, happening)?;
    }
    Ok(())
}

/// The event of this number, and what happens in it.
pub(crate) fn push_reported(
    out: &mut Vec<u8>,
    n: u64,
    event: &ScheduleEvent,
    reported: &[Happening],
) -> Result<(), NoMemory>
    ensures { OnOk result (out.new.items ≡ out.old.items
        ++ flat_map line_text (event_lines n (views.event event.now) (map happening_of reported.now))) }
{
    push_event(out, n, event)?;
    push_all(out, reported)?;
    Ok(())
}
