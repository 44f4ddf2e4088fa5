//! What a process reports of an event.
ghost use Rattle.std.specs.Prelude.{◌≡◌, ◌++◌, OnOk};
ghost use Rattle.text_defs.specs.Words.{line_text};
ghost use Rattle.statements.specs.Batches.{message};
ghost use Rattle.view_table.specs.Views.{as_view};
ghost use Rattle.group_defs.specs.Events as group;
ghost use Rattle.happenings.specs.Events.{note as note_of};
ghost use Rattle.trace_defs.specs.Outcomes.{note_line};

use member_events::Note;
use rp_base::{NoMemory, Pid};
use story_words::{Word, process_word, push_said, said_with_members, said_with_payload};

fn push_delivery(
    out: &mut Vec<u8>,
    at: Pid,
    view: u16,
    place: u16,
    sender: Pid,
    own: u16,
    payload: &[u8],
) -> Result<(), NoMemory>
    ensures { OnOk result (out.new.items ≡ out.old.items
        ++ line_text (note_line at (group.Delivers view (record { place = place; message = message sender own; payload = payload.now })))) }
{
    said_with_payload(
        out,
        at,
        &[
            Word::Text(b"delivers"),
            Word::Message(sender.get().into(), own.into()),
            Word::Text(b"at place"),
            Word::Number(place.into()),
            Word::Text(b"of view"),
            Word::Head(view.into()),
        ],
        payload,
    )
}

fn push_view(out: &mut Vec<u8>, at: Pid, view: u16, members: &[Pid]) -> Result<(), NoMemory>
    ensures { OnOk result (out.new.items ≡ out.old.items ++ line_text (note_line at (group.Installs (as_view view members.now)))) }
{
    said_with_members(
        out,
        at,
        &[Word::Text(b"installs view"), Word::Head(view.into())],
        members,
    )?;
    Ok(())
}

fn push_liar(out: &mut Vec<u8>, at: Pid, liar: Pid) -> Result<(), NoMemory>
    ensures { OnOk result (out.new.items ≡ out.old.items ++ line_text (note_line at (group.Liar liar))) }
{
    push_said(
        out,
        at,
        &[
            Word::Text(b"names"),
            process_word(liar),
            Word::Text(b"a liar"),
        ],
    )
}

fn push_spent(out: &mut Vec<u8>, at: Pid) -> Result<(), NoMemory>
    ensures { OnOk result (out.new.items ≡ out.old.items ++ line_text (note_line at group.Spent)) }
{
    push_said(
        out,
        at,
        &[Word::Text(b"has no signature left for what is due")],
    )
}

fn push_halt(out: &mut Vec<u8>, at: Pid, delivered: u16, cut: u16) -> Result<(), NoMemory>
    ensures { OnOk result (out.new.items ≡ out.old.items ++ line_text (note_line at (group.Halts delivered cut))) }
{
    push_said(
        out,
        at,
        &[
            Word::Text(b"halts for good: places delivered"),
            Word::Number(delivered.into()),
            Word::Text(b"of a view that is cut to"),
            Word::Number(cut.into()),
        ],
    )
}

/// What a process reports of an event.
pub(crate) fn push_note(out: &mut Vec<u8>, at: Pid, note: &Note) -> Result<(), NoMemory>
    ensures { OnOk result (out.new.items ≡ out.old.items ++ line_text (note_line at (note_of note.now))) }
{
    match note {
        Note::Delivered {
            view,
            place,
            sender,
            number,
            payload,
        } => push_delivery(out, at, *view, *place, *sender, *number, payload.bytes()),
        Note::Installed { view, members } => push_view(out, at, *view, members.as_slice()),
        Note::Liar(liar) => push_liar(out, at, *liar),
        Note::Spent => push_spent(out, at),
        Note::Halted { delivered, cut } => push_halt(out, at, *delivered, *cut),
    }
}
