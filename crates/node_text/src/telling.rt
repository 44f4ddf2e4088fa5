//! What a turn reports.
ghost use Rattle.std.specs.Prelude.{◌≡◌, ◌++◌, OnOk, OnErr};
ghost use Rattle.group_defs.specs.Events.{Delivers, Installs};
ghost use Rattle.view_table.specs.Views.{as_view};
ghost use Rattle.report_lines.specs.Below.{note as note_of};
ghost use Rattle.node_defs.specs.Lines as plain;

use crate::words::{Word, process_word, push_line};
use member_events::Note;
use rp_base::{NoMemory, Pid};

fn push_delivery(
    out: &mut Vec<u8>,
    me: Pid,
    view: u16,
    place: u16,
    message: (Pid, u16),
    payload: &[u8],
) -> Result<(), NoMemory>
    ensures pushed { OnOk result (out.new.items ≡ out.old.items ++ plain.note_line me (Delivers view (record {
      place = place;
      message = record { sender = message.0; number = message.1 };
      payload = payload.now;
    }))) }
    ensures unchanged { OnErr result (out.new.items ≡ out.old.items) }
{
    push_line(
        out,
        b"deliver",
        &[
            process_word(me),
            Word::Number(view.into()),
            Word::Number(place.into()),
            process_word(message.0),
            Word::Number(message.1.into()),
            Word::Bytes(payload),
        ],
    )
}

fn push_view(out: &mut Vec<u8>, me: Pid, view: u16, members: &[Pid]) -> Result<(), NoMemory>
    ensures pushed { OnOk result (out.new.items ≡ out.old.items ++ plain.note_line me (Installs (as_view view members.now))) }
    ensures unchanged { OnErr result (out.new.items ≡ out.old.items) }
{
    push_line(
        out,
        b"view",
        &[
            process_word(me),
            Word::Number(view.into()),
            Word::Text(b":"),
            Word::Processes(members),
        ],
    )?;
    Ok(())
}

/// Appends the line of what a turn of this process reports.
///
/// # Errors
/// [`NoMemory`]; nothing is appended then.
pub fn push_note(out: &mut Vec<u8>, me: Pid, note: &Note) -> Result<(), NoMemory>
    ensures pushed { OnOk result (out.new.items ≡ out.old.items ++ plain.note_line me (note_of note.now)) }
    ensures unchanged { OnErr result (out.new.items ≡ out.old.items) }
{
    match note {
        Note::Delivered {
            view,
            place,
            sender,
            number,
            payload,
        } => push_delivery(out, me, *view, *place, (*sender, *number), payload.bytes()),
        Note::Installed { view, members } => push_view(out, me, *view, members.as_slice()),
        Note::Liar(liar) => push_line(out, b"liar", &[process_word(me), process_word(*liar)]),
        Note::Spent => push_line(out, b"spent", &[process_word(me)]),
        Note::Halted { delivered, cut } => push_line(
            out,
            b"halted",
            &[
                process_word(me),
                Word::Number((*delivered).into()),
                Word::Number((*cut).into()),
            ],
        ),
    }
}
