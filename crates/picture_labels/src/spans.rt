//! What a process reports, in few words.
ghost use Rattle.std.specs.Prelude.{◌≡◌, ◌++◌, ◌∷◌, [], codes, map, take, OnOk};
ghost use Rattle.std.specs.List.{flat_map};
ghost use Rattle.trace_defs.specs.Phrases.{number_and_colon, quoted};
ghost use Rattle.statements.specs.Batches.{message};
ghost use Rattle.view_table.specs.Views.{as_view};
ghost use Rattle.group_defs.specs.Events as group;
ghost use Rattle.happenings.specs.Events.{note as note_of};
ghost use Rattle.story_words.specs.Words.{spelled};
ghost use Rattle.picture_defs.specs.Elements as elements;
ghost use Rattle.picture_defs.specs.Labels as plain;
ghost use Rattle.picture_defs.specs.Labels.{in_delivery};

use crate::elements::push_spaced;
use crate::short::shown;
use member_events::Note;
use rp_base::{NoMemory, Pid};
use story_words::{Word, process_word, push_pieces, push_quoted};

/// The most bytes of a payload that are shown.
const MOST_SHOWN: usize = 12;

// The beginning of words of this class.
fn begin_span(out: &mut Vec<u8>, class: &[u8]) -> Result<(), NoMemory>
    ensures { OnOk result (out.new.items ≡ out.old.items ++ plain.span_begin class.now) }
{
    push_pieces(
        out,
        &[
            Word::Text(b" <tspan class='"),
            Word::Text(class),
            Word::Text(b"'>"),
        ],
    )
}

// Their end.
fn end_span(out: &mut Vec<u8>) -> Result<(), NoMemory>
    ensures { OnOk result (out.new.items ≡ out.old.items ++ plain.span_end) }
{
    out.extend_from_slice(b"</tspan>")?;
    Ok(())
}

/// Words of this class.
pub(crate) fn push_span(
    out: &mut Vec<u8>,
    class: &[u8],
    pieces: &[Word<'_>],
) -> Result<(), NoMemory>
    ensures { OnOk result (out.new.items ≡ out.old.items ++ plain.span class.now (flat_map spelled pieces.now)) }
{
    begin_span(out, class)?;
    push_pieces(out, pieces)?;
    end_span(out)
}

/// A space, and words of this class within a text that was begun. They are written as they are: `<` and `&` are not escaped.
pub fn push_one_span(out: &mut Vec<u8>, class: &[u8], text: &[u8]) -> Result<(), NoMemory>
    ensures { OnOk result (out.new.items ≡ out.old.items ++ plain.span class.now text.now) }
{
    begin_span(out, class)?;
    out.extend_from_slice(text)?;
    end_span(out)
}

// The place of what is delivered, and the first bytes of its payload.
#[tactic(auto, unfolding(picture_defs::specs::Labels::in_delivery))]
fn push_place(out: &mut Vec<u8>, place: u16, payload: &[u8]) -> Result<(), NoMemory>
    ensures { OnOk result (out.new.items ≡ out.old.items
        ++ (number_and_colon place ++ (codes " " ++ quoted (take in_delivery payload.now)))) }
{
    push_pieces(out, &[Word::Head(place.into())])?;
    out.push(b' ')?;
    push_quoted(out, shown(payload, MOST_SHOWN))
}

fn push_delivery(
    out: &mut Vec<u8>,
    view: u16,
    place: u16,
    sender: Pid,
    own: u16,
    payload: &[u8],
) -> Result<(), NoMemory>
    ensures { OnOk result (out.new.items ≡ out.old.items
        ++ plain.note_span (group.Delivers view (record { place = place; message = message sender own; payload = payload.now }))) }
{
    begin_span(out, b"got")?;
    push_place(out, place, payload)?;
    end_span(out)
}

// The number of a view, and its members.
fn push_members(out: &mut Vec<u8>, view: u16, members: &[Pid]) -> Result<(), NoMemory>
    ensures { OnOk result (out.new.items ≡ out.old.items
        ++ (elements.text_of (codes "view " ∷ number_and_colon view ∷ []) ++ elements.spaced members.now)) }
{
    push_pieces(out, &[Word::Text(b"view "), Word::Head(view.into())])?;
    push_spaced(out, members)
}

fn push_view(out: &mut Vec<u8>, view: u16, members: &[Pid]) -> Result<(), NoMemory>
    ensures { OnOk result (out.new.items ≡ out.old.items ++ plain.note_span (group.Installs (as_view view members.now))) }
{
    begin_span(out, b"view")?;
    push_members(out, view, members)?;
    end_span(out)
}

fn push_liar(out: &mut Vec<u8>, liar: Pid) -> Result<(), NoMemory>
    ensures { OnOk result (out.new.items ≡ out.old.items ++ plain.note_span (group.Liar liar)) }
{
    push_span(out, b"bad", &[process_word(liar), Word::Text(b" lies")])
}

// What a process reports.
fn push_note(out: &mut Vec<u8>, note: &Note) -> Result<(), NoMemory>
    ensures { OnOk result (out.new.items ≡ out.old.items ++ plain.note_span (note_of note.now)) }
{
    match note {
        Note::Delivered {
            view,
            place,
            sender,
            number,
            payload,
        } => push_delivery(out, *view, *place, *sender, *number, payload.bytes()),
        Note::Installed { view, members } => push_view(out, *view, members.as_slice()),
        Note::Liar(liar) => push_liar(out, *liar),
        Note::Spent => push_one_span(out, b"bad", b"key spent"),
        Note::Halted { .. } => push_one_span(out, b"bad", b"halts"),
    }
}

/// All that a process reports.
pub(crate) fn push_notes(out: &mut Vec<u8>, notes: &[Note]) -> Result<(), NoMemory>
    ensures { OnOk result (out.new.items ≡ out.old.items ++ flat_map plain.note_span (map note_of notes.now)) }
{
    for note in notes {
        push_note(out, note)?;
    }
    Ok(())
}
