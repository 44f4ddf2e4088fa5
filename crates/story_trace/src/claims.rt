//! What a process signs.
ghost use Rattle.std.specs.Prelude.{◌≡◌, ◌++◌, ◌∷◌, codes, OnOk};
ghost use Rattle.text_defs.specs.Words.{line_text};
ghost use Rattle.rp_base.specs.Views.{update as update_of, value as value_of};
ghost use Rattle.statements.specs.Batches.{message};
ghost use Rattle.statements.specs.Views.{report};
ghost use Rattle.member_events.specs.Below.{stmt};
ghost use Rattle.message_defs.specs.Statements as plain;
ghost use Rattle.trace_defs.specs.Phrases.{place_words, rank_words, last_words, statement_words, spelled_words};
ghost use Rattle.trace_defs.specs.Outcomes.{of_process};

use member_events::{Batch, Statement, read_statement};
use rp_base::{NoMemory, Pid, Update, Value};
use story_words::{
    Word, begin_said, end_line, push_said, said_with_batch, said_with_payload, said_with_update,
};
use text_codec::push_hex;

// A statement of a batch at a place.
fn push_at_place(
    out: &mut Vec<u8>,
    at: Pid,
    kind: &[u8],
    view: u16,
    place: u16,
    batch: &Batch,
) -> Result<(), NoMemory>
    ensures { OnOk result (out.new.items ≡ out.old.items
        ++ line_text (of_process at (codes "signs" ∷ place_words kind.now view place batch.now))) }
{
    said_with_batch(
        out,
        at,
        &[
            Word::Text(b"signs"),
            Word::Text(kind),
            Word::Text(b"of place"),
            Word::Number(place.into()),
            Word::Text(b"in view"),
            Word::Head(view.into()),
        ],
        batch,
    )
}

// A statement of a value at a rank.
fn push_at_rank(
    out: &mut Vec<u8>,
    at: Pid,
    kind: &[u8],
    view: u16,
    rank: u8,
    value: Value,
) -> Result<(), NoMemory>
    ensures { OnOk result (out.new.items ≡ out.old.items
        ++ line_text (of_process at (codes "signs" ∷ rank_words kind.now view rank (value_of value)))) }
{
    said_with_update(
        out,
        at,
        &[
            Word::Text(b"signs"),
            Word::Text(kind),
            Word::Text(b"at rank"),
            Word::Number(rank.into()),
            Word::Text(b"in view"),
            Word::Head(view.into()),
            Word::Text(b"cut"),
            Word::Number(value.cut.into()),
            Word::Text(b"and"),
        ],
        value.update,
    )
}

// A Last that reports no Ready.
fn push_empty_last(out: &mut Vec<u8>, at: Pid, view: u16, rank: u8) -> Result<(), NoMemory>
    ensures { OnOk result (out.new.items ≡ out.old.items ++ line_text (of_process at (codes "signs" ∷ last_words view rank None))) }
{
    push_said(
        out,
        at,
        &[
            Word::Text(b"signs"),
            Word::Text(b"Last at rank"),
            Word::Number(rank.into()),
            Word::Text(b"in view"),
            Word::Head(view.into()),
            Word::Text(b"no Ready"),
        ],
    )
}

// A Last that reports a Ready of an earlier rank.
fn push_reporting_last(
    out: &mut Vec<u8>,
    at: Pid,
    view: u16,
    rank: u8,
    earlier: u8,
    value: Value,
) -> Result<(), NoMemory>
    ensures { OnOk result (out.new.items ≡ out.old.items
        ++ line_text (of_process at (codes "signs" ∷ last_words view rank (report (Some (earlier, value)))))) }
{
    said_with_update(
        out,
        at,
        &[
            Word::Text(b"signs"),
            Word::Text(b"Last at rank"),
            Word::Number(rank.into()),
            Word::Text(b"in view"),
            Word::Head(view.into()),
            Word::Text(b"Ready at rank"),
            Word::Number(earlier.into()),
            Word::Text(b"cut"),
            Word::Number(value.cut.into()),
            Word::Text(b"and"),
        ],
        value.update,
    )
}

fn push_last(
    out: &mut Vec<u8>,
    at: Pid,
    view: u16,
    rank: u8,
    ready: Option<(u8, Value)>,
) -> Result<(), NoMemory>
    ensures { OnOk result (out.new.items ≡ out.old.items
        ++ line_text (of_process at (codes "signs" ∷ last_words view rank (report ready)))) }
{
    match ready {
        None => push_empty_last(out, at, view, rank),
        Some((earlier, value)) => push_reporting_last(out, at, view, rank, earlier, value),
    }
}

fn push_init(
    out: &mut Vec<u8>,
    at: Pid,
    view: u16,
    number: u16,
    payload: &[u8],
) -> Result<(), NoMemory>
    ensures { OnOk result (out.new.items ≡ out.old.items
        ++ line_text (of_process at (codes "signs" ∷ statement_words (plain.Init view number payload.now)))) }
{
    said_with_payload(
        out,
        at,
        &[
            Word::Text(b"signs"),
            Word::Text(b"Init"),
            Word::Number(number.into()),
            Word::Text(b"in view"),
            Word::Head(view.into()),
        ],
        payload,
    )
}

fn push_echo(
    out: &mut Vec<u8>,
    at: Pid,
    view: u16,
    sender: Pid,
    number: u16,
    payload: &[u8],
) -> Result<(), NoMemory>
    ensures { OnOk result (out.new.items ≡ out.old.items
        ++ line_text (of_process at (codes "signs" ∷ statement_words (plain.Echo view (message sender number) payload.now)))) }
{
    said_with_payload(
        out,
        at,
        &[
            Word::Text(b"signs"),
            Word::Text(b"Echo of"),
            Word::Message(sender.get().into(), number.into()),
            Word::Text(b"in view"),
            Word::Head(view.into()),
        ],
        payload,
    )?;
    Ok(())
}

fn push_end(out: &mut Vec<u8>, at: Pid, view: u16, length: u16) -> Result<(), NoMemory>
    ensures { OnOk result (out.new.items ≡ out.old.items
        ++ line_text (of_process at (codes "signs" ∷ statement_words (plain.End view length)))) }
{
    push_said(
        out,
        at,
        &[
            Word::Text(b"signs"),
            Word::Text(b"End of view"),
            Word::Number(view.into()),
            Word::Text(b"behind"),
            Word::Number(length.into()),
            Word::Text(b"places"),
        ],
    )
}

fn push_notify(out: &mut Vec<u8>, at: Pid, view: u16, update: Update) -> Result<(), NoMemory>
    ensures { OnOk result (out.new.items ≡ out.old.items
        ++ line_text (of_process at (codes "signs" ∷ statement_words (plain.Notify view (update_of update))))) }
{
    said_with_update(
        out,
        at,
        &[
            Word::Text(b"signs"),
            Word::Text(b"Notify in view"),
            Word::Head(view.into()),
        ],
        update,
    )
}

fn push_statement(out: &mut Vec<u8>, at: Pid, said: &Statement<'_>) -> Result<(), NoMemory>
    ensures { OnOk result (out.new.items ≡ out.old.items ++ line_text (of_process at (codes "signs" ∷ statement_words (stmt said.now)))) }
{
    match *said {
        Statement::Init {
            view,
            number,
            payload,
        } => push_init(out, at, view, number, payload),
        Statement::Echo {
            view,
            sender,
            number,
            payload,
        } => push_echo(out, at, view, sender, number, payload),
        Statement::Order { view, place, batch } => {
            push_at_place(out, at, b"Order", view, place, &batch)
        }
        Statement::Place { view, place, batch } => {
            push_at_place(out, at, b"Place", view, place, &batch)
        }
        Statement::Keep { view, place, batch } => {
            push_at_place(out, at, b"Keep", view, place, &batch)
        }
        Statement::Notify { view, update } => push_notify(out, at, view, update),
        Statement::End { view, length } => push_end(out, at, view, length),
        Statement::Last { view, rank, ready } => push_last(out, at, view, rank, ready),
        Statement::Suggest { view, rank, value } => {
            push_at_rank(out, at, b"Suggest", view, rank, value)
        }
        Statement::Ack { view, rank, value } => push_at_rank(out, at, b"Ack", view, rank, value),
        Statement::Ready { view, rank, value } => {
            push_at_rank(out, at, b"Ready", view, rank, value)
        }
    }
}

/// What a process signed, by the statement's bytes: `no statement` where they spell none.
pub(crate) fn push_signed(out: &mut Vec<u8>, at: Pid, bytes: &[u8]) -> Result<(), NoMemory>
    ensures { OnOk result (out.new.items ≡ out.old.items ++ line_text (of_process at (codes "signs" ∷ spelled_words bytes.now))) }
{
    match read_statement(bytes) {
        Ok(said) => push_statement(out, at, &said),
        Err(_) => push_said(
            out,
            at,
            &[Word::Text(b"signs"), Word::Text(b"no statement")],
        ),
    }
}
