//! Statements in words.
ghost use Rattle.std.specs.Prelude.{◌≡◌, ◌++◌, ◌∷◌, [], map, OnOk};
ghost use Rattle.std.specs.List.{flat_map};
ghost use Rattle.rp_base.specs.Views as base;
ghost use Rattle.statements.specs.Batches.{message_of};
ghost use Rattle.statements.specs.Views as statements;
ghost use Rattle.story_defs.specs.Texts as plain;
ghost use Rattle.story_writing.specs.Tokens.{behind};

use crate::tokens::{Token, push_behind};
use rp_base::{NoMemory, Pid, Update, Value};
use statements::{Batch, Statement, read_statement};

fn push_update(out: &mut Vec<u8>, update: Update) -> Result<(), NoMemory>
    ensures { OnOk result (out.new.items ≡ out.old.items ++ behind (plain.update_tokens (base.update update))) }
{
    match update {
        Update::Remove(p) => {
            push_behind(
                out,
                &[Token::Word(b"remove"), Token::Number(p.get().into())],
            )
        }
        Update::Add(p) => push_behind(out, &[Token::Word(b"add"), Token::Number(p.get().into())]),
        Update::Renew => push_behind(out, &[Token::Word(b"renew")]),
    }
}

fn push_value(out: &mut Vec<u8>, value: Value) -> Result<(), NoMemory>
    ensures { OnOk result (out.new.items ≡ out.old.items ++ behind (plain.value_tokens (base.value value))) }
{
    push_update(out, value.update)?;
    push_behind(out, &[Token::Number(value.cut.into())])
}

// The view, where it is not 0, and the kind.
fn push_kind(out: &mut Vec<u8>, view: u16, kind: &[u8]) -> Result<(), NoMemory>
    ensures { OnOk result (out.new.items ≡ out.old.items ++ behind (plain.kind_tokens view kind.now)) }
{
    if view == 0 {
        return push_behind(out, &[Token::Word(kind)]);
    }
    push_behind(
        out,
        &[
            Token::Word(b"in"),
            Token::Number(view.into()),
            Token::Word(kind),
        ],
    )
}

fn push_message(out: &mut Vec<u8>, sender: Pid, number: u16) -> Result<(), NoMemory>
    ensures { OnOk result (out.new.items ≡ out.old.items ++ behind (plain.message_tokens (statements.message sender number))) }
{
    push_behind(
        out,
        &[
            Token::Number(sender.get().into()),
            Token::Number(number.into()),
        ],
    )
}

fn push_messages(out: &mut Vec<u8>, messages: &[(Pid, u16)]) -> Result<(), NoMemory>
    ensures { OnOk result (out.new.items ≡ out.old.items ++ flat_map (λ m. behind (plain.message_tokens m)) (map message_of messages.now)) }
{
    'messages: for message in messages {
        push_message(out, message.0, message.1)?;
    }
    Ok(())
}

// The place and the batch of an Order, a Place or a Keep.
fn push_placed(out: &mut Vec<u8>, place: u16, batch: Batch) -> Result<(), NoMemory>
    ensures { OnOk result (out.new.items ≡ out.old.items ++ behind (plain.number place ∷ flat_map plain.message_tokens batch)) }
{
    push_behind(out, &[Token::Number(place.into())])?;
    push_messages(out, batch.messages())
}

// What a Last reports.
fn push_report(out: &mut Vec<u8>, ready: Option<(u8, Value)>) -> Result<(), NoMemory>
    ensures { OnOk result (out.new.items ≡ out.old.items ++ behind (plain.report_tokens (statements.report ready))) }
{
    let Some((rank, value)) = ready else {
        return push_behind(out, &[Token::Word(b"none")]);
    };
    push_behind(out, &[Token::Number(rank.into())])?;
    push_value(out, value)
}

// The rank and the value of a Suggest, an Ack or a Ready.
fn push_valued(out: &mut Vec<u8>, rank: u8, value: Value) -> Result<(), NoMemory>
    ensures { OnOk result (out.new.items ≡ out.old.items ++ behind (plain.number rank ∷ plain.value_tokens (base.value value))) }
{
    push_behind(out, &[Token::Number(rank.into())])?;
    push_value(out, value)
}

// An Echo's content.
fn push_echoed(out: &mut Vec<u8>, sender: Pid, number: u16, payload: &[u8]) -> Result<(), NoMemory>
    ensures { OnOk result (out.new.items ≡ out.old.items
        ++ behind (plain.message_tokens (statements.message sender number) ++ plain.Bytes payload.now ∷ [])) }
{
    push_message(out, sender, number)?;
    push_behind(out, &[Token::Bytes(payload)])
}

// The rank of a Last, and what it reports.
fn push_last(out: &mut Vec<u8>, rank: u8, ready: Option<(u8, Value)>) -> Result<(), NoMemory>
    ensures { OnOk result (out.new.items ≡ out.old.items ++ behind (plain.number rank ∷ plain.report_tokens (statements.report ready))) }
{
    push_behind(out, &[Token::Number(rank.into())])?;
    push_report(out, ready)
}

// What an Order, a Place or a Keep says: its view and kind, and then its place and batch.
fn push_batch(
    out: &mut Vec<u8>,
    view: u16,
    kind: &[u8],
    place: u16,
    batch: Batch,
) -> Result<(), NoMemory>
    ensures { OnOk result (out.new.items ≡ out.old.items
        ++ behind (plain.kind_tokens view kind.now ++ plain.number place ∷ flat_map plain.message_tokens batch)) }
{
    push_kind(out, view, kind)?;
    push_placed(out, place, batch)
}

// What a Suggest, an Ack or a Ready says: its view and kind, and then its rank and value.
fn push_ranked(
    out: &mut Vec<u8>,
    view: u16,
    kind: &[u8],
    rank: u8,
    value: Value,
) -> Result<(), NoMemory>
    ensures { OnOk result (out.new.items ≡ out.old.items
        ++ behind (plain.kind_tokens view kind.now ++ plain.number rank ∷ plain.value_tokens (base.value value))) }
{
    push_kind(out, view, kind)?;
    push_valued(out, rank, value)
}

// A statement in words.
fn push_worded(out: &mut Vec<u8>, said: &Statement<'_>) -> Result<(), NoMemory>
    ensures { OnOk result (out.new.items ≡ out.old.items ++ behind (plain.worded (statements.stmt said.now))) }
{
    match *said {
        Statement::Init {
            view,
            number,
            payload,
        } => {
            push_kind(out, view, b"init")?;
            push_behind(out, &[Token::Number(number.into()), Token::Bytes(payload)])
        }
        Statement::Echo {
            view,
            sender,
            number,
            payload,
        } => {
            push_kind(out, view, b"echo")?;
            push_echoed(out, sender, number, payload)
        }
        Statement::Order { view, place, batch } => push_batch(out, view, b"order", place, batch),
        Statement::Place { view, place, batch } => push_batch(out, view, b"place", place, batch),
        Statement::Keep { view, place, batch } => push_batch(out, view, b"keep", place, batch),
        Statement::Notify { view, update } => {
            push_kind(out, view, b"notify")?;
            push_update(out, update)
        }
        Statement::End { view, length } => {
            push_kind(out, view, b"end")?;
            push_behind(out, &[Token::Number(length.into())])
        }
        Statement::Last { view, rank, ready } => {
            push_kind(out, view, b"last")?;
            push_last(out, rank, ready)
        }
        Statement::Suggest { view, rank, value } => push_ranked(out, view, b"suggest", rank, value),
        Statement::Ack { view, rank, value } => push_ranked(out, view, b"ack", rank, value),
        Statement::Ready { view, rank, value } => push_ranked(out, view, b"ready", rank, value),
    }
}

/// Appends a statement in words; bytes that are none, as they are.
pub fn push_statement(out: &mut Vec<u8>, bytes: &[u8]) -> Result<(), NoMemory>
    ensures { OnOk result (out.new.items ≡ out.old.items ++ behind (plain.statement_tokens bytes.now)) }
{
    match read_statement(bytes) {
        Ok(said) => push_worded(out, &said),
        Err(_) => push_behind(out, &[Token::Bytes(bytes)]),
    }
}
