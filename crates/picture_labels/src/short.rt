//! Statements in few words.
ghost use Rattle.std.specs.Prelude.{◌≡◌, ◌++◌, codes, map, take, OnOk};
ghost use Rattle.std.specs.List.{flat_map};
ghost use Rattle.statements.specs.Batches.{message};
ghost use Rattle.member_events.specs.Below.{stmt, signed as signed_of};
ghost use Rattle.trace_defs.specs.Phrases.{quoted};
ghost use Rattle.message_defs.specs.Statements as statements;
ghost use Rattle.picture_defs.specs.Labels as plain;
ghost use Rattle.picture_defs.specs.Labels.{in_statement};

use member_events::{OwnClaim, Statement, read_statement};
use rp_base::{NoMemory, Pid};
use story_words::{Word, push_pieces, push_quoted};

/// The most bytes of a payload that are shown.
const MOST_SHOWN: usize = 8;

/// The first bytes of a payload, `most` at most.
pub(crate) fn shown(payload: &[u8], most: usize) -> &[u8]
    ensures { result.now ≡ take most payload.now }
{
    &payload[..most.min(payload.len())]
}

// A space, and the first bytes of a payload.
#[tactic(auto, unfolding(picture_defs::specs::Labels::in_statement))]
fn push_shown(out: &mut Vec<u8>, payload: &[u8]) -> Result<(), NoMemory>
    ensures { OnOk result (out.new.items ≡ out.old.items ++ (codes " " ++ quoted (take in_statement payload.now))) }
{
    out.push(b' ')?;
    push_quoted(out, shown(payload, MOST_SHOWN))
}

fn push_numbered(out: &mut Vec<u8>, kind: &[u8], number: u64) -> Result<(), NoMemory>
    ensures { OnOk result (out.new.items ≡ out.old.items ++ plain.numbered kind.now number) }
{
    push_pieces(
        out,
        &[
            Word::Text(b" "),
            Word::Text(kind),
            Word::Text(b" "),
            Word::Number(number),
        ],
    )
}

// A kind with a payload.
fn push_init(out: &mut Vec<u8>, view: u16, number: u16, payload: &[u8]) -> Result<(), NoMemory>
    ensures { OnOk result (out.new.items ≡ out.old.items ++ plain.short (statements.Init view number payload.now)) }
{
    push_numbered(out, b"Init", number.into())?;
    push_shown(out, payload)
}

fn push_echo(
    out: &mut Vec<u8>,
    view: u16,
    sender: Pid,
    number: u16,
    payload: &[u8],
) -> Result<(), NoMemory>
    ensures { OnOk result (out.new.items ≡ out.old.items
        ++ plain.short (statements.Echo view (message sender number) payload.now)) }
{
    push_pieces(
        out,
        &[
            Word::Text(b" Echo "),
            Word::Message(sender.get().into(), number.into()),
        ],
    )
}

// The kind, and what it is of.
fn push_statement(out: &mut Vec<u8>, said: &Statement<'_>) -> Result<(), NoMemory>
    ensures { OnOk result (out.new.items ≡ out.old.items ++ plain.short (stmt said.now)) }
{
    match *said {
        Statement::Init {
            view,
            number,
            payload,
        } => push_init(out, view, number, payload),
        Statement::Echo {
            view,
            sender,
            number,
            payload,
        } => push_echo(out, view, sender, number, payload),
        Statement::Order { place, .. } => push_numbered(out, b"Order", place.into()),
        Statement::Place { place, .. } => push_numbered(out, b"Place", place.into()),
        Statement::Keep { place, .. } => push_numbered(out, b"Keep", place.into()),
        Statement::Notify { .. } => push_pieces(out, &[Word::Text(b" Notify")]),
        Statement::End { length, .. } => push_numbered(out, b"End", length.into()),
        Statement::Last { rank, .. } => push_numbered(out, b"Last", rank.into()),
        Statement::Suggest { rank, .. } => push_numbered(out, b"Suggest", rank.into()),
        Statement::Ack { rank, .. } => push_numbered(out, b"Ack", rank.into()),
        Statement::Ready { rank, .. } => push_numbered(out, b"Ready", rank.into()),
    }
}

/// A statement by its bytes, in few words.
pub(crate) fn push_short(out: &mut Vec<u8>, bytes: &[u8]) -> Result<(), NoMemory>
    ensures { OnOk result (out.new.items ≡ out.old.items ++ plain.short_of bytes.now) }
{
    match read_statement(bytes) {
        Ok(said) => push_statement(out, &said),
        Err(_) => Ok(()),
    }
}

/// What was signed, in few words.
pub(crate) fn push_all_short(out: &mut Vec<u8>, signed: &[OwnClaim]) -> Result<(), NoMemory>
    ensures { OnOk result (out.new.items ≡ out.old.items ++ flat_map (λ c. plain.short_of c.statement) (map signed_of signed.now)) }
{
    for claim in signed {
        push_short(out, claim.statement.bytes())?;
    }
    Ok(())
}
