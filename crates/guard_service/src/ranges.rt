//! Whether a frame can carry a claim. What is a process by its type needs no test.
ghost use Rattle.std.specs.Prelude.{◌≡◌, nat_le, true};
ghost use Rattle.std.specs.List.{list_all};
ghost use Rattle.message_defs.specs.Limits.{last_process};
ghost use Rattle.message_defs.specs.Statements as defs;
ghost use Rattle.rp_base.specs.Views.{update as update_of, value as value_of};
ghost use Rattle.member_events.specs.Below.{claim as claim_of, message, report, stmt};
ghost use Rattle.guard_service.specs.Ranges as tests;

use member_events::{
    Batch, Claim, LAST_NUMBER, MOST_PLACES, PAYLOAD_BYTES, SIGNATURE_BYTES, Statement,
};
use rp_base::{Pid, Update, Value};

/// The last rank of a member.
const LAST_RANK: u8 = 15;

// A process has one of the numbers 0 to 63.
fn process_fits(p: Pid)
    ensures { nat_le p last_process ≡ true }
{
    let _number = p.get();
}

// So an update is always in range.
fn update_fits(update: &Update)
    ensures { tests.update_fits (update_of update.now) ≡ true }
{
    match update {
        Update::Remove(p) => process_fits(*p),
        Update::Add(p) => process_fits(*p),
        Update::Renew => {}
    }
}

fn message_fits(sender: Pid, number: u16) -> bool
    ensures { result ≡ tests.message_fits (message sender number) }
{
    process_fits(sender);
    number <= LAST_NUMBER
}

fn messages_fit(messages: &[(Pid, u16)]) -> bool
    ensures { result ≡ list_all (λ m. tests.message_fits (message m.0 m.1)) messages.now }
{
    messages
        .iter()
        .all(|message| message_fits(message.0, message.1))
}

// Whether the numbers of all messages are in range; there are 1 to 16.
fn batch_fits(batch: &Batch) -> bool
    ensures { result ≡ tests.batch_fits batch.now }
{
    messages_fit(batch.messages())
}

fn value_fits(value: &Value) -> bool
    ensures { result ≡ tests.value_fits (value_of value.now) }
{
    update_fits(&value.update);
    value.cut <= MOST_PLACES
}

// Whether a Last of this rank can report this.
fn report_fits(rank: u8, ready: &Option<(u8, Value)>) -> bool
    ensures { result ≡ tests.report_fits rank (report ready.now) }
{
    match ready {
        Some((below, value)) => *below < rank && value_fits(value),
        None => true,
    }
}

fn placed_fits(view: u16, place: u16, batch: &Batch) -> bool
    ensures { result ≡ tests.placed_fits view place batch.now }
{
    view <= LAST_NUMBER && place <= LAST_NUMBER && batch_fits(batch)
}

fn ranked_fits(view: u16, rank: u8, value: &Value) -> bool
    ensures { result ≡ tests.ranked_fits view rank (value_of value.now) }
{
    view <= LAST_NUMBER && rank <= LAST_RANK && value_fits(value)
}

fn notify_fits(view: u16, update: &Update) -> bool
    ensures { result ≡ tests.statement_fits (defs.Notify view (update_of update.now)) }
{
    update_fits(update);
    view <= LAST_NUMBER
}

// Whether each field is in its range.
fn statement_fits(statement: &Statement<'_>) -> bool
    ensures { result ≡ tests.statement_fits (stmt statement.now) }
{
    match *statement {
        Statement::Init {
            view,
            number,
            payload,
        } => view <= LAST_NUMBER && number <= LAST_NUMBER && payload.len() <= PAYLOAD_BYTES,
        Statement::Echo {
            view,
            sender,
            number,
            payload,
        } => view <= LAST_NUMBER && message_fits(sender, number) && payload.len() <= PAYLOAD_BYTES,
        Statement::Order { view, place, batch }
        | Statement::Place { view, place, batch }
        | Statement::Keep { view, place, batch } => placed_fits(view, place, &batch),
        Statement::Notify { view, update } => notify_fits(view, &update),
        Statement::End { view, length } => view <= LAST_NUMBER && length <= MOST_PLACES,
        Statement::Last { view, rank, ready } => {
            view <= LAST_NUMBER && rank <= LAST_RANK && report_fits(rank, &ready)
        }
        Statement::Suggest { view, rank, value }
        | Statement::Ack { view, rank, value }
        | Statement::Ready { view, rank, value } => ranked_fits(view, rank, &value),
    }
}

/// Whether a frame can carry the claim: its statement is in range, and its signature is not too long.
pub(crate) fn can_be_carried(claim: &Claim<'_>) -> bool
    ensures { result ≡ tests.claim_fits (claim_of claim.now) }
{
    process_fits(claim.signer);
    statement_fits(&claim.statement) && claim.signature.len() <= SIGNATURE_BYTES as usize
}
