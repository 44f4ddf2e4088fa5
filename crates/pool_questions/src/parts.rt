//! Parts of a statement that only some kinds have.
ghost use Rattle.std.specs.Prelude.{◌≡◌};
ghost use Rattle.std.specs.Option.{option_map};
ghost use Rattle.message_defs.specs.Statements as plain;
ghost use Rattle.group_defs.specs.Certified as certified;
ghost use Rattle.group_defs.specs.Values as values;
ghost use Rattle.rp_base.specs.Views as base;
ghost use Rattle.member_events.specs.Below.{stmt, report};

use member_events::{Batch, Statement};
use rp_base::Value;

// The length that an End says.
pub(crate) fn length_said(statement: &Statement<'_>) -> Option<u16>
    ensures { result ≡ values.length_said (stmt statement.now) }
{
    match *statement {
        Statement::End { length, .. } => Some(length),
        _ => None,
    }
}

// What a Last says of a Ready.
pub(crate) fn ready_said(statement: &Statement<'_>) -> Option<Option<(u8, Value)>>
    ensures { option_map report result ≡ values.ready_said (stmt statement.now) }
{
    match *statement {
        Statement::Last { ready, .. } => Some(ready),
        _ => None,
    }
}

// The value of a Suggest, an Ack or a Ready.
pub(crate) fn value_of(statement: &Statement<'_>) -> Option<Value>
    ensures { option_map base.value result ≡ plain.value_of (stmt statement.now) }
{
    match *statement {
        Statement::Suggest { value, .. }
        | Statement::Ack { value, .. }
        | Statement::Ready { value, .. } => Some(value),
        _ => None,
    }
}

// The batch of an Order.
pub(crate) fn ordered(statement: &Statement<'_>) -> Option<Batch>
    ensures { result ≡ certified.ordered (stmt statement.now) }
{
    match *statement {
        Statement::Order { batch, .. } => Some(batch),
        _ => None,
    }
}

// The batch of an Order, a Place or a Keep.
pub(crate) fn batch_of(statement: &Statement<'_>) -> Option<Batch>
    ensures { result ≡ plain.batch_of (stmt statement.now) }
{
    match *statement {
        Statement::Order { batch, .. }
        | Statement::Place { batch, .. }
        | Statement::Keep { batch, .. } => Some(batch),
        _ => None,
    }
}

// The payload of an Init or an Echo.
pub(crate) fn payload_of<'a>(statement: &Statement<'a>) -> Option<&'a [u8]>
    ensures { option_map (λ b. b.now) result ≡ plain.payload_of (stmt statement.now) }
{
    match *statement {
        Statement::Init { payload, .. } | Statement::Echo { payload, .. } => Some(payload),
        _ => None,
    }
}
