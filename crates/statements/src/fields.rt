//! The fields of statements, read from the front. Bytes that end within a field are no statement.
//!
//! | Field | Bytes |
//! |---|---|
//! | payload | length 2, and that many bytes to the end |
//! | message | sender 1, number 2 |
//! | count of several messages | 1, which is 2 to 16 |
//! | update | `01 p` Remove, `02 p` Add, `03 00` Renew |
//! | value | update 2, cut 2 |
//! | report of a Last | `00`, or `01`, the Ready's rank 1 and its value 4 |
//!
//! The grammar of a whole statement is tested before any range, so a process number may still be out of range here.
ghost use Rattle.std.specs.Prelude.{◌≡◌, ◌≤◌, Ok, IfOk};
ghost use Rattle.byte_defs.specs.Reads.{Gives};
ghost use Rattle.message_defs.specs.Reading as plain;
ghost use Rattle.statements.specs.Batches.{message};
ghost use Rattle.statements.specs.Raw.{raw_update, raw_value, raw_report};

use crate::limits::MOST_MESSAGES;
use byte_fields::{u8_at, u16_at};
use message_defs::FrameFault;

/// An update as its bytes say it.
#[derive(Clone, Copy)]
pub(crate) enum RawUpdate {
    Remove(u8),
    Add(u8),
    Renew,
}

/// A value as its bytes say it.
#[derive(Clone, Copy)]
pub(crate) struct RawValue {
    pub(crate) update: RawUpdate,
    pub(crate) cut: u16,
}

pub(crate) fn byte(bytes: &[u8]) -> Result<(u8, &[u8]), FrameFault>
    ensures { Gives (λ x. (x.0, x.1.now)) result (plain.byte_at bytes.now) }
{
    u8_at(bytes, FrameFault::Statement)
}

pub(crate) fn short(bytes: &[u8]) -> Result<(u16, &[u8]), FrameFault>
    ensures { Gives (λ x. (x.0, x.1.now)) result (plain.short_at bytes.now) }
{
    u16_at(bytes, FrameFault::Statement)
}

pub(crate) fn ended(bytes: &[u8]) -> Result<(), FrameFault>
    ensures { Gives (λ _. tt) result (plain.ended bytes.now) }
{
    if bytes.is_empty() {
        Ok(())
    } else {
        Err(FrameFault::Statement)
    }
}

#[tactic(auto, unfolding(message_defs::specs::Reading::payload_at))]
pub(crate) fn payload(bytes: &[u8]) -> Result<&[u8], FrameFault>
    ensures { Gives (λ x. x.now) result (plain.payload_at bytes.now) }
{
    let (len, rest) = short(bytes)?;
    if rest.len() != len as usize {
        return Err(FrameFault::Statement);
    }
    Ok(rest)
}

#[tactic(auto, unfolding(message_defs::specs::Reading::message_at))]
pub(crate) fn message(bytes: &[u8]) -> Result<(u8, u16, &[u8]), FrameFault>
    ensures { Gives (λ x. (message x.0 x.1, x.2.now)) result (plain.message_at bytes.now) }
{
    let (sender, rest) = byte(bytes)?;
    let (number, rest) = short(rest)?;
    Ok((sender, number, rest))
}

// One message is not counted; of several, the count is written.
#[tactic(auto, unfolding(message_defs::specs::Reading::count_at))]
pub(crate) fn count(several: bool, bytes: &[u8]) -> Result<(u8, &[u8]), FrameFault>
    ensures exact { Gives (λ x. (x.0, x.1.now)) result (plain.count_at several bytes.now) }
    ensures range { IfOk result (λ x. (1 ≤ x.0) × (x.0 ≤ 16)) }
{
    if !several {
        return Ok((1, bytes));
    }
    let (count, rest) = byte(bytes)?;
    if count < 2 || count > MOST_MESSAGES {
        return Err(FrameFault::Statement);
    }
    Ok((count, rest))
}

fn update_by(tag: u8, process: u8) -> Result<RawUpdate, FrameFault>
    ensures { Gives raw_update result (plain.update_by tag process) }
{
    match tag {
        1 => Ok(RawUpdate::Remove(process)),
        2 => Ok(RawUpdate::Add(process)),
        3 if process == 0 => Ok(RawUpdate::Renew),
        _ => Err(FrameFault::Statement),
    }
}

#[tactic(auto, unfolding(message_defs::specs::Reading::update_at))]
pub(crate) fn update(bytes: &[u8]) -> Result<(RawUpdate, &[u8]), FrameFault>
    ensures { Gives (λ x. (raw_update x.0, x.1.now)) result (plain.update_at bytes.now) }
{
    let (tag, rest) = byte(bytes)?;
    let (process, rest) = byte(rest)?;
    let update = update_by(tag, process)?;
    Ok((update, rest))
}

#[tactic(auto, unfolding(message_defs::specs::Reading::value_at))]
pub(crate) fn value(bytes: &[u8]) -> Result<(RawValue, &[u8]), FrameFault>
    ensures { Gives (λ x. (raw_value x.0, x.1.now)) result (plain.value_at bytes.now) }
{
    let (update, rest) = update(bytes)?;
    let (cut, rest) = short(rest)?;
    Ok((RawValue { update, cut }, rest))
}

#[tactic(auto, unfolding(message_defs::specs::Reading::report_at))]
pub(crate) fn report(bytes: &[u8]) -> Result<(Option<(u8, RawValue)>, &[u8]), FrameFault>
    ensures { Gives (λ x. (raw_report x.0, x.1.now)) result (plain.report_at bytes.now) }
{
    let (tag, rest) = byte(bytes)?;
    match tag {
        0 => Ok((None, rest)),
        1 => {
            let (rank, rest) = byte(rest)?;
            let (value, rest) = value(rest)?;
            Ok((Some((rank, value)), rest))
        }
        _ => Err(FrameFault::Statement),
    }
}
