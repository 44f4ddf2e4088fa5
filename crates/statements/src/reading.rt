//! A statement is its kind byte and its content; `x2` is a field x of two bytes, the higher one first.
//!
//! | Kind | Content |
//! |---|---|
//! | 1 Init | view2 number2 payload |
//! | 2 Echo | view2 sender1 number2 payload |
//! | 3 Order, 4 Place, 5 Keep | view2 place2 message3 |
//! | 6 Notify | view2 update |
//! | 7 End | view2 length2 |
//! | 8 Last | view2 rank1 report |
//! | 9 Suggest, 10 Ack, 11 Ready | view2 rank1 value |
//! | 12 Order, 13 Place, 14 Keep | view2 place2 count1, and count times message3 |
//!
//! A message is sender1 number2. An Order, a Place or a Keep has kind 3, 4 or 5 where its batch has one message, and
//! 12, 13 or 14 where it has 2 to 16.
ghost use Rattle.std.specs.Prelude.{◌≡◌, ◌*◌, ◌≤◌, IfOk, Ok, length};
ghost use Rattle.byte_defs.specs.Reads.{Gives};
ghost use Rattle.message_defs.specs.Spelling.{IsStatement, spelling};
ghost use Rattle.message_defs.specs.Reading as plain;
ghost use Rattle.message_defs.specs.Statements as kinds;
ghost use Rattle.rp_base.specs.Views as base;
ghost use Rattle.statements.specs.Views as view;
ghost use Rattle.statements.specs.Raw.{in_range, passed, raw_update, raw_value, raw_report};

use crate::batch::Batch;
use crate::fields::{
    RawUpdate, RawValue, byte, count, ended, message, payload, report, short, update, value,
};
use crate::limits::{LAST_NUMBER, LAST_RANK, MOST_PLACES, PAYLOAD_BYTES};
use crate::statement::Statement;
use message_defs::FrameFault;
use rp_base::{Pid, Update, Value};

/// The kind of a frame of claims, which says what statements it carries.
#[derive(Clone, Copy)]
pub enum Carrier {
    /// Carries statements of every kind.
    Bundle,

    /// Carries what certificates are made of: Echo, Place, Keep and Ready.
    Proof,
}

impl Carrier {
    fn carries(self, kind: u8) -> bool
        ensures { result ≡ view.carried self kind }
    {
        match self {
            Carrier::Bundle => true,
            Carrier::Proof => matches!(kind, 2 | 4 | 5 | 11 | 13 | 14),
        }
    }
}

/// The view, the place and the batch of an Order, a Place or a Keep.
#[derive(Clone, Copy)]
struct Placed {
    view: u16,
    place: u16,
    batch: Batch,
}

/// The view, the rank and the value of a Suggest, an Ack or a Ready.
#[derive(Clone, Copy)]
struct Valued {
    view: u16,
    rank: u8,
    value: Value,
}

fn pid(process: u8) -> Result<Pid, FrameFault>
    ensures { Gives (λ p. p) result (passed (plain.within 63 process) process) }
{
    Pid::new(process).ok_or(FrameFault::Range)
}

// The sender, where the message is in range.
fn sender_within(sender: u8, number: u16) -> Result<Pid, FrameFault>
    ensures { Gives (λ p. p) result (passed (plain.message_within (view.message sender number)) sender) }
{
    let sender = pid(sender)?;
    if number > LAST_NUMBER {
        return Err(FrameFault::Range);
    }
    Ok(sender)
}

fn update_within(raw: RawUpdate) -> Result<Update, FrameFault>
    ensures { Gives base.update result (passed (plain.update_within (raw_update raw)) (raw_update raw)) }
{
    match raw {
        RawUpdate::Remove(p) => Ok(Update::Remove(pid(p)?)),
        RawUpdate::Add(p) => Ok(Update::Add(pid(p)?)),
        RawUpdate::Renew => Ok(Update::Renew),
    }
}

fn value_within(raw: RawValue) -> Result<Value, FrameFault>
    ensures { Gives base.value result (passed (plain.value_within (raw_value raw)) (raw_value raw)) }
{
    let update = update_within(raw.update)?;
    if raw.cut > MOST_PLACES {
        return Err(FrameFault::Range);
    }
    Ok(Value {
        update,
        cut: raw.cut,
    })
}

fn report_within(rank: u8, raw: Option<(u8, RawValue)>) -> Result<Option<(u8, Value)>, FrameFault>
    ensures { Gives view.report result (passed (plain.report_within rank (raw_report raw)) (raw_report raw)) }
{
    let Some((ready_rank, raw)) = raw else {
        return Ok(None);
    };
    if ready_rank >= rank {
        return Err(FrameFault::Range);
    }
    Ok(Some((ready_rank, value_within(raw)?)))
}

#[tactic(auto, unfolding(message_defs::specs::Reading::init_at))]
fn read_init(bytes: &[u8]) -> Result<Statement<'_>, FrameFault>
    ensures { Gives view.stmt result (plain.init_at bytes.now) }
{
    let (view, rest) = short(bytes)?;
    let (number, rest) = short(rest)?;
    let payload = payload(rest)?;
    if view > LAST_NUMBER || number > LAST_NUMBER || payload.len() > PAYLOAD_BYTES {
        return Err(FrameFault::Range);
    }
    Ok(Statement::Init {
        view,
        number,
        payload,
    })
}

#[tactic(auto, unfolding(message_defs::specs::Reading::echo_at))]
fn read_echo(bytes: &[u8]) -> Result<Statement<'_>, FrameFault>
    ensures { Gives view.stmt result (plain.echo_at bytes.now) }
{
    let (view, rest) = short(bytes)?;
    let (sender, number, rest) = message(rest)?;
    let payload = payload(rest)?;
    if view > LAST_NUMBER {
        return Err(FrameFault::Range);
    }
    let sender = sender_within(sender, number)?;
    if payload.len() > PAYLOAD_BYTES {
        return Err(FrameFault::Range);
    }
    Ok(Statement::Echo {
        view,
        sender,
        number,
        payload,
    })
}

// The messages, each in range, of bytes that hold `count` of them and nothing else.
fn messages_within(count: u8, bytes: &[u8]) -> Result<Batch, FrameFault>
    requires some { (1 ≤ count) × (count ≤ 16) }
    requires whole { length bytes.now ≡ 3 * count }
    ensures { Gives (λ b. b) result (in_range count bytes.now) }
{
    let (sender, number, mut rest) = message(bytes)?;
    let mut batch = Batch::of(sender_within(sender, number)?, number);
    'messages: for _ in 1..count {
        let (sender, number, after) = message(rest)?;
        batch.push(sender_within(sender, number)?, number);
        rest = after;
    }
    Ok(batch)
}

#[tactic(auto, unfolding(message_defs::specs::Reading::placed_at))]
fn read_placed(several: bool, bytes: &[u8]) -> Result<Placed, FrameFault>
    ensures { Gives (λ p. (p.view, p.place, p.batch)) result (plain.placed_at several bytes.now) }
{
    let (view, rest) = short(bytes)?;
    let (place, rest) = short(rest)?;
    let (count, rest) = count(several, rest)?;
    if rest.len() != 3 * count as usize {
        return Err(FrameFault::Statement);
    }
    if view > LAST_NUMBER || place > LAST_NUMBER {
        return Err(FrameFault::Range);
    }
    let batch = messages_within(count, rest)?;
    Ok(Placed { view, place, batch })
}

#[tactic(auto, unfolding(message_defs::specs::Reading::notify_at))]
fn read_notify<'a>(bytes: &[u8]) -> Result<Statement<'a>, FrameFault>
    ensures { Gives view.stmt result (plain.notify_at bytes.now) }
{
    let (view, rest) = short(bytes)?;
    let (raw, rest) = update(rest)?;
    ended(rest)?;
    if view > LAST_NUMBER {
        return Err(FrameFault::Range);
    }
    let update = update_within(raw)?;
    Ok(Statement::Notify { view, update })
}

#[tactic(auto, unfolding(message_defs::specs::Reading::end_at))]
fn read_end<'a>(bytes: &[u8]) -> Result<Statement<'a>, FrameFault>
    ensures { Gives view.stmt result (plain.end_at bytes.now) }
{
    let (view, rest) = short(bytes)?;
    let (length, rest) = short(rest)?;
    ended(rest)?;
    if view > LAST_NUMBER || length > MOST_PLACES {
        return Err(FrameFault::Range);
    }
    Ok(Statement::End { view, length })
}

#[tactic(auto, unfolding(message_defs::specs::Reading::last_at))]
fn read_last<'a>(bytes: &[u8]) -> Result<Statement<'a>, FrameFault>
    ensures { Gives view.stmt result (plain.last_at bytes.now) }
{
    let (view, rest) = short(bytes)?;
    let (rank, rest) = byte(rest)?;
    let (raw, rest) = report(rest)?;
    ended(rest)?;
    if view > LAST_NUMBER || rank > LAST_RANK {
        return Err(FrameFault::Range);
    }
    let ready = report_within(rank, raw)?;
    Ok(Statement::Last { view, rank, ready })
}

#[tactic(auto, unfolding(message_defs::specs::Reading::valued_at))]
fn read_valued(bytes: &[u8]) -> Result<Valued, FrameFault>
    ensures { Gives (λ v. (v.view, v.rank, base.value v.value)) result (plain.valued_at bytes.now) }
{
    let (view, rest) = short(bytes)?;
    let (rank, rest) = byte(rest)?;
    let (raw, rest) = value(rest)?;
    ended(rest)?;
    if view > LAST_NUMBER || rank > LAST_RANK {
        return Err(FrameFault::Range);
    }
    let value = value_within(raw)?;
    Ok(Valued { view, rank, value })
}

fn read_order<'a>(several: bool, bytes: &[u8]) -> Result<Statement<'a>, FrameFault>
    ensures { Gives view.stmt result (plain.place_at kinds.Order several bytes.now) }
{
    let Placed { view, place, batch } = read_placed(several, bytes)?;
    Ok(Statement::Order { view, place, batch })
}

fn read_place<'a>(several: bool, bytes: &[u8]) -> Result<Statement<'a>, FrameFault>
    ensures { Gives view.stmt result (plain.place_at kinds.Place several bytes.now) }
{
    let Placed { view, place, batch } = read_placed(several, bytes)?;
    Ok(Statement::Place { view, place, batch })
}

fn read_keep<'a>(several: bool, bytes: &[u8]) -> Result<Statement<'a>, FrameFault>
    ensures { Gives view.stmt result (plain.place_at kinds.Keep several bytes.now) }
{
    let Placed { view, place, batch } = read_placed(several, bytes)?;
    Ok(Statement::Keep { view, place, batch })
}

fn read_suggest<'a>(bytes: &[u8]) -> Result<Statement<'a>, FrameFault>
    ensures { Gives view.stmt result (plain.ranked_at kinds.Suggest bytes.now) }
{
    let Valued { view, rank, value } = read_valued(bytes)?;
    Ok(Statement::Suggest { view, rank, value })
}

fn read_ack<'a>(bytes: &[u8]) -> Result<Statement<'a>, FrameFault>
    ensures { Gives view.stmt result (plain.ranked_at kinds.Ack bytes.now) }
{
    let Valued { view, rank, value } = read_valued(bytes)?;
    Ok(Statement::Ack { view, rank, value })
}

fn read_ready<'a>(bytes: &[u8]) -> Result<Statement<'a>, FrameFault>
    ensures { Gives view.stmt result (plain.ranked_at kinds.Ready bytes.now) }
{
    let Valued { view, rank, value } = read_valued(bytes)?;
    Ok(Statement::Ready { view, rank, value })
}

#[tactic(auto, unfolding(message_defs::specs::Reading::content_at))]
fn read_content(kind: u8, bytes: &[u8]) -> Result<Statement<'_>, FrameFault>
    ensures { Gives view.stmt result (plain.content_at kind bytes.now) }
{
    match kind {
        1 => read_init(bytes),
        2 => read_echo(bytes),
        3 => read_order(false, bytes),
        4 => read_place(false, bytes),
        5 => read_keep(false, bytes),
        6 => read_notify(bytes),
        7 => read_end(bytes),
        8 => read_last(bytes),
        9 => read_suggest(bytes),
        10 => read_ack(bytes),
        11 => read_ready(bytes),
        12 => read_order(true, bytes),
        13 => read_place(true, bytes),
        14 => read_keep(true, bytes),
        _ => Err(FrameFault::Statement),
    }
}

/// The one statement that the bytes spell, in a frame of this kind, or the first fault: Statement, where the bytes are
/// empty or of no kind, Misplaced, where the frame does not carry the kind, Statement, where the bytes are not in the
/// kind's grammar, or Range (docs/FORMATS.md, «Frames»).
#[tactic(auto, unfolding(message_defs::specs::Reading::statement_in))]
pub fn read_carried(carrier: Carrier, bytes: &[u8]) -> Result<Statement<'_>, FrameFault>
    ensures { Gives view.stmt result (plain.statement_in (view.carried carrier) bytes.now) }
{
    let (kind, rest) = byte(bytes)?;
    if !(1..=14).contains(&kind) {
        return Err(FrameFault::Statement);
    }
    if !carrier.carries(kind) {
        return Err(FrameFault::Misplaced);
    }
    read_content(kind, rest)
}

#[tactic(auto, unfolding(message_defs::specs::Reading::statement_of))]
fn read_any(bytes: &[u8]) -> Result<Statement<'_>, FrameFault>
    ensures { Gives view.stmt result (plain.statement_of bytes.now) }
{
    read_carried(Carrier::Bundle, bytes)
}

/// The one statement that the bytes spell, all of the bytes, or Statement, where they are not in the grammar of
/// statements, or Range, where they are and a number or the payload's length is out of its range (docs/FORMATS.md,
/// «Statements»).
pub fn read_statement(bytes: &[u8]) -> Result<Statement<'_>, FrameFault>
    // What is read is in range and spelled so.
    ensures found { IfOk result (λ st. IsStatement (view.stmt st) × (bytes.now ≡ spelling (view.stmt st))) }
    // What is in range and spelled so is read.
    ensures only { (st : kinds.Statement) → IsStatement st → bytes.now ≡ spelling st → Gives view.stmt result (Ok st) }
    // Which fault it is.
    ensures exact { Gives view.stmt result (plain.statement_of bytes.now) }
{
    read_any(bytes)
}
