//! The parts of a statement in words.
ghost use Rattle.std.specs.Prelude.{◌≡◌, ◌≤◌, ◌<◌, IfOk};
ghost use Rattle.byte_defs.specs.Reads.{Makes};
ghost use Rattle.message_defs.specs.Spelling.{IsBatch, IsReport, IsValue};
ghost use Rattle.rp_base.specs.Views as base;
ghost use Rattle.statements.specs.Batches.{message};
ghost use Rattle.statements.specs.Views as views;
ghost use Rattle.story_defs.specs.Statements as plain;
ghost use Rattle.story_defs.specs.declared.Expected.TheVariants as expected;
ghost use Rattle.story_lines.specs.Cursors.{left};
ghost use Rattle.story_lines.specs.Faults.{expected_of};

use rp_base::{Pid, Update, Value};
use statements::Batch;
use story_lines::{Expected, LineFault, Words};

/// What is expected of the line that has a statement.
pub const LIE: Expected = Expected::Lie;

/// `remove P`, `add P` or `renew`.
#[tactic(auto, unfolding(story_defs::specs::Statements::update_at))]
pub fn update(words: &mut Words<'_>) -> Result<Update, LineFault>
    ensures { Makes expected_of (λ u. (base.update u, left words.new)) result (plain.update_at expected.Lie (left words.old)) }
{
    let word = words.next_word(LIE)?;
    if word == b"remove".as_slice() {
        return Ok(Update::Remove(words.process(LIE)?));
    }
    if word == b"add".as_slice() {
        return Ok(Update::Add(words.process(LIE)?));
    }
    if word == b"renew".as_slice() {
        return Ok(Update::Renew);
    }
    Err(LineFault::Expected(LIE))
}

/// An update and a cut.
#[tactic(auto, unfolding(story_defs::specs::Statements::value_at))]
pub fn value(words: &mut Words<'_>) -> Result<Value, LineFault>
    ensures exact { Makes expected_of (λ v. (base.value v, left words.new)) result (plain.value_at expected.Lie (left words.old)) }
    ensures range { IfOk result (λ v. IsValue (base.value v)) }
{
    let update = update(words)?;
    let cut = words.number(0, 1024, LIE)? as u16;
    Ok(Value { update, cut })
}

/// A sender, and the number of its message.
#[tactic(auto, unfolding(story_defs::specs::Statements::message_at))]
pub fn message(words: &mut Words<'_>) -> Result<(Pid, u16), LineFault>
    ensures exact { Makes expected_of (λ m. (message m.0 m.1, left words.new)) result (plain.message_at expected.Lie (left words.old)) }
    ensures range { IfOk result (λ m. m.1 ≤ 1023) }
{
    let sender = words.process(LIE)?;
    let number = words.number(0, 1023, LIE)? as u16;
    Ok((sender, number))
}

/// 1 to 16 messages, to the end of the line.
#[tactic(auto, unfolding(story_defs::specs::Statements::batch_at))]
pub fn batch(words: &mut Words<'_>) -> Result<Batch, LineFault>
    ensures exact { Makes expected_of (λ b. b) result (plain.batch_at expected.Lie (left words.old)) }
    ensures range { IfOk result (λ b. IsBatch b) }
{
    let (sender, number) = message(words)?;
    let mut batch = Batch::of(sender, number);
    'messages: while !words.is_done() {
        if batch.is_full() {
            return Err(LineFault::Expected(LIE));
        }
        let (sender, number) = message(words)?;
        batch.push(sender, number);
    }
    Ok(batch)
}

/// The rank of a Ready that is below this one, and its value.
#[tactic(auto, unfolding(story_defs::specs::Statements::ready_at))]
pub fn ready(below: u8, words: &mut Words<'_>) -> Result<(u8, Value), LineFault>
    ensures exact { Makes expected_of (λ r. ((r.0, base.value r.1), left words.new)) result
        (plain.ready_at expected.Lie below (left words.old)) }
    ensures range { IfOk result (λ r. (r.0 < below) × IsValue (base.value r.1)) }
{
    let rank = words.number(0, 15, LIE)? as u8;
    if rank >= below {
        return Err(LineFault::Expected(LIE));
    }
    let value = value(words)?;
    Ok((rank, value))
}

/// What a Last of this rank reports: `none`, or the rank and the value of a Ready.
#[tactic(auto, unfolding(story_defs::specs::Statements::report_at))]
pub fn report(rank: u8, words: &mut Words<'_>) -> Result<Option<(u8, Value)>, LineFault>
    ensures exact { Makes expected_of (λ r. (views.report r, left words.new)) result (plain.report_at expected.Lie rank (left words.old)) }
    ensures range { IfOk result (λ r. IsReport rank (views.report r)) }
{
    let mut ahead = *words;
    if ahead.next_word(LIE)? == b"none".as_slice() {
        *words = ahead;
        return Ok(None);
    }
    Ok(Some(ready(rank, words)?))
}

/// `in` and the number of a view, or neither for view 0.
#[tactic(auto, unfolding(story_defs::specs::Statements::view_at))]
pub fn view(words: &mut Words<'_>) -> Result<u16, LineFault>
    ensures exact { Makes expected_of (λ x. (x, left words.new)) result (plain.view_at expected.Lie (left words.old)) }
    ensures range { IfOk result (λ x. x ≤ 1023) }
{
    let mut ahead = *words;
    if ahead.next_word(LIE)? != b"in".as_slice() {
        return Ok(0);
    }
    let x = ahead.number(0, 1023, LIE)?;
    *words = ahead;
    Ok(x as u16)
}
