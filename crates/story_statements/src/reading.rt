//! Statements read of words.
ghost use Rattle.std.specs.Prelude.{◌≡◌, ◌≤◌, IfOk};
ghost use Rattle.byte_defs.specs.Reads.{Makes};
ghost use Rattle.message_defs.specs.Spelling.{IsStatement, spelling};
ghost use Rattle.message_defs.specs.Statements as kinds;
ghost use Rattle.statements.specs.Views.{stmt};
ghost use Rattle.story_defs.specs.Statements as plain;
ghost use Rattle.story_defs.specs.Words.{payload_at};
ghost use Rattle.story_defs.specs.declared.Expected.TheVariants as expected;
ghost use Rattle.story_lines.specs.Cursors.{left};
ghost use Rattle.story_lines.specs.Faults.{expected_of};
ghost use Rattle.story_statements.specs.Spelled.{spelled};

use crate::parts::{LIE, batch, message, report, update, value, view};
use statements::{STATEMENT_BYTES, Statement, spell_into};
use std::alloc::{AllocError, Global};
use story_lines::{LineFault, Words};

// The bytes of a statement.
fn bytes_of(alloc: Global, statement: &Statement<'_>) -> Result<Vec<u8>, AllocError>
    requires { IsStatement (stmt statement.now) }
    ensures { IfOk result (λ bytes. bytes.items ≡ spelling (stmt statement.now)) }
{
    let mut room = [0; STATEMENT_BYTES];
    let n = spell_into(statement, &mut room);
    room[..n].to_vec(alloc)
}

#[tactic(auto, unfolding(story_defs::specs::Statements::init_at))]
fn init(alloc: Global, view: u16, words: &mut Words<'_>) -> Result<Vec<u8>, LineFault>
    requires { view ≤ 1023 }
    ensures { Makes expected_of (λ bytes. bytes.items) result (spelled (plain.init_at expected.Lie view (left words.old))) }
{
    let number = words.number(0, 1023, LIE)? as u16;
    let payload = words.payload(alloc, 1024, LIE)?;
    words.end(LIE)?;
    let said = Statement::Init {
        view,
        number,
        payload: &payload,
    };
    Ok(bytes_of(alloc, &said)?)
}

#[tactic(auto, unfolding(story_defs::specs::Statements::echo_at))]
fn echo(alloc: Global, view: u16, words: &mut Words<'_>) -> Result<Vec<u8>, LineFault>
    requires { view ≤ 1023 }
    ensures { Makes expected_of (λ bytes. bytes.items) result (spelled (plain.echo_at expected.Lie view (left words.old))) }
{
    let (sender, number) = message(words)?;
    let payload = words.payload(alloc, 1024, LIE)?;
    words.end(LIE)?;
    let said = Statement::Echo {
        view,
        sender,
        number,
        payload: &payload,
    };
    Ok(bytes_of(alloc, &said)?)
}

#[tactic(auto, unfolding(story_defs::specs::Statements::placed_at))]
fn order(alloc: Global, view: u16, words: &mut Words<'_>) -> Result<Vec<u8>, LineFault>
    requires { view ≤ 1023 }
    ensures { Makes expected_of (λ bytes. bytes.items) result (spelled (plain.placed_at expected.Lie kinds.Order view (left words.old))) }
{
    let place = words.number(0, 1023, LIE)? as u16;
    let batch = batch(words)?;
    Ok(bytes_of(alloc, &Statement::Order { view, place, batch })?)
}

#[tactic(auto, unfolding(story_defs::specs::Statements::placed_at))]
fn place(alloc: Global, view: u16, words: &mut Words<'_>) -> Result<Vec<u8>, LineFault>
    requires { view ≤ 1023 }
    ensures { Makes expected_of (λ bytes. bytes.items) result (spelled (plain.placed_at expected.Lie kinds.Place view (left words.old))) }
{
    let place = words.number(0, 1023, LIE)? as u16;
    let batch = batch(words)?;
    Ok(bytes_of(alloc, &Statement::Place { view, place, batch })?)
}

#[tactic(auto, unfolding(story_defs::specs::Statements::placed_at))]
fn keep(alloc: Global, view: u16, words: &mut Words<'_>) -> Result<Vec<u8>, LineFault>
    requires { view ≤ 1023 }
    ensures { Makes expected_of (λ bytes. bytes.items) result (spelled (plain.placed_at expected.Lie kinds.Keep view (left words.old))) }
{
    let place = words.number(0, 1023, LIE)? as u16;
    let batch = batch(words)?;
    Ok(bytes_of(alloc, &Statement::Keep { view, place, batch })?)
}

#[tactic(auto, unfolding(story_defs::specs::Statements::notify_at))]
fn notify(alloc: Global, view: u16, words: &mut Words<'_>) -> Result<Vec<u8>, LineFault>
    requires { view ≤ 1023 }
    ensures { Makes expected_of (λ bytes. bytes.items) result (spelled (plain.notify_at expected.Lie view (left words.old))) }
{
    let update = update(words)?;
    words.end(LIE)?;
    Ok(bytes_of(alloc, &Statement::Notify { view, update })?)
}

#[tactic(auto, unfolding(story_defs::specs::Statements::end_at))]
fn end(alloc: Global, view: u16, words: &mut Words<'_>) -> Result<Vec<u8>, LineFault>
    requires { view ≤ 1023 }
    ensures { Makes expected_of (λ bytes. bytes.items) result (spelled (plain.end_at expected.Lie view (left words.old))) }
{
    let length = words.number(0, 1024, LIE)? as u16;
    words.end(LIE)?;
    Ok(bytes_of(alloc, &Statement::End { view, length })?)
}

#[tactic(auto, unfolding(story_defs::specs::Statements::last_at))]
fn last(alloc: Global, view: u16, words: &mut Words<'_>) -> Result<Vec<u8>, LineFault>
    requires { view ≤ 1023 }
    ensures { Makes expected_of (λ bytes. bytes.items) result (spelled (plain.last_at expected.Lie view (left words.old))) }
{
    let rank = words.number(0, 15, LIE)? as u8;
    let ready = report(rank, words)?;
    words.end(LIE)?;
    Ok(bytes_of(alloc, &Statement::Last { view, rank, ready })?)
}

#[tactic(auto, unfolding(story_defs::specs::Statements::valued_at))]
fn suggest(alloc: Global, view: u16, words: &mut Words<'_>) -> Result<Vec<u8>, LineFault>
    requires { view ≤ 1023 }
    ensures { Makes expected_of (λ bytes. bytes.items) result (spelled (plain.valued_at expected.Lie kinds.Suggest view (left words.old))) }
{
    let rank = words.number(0, 15, LIE)? as u8;
    let value = value(words)?;
    words.end(LIE)?;
    Ok(bytes_of(alloc, &Statement::Suggest { view, rank, value })?)
}

#[tactic(auto, unfolding(story_defs::specs::Statements::valued_at))]
fn ack(alloc: Global, view: u16, words: &mut Words<'_>) -> Result<Vec<u8>, LineFault>
    requires { view ≤ 1023 }
    ensures { Makes expected_of (λ bytes. bytes.items) result (spelled (plain.valued_at expected.Lie kinds.Ack view (left words.old))) }
{
    let rank = words.number(0, 15, LIE)? as u8;
    let value = value(words)?;
    words.end(LIE)?;
    Ok(bytes_of(alloc, &Statement::Ack { view, rank, value })?)
}

#[tactic(auto, unfolding(story_defs::specs::Statements::valued_at))]
fn ready(alloc: Global, view: u16, words: &mut Words<'_>) -> Result<Vec<u8>, LineFault>
    requires { view ≤ 1023 }
    ensures { Makes expected_of (λ bytes. bytes.items) result (spelled (plain.valued_at expected.Lie kinds.Ready view (left words.old))) }
{
    let rank = words.number(0, 15, LIE)? as u8;
    let value = value(words)?;
    words.end(LIE)?;
    Ok(bytes_of(alloc, &Statement::Ready { view, rank, value })?)
}

// What the words after the word of a kind say, of this view.
#[tactic(auto, unfolding(story_defs::specs::Statements::content_at))]
fn content(
    alloc: Global,
    view: u16,
    kind: &[u8],
    words: &mut Words<'_>,
) -> Result<Vec<u8>, LineFault>
    requires { view ≤ 1023 }
    ensures { Makes expected_of (λ bytes. bytes.items) result (spelled (plain.content_at expected.Lie view kind.now (left words.old))) }
{
    if kind == b"init".as_slice() {
        init(alloc, view, words)
    } else if kind == b"echo".as_slice() {
        echo(alloc, view, words)
    } else if kind == b"order".as_slice() {
        order(alloc, view, words)
    } else if kind == b"place".as_slice() {
        place(alloc, view, words)
    } else if kind == b"keep".as_slice() {
        keep(alloc, view, words)
    } else if kind == b"notify".as_slice() {
        notify(alloc, view, words)
    } else if kind == b"end".as_slice() {
        end(alloc, view, words)
    } else if kind == b"last".as_slice() {
        last(alloc, view, words)
    } else if kind == b"suggest".as_slice() {
        suggest(alloc, view, words)
    } else if kind == b"ack".as_slice() {
        ack(alloc, view, words)
    } else if kind == b"ready".as_slice() {
        ready(alloc, view, words)
    } else {
        Err(LineFault::Expected(LIE))
    }
}

// A statement in words.
#[tactic(auto, unfolding(story_defs::specs::Statements::worded_at))]
fn worded(alloc: Global, words: &mut Words<'_>) -> Result<Vec<u8>, LineFault>
    ensures { Makes expected_of (λ bytes. bytes.items) result (plain.spelled_at expected.Lie (left words.old)) }
{
    let view = view(words)?;
    let kind = words.next_word(LIE)?;
    content(alloc, view, kind, words)
}

// A statement in one word, which has its bytes.
fn reported(alloc: Global, words: &mut Words<'_>) -> Result<Vec<u8>, LineFault>
    ensures { Makes expected_of (λ bytes. (bytes.items, left words.new)) result (payload_at expected.Lie 65535 (left words.old)) }
{
    words.payload(alloc, 65_535, LIE)
}

/// The bytes of the statement that the words say: in one word as they are, or spelled in several.
///
/// # Errors
/// [`LineFault::Expected`] exactly where the words say none.
pub fn statement(alloc: Global, words: &mut Words<'_>) -> Result<Vec<u8>, LineFault>
    ensures { Makes expected_of (λ bytes. bytes.items) result (plain.statement_at expected.Lie (left words.old)) }
{
    let mut behind = *words;
    behind.next_word(LIE)?;
    if behind.is_done() {
        reported(alloc, words)
    } else {
        worded(alloc, words)
    }
}
