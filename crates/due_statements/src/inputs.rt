//! The statement of each kind that is due, made of what its rule answers.
ghost use Rattle.std.specs.Prelude.{◌≡◌, ◌≤◌, ◌<◌, length, is_some};
ghost use Rattle.std.specs.Option.{option_map};
ghost use Rattle.message_defs.specs.Statements as plain;
ghost use Rattle.group_defs.specs.Process as defs;
ghost use Rattle.group_defs.specs.Process.{Setting, Process};
ghost use Rattle.group_defs.specs.Certified.{number_of_members};
ghost use Rattle.group_defs.specs.Due.{least_due};
ghost use Rattle.stmt_codec.specs.Views.{stmt};
ghost use Rattle.due_statements.specs.AskedOf.{IsAskedOf, IsSeated, kind_of};

use crate::kind::Kind;
use multicast_rules::{Own, Pool, echo_due, init_due, keep_due, order_due, place_due};
use rank_rules::{Perceived, end_due, last_due, next_ack, next_suggest, notify_due, ready_due};
use stmt_codec::{Payload, Slot, Statement};

/// What the rules look at: what a process has heard, its own place in its view, what was asked for, and what it accepted.
#[derive(Clone, Copy)]
pub struct RuleInputs<'a> {
    /// What the process has heard in its view.
    pub pool: &'a Pool,

    /// The process's own place in its view.
    pub own: &'a Own,

    /// The updates that were asked for in the view.
    pub perceived: &'a Perceived,

    /// The payloads that the process accepted, in all views.
    pub accepted: &'a [Payload],

    /// The most messages of an own Order, 1 to 16.
    pub batch_limit: u8,
}

// The payload of an Init.
fn payload_of<'a>(statement: &Statement<'a>) -> Option<&'a [u8]>
    ensures { option_map (λ b. b.now) result ≡ plain.payload_of (stmt statement.now) }
{
    match *statement {
        Statement::Init { payload, .. } | Statement::Echo { payload, .. } => Some(payload),
        _ => None,
    }
}

// The number of the view.
fn view_of(of: &RuleInputs<'_>) -> u16
    ensures { result ≡ of.now.pool.now.pool.view.number }
{
    of.pool.view().number()
}

// How many payloads were accepted. There are no more than a number of four bytes holds.
fn accepted(of: &RuleInputs<'_>) -> u32
    ensures count { length of.now.accepted.now ≤ u32.MAX → result ≡ length of.now.accepted.now }
    ensures within { result ≤ length of.now.accepted.now }
{
    of.accepted.len().min(u32::MAX as usize) as u32
}

// The Init that is due.
fn init<'a>(of: &RuleInputs<'a>) -> Option<Statement<'a>>
    requires { IsSeated of.now }
    ensures { (s : Setting) (p : Process) → IsAskedOf s p of.now → least_due s p defs.Inits ≡ option_map stmt result }
{
    let number = init_due(of.pool, of.own, accepted(of))?;
    let payload = of.accepted[of.own.earlier as usize + number as usize].bytes();
    Some(Statement::Init {
        view: view_of(of),
        number,
        payload,
    })
}

// The Echo that is due.
fn echo<'a>(of: &RuleInputs<'a>) -> Option<Statement<'a>>
    ensures { (s : Setting) (p : Process) → IsAskedOf s p of.now → least_due s p defs.Echoes ≡ option_map stmt result }
{
    let view = view_of(of);
    let (sender, number) = echo_due(of.pool, of.own)?;
    let Some(init) = of.pool.first(sender, 1, Slot::Number { view, number }) else {
        return None;
    };
    let Some(payload) = payload_of(&init) else {
        return None;
    };
    Some(Statement::Echo {
        view,
        sender,
        number,
        payload,
    })
}

// The Order that is due.
fn order<'a>(of: &RuleInputs<'a>) -> Option<Statement<'a>>
    requires { IsSeated of.now }
    ensures { (s : Setting) (p : Process) → IsAskedOf s p of.now → least_due s p defs.Orders ≡ option_map stmt result }
{
    let (place, batch) = order_due(of.pool, of.own, of.batch_limit)?;
    let view = view_of(of);
    Some(Statement::Order { view, place, batch })
}

// The Place that is due.
fn place<'a>(of: &RuleInputs<'a>) -> Option<Statement<'a>>
    ensures { (s : Setting) (p : Process) → IsAskedOf s p of.now → least_due s p defs.Places ≡ option_map stmt result }
{
    let (place, batch) = place_due(of.pool, of.own)?;
    let view = view_of(of);
    Some(Statement::Place { view, place, batch })
}

// The Keep that is due.
fn keep<'a>(of: &RuleInputs<'a>) -> Option<Statement<'a>>
    ensures { (s : Setting) (p : Process) → IsAskedOf s p of.now → least_due s p defs.Keeps ≡ option_map stmt result }
{
    let (place, batch) = keep_due(of.pool, of.own)?;
    let view = view_of(of);
    Some(Statement::Keep { view, place, batch })
}

// The Notify that is due.
fn notify<'a>(of: &RuleInputs<'a>) -> Option<Statement<'a>>
    ensures { (s : Setting) (p : Process) → IsAskedOf s p of.now → least_due s p defs.Notifies ≡ option_map stmt result }
{
    let update = notify_due(of.pool, of.own, of.perceived)?;
    let view = view_of(of);
    Some(Statement::Notify { view, update })
}

// The End that is due.
fn end<'a>(of: &RuleInputs<'a>) -> Option<Statement<'a>>
    ensures { (s : Setting) (p : Process) → IsAskedOf s p of.now → least_due s p defs.Ends ≡ option_map stmt result }
{
    let length = end_due(of.pool, of.own)?;
    let view = view_of(of);
    Some(Statement::End { view, length })
}

// The Ready that is due.
fn ready<'a>(of: &RuleInputs<'a>) -> Option<Statement<'a>>
    ensures { (s : Setting) (p : Process) → IsAskedOf s p of.now → least_due s p defs.Readies ≡ option_map stmt result }
{
    let (rank, value) = ready_due(of.pool, of.own)?;
    let view = view_of(of);
    Some(Statement::Ready { view, rank, value })
}

// The Last that is due.
fn last<'a>(of: &RuleInputs<'a>) -> Option<Statement<'a>>
    ensures { (s : Setting) (p : Process) → IsAskedOf s p of.now → least_due s p defs.Lasts ≡ option_map stmt result }
{
    let (rank, ready) = last_due(of.pool, of.own)?;
    let view = view_of(of);
    Some(Statement::Last { view, rank, ready })
}

// The Suggest that is due.
fn suggest<'a>(of: &RuleInputs<'a>) -> Option<Statement<'a>>
    ensures { (s : Setting) (p : Process) → IsAskedOf s p of.now → least_due s p defs.Suggests ≡ option_map stmt result }
{
    let (rank, value) = next_suggest(of.pool, of.own)?;
    let view = view_of(of);
    Some(Statement::Suggest { view, rank, value })
}

// The Ack that is due.
fn ack<'a>(of: &RuleInputs<'a>) -> Option<Statement<'a>>
    ensures { (s : Setting) (p : Process) → IsAskedOf s p of.now → least_due s p defs.Acks ≡ option_map stmt result }
{
    let (rank, value) = next_ack(of.pool, of.own)?;
    let view = view_of(of);
    Some(Statement::Ack { view, rank, value })
}

/// Whether a statement of the kind is due. None is made.
pub fn is_due(of: &RuleInputs<'_>, kind: Kind) -> bool
    requires { IsSeated of.now }
    ensures { (s : Setting) (p : Process) → IsAskedOf s p of.now → result ≡ is_some (least_due s p (kind_of kind)) }
{
    let pool = of.pool;
    let own = of.own;
    match kind {
        Kind::Init => init_due(pool, own, accepted(of)).is_some(),
        Kind::Echo => echo_due(pool, own).is_some(),
        Kind::Order => order_due(pool, own, of.batch_limit).is_some(),
        Kind::Place => place_due(pool, own).is_some(),
        Kind::Keep => keep_due(pool, own).is_some(),
        Kind::Notify => notify_due(pool, own, of.perceived).is_some(),
        Kind::End => end_due(pool, own).is_some(),
        Kind::Ready => ready_due(pool, own).is_some(),
        Kind::Last => last_due(pool, own).is_some(),
        Kind::Suggest => next_suggest(pool, own).is_some(),
        Kind::Ack => next_ack(pool, own).is_some(),
    }
}

/// The least statement of the kind that is due to the process in `of`; None exactly where none is due. `own` has an
/// entry for each member, and the batch limit is from 1 to 16.
pub fn due<'a>(of: &RuleInputs<'a>, kind: Kind) -> Option<Statement<'a>>
    requires { IsSeated of.now }
    ensures { (s : Setting) (p : Process) → IsAskedOf s p of.now → least_due s p (kind_of kind) ≡ option_map stmt result }
{
    match kind {
        Kind::Init => init(of),
        Kind::Echo => echo(of),
        Kind::Order => order(of),
        Kind::Place => place(of),
        Kind::Keep => keep(of),
        Kind::Notify => notify(of),
        Kind::End => end(of),
        Kind::Ready => ready(of),
        Kind::Last => last(of),
        Kind::Suggest => suggest(of),
        Kind::Ack => ack(of),
    }
}
