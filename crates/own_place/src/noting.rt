//! The own place with one statement more that the process has signed.
ghost use Rattle.std.specs.Prelude.{◌≡◌, ◌≤◌, ◌+◌, false, IsTrue, length};
ghost use Rattle.std.specs.List.{AllByRecursion};
ghost use Rattle.message_defs.specs.Spelling.{IsStatement, IsMessage};
ghost use Rattle.message_defs.specs.Statements.{slot_of};
ghost use Rattle.group_defs.specs.Process.{Setting, Pool, Process};
ghost use Rattle.group_defs.specs.Certified as certified;
ghost use Rattle.group_defs.specs.Due.{may_sign};
ghost use Rattle.group_defs.specs.Signing.{Signer, signs};
ghost use Rattle.claim_index.specs.Statements.{stmt, report};
ghost use Rattle.own_place.specs.Owns.{IsOwnOf};
ghost use Rattle.own_place.specs.Signed.{has_slot};
ghost use Rattle.own_place.specs.Noting as noting;

use crate::own::Own;
use claim_index::{Batch, Statement, Value, View};

// Whether the statement is an End.
fn is_end(statement: &Statement<'_>) -> bool
    ensures { result ≡ noting.is_end (stmt statement.now) }
{
    matches!(statement, Statement::End { .. })
}

// The rank of a Last, an Ack or a Ready, and 0 of another statement.
fn rank_said(statement: &Statement<'_>) -> u8
    ensures { result ≡ certified.rank_said (stmt statement.now) }
{
    match *statement {
        Statement::Last { rank, .. }
        | Statement::Ack { rank, .. }
        | Statement::Ready { rank, .. } => { rank }
        _ => 0,
    }
}

// The rank and the value of a Ready.
fn readied(statement: &Statement<'_>) -> Option<(u8, Value)>
    ensures { report result ≡ certified.readied (stmt statement.now) }
{
    match *statement {
        Statement::Ready { rank, value, .. } => Some((rank, value)),
        _ => None,
    }
}

// The Ready of greater rank, the first where both have the same.
fn higher(ready: Option<(u8, Value)>, other: Option<(u8, Value)>) -> Option<(u8, Value)>
    ensures { report result ≡ noting.ready_after (report ready) (report other) }
{
    let Some(other) = other else {
        return ready;
    };
    match ready {
        None => Some(other),
        Some(ready) => Some(if ready.0 < other.0 { other } else { ready }),
    }
}

// How many Orders are signed, with this statement.
fn orders_after(orders: u16, statement: &Statement<'_>) -> u16
    requires { IsStatement (stmt statement.now) }
    ensures { result ≡ noting.orders_after orders (stmt statement.now) }
{
    match *statement {
        Statement::Order { place, .. } => place + 1,
        _ => orders,
    }
}

// Counts the messages of the batch, which come next, each at its sender's rank.
fn count_batch(view: &View, batch: &Batch, counts: &mut [u16])
    requires members { length counts.old ≡ length view.now.members }
    requires numbers { AllByRecursion IsMessage batch.now }
    ensures { noting.CountsMore view.now counts.old batch.now counts.new }
{
    let _members = view.members();
    'messages: for message in batch.messages() {
        if let Some(rank) = view.rank_of(message.0) {
            counts[rank as usize] = message.1 + 1;
        }
    }
}

// Counts the messages of an Order.
fn count_ordered(view: &View, statement: &Statement<'_>, counts: &mut [u16])
    requires members { length counts.old ≡ length view.now.members }
    requires range { IsStatement (stmt statement.now) }
    ensures { noting.CountsMore view.now counts.old (noting.ordered_messages (stmt statement.now)) counts.new }
{
    if let Statement::Order { batch, .. } = statement {
        count_batch(view, batch, counts);
    }
}

impl Own {
    // Notes the statement in each part.
    fn note(&mut self, view: &View, statement: &Statement<'_>)
        requires range { IsStatement (stmt statement.now) }
        requires members { length self.old.orders.items ≡ length view.now.members }
        requires fresh { has_slot self.old.signed (slot_of (stmt statement.now)) ≡ false }
        requires room { 1 ≤ self.old.signed.left }
        ensures noted { noting.IsNoted view.now (stmt statement.now) self.old self.new }
        ensures marked { self.new.signed.marked ≡ self.old.signed.marked }
        ensures left { self.old.signed.left ≤ self.new.signed.left + 1 }
    {
        self.signed.sign(statement);
        self.ended = self.ended || is_end(statement);
        self.rank = self.rank.max(rank_said(statement));
        self.ready = higher(self.ready, readied(statement));
        self.ordered = orders_after(self.ordered, statement);
        count_ordered(view, statement, &mut self.orders);
    }

    /// Notes that the process has signed the statement in this view. It takes no memory: room for one slot must be reserved.
    /// The slot is not signed, and `orders` has an entry for each member.
    pub fn note_signed(&mut self, view: &View, statement: &Statement<'_>)
        requires range { IsStatement (stmt statement.now) }
        requires members { length self.old.orders.items ≡ length view.now.members }
        requires fresh { has_slot self.old.signed (slot_of (stmt statement.now)) ≡ false }
        requires room { 1 ≤ self.old.signed.left }
        ensures noted { noting.IsNoted view.now (stmt statement.now) self.old self.new }

        // Where a process may sign the statement, this is its place after it has, with the pool `h` that it holds then.
        ensures tells { (s : Setting) (signer : Signer) (p : Process) (g h : Pool) → IsOwnOf s p g self.old → g.view ≡ view.now
            → IsTrue (may_sign s p (stmt statement.now)) → (signs s signer p (stmt statement.now)).pool ≡ h
            → IsOwnOf s (signs s signer p (stmt statement.now)) h self.new }
        ensures marked { self.new.signed.marked ≡ self.old.signed.marked }
        ensures left { self.old.signed.left ≤ self.new.signed.left + 1 }
    {
        self.note(view, statement);
    }
}
