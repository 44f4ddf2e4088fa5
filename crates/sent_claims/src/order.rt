//! The order of claims: by kind, slot and signer.
ghost use Rattle.std.specs.Prelude.{◌≡◌, ◌≤◌, [], ◌∷◌, length};
ghost use Rattle.byte_defs.specs.Orders.{numbers_below};
ghost use Rattle.message_defs.specs.Statements as plain;
ghost use Rattle.message_defs.specs.Updates.{update_numbers};
ghost use Rattle.group_defs.specs.Sending as sending;
ghost use Rattle.rp_base.specs.Views.{update as update_of};
ghost use Rattle.stmt_codec.specs.Views.{stmt, claim as claim_of};

use arrayvec::ArrayVec;
use rp_base::Update;
use stmt_codec::{Claim, Statement};

/// The numbers by which a claim is ordered, the first one first.
pub(crate) type Numbers = ArrayVec<u16, 5>;

// A kind, a view, and one number more.
fn three(kind: u16, view: u16, number: u16) -> Numbers
    ensures { result.items ≡ kind ∷ view ∷ number ∷ [] }
{
    let mut numbers = ArrayVec::new();
    numbers.push(kind);
    numbers.push(view);
    numbers.push(number);
    numbers
}

// A kind, a view, and two numbers more.
fn four(kind: u16, view: u16, first: u16, second: u16) -> Numbers
    ensures { result.items ≡ kind ∷ view ∷ first ∷ second ∷ [] }
{
    let mut numbers = three(kind, view, first);
    numbers.push(second);
    numbers
}

// The numbers of a Notify's slot.
fn notify_numbers(view: u16, update: Update) -> Numbers
    ensures { result.items ≡ 6 ∷ view ∷ update_numbers (update_of update) }
{
    match update {
        Update::Remove(p) => four(6, view, 1, p.get() as u16),
        Update::Add(p) => four(6, view, 2, p.get() as u16),
        Update::Renew => four(6, view, 3, 0),
    }
}

// The numbers of an End's slot.
fn end_numbers(view: u16) -> Numbers
    ensures { result.items ≡ 7 ∷ view ∷ [] }
{
    let mut numbers = ArrayVec::new();
    numbers.push(7);
    numbers.push(view);
    numbers
}

// The numbers of the statement's slot.
fn slot_numbers(statement: &Statement<'_>) -> Numbers
    ensures items { result.items ≡ plain.slot_numbers (plain.slot_of (stmt statement.now)) }
    ensures few { length result.items ≤ 4 }
{
    match *statement {
        Statement::Init { view, number, .. } => three(1, view, number),
        Statement::Echo {
            view,
            sender,
            number,
            ..
        } => four(2, view, sender.get() as u16, number),
        Statement::Order { view, place, .. } => three(3, view, place),
        Statement::Place { view, place, .. } => three(4, view, place),
        Statement::Keep { view, place, .. } => three(5, view, place),
        Statement::Notify { view, update } => notify_numbers(view, update),
        Statement::End { view, .. } => end_numbers(view),
        Statement::Last { view, rank, .. } => three(8, view, rank as u16),
        Statement::Suggest { view, rank, .. } => three(9, view, rank as u16),
        Statement::Ack { view, rank, .. } => three(10, view, rank as u16),
        Statement::Ready { view, rank, .. } => three(11, view, rank as u16),
    }
}

/// The numbers by which the claim is ordered: its kind's, those of its slot, and its signer's.
pub(crate) fn claim_numbers(claim: &Claim<'_>) -> Numbers
    ensures { result.items ≡ sending.claim_numbers (claim_of claim.now) }
{
    let mut numbers = slot_numbers(&claim.statement);
    numbers.push(claim.signer.get() as u16);
    numbers
}

/// Whether the first numbers come before the second.
pub(crate) fn is_below(a: &[u16], b: &[u16]) -> bool
    ensures { result ≡ numbers_below a.now b.now }
{
    let common = a.len().min(b.len());
    'numbers: for i in 0..common {
        if a[i] != b[i] {
            return a[i] < b[i];
        }
    }
    a.len() < b.len()
}
