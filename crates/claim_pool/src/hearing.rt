ghost use Rattle.std.specs.Prelude.{◌≡◌, ◌≢◌, ◌<◌, ◌+◌, Some, IfSome, Bool, false, not, length, slice_index, unwrap_or, nat_le};
ghost use Rattle.std.specs.List.{list_any};
ghost use Rattle.std.specs.Option.{option_map};
ghost use Rattle.byte_defs.specs.Choices.{first_that_holds};
ghost use Rattle.message_defs.specs.Statements as plain;
ghost use Rattle.group_defs.specs.Views as views;
ghost use Rattle.group_defs.specs.Process as defs;
ghost use Rattle.group_defs.specs.Due.{window};
ghost use Rattle.group_defs.specs.Hearing as hearing;
ghost use Rattle.stmt_codec.specs.Views.{stmt, claim as claim_of};
ghost use Rattle.own_place.specs.Owns.{HasDelivered};
ghost use Rattle.claim_pool.specs.Verdicts.{verdict, early_tests};

use crate::verdict::Verdict;
use own_place::{Own, View};
use rp_base::Pid;
use stmt_codec::{Batch, Claim, Statement};

/// How far beyond what was delivered numbers and places may go.
pub const WINDOW: u32 = 32;

// Whether a sender of these messages is no member.
fn any_stranger(view: &View, messages: &[(Pid, u16)]) -> bool
    ensures { result ≡ list_any (λ m. not (views.is_member view.now m.0)) messages.now }
{
    messages.iter().any(|m| !view.is_member(m.0))
}

// Whether the batch names a sender that is no member.
fn has_stranger(view: &View, batch: &Batch) -> bool
    ensures { result ≡ list_any (λ m. not (views.is_member view.now m.sender)) batch.now }
{
    any_stranger(view, batch.messages())
}

// Whether the statement names a sender that is no member.
fn names_stranger(view: &View, statement: &Statement<'_>) -> bool
    ensures { result ≡ list_any (λ m. not (views.is_member view.now m.sender)) (plain.messages_of (stmt statement.now)) }
{
    match statement {
        Statement::Echo { sender, .. } => !view.is_member(*sender),
        Statement::Order { batch, .. }
        | Statement::Place { batch, .. }
        | Statement::Keep { batch, .. } => has_stranger(view, batch),
        _ => false,
    }
}

// Whether the signer, or a sender that the statement names, is no member.
fn is_strange(view: &View, claim: &Claim<'_>) -> bool
    ensures { (p : defs.Process) → p.pool.view ≡ view.now → result ≡ hearing.is_strange p (claim_of claim.now) }
{
    !view.is_member(claim.signer) || names_stranger(view, &claim.statement)
}

// How many of the member's messages the process has delivered.
fn count_of(view: &View, own: &Own, member: Pid) -> u16
    requires { length own.now.counts.items ≡ length view.now.members }
    ensures { result ≡ unwrap_or (option_map (λ r. slice_index own.now.counts.items r) (views.rank_of view.now member)) 0 }
{
    match view.rank_of(member) {
        Some(rank) => own.counts[rank as usize],
        None => 0,
    }
}

// Whether the number is a window or more ahead of how many there are.
fn is_ahead(number: u16, have: u16) -> bool
    ensures { result ≡ nat_le (have + window) number }
{
    have as u32 + WINDOW <= number as u32
}

// Whether the place, the number or the rank is too far ahead.
fn is_beyond(view: &View, own: &Own, claim: &Claim<'_>) -> bool
    requires { length own.now.counts.items ≡ length view.now.members }
    ensures { (p : defs.Process) → HasDelivered own.now p → p.pool.view ≡ view.now → hearing.is_strange p (claim_of claim.now) ≡ false
        → result ≡ hearing.is_beyond p claim.now.signer (stmt claim.now.statement) }
{
    match claim.statement {
        Statement::Init { number, .. } => is_ahead(number, count_of(view, own, claim.signer)),
        Statement::Echo { sender, number, .. } => is_ahead(number, count_of(view, own, sender)),
        Statement::Order { place, .. }
        | Statement::Place { place, .. }
        | Statement::Keep { place, .. } => is_ahead(place, own.delivered),
        Statement::Last { rank, .. }
        | Statement::Suggest { rank, .. }
        | Statement::Ack { rank, .. }
        | Statement::Ready { rank, .. } => view.members().len() <= rank as usize,
        Statement::Notify { .. } | Statement::End { .. } => false,
    }
}

/// The verdict that looks at no heard claim; None where the heard claims and the signature decide.
pub(crate) fn turned_away(view: &View, own: &Own, claim: &Claim<'_>) -> Option<Verdict>
    requires { length own.now.counts.items ≡ length view.now.members }
    ensures first { (p : defs.Process) → HasDelivered own.now p → p.pool.view ≡ view.now
        → option_map verdict result ≡ first_that_holds (early_tests p (claim_of claim.now)) }
    ensures unheard { IfSome result (λ v. verdict v ≢ hearing.Heard) }
{
    let number = claim.statement.view();
    if number < view.number() {
        Some(Verdict::Old)
    } else if view.number() < number {
        Some(Verdict::Early)
    } else if is_strange(view, claim) {
        Some(Verdict::Stranger)
    } else if is_beyond(view, own, claim) {
        Some(Verdict::OutOfWindow)
    } else {
        None
    }
}
