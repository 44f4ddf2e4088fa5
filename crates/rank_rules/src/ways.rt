//! The two ways in which a value may end a view at a rank: none was decided before, or an earlier rank may have decided it
//! (docs/PROTOCOL.md, «Values»).
ghost use Rattle.std.specs.Prelude.{◌≡◌, ◌≤◌, count_by, is_none, Some};
ghost use Rattle.std.specs.List.{list_any};
ghost use Rattle.byte_defs.specs.Choices.{is_some_and};
ghost use Rattle.message_defs.specs.Statements.{Ack};
ghost use Rattle.group_defs.specs.Certified.{is_certified};
ghost use Rattle.group_defs.specs.Due.{same_value as same_plain};
ghost use Rattle.group_defs.specs.Values as defs;
ghost use Rattle.pool_laws.specs.Least.{IsLeastBelow, IsGreatestBelow};
ghost use Rattle.rp_base.specs.Views.{value as value_of};
ghost use Rattle.rule_laws.specs.Ending.{last_of as plain_last};
ghost use Rattle.rule_laws.specs.Heard.{IsPool};
ghost use Rattle.rule_laws.specs.Ranks.{acked};

use ending_rules::{Pool, certified_ack, is_quorum, last_of};
use rp_base::{Pid, Value};

// Whether the values are equal.
fn same_value(a: &Value, b: &Value) -> bool
    ensures { result ≡ same_plain (value_of a.now) (value_of b.now) }
{
    *a == *b
}

// ---- what the Lasts at a rank say

// Whether the member's heard Last at the rank reports no Ready.
fn reports_none(pool: &Pool, member: Pid, rank: u8) -> bool
    ensures { result ≡ is_some_and (plain_last pool.now.pool rank member) is_none }
{
    match last_of(pool, member, rank) {
        Some(ready) => ready.is_none(),
        None => false,
    }
}

// Whether the member's heard Last at the rank reports no Ready, or one of at most the lower rank.
fn reports_at_most(pool: &Pool, member: Pid, rank: u8, lower: u8) -> bool
    ensures { result ≡ is_some_and (plain_last pool.now.pool rank member) (defs.is_at_most lower) }
{
    match last_of(pool, member, rank) {
        Some(Some((reported, _))) => reported <= lower,
        Some(None) => true,
        None => false,
    }
}

// Whether the member's heard Last at the rank reports the value's Ready of the lower rank.
fn reports(pool: &Pool, member: Pid, rank: u8, lower: u8, value: &Value) -> bool
    ensures { result ≡ is_some_and (plain_last pool.now.pool rank member) (defs.same_ready (Some (lower, value_of value.now))) }
{
    match last_of(pool, member, rank) {
        Some(Some((reported, said))) => reported == lower && same_value(&said, value),
        _ => false,
    }
}

// How many members' heard Lasts at the rank report no Ready.
fn lasts_of_none(pool: &Pool, rank: u8) -> usize
    ensures { result ≡ count_by (λ m. is_some_and (plain_last pool.now.pool rank m) is_none) pool.now.pool.view.members }
{
    pool.view()
        .members()
        .iter()
        .filter(|m| reports_none(pool, **m, rank))
        .count()
}

// How many members' heard Lasts at the rank report no Ready, or one of at most the lower rank.
fn lasts_at_most(pool: &Pool, rank: u8, lower: u8) -> usize
    ensures { result ≡ count_by (λ m. is_some_and (plain_last pool.now.pool rank m) (defs.is_at_most lower)) pool.now.pool.view.members }
{
    pool.view()
        .members()
        .iter()
        .filter(|m| reports_at_most(pool, **m, rank, lower))
        .count()
}

// Whether some member's heard Last at the rank reports the value's Ready of the lower rank.
fn is_reported(pool: &Pool, rank: u8, lower: u8, value: &Value) -> bool
    ensures { result ≡ list_any (λ m. is_some_and (plain_last pool.now.pool rank m)
        (defs.same_ready (Some (lower, value_of value.now)))) pool.now.pool.view.members }
{
    pool.view()
        .members()
        .iter()
        .any(|m| reports(pool, *m, rank, lower, value))
}

// ---- the ways

// Whether the rank's Ack of the value is certified.
fn is_acked(pool: &Pool, rank: u8, value: &Value) -> bool
    ensures { IsPool pool.now.pool → result ≡ is_certified pool.now.pool (Ack pool.now.pool.view.number rank (value_of value.now)) }
{
    match certified_ack(pool, rank) {
        Some(acked) => same_value(value, &acked),
        None => false,
    }
}

/// Whether no rank below this one may have decided: the rank is 0, or a quorum of the members say at it that they signed no
/// Ready.
pub(crate) fn is_first_way(pool: &Pool, rank: u8) -> bool
    ensures { result ≡ defs.is_first_way pool.now.pool rank }
{
    rank == 0 || is_quorum(pool, lasts_of_none(pool, rank))
}

/// Whether the lower rank may have decided the value, and none between the two ranks decided: a quorum of the members say at
/// the rank that they signed no Ready above the lower one, one of them that it signed that of the value there, and the
/// value's Ack is certified there.
pub(crate) fn is_second_way(pool: &Pool, rank: u8, lower: u8, value: &Value) -> bool
    ensures { IsPool pool.now.pool → result ≡ defs.is_second_way pool.now.pool rank lower (value_of value.now) }
{
    lower < rank
        && is_quorum(pool, lasts_at_most(pool, rank, lower))
        && is_reported(pool, rank, lower, value)
        && is_acked(pool, lower, value)
}

// Whether the lower rank may have decided the value of its certified Ack.
fn may_have_decided(pool: &Pool, rank: u8, lower: u8) -> bool
    ensures { IsPool pool.now.pool → result ≡ is_some_and (acked pool.now.pool lower) (defs.is_second_way pool.now.pool rank lower) }
{
    match certified_ack(pool, lower) {
        Some(value) => is_second_way(pool, rank, lower, &value),
        None => false,
    }
}

/// The greatest lower rank that may have decided; None exactly where none may.
pub(crate) fn last_deciding(pool: &Pool, rank: u8) -> Option<u8>
    ensures { IsPool pool.now.pool
        → IsGreatestBelow rank (λ r. is_some_and (acked pool.now.pool r) (defs.is_second_way pool.now.pool rank r)) result }
{
    // Where no Ack is heard, none is certified.
    if !pool.hears(10) {
        return None;
    }
    let mut above = rank;
    'ranks: while above > 0 {
        above -= 1;
        if may_have_decided(pool, rank, above) {
            return Some(above);
        }
    }
    None
}

/// The least lower rank that may have decided the value; None exactly where none may.
pub(crate) fn first_deciding(pool: &Pool, rank: u8, value: &Value) -> Option<u8>
    ensures { IsPool pool.now.pool → IsLeastBelow rank (λ r. defs.is_second_way pool.now.pool rank r (value_of value.now)) result }
{
    'ranks: for lower in 0..rank {
        if is_second_way(pool, rank, lower, value) {
            return Some(lower);
        }
    }
    None
}
