//! Free values: an update and a cut that may end the view (docs/PROTOCOL.md, «Values»).
ghost use Rattle.std.specs.Prelude.{◌≡◌, ℕ, ◌+◌, ◌-◌, ◌==◌, ◌||◌, ◌&&◌, Some, count_by, if◌then◌else◌, is_some, nat_le, slice_get};
ghost use Rattle.std.specs.List.{list_any};
ghost use Rattle.std.specs.Option.{option_map};
ghost use Rattle.byte_defs.specs.Choices.{is_some_and};
ghost use Rattle.group_defs.specs.Process.{Setting};
ghost use Rattle.group_defs.specs.Certified.{number_of_members, place_at};
ghost use Rattle.group_defs.specs.Values as defs;
ghost use Rattle.pool_laws.specs.Least.{IsLeastBelow};
ghost use Rattle.rp_base.specs.Views.{update as update_of, value as value_of};
ghost use Rattle.rule_laws.specs.Ending.{end_of as plain_end, may_update as plain_update, may_cut as plain_cut, IsLeastCut};
ghost use Rattle.rule_laws.specs.Heard.{IsPool};
ghost use Rattle.rule_laws.specs.Perceived.{update_at as plain_at, most_updates};
ghost use Rattle.ending_rules.specs.Due.{HasKeys, is_below};

use crate::updates::{MOST_UPDATES, update_at};
use pool_questions::{Own, Pool, certified_batch, end_of};
use rp_base::{Pid, Update, Value};
use view_table::{is_possible, quorum};

/// Whether `members` members are a quorum of the view.
pub fn is_quorum(pool: &Pool, members: usize) -> bool
    ensures { result ≡ defs.is_quorum pool.now.pool members }
{
    quorum(pool.view().members().len()) <= members
}

// ---- cuts

// Whether the member's heard End says at most the cut.
fn ends_within(pool: &Pool, member: Pid, cut: u16) -> bool
    ensures { result ≡ is_some_and (plain_end pool.now.pool member) (λ e. nat_le e cut) }
{
    match end_of(pool, member) {
        Some(length) => length <= cut,
        None => false,
    }
}

// Whether the member's heard End says the cut itself.
fn ends_at(pool: &Pool, member: Pid, cut: u16) -> bool
    ensures { result ≡ is_some_and (plain_end pool.now.pool member) (λ e. e == cut) }
{
    match end_of(pool, member) {
        Some(length) => length == cut,
        None => false,
    }
}

// How many members' heard Ends say at most the cut.
fn ends_up_to(pool: &Pool, cut: u16) -> usize
    ensures { result ≡ count_by (λ m. is_some_and (plain_end pool.now.pool m) (λ e. nat_le e cut)) pool.now.pool.view.members }
{
    pool.view()
        .members()
        .iter()
        .filter(|m| ends_within(pool, **m, cut))
        .count()
}

// Whether some member's heard End says the cut itself.
fn is_said(pool: &Pool, cut: u16) -> bool
    ensures { result ≡ list_any (λ m. is_some_and (plain_end pool.now.pool m) (λ e. e == cut)) pool.now.pool.view.members }
{
    pool.view().members().iter().any(|m| ends_at(pool, *m, cut))
}

// Whether the last place below the cut is certified, or there is none below it.
fn is_placed_below(pool: &Pool, cut: u16) -> bool
    ensures { result ≡ ((cut == 0) || is_some (place_at pool.now.pool (cut - 1))) }
{
    cut == 0 || certified_batch(pool, cut - 1).is_some()
}

// Whether the cut may end the view.
fn may_cut(pool: &Pool, cut: u16) -> bool
    ensures { result ≡ plain_cut pool.now.pool cut }
{
    is_quorum(pool, ends_up_to(pool, cut)) && is_said(pool, cut) && is_placed_below(pool, cut)
}

// Whether the length is below the cut that was found, where one was.
fn is_less(length: u16, found: Option<u16>) -> bool
    ensures { result ≡ is_below length found }
{
    match found {
        Some(cut) => length < cut,
        None => true,
    }
}

// The length, where it is below the cut that was found and may end the view; else what was found.
fn lesser_cut(pool: &Pool, found: Option<u16>, length: u16) -> Option<u16>
    ensures { result ≡ (if is_below length found && plain_cut pool.now.pool length then Some length else found) }
{
    if is_less(length, found) && may_cut(pool, length) {
        Some(length)
    } else {
        found
    }
}

// The least cut that may end the view, with one member's End more.
fn cut_with(pool: &Pool, found: Option<u16>, member: Pid) -> Option<u16>
    ensures { (r : ℕ) → slice_get pool.now.pool.view.members r ≡ Some member → IsLeastCut pool.now.pool r found
        → IsLeastCut pool.now.pool (r + 1) result }
{
    match end_of(pool, member) {
        Some(length) => lesser_cut(pool, found, length),
        None => found,
    }
}

// The least cut that a member says and that may end the view; None exactly where none may.
fn least_cut(pool: &Pool) -> Option<u16>
    ensures { IsLeastCut pool.now.pool (number_of_members pool.now.pool) result }
{
    let mut found = None;
    'members: for member in pool.view().members() {
        found = cut_with(pool, found, *member);
    }
    found
}

// ---- updates

// Whether the update may end the view: more than f members notify it, and it is possible.
fn may_update(pool: &Pool, own: &Own, update: Update) -> bool
    ensures { (s : Setting) → HasKeys s own.now → result ≡ plain_update s pool.now.pool (update_of update) }
{
    pool.is_notified(update) && is_possible(pool.view(), own.keyed, &update)
}

// The number of the least update that may end the view; None exactly where none may.
fn least_update(pool: &Pool, own: &Own) -> Option<u8>
    ensures { (s : Setting) → HasKeys s own.now → IsLeastBelow most_updates (λ i. plain_update s pool.now.pool (plain_at i)) result }
{
    pool.notified().first()?;
    'updates: for number in 0..MOST_UPDATES {
        if may_update(pool, own, update_at(number)) {
            return Some(number);
        }
    }
    None
}

// ---- values

/// Whether the value is free: more than f members notify its update, which is possible; at least a quorum of the members
/// have a heard End of at most its cut, and one of them the cut itself; and the cut is 0, or the last place below it is
/// certified.
pub fn cut_justified(pool: &Pool, own: &Own, value: Value) -> bool
    ensures { (s : Setting) → HasKeys s own.now → result ≡ defs.is_free s pool.now.pool (value_of value) }
{
    may_update(pool, own, value.update) && may_cut(pool, value.cut)
}

/// The free value of the least update, and then of the least cut; None exactly where no value is free.
pub fn free_value(pool: &Pool, own: &Own) -> Option<Value>
    ensures { IsPool pool.now.pool → (s : Setting) → HasKeys s own.now → option_map value_of result ≡ defs.free_value s pool.now.pool }
{
    let number = least_update(pool, own)?;
    let cut = least_cut(pool)?;
    let update = update_at(number);
    Some(Value { update, cut })
}
