//! The group that the accounts are of: the longest list of views, and of each view the longest list of deliveries. Both are borrowed.
ghost use Rattle.std.specs.Prelude.{◌≡◌, nat_lt, if◌then◌else◌, length, map};
ghost use Rattle.group_defs.specs.Accounts as plain;
ghost use Rattle.accounts.specs.Views.{account, delivery};
ghost use Rattle.group_questions.specs.Letters.{letters};

use accounts::{Account, Delivered};
use view_table::View;

// The longer one, and of two that are equally long the first.
fn longer<'a, T>(first: &'a [T], other: &'a [T]) -> &'a [T]
    ensures { result.now ≡ (if nat_lt (length first.now) (length other.now) then other.now else first.now) }
{
    if first.len() < other.len() {
        other
    } else {
        first
    }
}

/// The views of the group: the longest list of them, and of equally long ones the first.
pub fn longest_views(accounts: &[Account]) -> &[View]
    ensures { result.now ≡ (plain.group_of (map account accounts.now)).views }
{
    let mut longest: &[View] = &[];
    for a in accounts {
        longest = longer(longest, &a.views);
    }
    longest
}

/// What the process delivered in the view of this number.
pub fn delivered_in(a: &Account, x: usize) -> &[Delivered]
    ensures { map delivery result.now ≡ plain.delivered_in (account a.now) x }
{
    match a.delivered.get(x) {
        Some(delivered) => delivered,
        None => &[],
    }
}

/// The longest list of deliveries in the view of this number, and of equally long ones the first.
pub fn longest_in(accounts: &[Account], x: usize) -> &[Delivered]
    ensures { map delivery result.now ≡ plain.longest (map (λ a. plain.delivered_in (account a) x) accounts.now) }
{
    let mut longest: &[Delivered] = &[];
    for a in accounts {
        longest = longer(longest, delivered_in(a, x));
    }
    longest
}

/// The group's sequence of the view of this number: the messages of the longest list of deliveries there.
pub fn sequence_in(accounts: &[Account], x: usize) -> &[Delivered]
    ensures { letters result.now ≡ (plain.group_of (map account accounts.now)).sequence x }
{
    longest_in(accounts, x)
}
