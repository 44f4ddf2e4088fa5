//! Whether what each process reports is a front of what the group has.
ghost use Rattle.std.specs.Prelude.{◌≡◌, ◌==◌, ◌&&◌, ◌||◌, not, nat_lt, ◌+◌, map, take, drop, length};
ghost use Rattle.std.specs.List.{list_all, list_any, range_with_len};
ghost use Rattle.byte_defs.specs.Equality.{is_yes};
ghost use Rattle.group_defs.specs.Views as defs;
ghost use Rattle.group_defs.specs.Process.{letter_of, Letter-discrete};
ghost use Rattle.group_defs.specs.Accounts as plain;
ghost use Rattle.accounts.specs.Views.{account, delivery};
ghost use Rattle.group_questions.specs.Letters.{letters};
ghost use Rattle.group_questions.specs.Letters as words;

use crate::group::{delivered_in, longest_views, sequence_in};
use accounts::{Account, Delivered};
use view_table::View;

/// Whether two views are equal.
pub fn same_view(v: &View, w: &View) -> bool
    ensures { result ≡ words.same_view v.now w.now }
{
    v.number() == w.number() && v.members() == w.members()
}

/// Whether two deliveries are of the same message with the same payload, wherever they are.
fn same_letter(d: &Delivered, e: &Delivered) -> bool
    ensures { result ≡ is_yes (Letter-discrete (letter_of (delivery d.now)) (letter_of (delivery e.now))) }
{
    d.sender == e.sender && d.number == e.number && d.payload.bytes() == e.payload.bytes()
}

// Whether the first list is a front of the other.
fn are_first_views(views: &[View], all: &[View]) -> bool
    ensures { result ≡ plain.same_views views.now (take (length views.now) all.now) }
{
    views.len() <= all.len() && views.iter().zip(all).all(|(v, w)| same_view(v, w))
}

// Whether the messages of the first list are a front of those of the other.
fn are_first_letters(own: &[Delivered], all: &[Delivered]) -> bool
    ensures { result ≡ plain.same_sequence (letters own.now) (take (length (letters own.now)) (letters all.now)) }
{
    own.len() <= all.len() && own.iter().zip(all).all(|(d, e)| same_letter(d, e))
}

// Whether the process was a member of its view of this number.
fn is_member_in(a: &Account, x: usize) -> bool
    ensures { result ≡ list_any (λ v. defs.is_member v a.now.me) (take 1 (drop x a.now.views.items)) }
{
    match a.views.get(x) {
        Some(view) => view.is_member(a.me),
        None => false,
    }
}

// Whether the process left the view of this number.
fn has_left(a: &Account, x: usize) -> bool
    ensures { result ≡ nat_lt (x + 1) (length a.now.views.items) }
{
    let views = a.views.as_slice();
    x < views.len() && x + 1 < views.len()
}

// Whether it may lack what the group delivered in the view: it was no member there, or has not left it.
fn may_lack(a: &Account, x: usize) -> bool
    ensures { result ≡ (not (list_any (λ v. defs.is_member v a.now.me) (take 1 (drop x a.now.views.items)))
        || not (nat_lt (x + 1) (length a.now.views.items))) }
{
    !is_member_in(a, x) || !has_left(a, x)
}

fn same_length(own: &[Delivered], all: &[Delivered]) -> bool
    ensures { result ≡ (length own.now == length all.now) }
{
    own.len() == all.len()
}

// A front is enough where more may be missing, and else all of it is needed.
fn is_enough(is_front: bool, may_lack: bool, is_whole: bool) -> bool
    ensures { result ≡ (is_front && (may_lack || is_whole)) }
{
    is_front && (may_lack || is_whole)
}

// Whether what it delivered in the view of this number is a front of the group's sequence, and all of it where a member left the view.
fn agrees_in(accounts: &[Account], a: &Account, x: usize) -> bool
    ensures { result ≡ plain.agrees_in (plain.group_of (map account accounts.now)) (account a.now) x }
{
    let own = delivered_in(a, x);
    let all = sequence_in(accounts, x);
    is_enough(
        are_first_letters(own, all),
        may_lack(a, x),
        same_length(own, all),
    )
}

// Whether it agrees in each of its views.
fn agrees_throughout(accounts: &[Account], a: &Account) -> bool
    ensures { result ≡ list_all (plain.agrees_in (plain.group_of (map account accounts.now)) (account a.now))
        (range_with_len 0 (length a.now.views.items)) }
{
    let views = a.views.as_slice();
    (0..views.len()).all(|x| agrees_in(accounts, a, x))
}

// Whether the process agrees with the group of them all.
fn agrees_with(accounts: &[Account], a: &Account) -> bool
    ensures { result ≡ plain.agrees_with (plain.group_of (map account accounts.now)) (account a.now) }
{
    are_first_views(&a.views, longest_views(accounts)) && agrees_throughout(accounts, a)
}

fn all_agree(accounts: &[Account]) -> bool
    ensures { result ≡ list_all (λ a. plain.agrees_with (plain.group_of (map account accounts.now)) (account a)) accounts.now }
{
    accounts.iter().all(|a| agrees_with(accounts, a))
}

/// Whether each process agrees with the group of them all: its views are the first ones of the group's, the messages that it delivered
/// in each view are the first ones of the group's sequence, and a member that left the view delivered the whole sequence.
pub fn agree(accounts: &[Account]) -> bool
    ensures { result ≡ plain.agree (map account accounts.now) }
{
    all_agree(accounts)
}
