//! How many members of a view are not correct.
ghost use Rattle.std.specs.Prelude.{◌≡◌, nat_le, not, map, count_by, length};
ghost use Rattle.std.specs.List.{list_all};
ghost use Rattle.byte_defs.specs.Members.{has};
ghost use Rattle.group_defs.specs.Views as defs;
ghost use Rattle.group_defs.specs.Accounts as plain;
ghost use Rattle.accounts.specs.Views.{account};

use accounts::Account;
use rp_base::{Pid, PidSet};
use view_table::{View, faulty};

// How many of these are not correct.
fn corrupt_among(members: &[Pid], correct: PidSet) -> usize
    ensures { result ≡ count_by (λ m. not (has correct m)) members.now }
{
    members.iter().filter(|m| !correct.contains(**m)).count()
}

// Whether at most f members of the view are not correct.
fn is_bounded(view: &View, correct: PidSet) -> bool
    ensures { result ≡ nat_le (plain.corrupt_in correct view.now) (defs.faulty (length view.now.members)) }
{
    let members = view.members();
    corrupt_among(members, correct) <= faulty(members.len())
}

// Whether each of these views is bounded.
fn are_bounded(views: &[View], correct: PidSet) -> bool
    ensures { result ≡ list_all (λ v. nat_le (plain.corrupt_in correct v) (defs.faulty (length v.members))) views.now }
{
    views.iter().all(|view| is_bounded(view, correct))
}

// Whether each view of each of these is bounded.
fn all_bounded(accounts: &[Account], correct: PidSet) -> bool
    ensures { result ≡ list_all (λ a. list_all
        (λ v. nat_le (plain.corrupt_in correct v) (defs.faulty (length v.members))) a.views.items) accounts.now }
{
    accounts.iter().all(|a| are_bounded(&a.views, correct))
}

/// Whether each view that a correct process installed has at most f members that are not correct, floor((n - 1) / 3) of n. `correct` is
/// the numbers of the correct processes.
pub fn bounded(accounts: &[Account], correct: PidSet) -> bool
    ensures { result ≡ plain.bounded (map account accounts.now) correct }
{
    all_bounded(accounts, correct)
}
