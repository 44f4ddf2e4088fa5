//! Whether each view but the first has a cause: an update that a member perceived in the view before, which is possible there and gives it.
ghost use Rattle.std.specs.Prelude.{◌≡◌, ◌==◌, ◌&&◌, map, is_none, [], ◌∷◌};
ghost use Rattle.std.specs.List.{list_all, list_any};
ghost use Rattle.group_defs.specs.Views as defs;
ghost use Rattle.group_defs.specs.Accounts as plain;
ghost use Rattle.rp_base.specs.Views.{update};
ghost use Rattle.accounts.specs.Views.{account};
ghost use Rattle.sound_question.specs.Parts.{gives};

use accounts::Account;
use group_questions::{longest_views, same_view};
use rp_base::{PidSet, Update};
use view_table::{View, next};

// Whether a process that the update adds has a key.
fn has_key(keyed: PidSet, u: &Update) -> bool
    ensures { result ≡ defs.has_keys keyed (update u.now) }
{
    match u {
        Update::Add(p) => keyed.contains(*p),
        Update::Remove(_) | Update::Renew => true,
    }
}

// Whether the view follows by the update.
fn follows(v: &View, w: &View, u: Update) -> bool
    ensures { result ≡ (is_none (defs.next_fault v.now (update u))
        && plain.same_views (w.now ∷ []) (defs.next_view v.now (update u) ∷ [])) }
{
    match next(v, u) {
        Ok(after) => same_view(w, &after),
        Err(_) => false,
    }
}

// Whether the update is possible in the first view and gives the other one.
fn leads_to(keyed: PidSet, v: &View, w: &View, u: &Update) -> bool
    ensures { result ≡ gives keyed v.now w.now (update u.now) }
{
    has_key(keyed, u) && follows(v, w, *u)
}

// Whether one of these was perceived in the first view and gives the other one.
fn has_led(perceived: &[(u16, Update)], keyed: PidSet, v: &View, w: &View) -> bool
    ensures { result ≡ list_any (λ e. (e.0 == v.now.number) && gives keyed v.now w.now (update e.1)) perceived.now }
{
    perceived
        .iter()
        .any(|e| e.0 == v.number() && leads_to(keyed, v, w, &e.1))
}

// Whether the process was a member of the first view and perceived there what gives the other one.
fn perceived_cause(a: &Account, keyed: PidSet, v: &View, w: &View) -> bool
    ensures { result ≡ (defs.is_member v.now a.now.me
        && list_any (λ e. (e.0 == v.now.number) && gives keyed v.now w.now (update e.1)) a.now.perceived.items) }
{
    v.is_member(a.me) && has_led(&a.perceived, keyed, v, w)
}

// Whether the first view has the cause of the other one.
fn has_cause(accounts: &[Account], keyed: PidSet, v: &View, w: &View) -> bool
    ensures { result ≡ plain.has_cause (map account accounts.now) keyed (v.now, w.now) }
{
    accounts.iter().any(|a| perceived_cause(a, keyed, v, w))
}

// Whether each of these views but the first has its cause in the one before.
fn have_causes(accounts: &[Account], keyed: PidSet, views: &[View]) -> bool
    ensures { result ≡ list_all (plain.has_cause (map account accounts.now) keyed) (plain.neighbours views.now) }
{
    views
        .iter()
        .zip(views.iter().skip(1))
        .all(|(v, w)| has_cause(accounts, keyed, v, w))
}

/// Whether each view of the group but the first has its cause in the one before.
pub(crate) fn are_caused(accounts: &[Account], keyed: PidSet) -> bool
    ensures { result ≡ list_all (plain.has_cause (map account accounts.now) keyed)
        (plain.neighbours (plain.group_of (map account accounts.now)).views) }
{
    have_causes(accounts, keyed, longest_views(accounts))
}
