//! Whether what was delivered of each process, over all views, is the first of what it accepted.
ghost use Rattle.std.specs.Prelude.{◌≡◌, ◌++◌, [], ◌∷◌, map, MatchOption};
ghost use Rattle.std.specs.List.{list_all};
ghost use Rattle.group_defs.specs.Accounts as plain;
ghost use Rattle.accounts.specs.Views.{account};
ghost use Rattle.group_questions.specs.Letters.{letters};
ghost use Rattle.sound_question.specs.Parts.{payloads_of};

use accounts::{Account, Delivered, Payload};
use group_questions::{longest_views, sequence_in};
use rp_base::Pid;

// What is left of the accepted payloads after this delivery: one of the own messages takes the first of them. None exactly where it has
// another payload.
fn behind_one<'a>(accepted: &'a [Payload], d: &Delivered, me: Pid) -> Option<&'a [Payload]>
    ensures { MatchOption result (plain.IsPrefixOf (payloads_of me (letters (d.now ∷ []))) accepted.now → ⊥)
        (λ rest. payloads_of me (letters (d.now ∷ [])) ++ rest.now ≡ accepted.now) }
{
    if d.sender != me {
        return Some(accepted);
    }
    match accepted.split_first() {
        Some((first, rest)) if first.bytes() == d.payload.bytes() => Some(rest),
        _ => None,
    }
}

// What is left of them after all of these deliveries. None exactly where the own ones among these have other payloads.
fn behind<'a>(accepted: &'a [Payload], sequence: &[Delivered], me: Pid) -> Option<&'a [Payload]>
    ensures { MatchOption result (plain.IsPrefixOf (payloads_of me (letters sequence.now)) accepted.now → ⊥)
        (λ rest. payloads_of me (letters sequence.now) ++ rest.now ≡ accepted.now) }
{
    let mut left = accepted;
    for d in sequence {
        match behind_one(left, d, me) {
            Some(rest) => left = rest,
            None => return None,
        }
    }
    Some(left)
}

// What is left of what the process accepted after the group's sequences. None exactly where its messages there have other payloads.
fn behind_history<'a>(accounts: &[Account], a: &'a Account) -> Option<&'a [Payload]>
    ensures { MatchOption result (plain.IsPrefixOf
        (payloads_of a.now.me (plain.history (plain.group_of (map account accounts.now)))) a.now.accepted.items → ⊥)
        (λ rest. payloads_of a.now.me (plain.history (plain.group_of (map account accounts.now))) ++ rest.now ≡ a.now.accepted.items) }
{
    let views = longest_views(accounts);
    let mut left = a.accepted.as_slice();
    for x in 0..views.len() {
        match behind(left, sequence_in(accounts, x), a.me) {
            Some(rest) => left = rest,
            None => return None,
        }
    }
    Some(left)
}

// Whether the payloads of the process's messages in the group's sequences are the first of what it accepted.
fn is_accepted(accounts: &[Account], a: &Account) -> bool
    ensures { result ≡ plain.is_accepted (plain.group_of (map account accounts.now)) (account a.now) }
{
    behind_history(accounts, a).is_some()
}

/// Whether the payloads of each process's messages in the group's sequences are the first of what it accepted.
pub(crate) fn are_accepted(accounts: &[Account]) -> bool
    ensures { result ≡ list_all (plain.is_accepted (plain.group_of (map account accounts.now))) (map account accounts.now) }
{
    accounts.iter().all(|a| is_accepted(accounts, a))
}
