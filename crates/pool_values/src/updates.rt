ghost use Rattle.std.specs.Prelude.{◌≡◌, ◌≢◌, ◌==◌, ℕ, true, false, [], MatchOption, MatchBool};
ghost use Rattle.std.specs.List.{list_any};
ghost use Rattle.message_defs.specs.Updates as plain;
ghost use Rattle.rp_base.specs.Views.{update as update_of};
ghost use Rattle.pool_values.specs.Updates.{has_update};

use rp_base::{Pid, PidSet, Update};

/// A set of updates. `has_update` of the specs says which it has.
#[derive(Clone, Copy)]
pub struct UpdateSet {
    removed: PidSet,
    added: PidSet,
    renewed: bool,
}

// A process of the set.
fn first_of(set: PidSet) -> Option<Pid>
    ensures { MatchOption result (set ≡ []) (λ p. list_any (λ q. q == p) set ≡ true) }
{
    let mut left = set;
    left.pop_first()
}

impl UpdateSet {
    /// The empty set.
    pub fn new() -> UpdateSet
        ensures { (u : plain.Update) → has_update result u ≡ false }
    {
        UpdateSet {
            removed: PidSet::new(),
            added: PidSet::new(),
            renewed: false,
        }
    }

    /// Whether the update is in the set.
    pub fn contains(&self, update: Update) -> bool
        ensures { result ≡ has_update self.now (update_of update) }
    {
        match update {
            Update::Remove(p) => self.removed.contains(p),
            Update::Add(p) => self.added.contains(p),
            Update::Renew => self.renewed,
        }
    }

    /// The processes whose Remove is in the set.
    pub fn removed(&self) -> PidSet
        ensures { (p : ℕ) → list_any (λ q. q == p) result ≡ has_update self.now (plain.Remove p) }
    {
        self.removed
    }

    /// The processes whose Add is in the set.
    pub fn added(&self) -> PidSet
        ensures { (p : ℕ) → list_any (λ q. q == p) result ≡ has_update self.now (plain.Add p) }
    {
        self.added
    }

    /// An update of the set, the first in the order of updates; None exactly where the set is empty.
    pub fn first(&self) -> Option<Update>
        ensures { MatchOption result ((u : plain.Update) → has_update self.now u ≡ false) (λ u. has_update self.now (update_of u) ≡ true) }
    {
        if let Some(p) = first_of(self.removed) {
            return Some(Update::Remove(p));
        }
        if let Some(p) = first_of(self.added) {
            return Some(Update::Add(p));
        }
        if self.renewed {
            return Some(Update::Renew);
        }
        None
    }

    /// Puts the update into the set, where it is not in it.
    pub fn insert(&mut self, update: Update)
        ensures there { has_update self.new (update_of update) ≡ true }
        ensures others { (u : plain.Update) → u ≢ update_of update → has_update self.new u ≡ has_update self.old u }
    {
        match update {
            Update::Remove(p) => self.removed.insert(p),
            Update::Add(p) => self.added.insert(p),
            Update::Renew => self.renewed = true,
        }
    }
}
