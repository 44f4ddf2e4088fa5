use crate::pid::Pid;
use std::marker::Model;

/// A set of processes, in 64 bits: bit p (the lowest is bit 0) is that of process p. Contracts see it as the rising
/// list of its members.
#[derive(Clone, Copy, Debug)]
pub struct PidSet(u64);

impl Model for PidSet {
    ghost use Rattle.std.specs.Prelude.{ℕ, List, ◌<◌, ◌^◌};
    ghost use Rattle.rp_base.specs.Pids.{members, mask_of};
    ghost use Rattle.rp_base.specs.Masks.{mask_of-members};

    ghost Value = { List ℕ };

    ghost view = { λ s. members s.0 };

    ghost invariant = { λ s. s.0 < 2 ^ 64 };

    ghost inverse = { λ ps. record { 0 = mask_of ps } };

    ghost inverse_ok = { λ a h. λ i. record { 0 = mask_of-members a.0 h i } };
}

/// The empty set.
impl Default for PidSet {
    ghost use Rattle.std.specs.Prelude.{◌≡◌, []};

    ghost is_default = { λ s. s ≡ [] };

    fn default() -> PidSet {
        PidSet::new()
    }
}

/// Two sets are equal where they have the same members.
impl PartialEq for PidSet {
    ghost use lib.Pointwise.{pointwise};
    ghost use Rattle.std.specs.Prelude.{nat_eq};
    ghost use Rattle.std.specs.Cmp.{partial_equiv_from_equiv};
    ghost use Rattle.std.proofs.lemmas.Cmp.{nat_list_eq_equiv};

    ghost eq = { pointwise nat_eq };

    ghost laws = { partial_equiv_from_equiv nat_list_eq_equiv };

    fn eq(&self, other: &PidSet) -> bool {
        self.0 == other.0
    }
}

impl Eq for PidSet {
    ghost use Rattle.std.proofs.lemmas.Cmp.{nat_list_eq_equiv};

    ghost laws = { nat_list_eq_equiv };
}

impl PidSet {
    ghost use Rattle.std.specs.Prelude.{◌≡◌, ◌==◌, [], ◌∷◌, MatchOption};
    ghost use Rattle.std.specs.List.{list_any};
    ghost use Rattle.rp_base.specs.Pids.{members, put_once};
    ghost use Rattle.rp_base.specs.PidsLeft.{pids_left};

    /// The empty set.
    pub fn new() -> PidSet
        ensures { result ≡ [] }
    {
        PidSet(0)
    }

    /// The set of the processes whose bit is 1.
    pub fn from_mask(mask: u64) -> PidSet
        ensures { result ≡ members mask }
    {
        PidSet(mask)
    }

    /// The mask in which the members' bits are 1.
    pub fn mask(self) -> u64
        ensures { members result ≡ self }
    {
        self.0
    }

    /// Whether the process is in the set.
    pub fn contains(self, p: Pid) -> bool
        ensures { result ≡ list_any (λ q. q == p) self }
    {
        self.0 >> p.get() & 1 == 1
    }

    /// The members, by rising number.
    pub fn iter(self) -> Pids
        ensures { pids_left result ≡ self }
    {
        Pids { left: self }
    }

    /// Puts the process into the set, where it is not in it.
    pub fn insert(&mut self, p: Pid)
        ensures { self.new ≡ put_once p self.old }
    {
        self.0 |= 1 << p.get();
    }

    /// Takes the least process out of the set; None exactly where the set is empty.
    pub fn pop_first(&mut self) -> Option<Pid>
        ensures { MatchOption result ((self.old ≡ []) × (self.new ≡ [])) (λ p. self.old ≡ p ∷ self.new) }
    {
        if self.0 == 0 {
            return None;
        }
        let first = self.0.trailing_zeros();
        self.0 &= !(1 << first);
        Pid::new(first as u8)
    }
}

/// The members of a set that are left, by rising number.
#[derive(Clone, Drop)]
pub struct Pids {
    left: PidSet,
}

impl Iterator for Pids {
    ghost use Rattle.std.specs.Iterator.{YieldsFirst, item_count};
    ghost use Rattle.rp_base.specs.PidsLeft.{pids_left};

    type Item = Pid;

    ghost next_gives = { YieldsFirst pids_left };

    ghost remaining = { item_count pids_left };

    fn next(&mut self) -> Option<Pid> {
        self.left.pop_first()
    }
}
