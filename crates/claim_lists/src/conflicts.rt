ghost use Rattle.std.specs.Prelude.{◌≡◌, ◌+◌, ◌≤◌, [], length, slice_get, Some, OnOk};
ghost use Rattle.std.specs.Option.{option_map};
ghost use Rattle.message_defs.specs.Spelling.{IsClaim};
ghost use Rattle.message_defs.specs.Statements as plain;
ghost use Rattle.group_defs.specs.Process as defs;
ghost use Rattle.group_defs.specs.Certified.{claim_on};
ghost use Rattle.group_defs.specs.Hearing.{kept_conflicts};
ghost use Rattle.stmt_codec.specs.Views.{stmt, claim as claim_of};
ghost use Rattle.claim_index.specs.Kept.{claim_bytes};
ghost use Rattle.claim_lists.specs.Pairs as pairs;

use crate::list::ClaimList;
use rp_base::{NoMemory, Pid, PidSet};
use std::alloc::Global;
use std::marker::Model;
use std::mem;
use stmt_codec::Claim;

/// The first pair of conflicting claims of each signer, over all views, in the order in which they were found. Contracts see
/// them as that list of pairs, in each the heard claim first, with those that were there at a mark, and with the room that is left.
pub struct Conflicts {
    heard: ClaimList,
    others: ClaimList,
    signers: PidSet,

    // the signers at the mark
    marked: PidSet,
}

// Written out, so that whoever drops a value makes one call (docs/CONTRIBUTING.md).
impl Drop for Conflicts {
    fn drop(self) {
        let Conflicts {
            heard,
            others,
            signers: _,
            marked: _,
        } = self;
        mem::drop(heard);
        mem::drop(others);
    }
}

impl Model for Conflicts {
    ghost use Rattle.std.specs.Prelude.{min};
    ghost use Rattle.std.specs.List.{zip};
    ghost use Rattle.claim_lists.specs.Pairs.{Pairing, AreMarkedPairs};

    ghost Value = { Pairing };

    ghost view = { λ p. record {
      pairs = zip p.heard.claims p.others.claims;
      marked = zip p.heard.marked p.others.marked;
      pairs_left = min p.heard.claims_left p.others.claims_left;
      bytes_left = min p.heard.bytes_left p.others.bytes_left;
    } };

    ghost invariant = { λ p. AreMarkedPairs p.heard p.others p.signers p.marked };
}

impl Conflicts {
    /// No conflict is known.
    pub fn new(alloc: Global) -> Conflicts
        ensures pairs { result.pairs ≡ [] }
        ensures marked { result.marked ≡ [] }
    {
        Conflicts {
            heard: ClaimList::new(alloc),
            others: ClaimList::new(alloc),
            signers: PidSet::new(),
            marked: PidSet::new(),
        }
    }

    /// Marks which pairs there are, so that they can be gone back to.
    pub fn mark(&mut self)
        ensures same { self.new.pairs ≡ self.old.pairs }
        ensures marked { self.new.marked ≡ self.old.pairs }
    {
        self.heard.mark();
        self.others.mark();
        self.marked = self.signers;
    }

    /// Forgets the pairs that were kept after the mark. It takes no memory.
    pub fn rewind(&mut self)
        ensures pairs { self.new.pairs ≡ self.old.marked }
        ensures marked { self.new.marked ≡ self.old.marked }
    {
        self.heard.rewind();
        self.others.rewind();
        self.signers = self.marked;
    }

    /// Makes room for `pairs` pairs more, where the claims of each side have `bytes` bytes of statements and signatures in
    /// all. Without memory, the pairs are as before.
    pub fn reserve(&mut self, pairs: usize, bytes: usize) -> Result<(), NoMemory>
        ensures same { self.new.pairs ≡ self.old.pairs }
        ensures marked { self.new.marked ≡ self.old.marked }
        ensures room { OnOk result ((pairs ≤ self.new.pairs_left) × (bytes ≤ self.new.bytes_left)) }
        ensures kept { (self.old.pairs_left ≤ self.new.pairs_left) × (self.old.bytes_left ≤ self.new.bytes_left) }
    {
        self.heard.reserve(pairs, bytes)?;
        self.others.reserve(pairs, bytes)?;
        Ok(())
    }

    /// How many pairs there are, one of a signer at most.
    pub fn len(&self) -> usize
        ensures { result ≡ length self.now.pairs }
    {
        self.heard.len()
    }

    /// Whether a pair of this signer is kept.
    pub fn has_pair(&self, signer: Pid) -> bool
        ensures { result ≡ pairs.has_pair self.now.pairs signer }
    {
        self.signers.contains(signer)
    }

    /// The heard claim of the pair at this place; None exactly where the place is not below the number of pairs.
    pub fn heard_at(&self, place: usize) -> Option<Claim<'_>>
        ensures { option_map claim_of result ≡ option_map (λ pair. pair.0) (slice_get self.now.pairs place) }
    {
        self.heard.get(place)
    }

    /// The other claim of the pair at this place; None exactly where the place is not below the number of pairs.
    pub fn other_at(&self, place: usize) -> Option<Claim<'_>>
        ensures { option_map claim_of result ≡ option_map (λ pair. pair.1) (slice_get self.now.pairs place) }
    {
        self.others.get(place)
    }

    /// Keeps the pair where none of the other claim's signer is kept, as a Conflict does. It takes no memory: one pair, with
    /// its bytes, must be reserved.
    pub fn keep(&mut self, heard: &Claim<'_>, other: &Claim<'_>)
        requires heard { IsClaim (claim_of heard.now) }
        requires other { IsClaim (claim_of other.now) }
        requires pairs { 1 ≤ self.old.pairs_left }
        requires heard_bytes { claim_bytes (claim_of heard.now) ≤ self.old.bytes_left }
        requires other_bytes { claim_bytes (claim_of other.now) ≤ self.old.bytes_left }
        ensures pairs { self.new.pairs ≡ pairs.with_pair self.old.pairs (claim_of heard.now) (claim_of other.now) }

        // What hearing the other claim as a Conflict does, for a process with these conflicts whose pool has the heard claim
        // on the other's slot.
        ensures conflicts { (p : defs.Process) → p.conflicts ≡ self.old.pairs
            → claim_on p.pool.heard other.now.signer (plain.slot_of (stmt other.now.statement)) ≡ Some (claim_of heard.now)
            → self.new.pairs ≡ kept_conflicts p (claim_of other.now) }
        ensures marked { self.new.marked ≡ self.old.marked }
        ensures pairs_left { self.old.pairs_left ≤ self.new.pairs_left + 1 }
        ensures bytes_left { self.old.bytes_left
            ≤ self.new.bytes_left + (claim_bytes (claim_of heard.now) + claim_bytes (claim_of other.now)) }
    {
        if self.signers.contains(other.signer) {
            return;
        }
        self.heard.push(heard);
        self.others.push(other);
        self.signers.insert(other.signer);
    }
}
