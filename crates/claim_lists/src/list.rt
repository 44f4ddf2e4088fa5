ghost use Rattle.std.specs.Prelude.{◌≡◌, ◌+◌, ◌≤◌, [], ◌∷◌, ◌++◌, length, slice_get, OnOk};
ghost use Rattle.std.specs.Option.{option_map};
ghost use Rattle.message_defs.specs.Spelling.{IsStatement};
ghost use Rattle.stmt_codec.specs.Views.{stmt, claim, claim as claim_of};
ghost use Rattle.claim_index.specs.Kept.{claim_bytes};

use claim_index::{Kept, Key, lent, slot_key_of, store};
use rp_base::NoMemory;
use std::alloc::Global;
use std::marker::Model;
use std::mem;
use stmt_codec::Claim;

/// Claims in order, of any signers and slots. Contracts see them as that list, with those that were there at a mark, and with the room
/// that is left.
pub struct ClaimList {
    bytes: Vec<u8>,
    kept: Vec<(Key, Kept)>,

    // what there was at the mark
    marked: Filled,
}

// How many claims are kept, and how many bytes.
#[derive(Clone, Copy)]
struct Filled {
    claims: usize,
    bytes: usize,
}

// Where nothing is kept.
const NOTHING: Filled = Filled {
    claims: 0,
    bytes: 0,
};

// Written out, so that whoever drops a value makes one call (docs/CONTRIBUTING.md).
impl Drop for ClaimList {
    fn drop(self) {
        let ClaimList {
            bytes,
            kept,
            marked: _,
        } = self;
        mem::drop(bytes);
        mem::drop(kept);
    }
}

impl Model for ClaimList {
    ghost use Rattle.std.specs.Prelude.{◌-◌, length, take};
    ghost use Rattle.std.specs.Vec.{vec_capacity};
    ghost use Rattle.claim_index.specs.Kept.{heard_in};
    ghost use Rattle.claim_lists.specs.Lists.{Listing, AreMarkedKept};

    ghost Value = { Listing };

    ghost view = { λ p. record {
      claims = heard_in p.bytes.items p.kept.items;
      marked = heard_in (take p.marked.bytes p.bytes.items) (take p.marked.claims p.kept.items);
      claims_left = vec_capacity p.kept - length p.kept.items;
      bytes_left = vec_capacity p.bytes - length p.bytes.items;
    } };

    ghost invariant = { λ p. AreMarkedKept p.bytes.items p.kept.items p.marked };
}

impl ClaimList {
    /// No claim.
    pub fn new(alloc: Global) -> ClaimList
        ensures claims { result.claims ≡ [] }
        ensures marked { result.marked ≡ [] }
    {
        ClaimList {
            bytes: Vec::new(alloc),
            kept: Vec::new(alloc),
            marked: NOTHING,
        }
    }

    /// Marks what is there, so that it can be gone back to.
    pub fn mark(&mut self)
        ensures same { self.new.claims ≡ self.old.claims }
        ensures marked { self.new.marked ≡ self.old.claims }
    {
        self.marked = Filled {
            claims: self.kept.len(),
            bytes: self.bytes.len(),
        };
    }

    /// Forgets what was put there after the mark. It takes no memory.
    pub fn rewind(&mut self)
        ensures claims { self.new.claims ≡ self.old.marked }
        ensures marked { self.new.marked ≡ self.old.marked }
    {
        self.kept.truncate(self.marked.claims);
        self.bytes.truncate(self.marked.bytes);
    }

    /// Forgets all claims, with the mark at nothing. The room stays, and grows by what they took.
    pub fn clear(&mut self)
        ensures claims { self.new.claims ≡ [] }
        ensures marked { self.new.marked ≡ [] }
        ensures claims_left { self.old.claims_left ≤ self.new.claims_left }
        ensures bytes_left { self.old.bytes_left ≤ self.new.bytes_left }
    {
        self.bytes.clear();
        self.kept.clear();
        self.marked = NOTHING;
    }

    /// Makes room for `claims` claims more, with `bytes` bytes of statements and signatures in all. Without memory, the
    /// claims are as before.
    pub fn reserve(&mut self, claims: usize, bytes: usize) -> Result<(), NoMemory>
        ensures same { self.new.claims ≡ self.old.claims }
        ensures marked { self.new.marked ≡ self.old.marked }
        ensures room { OnOk result ((claims ≤ self.new.claims_left) × (bytes ≤ self.new.bytes_left)) }
        ensures kept { (self.old.claims_left ≤ self.new.claims_left) × (self.old.bytes_left ≤ self.new.bytes_left) }
    {
        self.kept.reserve(claims)?;
        self.bytes.reserve(bytes)?;
        Ok(())
    }

    /// How many claims there are.
    pub fn len(&self) -> usize
        ensures { result ≡ length self.now.claims }
    {
        self.kept.len()
    }

    /// The claim at this place; None exactly where the place is not below their number.
    pub fn get(&self, place: usize) -> Option<Claim<'_>>
        ensures { option_map claim result ≡ slice_get self.now.claims place }
    {
        match self.kept.get(place) {
            Some((key, kept)) => Some(lent(&self.bytes, key.signer(), *kept)),
            None => None,
        }
    }

    /// Puts the claim after the others. It takes no memory: one claim, with its bytes, must be reserved.
    pub fn push(&mut self, claim: &Claim<'_>)
        requires range { IsStatement (stmt claim.now.statement) }
        requires short { length claim.now.signature.now ≤ 16384 }
        requires claims { 1 ≤ self.old.claims_left }
        requires bytes { claim_bytes (claim_of claim.now) ≤ self.old.bytes_left }
        ensures claims { self.new.claims ≡ self.old.claims ++ claim_of claim.now ∷ [] }
        ensures marked { self.new.marked ≡ self.old.marked }
        ensures claims_left { self.old.claims_left ≤ self.new.claims_left + 1 }
        ensures bytes_left { self.old.bytes_left ≤ self.new.bytes_left + claim_bytes (claim_of claim.now) }
    {
        let key = Key::new(claim.signer, slot_key_of(&claim.statement));
        let kept = store(&mut self.bytes, claim);
        let Ok(()) = self.kept.push((key, kept)) else {
            unreachable!()
        };
    }
}
