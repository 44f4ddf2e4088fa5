ghost use Rattle.std.specs.Prelude.{◌≡◌, ◌||◌, ℕ, List, OnOk};
ghost use Rattle.std.specs.Str.{bytes_eq};
ghost use Rattle.said_index.specs.Among.{is_among};

use crate::spelled::{Sought, Spelled};
use indexmap::IndexSet;
use rp_base::NoMemory;
use std::alloc::Global;
use std::mem;
use stmt_codec::OwnClaim;

/// The statements that were said, each by its bytes. `is_said` of the specs says whether one is among them.
pub struct SaidIndex {
    spelled: IndexSet<Spelled>,
}

// Written out, so that whoever drops a value makes one call (docs/CONTRIBUTING.md).
impl Drop for SaidIndex {
    fn drop(self) {
        let SaidIndex { spelled } = self;
        mem::drop(spelled);
    }
}

// Puts a statement among the others, where it is not one of them.
fn put(alloc: Global, all: &mut IndexSet<Spelled>, spelled: &[u8]) -> Result<(), NoMemory>
    ensures { (x : List ℕ) → OnOk result (is_among x all.new ≡ (is_among x all.old || bytes_eq x spelled.now)) }
{
    all.insert(Spelled::copied(alloc, spelled)?)?;
    Ok(())
}

impl SaidIndex {
    ghost use Rattle.std.specs.Prelude.{◌≡◌, ◌||◌, ℕ, List, false, OnOk};
    ghost use Rattle.said_index.specs.Said.{is_said, is_among_claims};

    /// Nothing is said yet.
    pub fn new(alloc: Global) -> SaidIndex
        ensures { (x : List ℕ) → is_said x result ≡ false }
    {
        SaidIndex {
            spelled: IndexSet::new(alloc),
        }
    }

    /// Whether the statement with these bytes was said.
    pub fn says(&self, spelled: &[u8]) -> bool
        ensures { result ≡ is_said spelled.now self.now }
    {
        self.spelled.contains(Sought { bytes: spelled })
    }

    /// The statements of these claims are said, too. Where memory runs out, some of them may be.
    pub fn add_all(&mut self, alloc: Global, claims: &[OwnClaim]) -> Result<(), NoMemory>
        ensures { (x : List ℕ) → OnOk result (is_said x self.new ≡ (is_said x self.old || is_among_claims x claims.now)) }
    {
        for claim in claims {
            put(alloc, &mut self.spelled, claim.statement.bytes())?;
        }
        Ok(())
    }
}
