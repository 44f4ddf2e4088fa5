//! A statement's bytes as a key of a table. They are hashed in one piece, sixteen at a time, where a list of bytes is hashed byte by byte.
ghost use Rattle.std.specs.Prelude.{◌≡◌, nat_eq, IfOk};
ghost use Rattle.std.proofs.Common.{ap, rules};
ghost use Rattle.std.specs.Ordering.{on};
ghost use Rattle.std.specs.Cmp.{partial_equiv_from_equiv};
ghost use Rattle.std.specs.Cmp.Lexicographic.{pointwise, bytes_decides, nat_list_eq_equiv};
ghost use Rattle.std.specs.Cmp.Rules.{comparing};
ghost use Rattle.said_index.specs.Among.{in_one_piece};

use indexmap::Equivalent;
use rp_base::NoMemory;
use smallvec::SmallVec;
use std::alloc::Global;
use std::hash::{Hash, Hasher};
use std::marker::Model;

/// The bytes of a statement that was said. Contracts see their list.
#[derive(Drop)]
pub struct Spelled {
    // most statements have no more than these
    bytes: SmallVec<u8, 64>,
}

impl Model for Spelled {
    ghost use Rattle.std.specs.Prelude.{ℕ, List};

    ghost Value = { List ℕ };

    ghost view = { λ s. s.bytes.items };
}

impl Spelled {
    /// These bytes, copied.
    pub fn copied(alloc: Global, bytes: &[u8]) -> Result<Spelled, NoMemory>
        ensures { IfOk result (λ s. s ≡ bytes.now) }
    {
        let bytes = SmallVec::from_slice(alloc, bytes)?;
        Ok(Spelled { bytes })
    }
}

impl PartialEq for Spelled {
    ghost eq = { pointwise nat_eq };

    ghost laws = { partial_equiv_from_equiv nat_list_eq_equiv };

    fn eq(&self, other: &Spelled) -> bool {
        self.bytes.as_slice() == other.bytes.as_slice()
    }
}

impl Eq for Spelled {
    ghost laws = { nat_list_eq_equiv };
}

impl Hash for Spelled {
    ghost hash_input = { in_one_piece };

    ghost respects_eq = { λ x y h. ap in_one_piece ((bytes_decides x y).0 h) };

    fn hash<H: Hasher>(&self, state: &mut H) {
        state.write(self.bytes.as_slice());
    }
}

/// The bytes of a statement that is looked up.
#[derive(Clone, Copy)]
pub struct Sought<'a> {
    pub bytes: &'a [u8],
}

impl PartialEq for Sought<'_> {
    ghost eq = { on (λ s. s.bytes.now) (pointwise nat_eq) };

    ghost laws = { Prim.search (comparing, rules) };

    fn eq(&self, other: &Sought<'_>) -> bool {
        self.bytes == other.bytes
    }
}

impl Eq for Sought<'_> {
    ghost laws = { Prim.search (comparing, rules) };
}

impl Hash for Sought<'_> {
    ghost hash_input = { λ s. in_one_piece s.bytes.now };

    ghost respects_eq = { λ x y h. ap in_one_piece ((bytes_decides x.bytes.now y.bytes.now).0 h) };

    fn hash<H: Hasher>(&self, state: &mut H) {
        state.write(self.bytes);
    }
}

impl Equivalent<Spelled> for Sought<'_> {
    ghost equivalent = { λ q k. pointwise nat_eq q.bytes.now k };

    ghost respects_hash = { λ q k h. ap in_one_piece ((bytes_decides q.bytes.now k).0 h) };

    ghost respects_eq = { λ q x y. nat_list_eq_equiv.congr q.bytes.now x y };

    fn equivalent(&self, key: &Spelled) -> bool {
        self.bytes == key.bytes.as_slice()
    }
}
