ghost use Rattle.std.specs.Prelude.{◌≡◌, ◌≤◌, ◌^◌, ◌↔◌, IfOk, IsErrOf};
ghost use Rattle.lms_tree.specs.Tree.{IsTooTall};

use crate::tree::{KeyFault, LmsTree};
use lms_ots::OtsType;
use rp_base::{Retract, Signer, Spent, Tally};
use std::alloc::Global;
use std::{fmt, mem};

/// A private key whose leaves sign in order, each once, with all nodes of its tree (RFC 8554, section 5.2).
pub struct LmsKey {
    tree: LmsTree,
    used: u32,
    ghost within: { used ≤ 2 ^ tree.height },
}

// Written out, so that whoever drops a value makes one call (docs/CONTRIBUTING.md).
impl Drop for LmsKey {
    fn drop(self) {
        let LmsKey { tree, used: _ } = self;
        mem::drop(tree);
    }
}

impl LmsKey {
    ghost use Rattle.lms_tree.specs.Key.{IsMadeFrom};

    /// The key of a height's typecode, 5, 6 or 7, and a one-time parameter set, whose chains begin at values made from
    /// the seed. It takes the memory of all nodes, and the time of all one-time public keys.
    pub fn make(
        alloc: Global,
        height: u32,
        ots: OtsType,
        id: [u8; 16],
        seed: [u8; 32],
    ) -> Result<LmsKey, KeyFault>
        ensures made { IfOk result (IsMadeFrom height ots id seed) }
        ensures tall { IsErrOf result KeyFault.TooTall ↔ IsTooTall height }
    {
        match LmsTree::make(alloc, height, ots, id, seed) {
            Ok(tree) => Ok(LmsKey { tree, used: 0 }),
            Err(fault) => Err(fault),
        }
    }
}

impl Tally for LmsKey {
    ghost use Rattle.rp_base.specs.Signer.{KeyKeeps};
    ghost use Rattle.signature_defs.specs.Lms.{lms_valid};
    ghost use Rattle.lms_tree.specs.Key.{public_of, signature_of, length_of};

    ghost used = { λ k. k.used };

    ghost total = { λ k. 2 ^ k.tree.height };

    ghost same_key = { λ s t. KeyKeeps (public_of s) (public_of t) (length_of s) (length_of t) (signature_of s)
        (signature_of t) lms_valid lms_valid };

    fn used(&self) -> u32 {
        self.used
    }

    fn total(&self) -> u32 {
        self.tree.leaves()
    }

    fn skip_to(&mut self, to: u32) {
        self.used = to;
    }
}

impl Signer for LmsKey {
    ghost use Rattle.signature_defs.specs.Lms.{lms_valid};
    ghost use Rattle.lms_tree.specs.Key.{public_of, signature_of, length_of};

    ghost public = { λ k. public_of k };

    ghost sig_len = { λ k. length_of k };

    ghost signature = { λ k q body. signature_of k q body };

    ghost admits = { λ k key body sig. lms_valid key body sig };

    ghost keeps = { λ s t same. same };

    fn public(&self) -> &[u8] {
        self.tree.public()
    }

    fn sig_len(&self) -> usize {
        self.tree.sig_len()
    }

    fn sign(&mut self, body: &[u8], out: &mut [u8]) -> Result<usize, Spent> {
        let q = self.used;
        if q == self.tree.leaves() {
            return Err(Spent);
        }
        let length = self.tree.sig_len();
        self.tree.sign_into(q, body, &mut out[..length]);
        self.used = q + 1;
        Ok(length)
    }
}

impl Retract for LmsKey {
    fn retract(&mut self, to: u32) {
        self.used = to;
    }
}

impl fmt::Debug for LmsKey {
    fn fmt<W: fmt::Write>(&self, f: &mut fmt::Formatter<W>) -> fmt::Result {
        f.write_str("LmsKey { .. }")
    }
}
