ghost use Rattle.std.specs.Prelude.{◌≡◌, ◌-◌, ◌≤◌, ◌++◌, IsErrOf, IsOkUnless, IfOk, length};
ghost use Rattle.std.specs.Option.{MatchOption};
ghost use Rattle.signature_defs.specs.Strings.{u32str};
ghost use Rattle.signature_defs.specs.Lms.{lms_signature_length};
ghost use Rattle.signature_defs.specs.Hss.{hss_public_key, hss_total, level_signature, signed_keys};
ghost use Rattle.lms_hss.specs.Refusals.{refusal};
ghost use Rattle.lms_hss.specs.Plans.{secret};
ghost use Rattle.lms_hss.specs.Trees.{AreTreesOf};

use crate::faults::KeyFault;
use crate::plan::Plan;
use crate::trees::{first_trees, renew_trees, write_signed_keys};
use lms_ots::OtsType;
use lms_tree::LmsTree;
use rp_base::{Retract, Signer, Spent, Tally};
use std::alloc::Global;
use std::{fmt, mem};

/// A private key of trees in levels, whose leaves sign in order, each leaf one text (RFC 8554, section 6). It holds one
/// tree of each level; where a tree ends, signing makes the next one in its room.
pub struct HssKey {
    plan: Plan,
    trees: Vec<LmsTree>,

    // What each signature with these trees begins with.
    front: Vec<u8>,
    public: [u8; 60],

    // The number of the signature that trees and front were made for.
    ready: u32,
    used: u32,
    ghost stand: { AreTreesOf (secret plan) ready trees.items },
    ghost signed: { front.items ≡ signed_keys (secret plan) ready },
    ghost key: { public ≡ hss_public_key (secret plan) },
    ghost within: { used ≤ hss_total (secret plan) },
}

// Written out, so that whoever drops a value makes one call (docs/CONTRIBUTING.md).
impl Drop for HssKey {
    fn drop(self) {
        let HssKey {
            plan: _,
            trees,
            front,
            public: _,
            ready: _,
            used: _,
        } = self;
        mem::drop(trees);
        mem::drop(front);
    }
}

fn public_of(levels: u32, top: &[u8; 56]) -> [u8; 60]
    ensures { result ≡ u32str levels ++ top.now }
{
    let mut public = [0u8; 60];
    public[..4].copy_from_slice(&levels.to_be_bytes());
    public[4..].copy_from_slice(top);
    public
}

impl HssKey {
    ghost use Rattle.lms_hss.specs.Key.{IsMadeFrom, KeepsKey, length_of, signature_of};

    /// The key in `levels` levels, 1, 2 or 3, of trees of a height's typecode, 5, 6 or 7, and a one-time parameter set,
    /// made from I and SEED of the top tree. It takes the memory of one tree of each level, and the time of making them;
    /// signing takes no more memory.
    ///
    /// # Errors
    /// The first that holds: [`KeyFault::Levels`] exactly where levels are not 1 to 3; [`KeyFault::TooTall`] exactly where
    /// the typecode is not 5, 6 or 7, or is 7 with three levels; [`KeyFault::TooLong`] exactly for W1 with two levels or
    /// three; [`KeyFault::NoMemory`].
    pub fn make(
        alloc: Global,
        levels: u32,
        height: u32,
        ots: OtsType,
        id: [u8; 16],
        seed: [u8; 32],
    ) -> Result<HssKey, KeyFault>
        ensures made { IfOk result (IsMadeFrom levels height ots id seed) }
        ensures refused { MatchOption (refusal levels height ots) (IsOkUnless result KeyFault.NoMemory) (IsErrOf result) }
    {
        let plan = Plan::new(levels, height, ots, id, seed)?;
        let trees = first_trees(alloc, &plan)?;
        let mut front = vec![in alloc; 0u8; plan.front_len()]?;
        write_signed_keys(&plan, 0, &trees, &mut front);
        let public = public_of(levels, trees[0].public());
        Ok(HssKey {
            plan,
            trees,
            front,
            public,
            ready: 0,
            used: 0,
        })
    }

    // Makes the trees and the front of signature number `number`, in place of others.
    fn make_ready(&mut self, number: u32)
        ensures key { KeepsKey self.old self.new }
        ensures used { self.new.used ≡ self.old.used }
        ensures ready { self.new.ready ≡ number }
    {
        let lowest = self.plan.levels() - 1;
        if self.plan.tree_number(lowest, number) == self.plan.tree_number(lowest, self.ready) {
            self.ready = number;
            return;
        }
        renew_trees(&self.plan, self.ready, number, &mut self.trees);
        write_signed_keys(&self.plan, number, &self.trees, &mut self.front);
        self.ready = number;
    }

    // The lowest level's signature on the body.
    fn sign_lowest(&self, body: &[u8], out: &mut [u8])
        requires { length out.old ≡ lms_signature_length self.now.plan.ots self.now.plan.height }
        ensures { out.new ≡ level_signature (secret self.now.plan) self.now.ready (self.now.plan.levels - 1) body.now }
    {
        let lowest = self.plan.levels() - 1;
        let leaf = self.plan.leaf_number(lowest, self.ready);
        self.trees[lowest as usize].sign_into(leaf, body, out);
    }

    // The signature that trees and front were made for.
    fn write_signature(&self, body: &[u8], out: &mut [u8])
        requires { length out.old ≡ length_of self.now }
        ensures { out.new ≡ signature_of self.now self.now.ready body.now }
    {
        let front = self.plan.front_len();
        out[..front].copy_from_slice(&self.front);
        self.sign_lowest(body, &mut out[front..]);
    }
}

impl Tally for HssKey {
    ghost use Rattle.rp_base.specs.Signer.{KeyKeeps};
    ghost use Rattle.lms_hss.specs.Key.{public_of, signature_of, length_of, total_of};
    ghost use Rattle.signature_defs.specs.Hss.{hss_valid};

    ghost used = { λ k. k.used };

    ghost total = { λ k. total_of k };

    ghost same_key = { λ s t. KeyKeeps (public_of s) (public_of t) (length_of s) (length_of t) (signature_of s)
        (signature_of t) hss_valid hss_valid };

    fn used(&self) -> u32 {
        self.used
    }

    fn total(&self) -> u32 {
        self.plan.total()
    }

    fn skip_to(&mut self, to: u32) {
        self.used = to;
    }
}

impl Signer for HssKey {
    ghost use Rattle.signature_defs.specs.Hss.{hss_valid};
    ghost use Rattle.lms_hss.specs.Key.{public_of, signature_of, length_of};

    ghost public = { λ k. public_of k };

    ghost sig_len = { λ k. length_of k };

    ghost signature = { λ k q body. signature_of k q body };

    ghost admits = { λ k key body sig. hss_valid key body sig };

    ghost keeps = { λ s t same. same };

    fn public(&self) -> &[u8] {
        &self.public
    }

    fn sig_len(&self) -> usize {
        self.plan.sig_len()
    }

    fn sign(&mut self, body: &[u8], out: &mut [u8]) -> Result<usize, Spent> {
        let number = self.used;
        if number == self.plan.total() {
            return Err(Spent);
        }
        self.make_ready(number);
        let length = self.plan.sig_len();
        self.write_signature(body, &mut out[..length]);
        self.used = number + 1;
        Ok(length)
    }
}

impl Retract for HssKey {
    fn retract(&mut self, to: u32) {
        self.used = to;
    }
}

impl fmt::Debug for HssKey {
    fn fmt<W: fmt::Write>(&self, f: &mut fmt::Formatter<W>) -> fmt::Result {
        f.write_str("HssKey { .. }")
    }
}
