// What the trees of a key are made from, and which of them a signature uses.
ghost use Rattle.std.specs.Prelude.{◌≡◌, ◌+◌, ◌*◌, ◌-◌, ◌^◌, ◌<◌, ◌≤◌, ◌↔◌, Some, true, IsSome, IfSome, IsOk, IsErrOf, IfOk, length};
ghost use Rattle.std.specs.Option.{MatchOption};
ghost use Rattle.signature_defs.specs.Lms.{lms_height_of, lms_signature_length};
ghost use Rattle.signature_defs.specs.Hss.{height_in_range, hss_signature_length, hss_total};
ghost use Rattle.lms_hss.specs.Refusals.{refusal};

use crate::faults::KeyFault;
use lms_ots::{OtsType, ots_signature_length};
use lms_tree::LmsTree;
use sha2::{Digest, Sha256};
use std::alloc::{AllocError, Global};

#[derive(Clone, Copy)]
pub(crate) struct Plan {
    levels: u32,
    typecode: u32,
    height: usize,
    ots: OtsType,
    id: [u8; 16],
    seed: [u8; 32],
    ghost some: { 1 ≤ levels },
    ghost few: { levels ≤ 3 },
    ghost low: { height ≤ 15 },
    ghost numbered: { height * levels ≤ 30 },
    ghost known: { lms_height_of typecode ≡ Some height },
    ghost least: { 5 ≤ typecode },
    ghost most: { typecode ≤ 7 },
    ghost short: { hss_signature_length levels ots height ≤ 16384 },
    ghost sized: { length id ≡ 16 },
}

// The height of a typecode, where trees of it are built in `levels` levels.
fn height_in(levels: u32, typecode: u32) -> Option<usize>
    requires { levels ≤ 3 }
    ensures built { IsSome result ↔ (height_in_range levels typecode ≡ true) }
    ensures value { IfSome result (λ h. lms_height_of typecode ≡ Some h) }
    ensures low { IfSome result (λ h. h ≤ 15) }
    ensures numbered { IfSome result (λ h. h * levels ≤ 30) }
{
    match typecode {
        5 => Some(5),
        6 => Some(10),
        7 if levels < 3 => Some(15),
        _ => None,
    }
}

impl Plan {
    ghost use Rattle.signature_defs.specs.Hss.{derived, leaf_number, tree_id, tree_number, tree_seed};
    ghost use Rattle.lms_hss.specs.Plans.{IsPlanOf, secret};
    ghost use Rattle.lms_hss.specs.Trees.{IsTreeOf};

    // The plan of these, or the first reason that there is none.
    pub(crate) fn new(
        levels: u32,
        typecode: u32,
        ots: OtsType,
        id: [u8; 16],
        seed: [u8; 32],
    ) -> Result<Plan, KeyFault>
        ensures made { IfOk result (IsPlanOf levels typecode ots id seed) }
        ensures refused { MatchOption (refusal levels typecode ots) (IsOk result) (IsErrOf result) }
    {
        if levels < 1 || levels > 3 {
            return Err(KeyFault::Levels);
        }
        let Some(height) = height_in(levels, typecode) else {
            return Err(KeyFault::TooTall);
        };
        if ots == OtsType::W1 && levels > 1 {
            return Err(KeyFault::TooLong);
        }
        Ok(Plan {
            levels,
            typecode,
            height,
            ots,
            id,
            seed,
        })
    }

    // How many signatures the key makes.
    pub(crate) fn total(&self) -> u32
        ensures { result ≡ hss_total (secret self.now) }
    {
        1 << (self.height * self.levels as usize)
    }

    pub(crate) fn levels(&self) -> u32
        ensures value { result ≡ self.now.levels }
        ensures some { 1 ≤ result }
        ensures few { result ≤ 3 }
    {
        self.levels
    }

    // The bytes of one level's signature.
    pub(crate) fn level_len(&self) -> usize
        ensures value { result ≡ lms_signature_length self.now.ots self.now.height }
        ensures bound { result ≤ 9012 }
    {
        8 + ots_signature_length(self.ots) + 32 * self.height
    }

    // The bytes before the lowest level's signature.
    pub(crate) fn front_len(&self) -> usize
        ensures { result ≡ 4 + (self.now.levels - 1) * (lms_signature_length self.now.ots self.now.height + 56) }
    {
        4 + (self.levels - 1) as usize * (self.level_len() + 56)
    }

    // The bytes of a signature.
    pub(crate) fn sig_len(&self) -> usize
        ensures value { result ≡ hss_signature_length self.now.levels self.now.ots self.now.height }
        ensures bound { result ≤ 16384 }
    {
        self.front_len() + self.level_len()
    }

    // The tree of this level that signature number `number` uses.
    pub(crate) fn tree_number(&self, level: u32, number: u32) -> u32
        requires { level < self.now.levels }
        ensures { result ≡ tree_number (secret self.now) level number }
    {
        number >> (self.height * (self.levels - level) as usize)
    }

    // And its leaf.
    pub(crate) fn leaf_number(&self, level: u32, number: u32) -> u32
        requires { level < self.now.levels }
        ensures value { result ≡ leaf_number (secret self.now) level number }
        ensures within { result < 2 ^ self.now.height }
    {
        (number >> (self.height * (self.levels - 1 - level) as usize)) % (1 << self.height)
    }

    fn derived(&self, label: u8, level: u32, tree: u32) -> [u8; 32]
        requires { level ≤ 3 }
        ensures { result ≡ derived (secret self.now) label level tree }
    {
        let mut hasher = Sha256::new();
        hasher.update(b"RPH1");
        hasher.update(&[label, level as u8]);
        hasher.update(&tree.to_be_bytes());
        hasher.update(&self.id);
        hasher.update(&self.seed);
        hasher.finalize()
    }

    // I of a tree of this level.
    fn id_of(&self, level: u32, tree: u32) -> [u8; 16]
        requires { level ≤ 3 }
        ensures { result ≡ tree_id (secret self.now) level tree }
    {
        if level == 0 {
            return self.id;
        }
        let mut id = [0u8; 16];
        id.copy_from_slice(&self.derived(0, level, tree)[..16]);
        id
    }

    // SEED of a tree of this level.
    fn seed_of(&self, level: u32, tree: u32) -> [u8; 32]
        requires { level ≤ 3 }
        ensures { result ≡ tree_seed (secret self.now) level tree }
    {
        if level == 0 {
            return self.seed;
        }
        self.derived(1, level, tree)
    }

    // A tree of this level, in memory of its own.
    pub(crate) fn make_tree(
        &self,
        alloc: Global,
        level: u32,
        tree: u32,
    ) -> Result<LmsTree, AllocError>
        requires { level ≤ 3 }
        ensures { IfOk result (IsTreeOf (secret self.now) level tree) }
    {
        let id = self.id_of(level, tree);
        let seed = self.seed_of(level, tree);
        match LmsTree::make(alloc, self.typecode, self.ots, id, seed) {
            Ok(made) => Ok(made),
            Err(lms_tree::KeyFault::NoMemory) => Err(AllocError),
            Err(lms_tree::KeyFault::TooTall) => unreachable!(),
        }
    }

    // Replaces the tree of this level for signature number `from` by the one for number `to`, if they differ.
    pub(crate) fn renew_tree(&self, level: u32, from: u32, to: u32, tree: &mut LmsTree)
        requires level { level < self.now.levels }
        requires stands { IsTreeOf (secret self.now) level (tree_number (secret self.now) level from) tree.old }
        ensures { IsTreeOf (secret self.now) level (tree_number (secret self.now) level to) tree.new }
    {
        let next = self.tree_number(level, to);
        if next != self.tree_number(level, from) {
            tree.renew(self.id_of(level, next), self.seed_of(level, next));
        }
    }
}
