// A tree that signs, and the bytes of its public key and signatures (RFC 8554, sections 5.3 and 5.4.1).
ghost use Rattle.std.specs.Prelude.{◌≡◌, ◌<◌, ◌≤◌, ◌^◌, ◌↔◌, Some, IfOk, IsErrOf, ◌++◌, length};
ghost use Rattle.signature_defs.specs.Strings.{u32str};
ghost use Rattle.signature_defs.specs.LmOts.{ots_typecode};
ghost use Rattle.signature_defs.specs.Lms.{lms_height_of, lms_public_key, lms_signature_length};
ghost use Rattle.lms_tree.specs.Tree.{IsTooTall, IsTree};

use crate::fill::{fill_nodes, make_nodes};
use crate::heights::built_height_of;
use crate::nodes::sibling;
use lms_ots::{OtsType, ots_sign_into, ots_signature_length, ots_typecode};
use std::alloc::{AllocError, Global};
use std::mem;

/// Why no tree was made.
#[derive(Clone, Copy, Debug, PartialEq, Eq)]
pub enum KeyFault {
    /// The caller asks for a typecode whose tree is not built: not 5, 6 or 7.
    TooTall,

    /// There was no memory for the nodes.
    NoMemory,
}

impl From<AllocError> for KeyFault {
    ghost use Rattle.lms_tree.specs.declared.tree.KeyFault.TheVariants.{NoMemory};

    ghost from_gives = { λ _ e. e ≡ NoMemory };

    fn from(_e: AllocError) -> KeyFault {
        KeyFault::NoMemory
    }
}

/// A private tree over one-time keys, with all its nodes. It signs with whichever leaf it is given; who holds it
/// counts the leaves, since two bodies signed by one leaf give the leaf's key away.
pub struct LmsTree {
    typecode: u32,
    height: usize,
    ots: OtsType,
    id: [u8; 16],
    seed: [u8; 32],
    nodes: Vec<[u8; 32]>,
    public: [u8; 56],
    ghost known: { lms_height_of typecode ≡ Some height },
    ghost low: { height ≤ 15 },
    ghost sized: { length id ≡ 16 },
    ghost tree: { IsTree ots height id seed nodes.items },
    ghost key: { public ≡ lms_public_key typecode ots height id seed },
}

// Written out, so that whoever drops a value makes one call (docs/CONTRIBUTING.md).
impl Drop for LmsTree {
    fn drop(self) {
        let LmsTree {
            typecode: _,
            height: _,
            ots: _,
            id: _,
            seed: _,
            nodes,
            public: _,
        } = self;
        mem::drop(nodes);
    }
}

// A public key of a tree, from its root.
fn public_of(typecode: u32, ots: OtsType, id: &[u8; 16], root: &[u8; 32]) -> [u8; 56]
    ensures { result ≡ u32str typecode ++ u32str (ots_typecode ots) ++ id.now ++ root.now }
{
    let mut public = [0u8; 56];
    public[..4].copy_from_slice(&typecode.to_be_bytes());
    public[4..8].copy_from_slice(&ots_typecode(ots).to_be_bytes());
    public[8..24].copy_from_slice(id);
    public[24..].copy_from_slice(root);
    public
}

impl LmsTree {
    ghost use Rattle.lms_tree.specs.SigningTree.{IsMadeFrom, SameShape, public_of, signature_of, length_of};
    ghost use Rattle.std.specs.Prelude.{◌+◌, ◌*◌, ◌-◌};
    ghost use Rattle.signature_defs.specs.Strings.{strings};
    ghost use Rattle.signature_defs.specs.Lms.{path_node};

    /// The tree of a height's typecode, 5, 6 or 7, and a one-time parameter set, whose chains begin at values made from
    /// the seed (RFC 8554, Appendix A). It takes the memory of all nodes, and the time of all one-time public keys.
    ///
    /// # Errors
    /// [`KeyFault::TooTall`] exactly where the typecode is not 5, 6 or 7.
    pub fn make(
        alloc: Global,
        height: u32,
        ots: OtsType,
        id: [u8; 16],
        seed: [u8; 32],
    ) -> Result<LmsTree, KeyFault>
        ensures made { IfOk result (IsMadeFrom height ots id seed) }
        ensures tall { IsErrOf result KeyFault.TooTall ↔ IsTooTall height }
    {
        let typecode = height;
        let Some(height) = built_height_of(typecode) else {
            return Err(KeyFault::TooTall);
        };
        let nodes = make_nodes(alloc, ots, height, &id, &seed)?;
        let public = public_of(typecode, ots, &id, &nodes[1]);
        Ok(LmsTree {
            typecode,
            height,
            ots,
            id,
            seed,
            nodes,
            public,
        })
    }

    /// Makes another tree of the same types in the room of this one: it takes no memory, and the time of all one-time
    /// public keys.
    pub fn renew(&mut self, id: [u8; 16], seed: [u8; 32])
        ensures shape { SameShape self.old self.new }
        ensures id { self.new.id ≡ id }
        ensures seed { self.new.seed ≡ seed }
    {
        fill_nodes(&mut self.nodes, self.ots, self.height, &id, &seed);
        self.public = public_of(self.typecode, self.ots, &id, &self.nodes[1]);
        self.id = id;
        self.seed = seed;
    }

    /// The public key: two typecodes, I and the tree's root (RFC 8554, section 5.3).
    pub fn public(&self) -> &[u8; 56]
        ensures { result.now ≡ public_of self.now }
    {
        &self.public
    }

    /// How many leaves the tree has, each for one signature.
    pub fn leaves(&self) -> u32
        ensures value { result ≡ 2 ^ self.now.height }
        ensures bound { result ≤ 32768 }
    {
        1 << self.height
    }

    /// How many bytes each signature of the tree has: at most 9,012.
    pub fn sig_len(&self) -> usize
        ensures value { result ≡ length_of self.now }
        ensures bound { result ≤ 9012 }
    {
        8 + ots_signature_length(self.ots) + 32 * self.height
    }

    // The siblings of leaf `q` and of its ancestors below the root.
    fn write_path(&self, q: u32, out: &mut [u8])
        requires leaf { q < 2 ^ self.now.height }
        requires room { length out.old ≡ 32 * self.now.height }
        ensures { out.new ≡ strings (path_node self.now.ots self.now.height self.now.id self.now.seed q) self.now.height }
    {
        let mut r = (1 << self.height) + q;
        for i in 0..self.height {
            out[32 * i..32 * i + 32].copy_from_slice(&self.nodes[sibling(r) as usize]);
            r /= 2;
        }
    }

    /// Writes the signature of leaf `q` on the body, which fills `out` (RFC 8554, section 5.4.1).
    pub fn sign_into(&self, q: u32, body: &[u8], out: &mut [u8])
        requires leaf { q < 2 ^ self.now.height }
        requires room { length out.old ≡ length_of self.now }
        ensures { out.new ≡ signature_of self.now q body.now }
    {
        let ots = 4 + ots_signature_length(self.ots);
        out[..4].copy_from_slice(&q.to_be_bytes());
        ots_sign_into(self.ots, &self.id, q, &self.seed, body, &mut out[4..ots]);
        out[ots..ots + 4].copy_from_slice(&self.typecode.to_be_bytes());
        self.write_path(q, &mut out[ots + 4..]);
    }
}
