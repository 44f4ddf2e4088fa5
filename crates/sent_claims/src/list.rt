//! Claims in a list, as they go into frames. The bytes of all of them lie one after the other in one vector.
ghost use Rattle.std.specs.Prelude.{◌≡◌, ◌<◌, ◌++◌, ◌∷◌, [], length, slice_get, Some, OnOk};
ghost use Rattle.std.specs.List.{AllByRecursion, list_any};
ghost use Rattle.sent_claims.specs.Lists.{added, same_signed, lent_claim, listed_claim, listed_claims, IsListed, AreListed, IsShort};

use rp_base::{NoMemory, Pid};
use std::alloc::Global;
use std::marker::Model;
use std::mem;

/// Where the bytes of a claim are: its statement's from `start` on, and its signature's after them.
#[derive(Clone, Copy)]
pub(crate) struct Listed {
    signer: Pid,
    start: usize,
    said: usize,
    signed: usize,
}

/// A claim, borrowed: one of a list, or one that is to be put into a list.
#[derive(Clone, Copy)]
pub struct Lent<'a> {
    /// Who signed.
    pub signer: Pid,

    /// The statement's bytes, in a list at most 1,032.
    pub statement: &'a [u8],

    /// The signature's bytes, in a list at most 16,384.
    pub signature: &'a [u8],
}

/// A list of claims as they go into frames, statement, signer and signature of each. It takes memory as it is filled, and
/// keeps it when it is cleared. Where a call that puts claims into it answers `NoMemory`, some of them may be in it.
pub struct SentClaims {
    bytes: Vec<u8>,
    listed: Vec<Listed>,
}

// Written out, so that whoever drops a value makes one call (docs/CONTRIBUTING.md).
impl Drop for SentClaims {
    fn drop(self) {
        let SentClaims { bytes, listed } = self;
        mem::drop(bytes);
        mem::drop(listed);
    }
}

impl Model for SentClaims {
    ghost use Rattle.std.specs.Prelude.{List};
    ghost use Rattle.message_defs.specs.Packing.{Signed};
    ghost use Rattle.sent_claims.specs.Lists.{listed_claims, AreListed};

    ghost Value = { List Signed };

    ghost view = { λ l. listed_claims l.bytes.items l.listed.items };

    ghost invariant = { λ l. AreListed l.bytes.items l.listed.items };
}

// The claim whose bytes are there.
fn lend(bytes: &[u8], listed: Listed) -> Lent<'_>
    requires { IsListed bytes.now listed }
    ensures claim { lent_claim result ≡ listed_claim bytes.now listed }
    ensures short { IsShort (lent_claim result) }
{
    let middle = listed.start + listed.said;
    Lent {
        signer: listed.signer,
        statement: &bytes[listed.start..middle],
        signature: &bytes[middle..middle + listed.signed],
    }
}

// Whether signer, statement and signature are equal.
fn is_same(a: &Lent<'_>, b: &Lent<'_>) -> bool
    ensures { result ≡ same_signed (lent_claim a.now) (lent_claim b.now) }
{
    a.signer == b.signer && a.statement == b.statement && a.signature == b.signature
}

// Whether the claim is one of those whose bytes are there.
fn is_listed(bytes: &[u8], listed: &[Listed], claim: &Lent<'_>) -> bool
    requires { AreListed bytes.now listed.now }
    ensures { result ≡ list_any (same_signed (lent_claim claim.now)) (listed_claims bytes.now listed.now) }
{
    'claims: for one in listed {
        if is_same(claim, &lend(bytes, *one)) {
            return true;
        }
    }
    false
}

impl SentClaims {
    /// No claims.
    pub fn new(alloc: Global) -> SentClaims
        ensures { result ≡ [] }
    {
        SentClaims {
            bytes: Vec::new(alloc),
            listed: Vec::new(alloc),
        }
    }

    /// How many claims it has.
    pub fn len(&self) -> usize
        ensures count { result ≡ length self.now }
        ensures short { AllByRecursion IsShort self.now }
    {
        self.listed.len()
    }

    /// The claim at this place.
    pub fn at(&self, place: usize) -> Lent<'_>
        requires { place < length self.now }
        ensures claim { slice_get self.now place ≡ Some (lent_claim result) }
        ensures short { IsShort (lent_claim result) }
    {
        lend(&self.bytes, self.listed[place])
    }

    /// Whether the claim is in the list.
    pub fn contains(&self, claim: &Lent<'_>) -> bool
        ensures { result ≡ list_any (same_signed (lent_claim claim.now)) self.now }
    {
        is_listed(&self.bytes, &self.listed, claim)
    }

    // Puts the claim after the others.
    fn push(&mut self, claim: &Lent<'_>) -> Result<(), NoMemory>
        requires { IsShort (lent_claim claim.now) }
        ensures { OnOk result (self.new ≡ self.old ++ lent_claim claim.now ∷ []) }
    {
        let listed = Listed {
            signer: claim.signer,
            start: self.bytes.len(),
            said: claim.statement.len(),
            signed: claim.signature.len(),
        };
        self.bytes.extend_from_slice(claim.statement)?;
        self.bytes.extend_from_slice(claim.signature)?;
        self.listed.push(listed)?;
        Ok(())
    }

    /// Puts the claim after the others; and only where it is not among them, where each is to be there once.
    pub fn put(&mut self, claim: &Lent<'_>, once: bool) -> Result<(), NoMemory>
        requires { IsShort (lent_claim claim.now) }
        ensures { OnOk result (self.new ≡ added once self.old (lent_claim claim.now)) }
    {
        if once && self.contains(claim) {
            return Ok(());
        }
        self.push(claim)
    }

    /// Forgets the claims, and keeps the memory.
    pub fn clear(&mut self)
        ensures { self.new ≡ [] }
    {
        self.bytes.clear();
        self.listed.clear();
    }
}
