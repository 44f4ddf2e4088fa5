ghost use Rattle.std.specs.Prelude.{◌≡◌, ◌<◌, ◌≤◌, ◌+◌, ◌++◌, ℕ, List, Bool, true, length, take, drop, IfOk, OnErr, IsErr, IsTrue, ◌↔◌, ◌≢◌};
ghost use Rattle.signature_defs.specs.Plain.{plain_signature, plain_valid};

use sha2::{Digest, Sha256};
use std::fmt;

/// The signer has made as many signatures as it can. Nothing has changed.
#[derive(Clone, Copy, Debug, PartialEq, Eq)]
pub struct Spent;

/// A rule that says which signatures are valid.
pub trait Scheme {
    /// Whether this is a signature under the key on the body: key, body, signature.
    ghost valid: { Self → List ℕ → List ℕ → List ℕ → Bool };

    /// Whether the signature is valid. Any bytes may be asked about.
    fn verify(&self, key: &[u8], body: &[u8], sig: &[u8]) -> bool
        ensures { result ≡ valid self.now key.now body.now sig.now };
}

/// A count of signatures, up to a total.
pub trait Tally {
    /// How many signatures were made.
    ghost used: { Self → ℕ };

    /// How many can be made in all.
    ghost total: { Self → ℕ };

    /// Both are the same key, however many signatures were made.
    ghost same_key: { Self → Self → Type 0 };

    /// How many signatures were made: 0 to the total.
    fn used(&self) -> u32
        ensures value { result ≡ used self.now }
        ensures within { result ≤ total self.now };

    /// How many signatures can be made in all. It never changes.
    fn total(&self) -> u32
        ensures value { result ≡ total self.now };

    /// Counts those up to this number as made, so that none of them is made again.
    fn skip_to(&mut self, to: u32)
        requires from { used self.old ≤ to }
        requires within { to ≤ total self.old }
        ensures used { used self.new ≡ to }
        ensures total { total self.new ≡ total self.old }
        ensures key { same_key self.old self.new };
}

/// A key that signs a body once with each number below its total.
pub trait Signer: Tally {
    ghost use Rattle.rp_base.specs.Signer.{KeyKeeps};

    /// The public key.
    ghost public: { Self → List ℕ };

    /// The most bytes that a signature has.
    ghost sig_len: { Self → ℕ };

    /// The signature that the secret, the number used and the body determine.
    ghost signature: { Self → ℕ → List ℕ → List ℕ };

    /// What the signer's own rule admits: key, body, signature.
    ghost admits: { Self → List ℕ → List ℕ → List ℕ → Bool };

    /// The public key.
    fn public(&self) -> &[u8]
        ensures { result.now ≡ public self.now };

    /// The most bytes that a signature has: at most 16,384. It never changes.
    fn sig_len(&self) -> usize
        ensures value { result ≡ sig_len self.now }
        ensures bound { result ≤ 16384 };

    /// Writes the signature that the secret, the number used and the body determine to the front of `out`, which has
    /// at least `sig_len` bytes, and answers its length; the bytes after it stay. The signer's own rule admits it, and one
    /// more is used. `Spent` comes exactly where all are used, and changes nothing.
    fn sign(&mut self, body: &[u8], out: &mut [u8]) -> Result<usize, Spent>
        requires { sig_len self.old ≤ length out.old }
        ensures written { IfOk result (λ n. (n ≤ sig_len self.old) × (take n out.new ≡ signature self.old (Self.used self.old) body.now)) }
        ensures admitted { IfOk result (λ n. admits self.old (public self.old) body.now (take n out.new) ≡ true) }
        ensures used { IfOk result (λ _. Self.used self.new ≡ Self.used self.old + 1) }
        ensures spent { IsErr result ↔ (Self.used self.old ≡ Self.total self.old) }
        ensures same { OnErr result (self.new ≡ self.old) }
        ensures unwritten { OnErr result (out.new ≡ out.old) }
        ensures rest { IfOk result (λ n. drop n out.new ≡ drop n out.old) }
        ensures total { Self.total self.new ≡ Self.total self.old }
        ensures key { public self.new ≡ public self.old }
        ensures secret { signature self.new ≡ signature self.old }
        ensures rule { admits self.new ≡ admits self.old }
        ensures len { sig_len self.new ≡ sig_len self.old };

    /// What stays as long as the key does.
    ghost keeps: { (s t : Self) → Self.same_key s t
        → KeyKeeps (public s) (public t) (sig_len s) (sig_len t) (signature s) (signature t) (admits s) (admits t) };
}

/// A key whose last signatures can be taken back, as long as nobody was shown them.
pub trait Retract: Signer {
    /// Takes back the signatures from this number on: they count as not made, and their numbers sign anew, other bodies perhaps.
    ///
    /// Who sees two signatures with one number of a key of hash trees can forge more. So **this is for signatures that nobody was
    /// shown**, and the caller forgets them, as a process forgets an event that memory cut off (docs/DECISIONS.md, «Keys»).
    fn retract(&mut self, to: u32)
        requires { to ≤ Self.Tally.used self.old }
        ensures used { Self.Tally.used self.new ≡ to }
        ensures total { Self.Tally.total self.new ≡ Self.Tally.total self.old }
        ensures secret { Self.signature self.new ≡ Self.signature self.old }
        ensures key { Self.Tally.same_key self.old self.new };
}

/// Plain signatures, for rehearsals: the signature is SHA-256 of key and body, and the public key is the key. Whoever
/// knows a public key can sign for it.
#[derive(Clone, Copy, PartialEq, Eq)]
pub struct PlainScheme;

fn digest(key: &[u8], body: &[u8]) -> [u8; 32]
    ensures value { result ≡ plain_signature key.now body.now }
    ensures len { length result ≡ 32 }
{
    let mut hasher = Sha256::new();
    hasher.update(key);
    hasher.update(body);
    hasher.finalize()
}

impl Scheme for PlainScheme {
    ghost valid = { λ s. plain_valid };

    fn verify(&self, key: &[u8], body: &[u8], sig: &[u8]) -> bool {
        digest(key, body).as_slice() == sig
    }
}

/// A signer of plain signatures. Its `Debug` does not show the key.
#[derive(Drop)]
pub struct PlainSigner {
    key: [u8; 32],
    total: u32,
    used: u32,
    ghost within: { used ≤ total },
}

impl PlainSigner {
    ghost use Rattle.rp_base.specs.Signer.{key_of, total_of, used_of};

    /// A signer with this key, which can sign `total` times.
    pub fn new(key: [u8; 32], total: u32) -> PlainSigner
        ensures key { key_of result ≡ key }
        ensures total { total_of result ≡ total }
        ensures used { used_of result ≡ 0 }
    {
        PlainSigner {
            key,
            total,
            used: 0,
        }
    }
}

impl fmt::Debug for PlainSigner {
    fn fmt<W: fmt::Write>(&self, f: &mut fmt::Formatter<W>) -> fmt::Result {
        f.debug_struct("PlainSigner")
            .field("total", &self.total)
            .field("used", &self.used)
            .finish_non_exhaustive()
    }
}

impl Tally for PlainSigner {
    ghost used = { λ s. s.used };

    ghost total = { λ s. s.total };

    ghost same_key = { λ s t. t.key ≡ s.key };

    fn used(&self) -> u32 {
        self.used
    }

    fn total(&self) -> u32 {
        self.total
    }

    fn skip_to(&mut self, to: u32) {
        self.used = to;
    }
}

impl Signer for PlainSigner {
    ghost use Rattle.rp_base.specs.Signer.{key_of, plain_keeps};

    ghost public = { key_of };

    ghost sig_len = { λ s. 32 };

    ghost signature = { λ s q body. plain_signature (key_of s) body };

    ghost admits = { λ s. plain_valid };

    ghost keeps = { λ s t same. plain_keeps s t same };

    fn public(&self) -> &[u8] {
        &self.key
    }

    fn sig_len(&self) -> usize {
        32
    }

    fn sign(&mut self, body: &[u8], out: &mut [u8]) -> Result<usize, Spent> {
        if self.used == self.total {
            return Err(Spent);
        }
        out[..32].copy_from_slice(&digest(&self.key, body));
        self.used += 1;
        Ok(32)
    }
}

impl Retract for PlainSigner {
    fn retract(&mut self, to: u32) {
        self.used = to;
    }
}

/// A count of signatures without a key, for whoever checks signatures that others made.
#[derive(Drop)]
pub struct Count {
    total: u32,
    used: u32,
    ghost within: { used ≤ total },
}

impl Count {
    ghost use Rattle.rp_base.specs.Signer.{count_total, count_used};

    /// Up to this total; none is used.
    pub fn new(total: u32) -> Count
        ensures total { count_total result ≡ total }
        ensures used { count_used result ≡ 0 }
    {
        Count { total, used: 0 }
    }
}

impl Tally for Count {
    ghost used = { λ c. c.used };

    ghost total = { λ c. c.total };

    ghost same_key = { λ c d. Unit {0} };

    fn used(&self) -> u32 {
        self.used
    }

    fn total(&self) -> u32 {
        self.total
    }

    fn skip_to(&mut self, to: u32) {
        self.used = to;
    }
}
