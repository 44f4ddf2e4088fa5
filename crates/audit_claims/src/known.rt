//! Signatures that were verified before.
ghost use Rattle.std.specs.Prelude.{◌≡◌, ◌∷◌, ◌++◌, ◌&&◌, codes, drop, ℕ, List, IfNone, IfSome, option_map};
ghost use Rattle.byte_defs.specs.Choices.{is_some_and};
ghost use Rattle.byte_defs.specs.Equality.{same_bytes};
ghost use Rattle.message_defs.specs.Reading.{statement_of};
ghost use Rattle.message_defs.specs.Spelling.{spelling};
ghost use Rattle.stmt_codec.specs.Views.{claim as claim_of, stmt};
ghost use Rattle.claim_firsts.specs.First.{is_first};
ghost use Rattle.audit_claims.specs.Asked.{claim_by as said_by, claim_in as said_in, is_known, key_in, known_or_valid};

use claim_firsts::Firsts;
use rp_base::{GroupId, Pid, Roster, Scheme};
use stmt_codec::{Claim, read_statement};

/// A rule of signatures, with claims that were seen: a claim that is the first of its signer on its slot was verified before it was
/// seen, and is not verified again. Where all that was seen is valid by the rule, this answers as the rule does. So a signature that
/// several journals hold is verified once.
#[derive(Clone, Copy)]
pub struct Known<'f, 'a, V> {
    /// The claims that were seen.
    pub firsts: &'f Firsts<'a>,

    /// The rule of signatures.
    pub scheme: &'f V,

    /// The processes' keys.
    pub roster: &'f Roster,

    /// The group.
    pub group: &'f GroupId,
}

// What comes after the head of a body in this group; None where the bytes have another head.
fn said_after<'b>(group: &GroupId, body: &'b [u8]) -> Option<&'b [u8]>
    ensures some { IfSome result (λ said. body.now ≡ codes "RPB1" ++ group.now ++ said.now) }
    ensures after { IfSome result (λ said. drop 20 body.now ≡ said.now) }
    ensures none { IfNone result ((said : List ℕ) → body.now ≡ codes "RPB1" ++ group.now ++ said → ⊥) }
{
    body.strip_prefix(b"RPB1")?
        .strip_prefix(group.bytes().as_slice())
}

// The claim of this signer with this signature, whose statement the bytes spell; None where they spell none.
fn claim_by<'b>(signer: Pid, bytes: &'b [u8], signature: &'b [u8]) -> Option<Claim<'b>>
    ensures said { option_map claim_of result ≡ said_by signer signature.now (statement_of bytes.now) }
    ensures spelled { IfSome result (λ c. (c.signer ≡ signer) × (bytes.now ≡ spelling (stmt c.statement))) }
{
    match read_statement(bytes) {
        Ok(statement) => Some(Claim {
            signer,
            statement,
            signature,
        }),
        Err(_) => None,
    }
}

// The claim with this signature whose signer and statement the bytes are; None where they are none.
fn claim_in<'b>(said: &'b [u8], signature: &'b [u8]) -> Option<Claim<'b>>
    ensures said { option_map claim_of result ≡ said_in said.now signature.now }
    ensures spelled { IfSome result (λ c. said.now ≡ c.signer ∷ spelling (stmt c.statement)) }
{
    match said.split_first() {
        Some((first, bytes)) => match Pid::new(*first) {
            Some(signer) => claim_by(signer, bytes, signature),
            None => None,
        },
        None => None,
    }
}

// Both at one lifetime, the only form of the comparison that the borrow checker covers.
fn are_same<'b>(a: &'b [u8], b: &'b [u8]) -> bool
    ensures { result ≡ same_bytes a.now b.now }
{
    a == b
}

// Whether this is the process's key in the roster.
fn is_key(roster: &Roster, process: Pid, key: &[u8]) -> bool
    ensures { result ≡ is_some_and (key_in roster.now process) (same_bytes key.now) }
{
    match roster.key(process) {
        Some(own) => are_same(key, own),
        None => false,
    }
}

// Whether the claim was seen, as the first one of its signer on its slot, and this is its signer's key.
fn is_seen(firsts: &Firsts<'_>, roster: &Roster, key: &[u8], claim: &Claim<'_>) -> bool
    ensures { result ≡ (is_some_and (key_in roster.now claim.now.signer) (same_bytes key.now) && is_first firsts.now (claim_of claim.now)) }
{
    is_key(roster, claim.signer, key) && firsts.knows(claim)
}

impl<'f, 'a, V> Known<'f, 'a, V> {
    /// Whether the body is that of a claim that was seen, as the first one of its signer on its slot, with this signature and under this
    /// key.
    pub fn knows(&self, key: &[u8], body: &[u8], sig: &[u8]) -> bool
        ensures { result ≡ is_known self.now.group.now self.now.roster.now self.now.firsts.now key.now body.now sig.now }
    {
        let Some(said) = said_after(self.group, body) else {
            return false;
        };
        match claim_in(said, sig) {
            Some(claim) => is_seen(self.firsts, self.roster, key, &claim),
            None => false,
        }
    }
}

impl<'f, 'a, V: Scheme> Scheme for Known<'f, 'a, V> {
    ghost valid = { λ k. known_or_valid (V.valid k.scheme.now) k.group.now k.roster.now k.firsts.now };

    fn verify(&self, key: &[u8], body: &[u8], sig: &[u8]) -> bool {
        self.knows(key, body, sig) || self.scheme.verify(key, body, sig)
    }
}
