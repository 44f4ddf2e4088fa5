//! The table of first claims.
ghost use Rattle.std.specs.Prelude.{◌≡◌, ◌∷◌, ◌++◌, ◌↔◌, [], None, List, IsTrue, IfOk, IfSome, OnOk, OnErr, ◌==◌, find, filter_map, length, map};
ghost use Rattle.std.specs.List.{AllByRecursion, list_all, list_any};
ghost use Rattle.std.specs.Option.{option_copied, option_map};
ghost use Rattle.std.specs.Map.{lookup};
ghost use Rattle.message_defs.specs.Spelling.{IsStatement};
ghost use Rattle.message_defs.specs.Statements as plain;
ghost use Rattle.group_defs.specs.Process.{Setting};
ghost use Rattle.group_defs.specs.Hearing.{is_valid};
ghost use Rattle.rp_base.specs.Rosters.{IsRising};
ghost use Rattle.message_defs.specs.Packing.{signed_of};
ghost use Rattle.stmt_codec.specs.Views.{signed, stmt, claim as claim_of};
ghost use Rattle.conviction_defs.specs.Convictions as defs;
ghost use Rattle.claim_index.specs.Keys.{same_key};
ghost use Rattle.claim_firsts.specs.Tables.{key};
ghost use Rattle.claim_firsts.specs.Seen.{IsAnswered, Saw};
ghost use Rattle.claim_firsts.specs.Seeing.{accusing, answering, contradicted, forgetting, has_second, seeing, with_first, with_second};
ghost use Rattle.claim_firsts.specs.Answered.{is_answered, is_listed};
ghost use Rattle.claim_firsts.specs.Entries.{kept_claim, signers_of};
ghost use Rattle.claim_firsts.specs.First.{is_first};
ghost use Rattle.claim_firsts.specs.Reported.{AreSpelled, conviction, conviction_by};

use crate::conviction::Conviction;
use crate::kept::{Kept, claim_again, is_conflict, is_same};
use crate::word::Word;
use claim_index::{Key, KeyHasher, slot_key_of};
use indexmap::{IndexMap, IndexSet};
use rp_base::{NoMemory, Pid, PidSet};
use std::alloc::Global;
use std::hash::BuildHasherDefault;
use std::marker::Model;
use std::mem;
use stmt_codec::{Claim, OwnClaim};

// The first claims, by signer and slot.
type Entries<'a> = IndexMap<Key, Kept<'a>, BuildHasherDefault<KeyHasher>>;

// Signers and slots.
type Keys = IndexSet<Key, BuildHasherDefault<KeyHasher>>;

/// The first claim of each signer and slot that was seen, and of each signer whom the claims convict the claim that convicts it. Contracts
/// see it as a table, which `Saw` relates to the claims that were seen. What is handed over is borrowed, and not copied; the own words of a
/// process are kept.
pub struct Firsts<'a> {
    firsts: Entries<'a>,

    // at most one of each signer
    seconds: Vec<Kept<'a>>,

    // where an own word was seen
    answered: Keys,
}

// Written out, so that whoever drops a value makes one call (docs/CONTRIBUTING.md).
impl<'a> Drop for Firsts<'a> {
    fn drop(self) {
        let Firsts {
            firsts,
            seconds,
            answered,
        } = self;
        mem::drop(firsts);
        mem::drop(seconds);
        mem::drop(answered);
    }
}

impl<'a> Model for Firsts<'a> {
    ghost use Rattle.claim_firsts.specs.Tables.{Table};
    ghost use Rattle.claim_firsts.specs.Entries.{IsTable, table_of};

    ghost Value = { Table };

    ghost view = { λ f. table_of f.firsts.entries f.seconds.items f.answered.keys };

    ghost invariant = { λ f. IsTable f.firsts.entries f.seconds.items };
}

// The key of the claim's signer and slot.
fn key_of(claim: &Claim<'_>) -> Key
    ensures { result ≡ key (claim_of claim.now) }
{
    Key::new(claim.signer, slot_key_of(&claim.statement))
}

// The entry under this key.
fn find_under<'m, 'a>(firsts: &'m Entries<'a>, key: &Key) -> Option<&'m Kept<'a>>
    ensures { option_copied result ≡ lookup (same_key key.now) firsts.now.entries }
{
    firsts.get(key)
}

// Whether the key is among these.
fn is_among(keys: &Keys, key: &Key) -> bool
    ensures { result ≡ list_any (same_key key.now) keys.now.keys }
{
    keys.contains(key)
}

// Whether each of these slots is answered that is one of these processes'.
fn are_answered(slots: &[Key], answered: &Keys, listed: PidSet) -> bool
    ensures { result ≡ list_all (is_answered listed answered.now.keys) slots.now }
{
    slots.iter().all(|slot| !listed.contains(slot.signer()) || is_among(answered, slot))
}

// Whether one of these claims is one of these processes'.
fn is_any_listed(seconds: &[Kept<'_>], listed: PidSet) -> bool
    ensures { result ≡ list_any (λ x. is_listed listed (kept_claim x).signer) seconds.now }
{
    seconds
        .iter()
        .any(|second| listed.contains(second.signer()))
}

// Whether one of these claims is the process's.
fn is_signer(seconds: &[Kept<'_>], q: Pid) -> bool
    ensures { result ≡ list_any (λ x. (kept_claim x).signer == q) seconds.now }
{
    seconds.iter().any(|second| second.signer() == q)
}

// The first of these claims that is the process's.
fn second_of<'m, 'a>(seconds: &'m [Kept<'a>], q: Pid) -> Option<&'m Kept<'a>>
    ensures { option_copied result ≡ find (λ x. (kept_claim x).signer == q) seconds.now }
{
    for second in seconds {
        if second.signer() == q {
            return Some(second);
        }
    }
    None
}

// The signers of these claims.
fn all_signers(seconds: &[Kept<'_>]) -> PidSet
    ensures { result ≡ signers_of seconds.now }
{
    let mut found = PidSet::new();
    for second in seconds {
        found.insert(second.signer());
    }
    found
}

impl<'a> Firsts<'a> {
    /// Nothing was seen yet.
    pub fn new(alloc: Global) -> Firsts<'a>
        ensures { (s : Setting) → Saw s [] [] result }
    {
        Firsts {
            firsts: IndexMap::with_hasher(alloc, BuildHasherDefault::new()),
            seconds: Vec::new(alloc),
            answered: IndexSet::with_hasher(alloc, BuildHasherDefault::new()),
        }
    }

    // Whether the first claim of the signer on the slot conflicts with this one; None where there is none.
    fn contradicted(&self, claim: &Claim<'_>) -> Option<bool>
        ensures { result ≡ contradicted self.now (claim_of claim.now) }
    {
        match find_under(&self.firsts, &key_of(claim)) {
            Some(first) => Some(is_conflict(&first.claim(), claim)),
            None => None,
        }
    }

    // Whether two claims of the process conflict.
    fn has_second(&self, q: Pid) -> bool
        ensures { result ≡ has_second self.now q }
    {
        is_signer(&self.seconds, q)
    }

    // Puts the claim after the first ones.
    fn add_first(&mut self, kept: Kept<'a>) -> Result<(), NoMemory>
        requires range { IsStatement (kept_claim kept).statement }
        requires fresh { contradicted self.old (kept_claim kept) ≡ None }
        ensures added { OnOk result (self.new ≡ with_first self.old (kept_claim kept.entry)) }
        ensures same { OnErr result (self.new ≡ self.old) }
    {
        self.firsts.reserve(1)?;
        let key = key_of(&kept.claim());
        let Ok(_) = self.firsts.insert(key, kept) else {
            unreachable!()
        };
        Ok(())
    }

    // Puts the claim after the second ones.
    fn add_second(&mut self, kept: Kept<'a>) -> Result<(), NoMemory>
        requires range { IsStatement (kept_claim kept).statement }
        ensures added { OnOk result (self.new ≡ with_second self.old (kept_claim kept.entry)) }
        ensures same { OnErr result (self.new ≡ self.old) }
    {
        self.seconds.reserve(1)?;
        let Ok(()) = self.seconds.push(kept) else {
            unreachable!()
        };
        Ok(())
    }

    // Keeps the claim as its signer's second one, where it has none.
    fn accuse(&mut self, kept: Kept<'a>) -> Result<(), NoMemory>
        requires { IsStatement (kept_claim kept).statement }
        ensures added { OnOk result (self.new ≡ accusing self.old (kept_claim kept.entry)) }
        ensures same { OnErr result (self.new ≡ self.old) }
    {
        if self.has_second(kept.signer()) {
            Ok(())
        } else {
            self.add_second(kept)
        }
    }

    // Sees the claim.
    fn take(&mut self, kept: Kept<'a>) -> Result<(), NoMemory>
        requires { IsStatement (kept_claim kept).statement }
        ensures seen { OnOk result (self.new ≡ seeing self.old (kept_claim kept.entry)) }
        ensures same { OnErr result (self.new ≡ self.old) }
    {
        match self.contradicted(&kept.claim()) {
            None => self.add_first(kept),
            Some(true) => self.accuse(kept),
            Some(false) => Ok(()),
        }
    }

    /// A claim was handed over. It must be valid: a caller that can't say so doesn't show it. Without memory the table is as before.
    pub fn see(&mut self, claim: &Claim<'a>) -> Result<(), NoMemory>
        requires { IsStatement (stmt claim.now.statement) }
        ensures seen { OnOk result ((s : Setting) (claims own : List plain.Claim) → Saw s claims own self.old
            → IsTrue (is_valid s (claim_of claim.now)) → Saw s (claims ++ claim_of claim.now ∷ []) own self.new) }
        ensures same { OnErr result (self.new ≡ self.old) }
    {
        self.take(Kept::Lent(claim_again(claim)))
    }

    /// Whether this claim, with this signature, is the first of its signer on its slot. Then it is valid, and was seen: its signature need
    /// not be verified, and to see it once more changes nothing.
    pub fn knows(&self, claim: &Claim<'_>) -> bool
        ensures first { result ≡ is_first self.now (claim_of claim.now) }
        ensures valid { (s : Setting) (claims own : List plain.Claim) → Saw s claims own self.now → IsTrue result
            → IsTrue (is_valid s (claim_of claim.now)) }
        ensures again { (s : Setting) (claims own : List plain.Claim) → Saw s claims own self.now → IsTrue result
            → Saw s (claims ++ claim_of claim.now ∷ []) own self.now }
    {
        match find_under(&self.firsts, &key_of(claim)) {
            Some(first) => is_same(&first.claim(), claim),
            None => false,
        }
    }

    // How many slots are answered.
    fn count_answered(&self) -> usize
        ensures { result ≡ length self.now.answered }
    {
        self.answered.len()
    }

    // The slot under this key is answered.
    fn answer(&mut self, key: Key) -> Result<(), NoMemory>
        ensures added { OnOk result (self.new ≡ answering self.old key) }
        ensures same { OnErr result (self.new ≡ self.old) }
    {
        self.answered.insert(key)?;
        Ok(())
    }

    // Forgets which slots are answered after the first `count`.
    fn forget_answered(&mut self, count: usize)
        ensures { self.new ≡ forgetting self.old count }
    {
        self.answered.truncate(count);
    }

    // Sees the claim as an own word.
    fn take_own(&mut self, kept: Kept<'a>) -> Result<(), NoMemory>
        requires { IsStatement (kept_claim kept).statement }
        ensures seen { OnOk result (self.new ≡ seeing (answering self.old (key (kept_claim kept.entry))) (kept_claim kept.entry)) }
        ensures same { OnErr result (self.new ≡ self.old) }
    {
        let before = self.count_answered();
        self.answer(key_of(&kept.claim()))?;
        match self.take(kept) {
            Ok(()) => Ok(()),
            Err(fault) => {
                self.forget_answered(before);
                Err(fault)
            }
        }
    }

    /// A process signed the claim itself, as its journal says. It must be valid. The claim is kept where it is the first one on its slot,
    /// or convicts its signer; bytes that spell no statement are no claim. Without memory it is dropped, and the table is as before.
    pub fn see_own(&mut self, claim: OwnClaim) -> Result<(), NoMemory>
        ensures seen { OnOk result ((s : Setting) (claims own : List plain.Claim) (c : plain.Claim) → Saw s claims own self.old
            → IsStatement c.statement → signed claim ≡ signed_of c → IsTrue (is_valid s c)
            → Saw s (claims ++ c ∷ []) (own ++ c ∷ []) self.new) }
        ensures same { OnErr result (self.new ≡ self.old) }
    {
        match Word::new(claim) {
            Some(word) => self.take_own(Kept::Own(word)),
            None => Ok(()),
        }
    }

    /// No claim convicts one of these processes, and of each slot on which a valid claim of one of them was seen, the process's own word
    /// was seen too. So it says of the claims that were handed to these processes, and of those that they signed, whether all that was
    /// handed over of them is their own word (docs/PROMISES.md, «Auditor»).
    pub fn is_answered(&self, listed: PidSet) -> bool
        ensures { (s : Setting) (claims own : List plain.Claim) → Saw s claims own self.now → IsTrue result ↔ IsAnswered s claims own listed }
    {
        !is_any_listed(&self.seconds, listed)
            && are_answered(self.firsts.keys().as_slice(), &self.answered, listed)
    }

    /// All whom the claims that were seen convict. The roster is one that rises, as every `Roster` does.
    pub fn convicted(&self) -> PidSet
        ensures { (s : Setting) (claims own : List plain.Claim) → IsRising s.roster → Saw s claims own self.now
            → result ≡ defs.convicted s claims }
    {
        all_signers(&self.seconds)
    }

    // The conviction of the process, where two of its claims conflict.
    fn conviction_of(&self, q: Pid) -> Option<Conviction<'_>>
        ensures reported { option_map conviction result ≡ conviction_by self.now q }
        ensures range { IfSome result AreSpelled }
    {
        match second_of(&self.seconds, q) {
            Some(second) => {
                let second = second.claim();
                match find_under(&self.firsts, &key_of(&second)) {
                    Some(first) => Some(Conviction {
                        process: q,
                        first: first.claim(),
                        second,
                    }),
                    None => None,
                }
            }
            None => None,
        }
    }

    // The convictions of these processes, in their order.
    fn convictions_of(&self, alloc: Global, of: PidSet) -> Result<Vec<Conviction<'_>>, NoMemory>
        ensures reported { IfOk result (λ all. map conviction all.items ≡ filter_map (conviction_by self.now) of) }
        ensures range { IfOk result (λ all. AllByRecursion AreSpelled all.items) }
    {
        let mut all = Vec::new(alloc);
        for q in of.iter() {
            if let Some(reported) = self.conviction_of(q) {
                all.reserve(1)?;
                let Ok(()) = all.push(reported) else {
                    unreachable!()
                };
            }
        }
        Ok(all)
    }

    /// One conviction of each whom the claims that were seen convict, by process number: the first claim of the process that conflicts
    /// with one before it, and the earliest one of that kind and slot, both with their signatures. The roster is one that rises, as every
    /// `Roster` does.
    pub fn convictions(&self, alloc: Global) -> Result<Vec<Conviction<'_>>, NoMemory>
        ensures reported { IfOk result (λ all. (s : Setting) (claims own : List plain.Claim) → IsRising s.roster → Saw s claims own self.now
            → map conviction all.items ≡ defs.convictions s claims) }
        ensures range { IfOk result (λ all. AllByRecursion AreSpelled all.items) }
    {
        self.convictions_of(alloc, self.convicted())
    }
}
