ghost use Rattle.std.specs.Prelude.{◌≡◌, ◌+◌, ◌≤◌, ◌↔◌, None, IsTrue, is_some, length, map, take, ℕ, slice_get, unwrap_or, OnOk, IfOk, IfSome, option_and_then, sum_by};
ghost use Rattle.std.specs.Bool.{OnFalse};
ghost use Rattle.byte_defs.specs.Choices.{first_that_holds};
ghost use Rattle.std.specs.Option.{option_map};
ghost use Rattle.message_defs.specs.Spelling.{IsStatement, IsClaim};
ghost use Rattle.message_defs.specs.Updates as updates;
ghost use Rattle.message_defs.specs.Statements as plain;
ghost use Rattle.group_defs.specs.Process as defs;
ghost use Rattle.group_defs.specs.Certified as certified;
ghost use Rattle.group_defs.specs.Hearing as hearing;
ghost use Rattle.group_defs.specs.Signing.{Signer, own_claim, signs};
ghost use Rattle.stmt_codec.specs.Views.{stmt, slot as slot_at, claim, claim as claim_of};
ghost use Rattle.byte_defs.specs.Orders.{sorted};
ghost use Rattle.rp_base.specs.Views.{update as update_of};
ghost use Rattle.group_defs.specs.Views.{quorum};
ghost use Rattle.claim_pool.specs.Certificates.{content_of, signers_of};
ghost use Rattle.own_place.specs.Claims.{by_number, claim_bytes, is_kind_heard, with_heard};
ghost use Rattle.own_place.specs.Words.{empty_pool};
ghost use Rattle.pool_values.specs.Updates.{has_update};
ghost use Rattle.pool_values.specs.Ends.{IsInitsEnd};
ghost use Rattle.claim_pool.specs.Settings.{as_setting};
ghost use Rattle.own_place.specs.Owns.{HasDelivered};
ghost use Rattle.claim_pool.specs.Verdicts.{verdict, after, with_own, late_tests};

use crate::certificate::{CertKind, Certificate};
use crate::hearing::turned_away;
use crate::signed::is_signed;
use crate::verdict::Verdict;
use own_place::{ClaimIndex, Own, View};
use pool_values::{Places, Quorums, UpdateSet};
use rp_base::{GroupId, NoMemory, Pid, Roster, Scheme, Update};
use std::alloc::Global;
use std::marker::{Model, PhantomData};
use std::mem;
use stmt_codec::{Batch, Claim, Slot, Statement};

/// The heard claims of a view, in order of hearing. Contracts see them as the definitions' pool, with the pool at a mark, and with the
/// room that is left: how many claims more, with how many bytes of statements and signatures in all, are heard without memory.
pub struct Pool {
    heard: Places,
}

// Written out, so that whoever drops a value makes one call (docs/CONTRIBUTING.md).
impl Drop for Pool {
    fn drop(self) {
        let Pool { heard } = self;
        mem::drop(heard);
    }
}

impl Model for Pool {
    ghost use Rattle.own_place.specs.Claims.{Holding};

    ghost Value = { Holding };

    ghost view = { λ p. p.heard };
}

// The verdict on a claim of the view, in its window.
fn heard_verdict<V: Scheme>(
    quorums: &Quorums,
    scheme: &V,
    roster: &Roster,
    group: &GroupId,
    claim: &Claim<'_>,
) -> Verdict
    requires { IsStatement (stmt claim.now.statement) }
    ensures value { verdict result
        ≡ unwrap_or (first_that_holds (late_tests (as_setting (V.valid scheme.now) group.now roster.now) quorums.now.pool
        (claim_of claim.now))) hearing.Heard }
    ensures fresh { verdict result ≡ hearing.Heard
        → certified.claim_on quorums.now.pool.heard claim.now.signer (plain.slot_of (stmt claim.now.statement)) ≡ None }
{
    match quorums.repeats(claim.signer, &claim.statement) {
        Some(true) => Verdict::Known,
        Some(false) => {
            if is_signed(scheme, roster, group, claim) {
                Verdict::Conflict
            } else {
                Verdict::Unsigned
            }
        }
        None => {
            if is_signed(scheme, roster, group, claim) {
                Verdict::Heard
            } else {
                Verdict::Unsigned
            }
        }
    }
}

// Whether a claim of the signer on the claim's slot is heard.
fn is_heard(claims: &ClaimIndex, claim: &Claim<'_>) -> bool
    ensures value { result ≡ is_some (certified.heard_on claims.now.pool claim.now.signer (plain.slot_of (stmt claim.now.statement))) }
    ensures fresh { OnFalse result
        (certified.claim_on claims.now.pool.heard claim.now.signer (plain.slot_of (stmt claim.now.statement)) ≡ None) }
{
    match claims.claim_on(claim.signer, &claim.statement) {
        Some(_) => true,
        None => false,
    }
}

impl Pool {
    /// Nothing is heard of the view yet.
    pub fn new(alloc: Global, view: View) -> Result<Pool, NoMemory>
        ensures pool { IfOk result (λ p. p.pool ≡ empty_pool view) }
        ensures marked { IfOk result (λ p. p.marked ≡ empty_pool view) }
    {
        let heard = Places::new(alloc, view)?;
        Ok(Pool { heard })
    }

    /// Forgets what is heard, and turns to this view, with the mark at nothing. The room stays.
    pub fn turn_to(&mut self, view: View)
        ensures pool { self.new.pool ≡ empty_pool view }
        ensures marked { self.new.marked ≡ empty_pool view }
        ensures claims { self.old.claims_left ≤ self.new.claims_left }
        ensures bytes { self.old.bytes_left ≤ self.new.bytes_left }
    {
        self.heard.turn_to(view);
    }

    /// Marks what is heard, so that it can be gone back to.
    pub fn mark(&mut self)
        ensures same { self.new.pool ≡ self.old.pool }
        ensures marked { self.new.marked ≡ self.old.pool }
    {
        self.heard.mark();
    }

    /// Forgets what was heard after the mark. It takes no memory.
    pub fn rewind(&mut self)
        ensures pool { self.new.pool ≡ self.old.marked }
        ensures marked { self.new.marked ≡ self.old.marked }
    {
        self.heard.rewind();
    }

    /// How many claims are heard, and how many bytes their statements and signatures have in all.
    pub fn size(&self) -> (usize, usize)
        ensures claims { result.0 ≡ length self.now.pool.heard }
        ensures bytes { result.1 ≡ sum_by claim_bytes self.now.pool.heard }
    {
        self.heard.quorums().claims().size()
    }

    /// Makes room to hear `claims` claims more, with `bytes` bytes of statements and signatures in all. Without memory, what
    /// is heard is as before.
    pub fn reserve(&mut self, claims: usize, bytes: usize) -> Result<(), NoMemory>
        ensures same { self.new.pool ≡ self.old.pool }
        ensures marked { self.new.marked ≡ self.old.marked }
        ensures room { OnOk result ((claims ≤ self.new.claims_left) × (bytes ≤ self.new.bytes_left)) }
        ensures kept { (self.old.claims_left ≤ self.new.claims_left) × (self.old.bytes_left ≤ self.new.bytes_left) }
    {
        self.heard.reserve(claims, bytes)
    }

    /// The view.
    pub fn view(&self) -> &View
        ensures { result.now ≡ self.now.pool.view }
    {
        self.heard.quorums().claims().view()
    }

    /// The claim's verdict. Where it is Heard, the claim comes after those that are heard, and else nothing changes. It
    /// takes no memory: one claim, with its bytes, must be reserved. `own` has an entry for each member.
    pub fn take<V: Scheme>(
        &mut self,
        scheme: &V,
        roster: &Roster,
        group: &GroupId,
        own: &Own,
        claim: &Claim<'_>,
    ) -> Verdict
        requires range { IsClaim (claim_of claim.now) }
        requires own { length own.now.counts.items ≡ certified.number_of_members self.old.pool }
        requires claims { 1 ≤ self.old.claims_left }
        requires bytes { claim_bytes (claim_of claim.now) ≤ self.old.bytes_left }

        // The first that holds in the table, for a process that has delivered so much and holds this pool.
        ensures first { (p : defs.Process) → HasDelivered own.now p → p.pool ≡ self.old.pool
            → verdict result ≡ hearing.verdict (as_setting (V.valid scheme.now) group.now roster.now) p (claim_of claim.now) }
        ensures heard { self.new.pool ≡ after (verdict result) self.old.pool (claim_of claim.now) }
        ensures marked { self.new.marked ≡ self.old.marked }
        ensures claims_left { self.old.claims_left ≤ self.new.claims_left + 1 }
        ensures bytes_left { self.old.bytes_left ≤ self.new.bytes_left + claim_bytes (claim_of claim.now) }
    {
        let verdict = self.verdict_on(scheme, roster, group, own, claim);
        if let Verdict::Heard = verdict {
            self.heard.add(claim);
        }
        verdict
    }

    // The verdict, before anything changes.
    fn verdict_on<V: Scheme>(
        &self,
        scheme: &V,
        roster: &Roster,
        group: &GroupId,
        own: &Own,
        claim: &Claim<'_>,
    ) -> Verdict
        requires range { IsStatement (stmt claim.now.statement) }
        requires own { length own.now.counts.items ≡ certified.number_of_members self.now.pool }
        ensures first { (p : defs.Process) → HasDelivered own.now p → p.pool ≡ self.now.pool
            → verdict result ≡ hearing.verdict (as_setting (V.valid scheme.now) group.now roster.now) p (claim_of claim.now) }
        ensures fresh { verdict result ≡ hearing.Heard
            → certified.claim_on self.now.pool.heard claim.now.signer (plain.slot_of (stmt claim.now.statement)) ≡ None }
    {
        let quorums = self.heard.quorums();
        match turned_away(quorums.claims().view(), own, claim) {
            Some(verdict) => verdict,
            None => heard_verdict(quorums, scheme, roster, group, claim),
        }
    }

    /// Hears a claim that the process has signed itself, unless one of its signer on that slot is heard. It takes no memory: one
    /// claim, with its bytes, must be reserved.
    pub fn hear_own(&mut self, claim: &Claim<'_>)
        requires range { IsClaim (claim_of claim.now) }
        requires claims { 1 ≤ self.old.claims_left }
        requires bytes { claim_bytes (claim_of claim.now) ≤ self.old.bytes_left }
        ensures heard { self.new.pool ≡ with_own self.old.pool (claim_of claim.now) }

        // The pool of a process that holds this pool, after it has signed the claim's statement.
        ensures signs { (s : defs.Setting) (signer : Signer) (p : defs.Process) → p.pool ≡ self.old.pool
            → own_claim s signer p (stmt claim.now.statement) ≡ claim_of claim.now
            → (signs s signer p (stmt claim.now.statement)).pool ≡ self.new.pool }
        ensures marked { self.new.marked ≡ self.old.marked }
        ensures claims_left { self.old.claims_left ≤ self.new.claims_left + 1 }
        ensures bytes_left { self.old.bytes_left ≤ self.new.bytes_left + claim_bytes (claim_of claim.now) }
    {
        if !is_heard(self.heard.quorums().claims(), claim) {
            self.heard.add(claim);
        }
    }

    /// Whether a claim of the kind is heard; false where no kind has the number.
    pub fn hears(&self, kind: u8) -> bool
        ensures { result ≡ is_kind_heard self.now.pool.heard kind }
    {
        self.heard.quorums().claims().hears(kind)
    }

    /// The signer's heard claim of that kind and slot, with its signature; None exactly where there is none, or the kind
    /// has no such slots.
    pub fn heard_claim(&self, signer: Pid, kind: u8, slot: Slot) -> Option<Claim<'_>>
        ensures value { option_map claim result ≡ option_and_then (certified.claim_on self.now.pool.heard signer) (slot_at kind slot) }
        ensures range { IfSome result (λ c. IsStatement (stmt c.statement)) }
    {
        self.heard
            .quorums()
            .claims()
            .heard_claim(signer, kind, &slot)
    }

    /// The heard claim at this place in order of hearing; None exactly where the place is not below their number.
    pub fn claim_at(&self, place: usize) -> Option<Claim<'_>>
        ensures { option_map claim result ≡ slice_get self.now.pool.heard place }
    {
        self.heard.quorums().claims().claim_at(place)
    }

    /// What the signer's heard claim of that kind and slot says; None exactly where there is none, or the kind has no such
    /// slots.
    pub fn first(&self, signer: Pid, kind: u8, slot: Slot) -> Option<Statement<'_>>
        ensures { option_map stmt result ≡ option_and_then (certified.heard_on self.now.pool signer) (slot_at kind slot) }
    {
        match self.heard_claim(signer, kind, slot) {
            Some(claim) => Some(claim.statement),
            None => None,
        }
    }

    /// What is certified of that kind and slot, without those who say it; None exactly where nothing is certified there, or
    /// the kind has no such slots.
    pub fn certified<K: CertKind>(&self, slot: Slot) -> Option<Statement<'_>>
        ensures { option_map stmt result ≡ option_and_then (certified.certified_on self.now.pool) (slot_at K.kind slot) }
    {
        self.heard.quorums().certified(K::number(), &slot)
    }

    /// The certificate of that kind and slot; None exactly where nothing is certified there, or the kind has no such slots.
    pub fn certificate<K: CertKind>(&self, slot: Slot) -> Option<Certificate<'_, K>>
        ensures content { option_map content_of result ≡ option_and_then (certified.certified_on self.now.pool) (slot_at K.kind slot) }
        ensures signers { IfSome result (λ c. signers_of c ≡ sorted by_number (certified.backers self.now.pool (content_of c))) }
        ensures enough { IfSome result (λ c. quorum (certified.number_of_members self.now.pool) ≤ length (signers_of c)) }
    {
        let quorums = self.heard.quorums();
        match quorums.certificate(K::number(), &slot) {
            Some((content, signers)) => Some(Certificate {
                content,
                signers,
                kind: PhantomData,
            }),
            None => None,
        }
    }

    /// How many members' heard claims on the statement's slot say the same: 0 to 16.
    pub fn count(&self, statement: &Statement<'_>) -> u8
        requires { IsStatement (stmt statement.now) }
        ensures { result ≡ length (certified.backers self.now.pool (stmt statement.now)) }
    {
        let quorums = self.heard.quorums();
        let _members = quorums.claims().view().members();
        quorums.count(statement) as u8
    }

    /// Whether more than f members' heard claims notify the update.
    pub fn is_notified(&self, update: Update) -> bool
        ensures { result ≡ certified.is_notified self.now.pool (update_of update) }
    {
        self.notified().contains(update)
    }

    /// The updates that more than f members' heard claims notify.
    pub fn notified(&self) -> &UpdateSet
        ensures { (u : updates.Update) → has_update result.now u ≡ certified.is_notified self.now.pool u }
    {
        self.heard.notified()
    }

    /// The placed length: how many places are certified from the first on, 0 to 1,024.
    pub fn placed_len(&self) -> u16
        ensures { result ≡ length (certified.placed self.now.pool) }
    {
        self.heard.placed()
    }

    /// The batch of the place, where that and all places before it are certified; None exactly where one is not.
    pub fn batch_at(&self, place: u16) -> Option<Batch>
        ensures { result ≡ slice_get (certified.placed self.now.pool) place }
    {
        self.heard.batch(place)
    }

    /// For each member, in rank order, how many of its messages the batches of the places before this one name. The place is
    /// at most the placed length.
    pub fn names_before(&self, place: u16) -> &[u16]
        requires { place ≤ length (certified.placed self.now.pool) }
        ensures { result.now ≡ map (λ m. certified.named m
            (certified.messages (take place (certified.placed self.now.pool)))) self.now.pool.view.members }
    {
        self.heard.names_before(place)
    }

    /// The fixed length: the greatest kept place + 1, or 0 where none is kept.
    pub fn fixed_len(&self) -> u16
        ensures { result ≡ certified.fixed_length self.now.pool }
    {
        self.heard.fixed()
    }

    /// The least number from which on none of the process's Inits of the view is heard: 0, or the greatest heard number + 1.
    pub fn inits_end(&self, sender: Pid) -> u16
        ensures { IsInitsEnd self.now.pool sender result }
    {
        self.heard.inits_end(sender)
    }
}
