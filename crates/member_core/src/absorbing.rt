//! The event of a journal's entry, taken again with the signatures that the journal keeps.
ghost use Rattle.std.specs.Prelude.{◌≡◌, ◌+◌, ◌^◌, ◌<◌, ◌≤◌, ◌↔◌, ℕ, All, List, length, map, IfOk, OnErr, OnOk, IsOkUnless, IsTrue, SomeIff};
ghost use Rattle.std.specs.List.{list_all};
ghost use Rattle.message_defs.specs.Statements as plain;
ghost use Rattle.message_defs.specs.Spelling.{IsStatement};
ghost use Rattle.message_defs.specs.Packing.{signed_of};
ghost use Rattle.group_defs.specs.Process.{Setting, Process};
ghost use Rattle.group_defs.specs.Hearing as hearing;
ghost use Rattle.member_events.specs.Below.{signed};
ghost use Rattle.member_events.specs.Kept.{signatures_left};
ghost use Rattle.member_sending.specs.Below.{Shares};
ghost use Rattle.group_defs.specs.Events as defs;
ghost use Rattle.member_signing.specs.States.{event as event_of, IsOutcome};
ghost use Rattle.member_core.specs.Cores.{IsCore, IsKeyless, Takes, left_of, me_of, signer_of};
ghost use Rattle.member_core.specs.Entries.{Agrees, Absorbs};

use crate::attempts::attempt;
use crate::journalled::Journalled;
use crate::member::{Core, Keyless};
use member_events::{Claim, Entry, EntrySignatures, Outcome, OwnClaim, read_statement};
use member_sending::{Judge, is_signed};
use rp_base::{NoMemory, Scheme, Tally};

/// Why an entry of a journal was not absorbed.
#[derive(Clone, Copy, Debug, PartialEq, Eq)]
pub enum AbsorbFault {
    /// The process cannot have written this entry: it would have signed more or fewer statements, or would have lacked a signature
    /// where the entry says otherwise, or a signature is not valid, or the key had fewer left. Whoever wrote the journal is to blame.
    Differs,

    /// Memory ran out, which is nobody's fault.
    NoMemory,
}

// Whether the claim's signature is valid under its signer's key in the roster. Nobody has signed bytes that are no statement.
fn is_valid<V: Scheme>(judge: &Judge<'_, V>, own: &OwnClaim) -> bool
    ensures { (s : Setting) (c : plain.Claim) → Shares s (V.valid judge.now.scheme.now) judge.now.group.now judge.now.roster.now
        → IsStatement c.statement → signed own.now ≡ signed_of c → result ≡ hearing.is_valid s c }
{
    let bytes = own.statement.bytes();
    let Ok(statement) = read_statement(bytes) else {
        return false;
    };
    let signer = own.signer;
    let signature = own.signature.bytes();
    let claim = Claim {
        signer,
        statement,
        signature,
    };
    is_signed(judge.scheme, judge.roster, judge.group, &claim)
}

// Whether the signature of each claim is valid.
fn are_valid<V: Scheme>(judge: &Judge<'_, V>, claims: &[OwnClaim]) -> bool
    ensures { (s : Setting) (cs : List plain.Claim) → Shares s (V.valid judge.now.scheme.now) judge.now.group.now judge.now.roster.now
        → All (λ c. IsStatement c.statement) cs → map signed claims.now ≡ map signed_of cs → result ≡ list_all (hearing.is_valid s) cs }
{
    'claims: for own in claims {
        if !is_valid(judge, own) {
            return false;
        }
    }
    true
}

// How many signatures they are, where there are not more than this.
fn count_up_to(signatures: EntrySignatures<'_>, most: u32) -> Option<u32>
    ensures { SomeIff result (length (signatures_left signatures.entry) ≤ most) (length (signatures_left signatures.entry)) }
{
    let mut left = signatures;
    let mut count = 0;
    'signatures: while let Some(_signature) = left.next() {
        if count == most {
            return None;
        }
        count += 1;
    }
    Some(count)
}

// Whether `count` signatures were made, and one was missing exactly where `spent` says so.
fn fits(outcome: &Outcome, count: usize, spent: bool) -> bool
    ensures { IsTrue result ↔ ((length outcome.now.signed.items ≡ count) × (outcome.now.spent ≡ spent)) }
{
    outcome.signed.len() == count && outcome.spent == spent
}

// Whether what came of the event is what the entry says: it has `count` signatures, each of them valid, and one was missing exactly
// where `spent` says so.
fn agrees<V: Scheme>(judge: &Judge<'_, V>, outcome: &Outcome, count: usize, spent: bool) -> bool
    ensures { (s : Setting) (o : defs.Outcome) → Shares s (V.valid judge.now.scheme.now) judge.now.group.now judge.now.roster.now
        → All (λ c. IsStatement c.statement) o.signed → IsOutcome o outcome.now
        → IsTrue result ↔ ((length o.signed ≡ count) × (o.spent ≡ spent) × IsTrue (list_all (hearing.is_valid s) o.signed)) }
{
    if !fits(outcome, count, spent) {
        return false;
    }
    are_valid(judge, &outcome.signed)
}

impl Keyless {
    // Takes the entry's event with a signer that hands out the entry's signatures, of which there are `count`; the process made `made`
    // before.
    fn retake<V: Scheme>(
        &mut self,
        scheme: &V,
        entry: &Entry<'_>,
        made: u32,
        count: u32,
    ) -> Result<Outcome, AbsorbFault>
        requires count { count ≡ length (signatures_left entry.now.signatures) }
        requires fits { made + count < 2 ^ 32 }
        ensures absorbs { (s : Setting) (p : Process) (left : ℕ) → IsKeyless s p self.old → s.valid ≡ V.valid scheme.now
            → length p.signed ≡ made → count ≤ left
            → IfOk result (λ r. Agrees s p left (event_of entry.now.event) (signatures_left entry.now.signatures) entry.now.spent
            × Takes s p (defs.journalled p (event_of entry.now.event) (signatures_left entry.now.signatures)) self.new (made + count) r) }
        ensures only { (s : Setting) (p : Process) (left : ℕ) → IsKeyless s p self.old → s.valid ≡ V.valid scheme.now
            → length p.signed ≡ made
            → Agrees s p left (event_of entry.now.event) (signatures_left entry.now.signatures) entry.now.spent
            → IsOkUnless result AbsorbFault.NoMemory }
        ensures lost { (s : Setting) (p : Process) → IsKeyless s p self.old → OnErr result (IsKeyless s p self.new) }
    {
        let mut signer = Journalled::new(entry.signatures, made, made + count);
        let judge = Judge {
            scheme,
            roster: &self.roster,
            group: &self.group,
        };
        let frames = &mut self.frames;
        let Ok(outcome) = attempt(
            &mut self.state,
            self.alloc,
            &judge,
            &mut signer,
            &mut self.rooms,
            frames,
            &entry.event,
        ) else {
            return Err(AbsorbFault::NoMemory);
        };
        if !agrees(&judge, &outcome, count as usize, entry.spent) {
            self.state.rewind(&mut self.rooms.before);
            return Err(AbsorbFault::Differs);
        }
        self.state.go_on();
        Ok(outcome)
    }
}

impl<G: Tally + Drop> Core<G> {
    // How many signatures may still be made. The count stays within the range of the type with them.
    fn left(&self) -> u32
        ensures value { result ≡ left_of G.used G.total self.now }
        ensures used { G.used (signer_of self.now) + result < 2 ^ 32 }
        ensures total { G.used (signer_of self.now) + result ≤ G.total (signer_of self.now) }
    {
        let used = self.signer.used();
        self.signer.total() - used
    }

    /// The event of an entry of this process, taken again with the entry's signatures in place of new ones: the process after it and
    /// what comes of it are the definitions'. The signer counts as many signatures more as the entry has. A journal may host several
    /// processes: whose entry it is, the caller looks.
    ///
    /// After a fault the process and its key are as they were.
    ///
    /// # Errors
    /// [`AbsorbFault::Differs`] exactly where the process with these signatures signs more or fewer statements than there are, or
    /// lacks a further one where the entry's `spent` says otherwise; or a signature is not valid for its claim; or
    /// the key has fewer signatures left.
    /// [`AbsorbFault::NoMemory`].
    pub fn absorb<V: Scheme>(
        &mut self,
        scheme: &V,
        entry: &Entry<'_>,
    ) -> Result<Outcome, AbsorbFault>
        requires whose { entry.now.process ≡ me_of self.old }
        ensures absorbs { (s : Setting) (p : Process) → IsCore G.used s p self.old → s.valid ≡ V.valid scheme.now
            → IfOk result (Absorbs G.used s p (left_of G.used G.total self.old) self.new (event_of entry.now.event)
            (signatures_left entry.now.signatures) entry.now.spent) }
        ensures only { (s : Setting) (p : Process) → IsCore G.used s p self.old → s.valid ≡ V.valid scheme.now
            → Agrees s p (left_of G.used G.total self.old) (event_of entry.now.event)
            (signatures_left entry.now.signatures) entry.now.spent → IsOkUnless result AbsorbFault.NoMemory }
        ensures lost { (s : Setting) (p : Process) → IsCore G.used s p self.old → OnErr result (IsCore G.used s p self.new) }
        ensures kept { OnErr result (signer_of self.new ≡ signer_of self.old) }
        ensures used { OnOk result (G.used (signer_of self.new)
            ≡ G.used (signer_of self.old) + length (signatures_left entry.now.signatures)) }
        ensures total { OnOk result (G.total (signer_of self.new) ≡ G.total (signer_of self.old)) }
        ensures key { OnOk result (G.same_key (signer_of self.old) (signer_of self.new)) }
    {
        let Some(count) = count_up_to(entry.signatures, self.left()) else {
            return Err(AbsorbFault::Differs);
        };
        let used = self.signer.used();
        let outcome = match self.keyless.retake(scheme, entry, used, count) {
            Ok(outcome) => outcome,
            Err(fault) => return Err(fault),
        };
        self.signer.skip_to(used + count);
        Ok(outcome)
    }
}
