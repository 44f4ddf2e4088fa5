ghost use Rattle.std.specs.Prelude.{◌≡◌, ◌+◌, ◌≤◌, ◌<◌, ◌&&◌, ℕ, None, false, length, replicate, take, slice_get, OnOk, IfOk};
ghost use Rattle.std.specs.Option.{option_map};
ghost use Rattle.byte_defs.specs.Choices.{is_some_and};
ghost use Rattle.message_defs.specs.Spelling.{IsStatement};
ghost use Rattle.message_defs.specs.Updates as updates;
ghost use Rattle.message_defs.specs.Statements as plain;
ghost use Rattle.group_defs.specs.Process.{Pool};
ghost use Rattle.group_defs.specs.Certified as defs;
ghost use Rattle.placed_batches.specs.Counting.{counts_in};
ghost use Rattle.rp_base.specs.Views.{update as update_of};
ghost use Rattle.slot_quorums.specs.Statements.{stmt, claim as claim_of};
ghost use Rattle.slot_quorums.specs.Claims.{claim_bytes, empty_pool, with_heard};
ghost use Rattle.pool_values.specs.Updates.{has_update, AreNotified, notified_said};
ghost use Rattle.pool_values.specs.Places.{ArePlaced, is_place_of, placed_in, after_one};
ghost use Rattle.pool_values.specs.Ends.{IsInitsEnd};

use crate::ends::{PROCESSES, note_init};
use crate::updates::UpdateSet;
use placed_batches::PlacedBatches;
use rp_base::{NoMemory, Pid, Update};
use slot_quorums::{Batch, Claim, MOST_PLACES, Quorums, Slot, Statement, View, faulty};
use std::alloc::Global;
use std::marker::Model;
use std::mem;

/// The number of the kind Place.
const PLACE: u8 = 4;

/// The heard claims of a view, its places that are certified from the first on, how far they are kept, the updates that more
/// than f members notify, and how far the Inits of each process are heard.
pub struct Places {
    quorums: Quorums,
    prefix: PlacedBatches,
    fixed: u16,
    notified: UpdateSet,
    ends: [u16; PROCESSES],

    // how far all this was at the mark
    marked: Reached,
}

// How many places are certified from the first on, and what else is kept of the heard claims.
#[derive(Clone, Copy)]
struct Reached {
    placed: u16,
    fixed: u16,
    notified: UpdateSet,
    ends: [u16; PROCESSES],
}

// Written out, so that whoever drops a value makes one call (docs/CONTRIBUTING.md).
impl Drop for Places {
    fn drop(self) {
        let Places {
            quorums,
            prefix,
            fixed: _,
            notified: _,
            ends: _,
            marked: _,
        } = self;
        mem::drop(quorums);
        mem::drop(prefix);
    }
}

// Where nothing is heard.
fn nothing() -> Reached
    ensures placed { result.placed ≡ 0 }
    ensures fixed { result.fixed ≡ 0 }
    ensures notified { (u : updates.Update) → has_update result.notified u ≡ false }
    ensures ends { result.ends ≡ replicate 64 0 }
{
    Reached {
        placed: 0,
        fixed: 0,
        notified: UpdateSet::new(),
        ends: [0; PROCESSES],
    }
}

impl Model for Places {
    ghost use Rattle.slot_quorums.specs.Claims.{Holding};
    ghost use Rattle.pool_values.specs.Places.{AreMarkedCounted};

    ghost Value = { Holding };

    ghost view = { λ p. p.quorums };

    ghost invariant = { λ p. AreMarkedCounted p.quorums.pool p.quorums.marked p.prefix p.fixed p.notified p.ends p.marked };
}

// The batch of an Order, a Place or a Keep.
fn batch_of(statement: &Statement<'_>) -> Option<Batch>
    ensures { result ≡ plain.batch_of (stmt statement.now) }
{
    match *statement {
        Statement::Order { batch, .. }
        | Statement::Place { batch, .. }
        | Statement::Keep { batch, .. } => Some(batch),
        _ => None,
    }
}

// The batch that is certified of the place.
fn batch_at(quorums: &Quorums, place: u16) -> Option<Batch>
    ensures { result ≡ defs.place_at quorums.now.pool place }
{
    let view = quorums.claims().view().number();
    match quorums.certified(PLACE, &Slot::Place { view, place }) {
        Some(statement) => batch_of(&statement),
        None => None,
    }
}

// Puts the batches of the places that are certified now after those before. It is called where a place is certified, and kept apart
// from what is called for each claim.
#[inline(never)]
fn follow(quorums: &Quorums, prefix: &mut PlacedBatches)
    requires view { prefix.old.view ≡ quorums.now.pool.view }
    requires placed { ArePlaced quorums.now.pool prefix.old.batches }
    ensures { prefix.new ≡ placed_in quorums.now.pool }
{
    'places: while prefix.len() < MOST_PLACES {
        let Some(batch) = batch_at(quorums, prefix.len()) else {
            return;
        };
        prefix.push(batch);
    }
}

// Whether the statement is certified, and a Place of this place.
fn is_placed_at(quorums: &Quorums, statement: &Statement<'_>, place: u16) -> bool
    requires { IsStatement (stmt statement.now) }
    ensures { result ≡ (is_place_of place (stmt statement.now) && defs.is_certified quorums.now.pool (stmt statement.now)) }
{
    match *statement {
        Statement::Place { place: of, .. } => of == place && quorums.is_certified(statement),
        _ => false,
    }
}

// Puts the batches of the places that are certified with this claim, the last that was heard, after those before. There is one only
// where the claim is a Place of the next place, and is certified itself.
fn follow_claim(quorums: &Quorums, statement: &Statement<'_>, prefix: &mut PlacedBatches)
    requires range { IsStatement (stmt statement.now) }
    requires view { prefix.old.view ≡ quorums.now.pool.view }
    requires placed { ArePlaced quorums.now.pool prefix.old.batches }
    ensures { (h : Pool) (c : plain.Claim) → quorums.now.pool ≡ with_heard h c → c.statement ≡ stmt statement.now
        → defs.claim_on h.heard c.signer (plain.slot_of c.statement) ≡ None → 1 ≤ defs.number_of_members h → prefix.old ≡ placed_in h
        → prefix.new ≡ placed_in quorums.now.pool }
{
    if is_placed_at(quorums, statement, prefix.len()) {
        follow(quorums, prefix);
    }
}

// How far the places are kept with this claim, the last that was heard.
fn fixed_with(quorums: &Quorums, fixed: u16, statement: &Statement<'_>) -> u16
    requires { IsStatement (stmt statement.now) }
    ensures { result ≡ after_one fixed (defs.place_kept quorums.now.pool (stmt statement.now)) }
{
    let Statement::Keep { place, .. } = *statement else {
        return fixed;
    };
    if place < fixed {
        return fixed;
    }
    if quorums.is_certified(statement) {
        place + 1
    } else {
        fixed
    }
}

// Whether more than f members notify the update. It is called for a Notify alone, and kept apart from what is called for each claim.
#[inline(never)]
fn is_notified(quorums: &Quorums, update: Update) -> bool
    ensures { result ≡ defs.is_notified quorums.now.pool (update_of update) }
{
    let claims = quorums.claims();
    let view = claims.view().number();
    let backers = quorums.count(&Statement::Notify { view, update });
    faulty(claims.view().members().len()) < backers
}

// The update that a Notify names.
fn update_said(statement: &Statement<'_>) -> Option<Update>
    ensures { option_map update_of result ≡ defs.update_said (stmt statement.now) }
{
    match *statement {
        Statement::Notify { update, .. } => Some(update),
        _ => None,
    }
}

// Whether more than f members notify the update that the statement names.
fn is_reported_enough(quorums: &Quorums, statement: &Statement<'_>) -> bool
    ensures { result ≡ is_some_and (defs.update_said (stmt statement.now)) (defs.is_notified quorums.now.pool) }
{
    match update_said(statement) {
        Some(update) => is_notified(quorums, update),
        None => false,
    }
}

// The update that the statement names, where more than f members notify it.
fn notified_by(quorums: &Quorums, statement: &Statement<'_>) -> Option<Update>
    ensures { option_map update_of result ≡ notified_said quorums.now.pool (stmt statement.now) }
{
    if is_reported_enough(quorums, statement) {
        update_said(statement)
    } else {
        None
    }
}

// Notes the update of the claim, the last that was heard, where more than f members notify it now.
fn note_update(quorums: &Quorums, statement: &Statement<'_>, notified: &mut UpdateSet)
    ensures { (h : Pool) (c : plain.Claim) → quorums.now.pool ≡ with_heard h c → c.statement ≡ stmt statement.now
        → defs.claim_on h.heard c.signer (plain.slot_of c.statement) ≡ None → AreNotified h notified.old
        → AreNotified quorums.now.pool notified.new }
{
    if let Some(update) = notified_by(quorums, statement) {
        notified.insert(update);
    }
}

// The same view, which takes no memory.
fn copy_of(view: &View) -> View
    ensures { result ≡ view.now }
{
    let Ok(copy) = view.clone() else {
        unreachable!()
    };
    copy
}

impl Places {
    /// Nothing is heard of the view yet.
    pub fn new(alloc: Global, view: View) -> Result<Places, NoMemory>
        ensures pool { IfOk result (λ p. p.pool ≡ empty_pool view) }
        ensures marked { IfOk result (λ p. p.marked ≡ empty_pool view) }
    {
        let prefix = PlacedBatches::new(alloc, copy_of(&view))?;
        let quorums = Quorums::new(alloc, view);
        let notified = UpdateSet::new();
        Ok(Places {
            quorums,
            prefix,
            fixed: 0,
            notified,
            ends: [0; PROCESSES],
            marked: nothing(),
        })
    }

    /// Forgets what is heard, and turns to this view, with the mark at nothing.
    pub fn turn_to(&mut self, view: View)
        ensures pool { self.new.pool ≡ empty_pool view }
        ensures marked { self.new.marked ≡ empty_pool view }
        ensures claims { self.old.claims_left ≤ self.new.claims_left }
        ensures bytes { self.old.bytes_left ≤ self.new.bytes_left }
    {
        self.prefix.turn_to(copy_of(&view));
        self.quorums.turn_to(view);
        self.fixed = 0;
        self.notified = UpdateSet::new();
        self.ends = [0; PROCESSES];
        self.marked = nothing();
    }

    /// Marks what is heard.
    pub fn mark(&mut self)
        ensures same { self.new.pool ≡ self.old.pool }
        ensures marked { self.new.marked ≡ self.old.pool }
    {
        self.quorums.mark();
        self.marked = Reached {
            placed: self.prefix.len(),
            fixed: self.fixed,
            notified: self.notified,
            ends: self.ends,
        };
    }

    /// Forgets what was heard after the mark.
    pub fn rewind(&mut self)
        ensures pool { self.new.pool ≡ self.old.marked }
        ensures marked { self.new.marked ≡ self.old.marked }
    {
        self.quorums.rewind();
        self.prefix.truncate(self.marked.placed);
        self.fixed = self.marked.fixed;
        self.notified = self.marked.notified;
        self.ends = self.marked.ends;
    }

    /// Makes room for `claims` claims more, with `bytes` bytes in all.
    pub fn reserve(&mut self, claims: usize, bytes: usize) -> Result<(), NoMemory>
        ensures same { self.new.pool ≡ self.old.pool }
        ensures marked { self.new.marked ≡ self.old.marked }
        ensures room { OnOk result ((claims ≤ self.new.claims_left) × (bytes ≤ self.new.bytes_left)) }
        ensures kept { (self.old.claims_left ≤ self.new.claims_left) × (self.old.bytes_left ≤ self.new.bytes_left) }
    {
        self.quorums.reserve(claims, bytes)
    }

    /// The heard claims, and what is certified of each slot.
    pub fn quorums(&self) -> &Quorums
        ensures { result.now ≡ self.now }
    {
        &self.quorums
    }

    /// How many places are certified from the first on.
    pub fn placed(&self) -> u16
        ensures { result ≡ length (defs.placed self.now.pool) }
    {
        self.prefix.len()
    }

    /// The batch of the place, where that and all places before it are certified; None exactly where one is not.
    pub fn batch(&self, place: u16) -> Option<Batch>
        ensures { result ≡ slice_get (defs.placed self.now.pool) place }
    {
        self.prefix.batch(place)
    }

    /// For each member, in rank order, how many of its messages the batches of the places before this one name.
    pub fn names_before(&self, place: u16) -> &[u16]
        requires { place ≤ length (defs.placed self.now.pool) }
        ensures { result.now ≡ counts_in self.now.pool.view (defs.messages (take place (defs.placed self.now.pool))) }
    {
        self.prefix.names_before(place)
    }

    /// The greatest kept place + 1, or 0.
    pub fn fixed(&self) -> u16
        ensures { result ≡ defs.fixed_length self.now.pool }
    {
        self.fixed
    }

    /// The updates that more than f members notify.
    pub fn notified(&self) -> &UpdateSet
        ensures { (u : updates.Update) → has_update result.now u ≡ defs.is_notified self.now.pool u }
    {
        &self.notified
    }

    /// The least number from which on none of the process's Inits of the view is heard: 0, or the greatest heard number + 1.
    pub fn inits_end(&self, sender: Pid) -> u16
        ensures { IsInitsEnd self.now.pool sender result }
    {
        self.ends[sender.get() as usize]
    }

    /// Hears a claim whose signer has none on the slot.
    pub fn add(&mut self, claim: &Claim<'_>)
        requires range { IsStatement (stmt claim.now.statement) }
        requires short { length claim.now.signature.now ≤ 16384 }
        requires fresh { defs.claim_on self.old.pool.heard claim.now.signer (plain.slot_of (stmt claim.now.statement)) ≡ None }
        requires claims { 1 ≤ self.old.claims_left }
        requires bytes { claim_bytes (claim_of claim.now) ≤ self.old.bytes_left }
        ensures heard { self.new.pool ≡ with_heard self.old.pool (claim_of claim.now) }
        ensures marked { self.new.marked ≡ self.old.marked }
        ensures claims_left { self.old.claims_left ≤ self.new.claims_left + 1 }
        ensures bytes_left { self.old.bytes_left ≤ self.new.bytes_left + claim_bytes (claim_of claim.now) }
    {
        let view = self.quorums.claims().view().number();
        self.quorums.add(claim);
        follow_claim(&self.quorums, &claim.statement, &mut self.prefix);
        let fixed = fixed_with(&self.quorums, self.fixed, &claim.statement);
        note_update(&self.quorums, &claim.statement, &mut self.notified);
        note_init(view, claim, &mut self.ends);
        self.fixed = fixed;
    }
}
