ghost use Rattle.std.specs.Prelude.{◌≡◌, ◌+◌, ◌≤◌, ◌<◌, ◌++◌, [], Some, None, cond, length, nat_le, OnOk, IfSome, option_and_then};
ghost use Rattle.std.specs.List.{AllByRecursion};
ghost use Rattle.std.specs.Vec.{vec_len, vec_capacity};
ghost use Rattle.std.specs.Option.{option_map, option_copied};
ghost use Rattle.std.specs.Map.{lookup};
ghost use Rattle.indexmap.specs.IndexMap.{spare};
ghost use Rattle.byte_defs.specs.Choices.{is_some_and};
ghost use Rattle.byte_defs.specs.Orders.{sorted};
ghost use Rattle.message_defs.specs.Spelling.{IsStatement};
ghost use Rattle.message_defs.specs.Statements as plain;
ghost use Rattle.group_defs.specs.Views as views;
ghost use Rattle.group_defs.specs.Certified as defs;
ghost use Rattle.claim_index.specs.Statements.{stmt, slot, claim, claim as claim_of};
ghost use Rattle.claim_index.specs.Keys.{slot_key, same_slot_key};
ghost use Rattle.claim_index.specs.Kept.{by_number, claim_bytes, empty_pool, with_heard};
ghost use Rattle.slot_quorums.specs.Cells.{said_at, IsCell, IsCertifiedBy, IsOf, IsFoundAt};
ghost use Rattle.slot_quorums.specs.Marks.{noted, placed, restored};

use crate::cell::{Cell, cell_with};
use claim_index::{
    Claim, ClaimIndex, KeyHasher, STATEMENT_BYTES, Slot, SlotKey, Statement, View, quorum,
    slot_key_at, slot_key_of, spell_into,
};
use indexmap::IndexMap;
use rp_base::{NoMemory, Pid, PidSet};
use std::alloc::Global;
use std::hash::BuildHasherDefault;
use std::marker::Model;
use std::mem;

// A cell for each slot, found by the slot's key.
type Cells = IndexMap<SlotKey, Cell, BuildHasherDefault<KeyHasher>>;

/// The heard claims of a view, and a cell for each slot on which one is heard. Members are counted where a claim says something else
/// than its slot's cell, and else nowhere.
pub struct Quorums {
    claims: ClaimIndex,
    cells: Cells,

    // how many cells there were at the mark, and those of them that changed since, each by its place and with what it was
    marked: usize,
    changed: Vec<(usize, Cell)>,
}

// Written out, so that whoever drops a value makes one call (docs/CONTRIBUTING.md).
impl Drop for Quorums {
    fn drop(self) {
        let Quorums {
            claims,
            cells,
            marked: _,
            changed,
        } = self;
        mem::drop(claims);
        mem::drop(cells);
        mem::drop(changed);
    }
}

impl Model for Quorums {
    ghost use Rattle.std.specs.Prelude.{◌-◌, length, min};
    ghost use Rattle.std.specs.Vec.{vec_capacity};
    ghost use Rattle.indexmap.specs.IndexMap.{spare};
    ghost use Rattle.claim_index.specs.Kept.{Holding};
    ghost use Rattle.slot_quorums.specs.Marks.{AreMarkedCells};

    ghost Value = { Holding };

    ghost view = { λ p. record {
      pool = p.claims.pool;
      marked = p.claims.marked;
      claims_left = min p.claims.claims_left (min (spare p.cells) (vec_capacity p.changed - length p.changed.items));
      bytes_left = p.claims.bytes_left;
    } };

    ghost invariant = { λ p. AreMarkedCells p.claims.pool p.claims.marked p.cells.entries p.marked p.changed.items };
}

// What is heard on the slot.
fn cell_at<'a>(cells: &'a Cells, key: &SlotKey) -> Option<&'a Cell>
    ensures { option_copied result ≡ lookup (same_slot_key key.now) cells.now.entries }
{
    cells.get(key)
}

// Where the slot's cell is among the cells.
fn place_of(cells: &Cells, key: &SlotKey) -> Option<usize>
    ensures { IsFoundAt cells.now.entries key.now result }
{
    match cells.get_full(key) {
        Some((place, _, _)) => Some(place),
        None => None,
    }
}

// The slot's cell, by where it is.
fn cell_there(cells: &Cells, key: &SlotKey, at: Option<usize>) -> Option<Cell>
    requires { IsFoundAt cells.now.entries key.now at }
    ensures { result ≡ lookup (same_slot_key key.now) cells.now.entries }
{
    match cells.get_index(at?) {
        Some((_, cell)) => Some(*cell),
        None => None,
    }
}

// Puts the cell in the place of the slot's, or after all others where it has none.
fn put(cells: &mut Cells, key: SlotKey, at: Option<usize>, cell: Cell)
    requires spare { 0 < spare cells.old }
    requires at { IsFoundAt cells.old.entries key at }
    ensures looks { (k : SlotKey) → lookup (same_slot_key k) cells.new.entries
        ≡ cond (same_slot_key key k) (Some cell) (lookup (same_slot_key k) cells.old.entries) }
    ensures entries { cells.new.entries ≡ placed cells.old.entries key at cell }
    ensures room { spare cells.old ≤ spare cells.new + 1 }
{
    match at {
        Some(place) => {
            let (_, kept) = cells.pair_mut(place);
            *kept = cell;
        }
        None => {
            let Ok(_) = cells.insert(key, cell) else {
                unreachable!()
            };
        }
    }
}

// Keeps what the cell at this place is, where it was there at the mark.
fn note(changed: &mut Vec<(usize, Cell)>, cells: &Cells, marked: usize, at: Option<usize>)
    requires { vec_len changed.old + 1 ≤ vec_capacity changed.old }
    ensures items { changed.new.items ≡ changed.old.items ++ noted cells.now.entries marked at }
    ensures capacity { vec_capacity changed.old ≤ vec_capacity changed.new }
{
    let Some(place) = at else {
        return;
    };
    if place >= marked {
        return;
    }
    if let Some((_, cell)) = cells.get_index(place) {
        let Ok(()) = changed.push((place, *cell)) else {
            unreachable!()
        };
    }
}

// Puts the changed cells back, the newest first.
fn restore(cells: &mut Cells, changed: &mut Vec<(usize, Cell)>)
    requires { AllByRecursion (λ x. x.0 < length cells.old.entries) changed.old.items }
    ensures cells { cells.new.entries ≡ restored changed.old.items cells.old.entries }
    ensures none { changed.new.items ≡ [] }
{
    'changed: while let Some((place, cell)) = changed.pop() {
        let (_, kept) = cells.pair_mut(place);
        *kept = cell;
    }
}

// Whether the cell's content is this.
fn is_content(claims: &ClaimIndex, cell: &Cell, statement: &Statement<'_>) -> bool
    requires { IsStatement (stmt statement.now) }
    ensures { result ≡ is_some_and (said_at claims.now.pool cell.now.place) (plain.same_statement (stmt statement.now)) }
{
    let mut spelled = [0; STATEMENT_BYTES];
    let said = spell_into(statement, &mut spelled);
    claims.says_at(cell.place(), statement, &spelled[..said])
}

// Hears the claim, the first of its signer on the slot of this key, and answers what the slot's cell becomes.
fn hear(claims: &mut ClaimIndex, cell: Option<Cell>, key: SlotKey, claim: &Claim<'_>) -> Cell
    requires range { IsStatement (stmt claim.now.statement) }
    requires short { length claim.now.signature.now ≤ 16384 }
    requires slot { key ≡ slot_key (plain.slot_of (stmt claim.now.statement)) }
    requires fresh { defs.claim_on claims.old.pool.heard claim.now.signer (plain.slot_of (stmt claim.now.statement)) ≡ None }
    requires claims { 1 ≤ claims.old.claims_left }
    requires bytes { claim_bytes (claim_of claim.now) ≤ claims.old.bytes_left }
    requires cell { IsOf claims.old.pool (plain.slot_of (stmt claim.now.statement)) cell }
    ensures heard { claims.new.pool ≡ with_heard claims.old.pool (claim_of claim.now) }
    ensures marked { claims.new.marked ≡ claims.old.marked }
    ensures claims_left { claims.old.claims_left ≤ claims.new.claims_left + 1 }
    ensures bytes_left { claims.old.bytes_left ≤ claims.new.bytes_left + claim_bytes (claim_of claim.now) }
    ensures cell { IsCell claims.new.pool (plain.slot_of (stmt claim.now.statement)) result }
{
    // The bytes come first, so that they are cleared once.
    let mut spelled = [0; STATEMENT_BYTES];
    let said = spell_into(&claim.statement, &mut spelled);
    let (place, _) = claims.size();
    claims.add(claim, key, &spelled[..said]);
    cell_with(claims, cell, place, claim, &spelled[..said])
}

// Whether a quorum says the cell's content.
fn is_enough(claims: &ClaimIndex, cell: &Cell) -> bool
    ensures { result ≡ nat_le (views.quorum (defs.number_of_members claims.now.pool)) (length cell.now.backers) }
{
    quorum(claims.view().members().len()) <= cell.count()
}

impl Quorums {
    ghost use Rattle.claim_index.specs.declared.key.SlotKey.{SlotKey};

    /// Nothing is heard of the view yet.
    pub fn new(alloc: Global, view: View) -> Quorums
        ensures pool { result.pool ≡ empty_pool view }
        ensures marked { result.marked ≡ empty_pool view }
    {
        Quorums {
            claims: ClaimIndex::new(alloc, view),
            cells: IndexMap::with_hasher(alloc, BuildHasherDefault::new()),
            marked: 0,
            changed: Vec::new(alloc),
        }
    }

    /// Forgets what is heard, and turns to this view, with the mark at nothing.
    pub fn turn_to(&mut self, view: View)
        ensures pool { self.new.pool ≡ empty_pool view }
        ensures marked { self.new.marked ≡ empty_pool view }
        ensures claims { self.old.claims_left ≤ self.new.claims_left }
        ensures bytes { self.old.bytes_left ≤ self.new.bytes_left }
    {
        self.claims.turn_to(view);
        self.cells.clear();
        self.marked = 0;
        self.changed.clear();
    }

    /// Marks what is heard.
    pub fn mark(&mut self)
        ensures same { self.new.pool ≡ self.old.pool }
        ensures marked { self.new.marked ≡ self.old.pool }
    {
        self.claims.mark();
        self.marked = self.cells.len();
        self.changed.clear();
    }

    /// Forgets what was heard after the mark.
    pub fn rewind(&mut self)
        ensures pool { self.new.pool ≡ self.old.marked }
        ensures marked { self.new.marked ≡ self.old.marked }
    {
        self.claims.rewind();
        self.cells.truncate(self.marked);
        restore(&mut self.cells, &mut self.changed);
    }

    /// Makes room for `claims` claims more, with `bytes` bytes in all.
    pub fn reserve(&mut self, claims: usize, bytes: usize) -> Result<(), NoMemory>
        ensures same { self.new.pool ≡ self.old.pool }
        ensures marked { self.new.marked ≡ self.old.marked }
        ensures room { OnOk result ((claims ≤ self.new.claims_left) × (bytes ≤ self.new.bytes_left)) }
        ensures kept { (self.old.claims_left ≤ self.new.claims_left) × (self.old.bytes_left ≤ self.new.bytes_left) }
    {
        self.claims.reserve(claims, bytes)?;
        self.cells.reserve(claims)?;
        self.changed.reserve(claims)?;
        Ok(())
    }

    /// The heard claims alone.
    pub fn claims(&self) -> &ClaimIndex
        ensures { result.now.pool ≡ self.now.pool }
    {
        &self.claims
    }

    // The cell of that kind and slot, where its content is certified.
    fn certified_cell(&self, kind: u8, about: &Slot) -> Option<&Cell>
        ensures { IsCertifiedBy self.now.pool (slot kind about.now) (option_copied result) }
    {
        let key = slot_key_at(kind, about)?;
        let cell = cell_at(&self.cells, &key)?;
        if is_enough(&self.claims, cell) {
            Some(cell)
        } else {
            None
        }
    }

    /// What is certified of that kind and slot; None exactly where nothing is, or the kind has no such slots.
    pub fn certified(&self, kind: u8, about: &Slot) -> Option<Statement<'_>>
        ensures value { option_map stmt result ≡ option_and_then (defs.certified_on self.now.pool) (slot kind about.now) }
        ensures range { IfSome result (λ st. IsStatement (stmt st)) }
    {
        let cell = self.certified_cell(kind, about)?;
        self.claims.said_at(cell.place())
    }

    /// What is certified of that kind and slot, with the members who say it; None exactly where nothing is, or the kind has no such slots.
    pub fn certificate(&self, kind: u8, about: &Slot) -> Option<(Statement<'_>, PidSet)>
        ensures value { option_map (λ c. stmt c.0) result ≡ option_and_then (defs.certified_on self.now.pool) (slot kind about.now) }
        ensures signers { IfSome result (λ c. c.1 ≡ sorted by_number (defs.backers self.now.pool (stmt c.0))) }
    {
        let cell = self.certified_cell(kind, about)?;
        match self.claims.said_at(cell.place()) {
            Some(statement) => Some((statement, cell.backers())),
            None => None,
        }
    }

    /// Whether the signer's heard claim on the statement's slot says the same; None where there is none.
    pub fn repeats(&self, signer: Pid, statement: &Statement<'_>) -> Option<bool>
        requires { IsStatement (stmt statement.now) }
        ensures { result ≡ option_map (plain.same_statement (stmt statement.now))
            (defs.heard_on self.now.pool signer (plain.slot_of (stmt statement.now))) }
    {
        let cell = cell_at(&self.cells, &slot_key_of(statement))?;
        if cell.has_heard(signer) {
            self.claims.repeats(signer, statement)
        } else {
            None
        }
    }

    /// How many members say this.
    pub fn count(&self, statement: &Statement<'_>) -> usize
        requires { IsStatement (stmt statement.now) }
        ensures { result ≡ length (defs.backers self.now.pool (stmt statement.now)) }
    {
        let Some(cell) = cell_at(&self.cells, &slot_key_of(statement)) else {
            return 0;
        };
        if is_content(&self.claims, cell, statement) {
            cell.count()
        } else {
            self.claims.count(statement)
        }
    }

    /// Whether a quorum of the members says this.
    pub fn is_certified(&self, statement: &Statement<'_>) -> bool
        requires { IsStatement (stmt statement.now) }
        ensures { result ≡ defs.is_certified self.now.pool (stmt statement.now) }
    {
        // A view has members, so that nobody is no quorum.
        let _members = self.claims.view().members();
        let Some(cell) = cell_at(&self.cells, &slot_key_of(statement)) else {
            return false;
        };
        is_enough(&self.claims, cell) && is_content(&self.claims, cell, statement)
    }

    /// Hears a claim whose signer has none on the slot.
    pub fn add(&mut self, claim: &Claim<'_>)
        requires range { IsStatement (stmt claim.now.statement) }
        requires short { length claim.now.signature.now ≤ 16384 }
        requires fresh { defs.claim_on self.old.pool.heard claim.now.signer (plain.slot_of (stmt claim.now.statement)) ≡ None }
        requires claims { 1 ≤ self.old.claims_left }
        requires bytes { claim_bytes (claim_of claim.now) ≤ self.old.bytes_left }
        ensures heard { self.new.pool ≡ with_heard self.old.pool (claim_of claim.now) }
        ensures marked { self.new.marked ≡ self.old.marked }
        ensures claims_left { self.old.claims_left ≤ self.new.claims_left + 1 }
        ensures bytes_left { self.old.bytes_left ≤ self.new.bytes_left + claim_bytes (claim_of claim.now) }
    {
        let key = slot_key_of(&claim.statement);
        let at = place_of(&self.cells, &key);
        note(&mut self.changed, &self.cells, self.marked, at);
        let was = cell_there(&self.cells, &key, at);
        let _number = self.claims.view().number();
        let cell = hear(&mut self.claims, was, key, claim);
        put(&mut self.cells, key, at, cell);
    }
}
