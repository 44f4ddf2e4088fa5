ghost use Rattle.std.specs.Prelude.{◌≡◌, ◌+◌, ◌≤◌, ◌<◌, ℕ, true, false, not, [], ◌∷◌, ◌++◌, OnOk};
ghost use Rattle.std.specs.List.{list_any};
ghost use Rattle.byte_defs.specs.Choices.{is_some_and};
ghost use Rattle.message_defs.specs.Limits.{most_places};
ghost use Rattle.message_defs.specs.Statements.{InitAt, EchoAt, PlaceAt, KeepAt, slot_of};
ghost use Rattle.claim_index.specs.Statements.{stmt, message, slot as slot_at};
ghost use Rattle.claim_index.specs.Keys.{slot_key, same_slot_key};
ghost use Rattle.pool_laws.specs.Least.{IsLeastBelow};
ghost use Rattle.own_place.specs.Signed.{has_slot};
ghost use Rattle.own_place.specs.Rows.{slot_in};

use crate::rows::{ROWS, Row, row_of};
use claim_index::{
    KeyHasher, MOST_PLACES, NoMemory, Pid, Slot, SlotKey, Statement, slot_key_at, slot_key_of,
};
use indexmap::IndexSet;
use std::alloc::Global;
use std::hash::BuildHasherDefault;
use std::marker::Model;
use std::mem;

// The keys of slots, hashed as those of heard claims are.
type Keys = IndexSet<SlotKey, BuildHasherDefault<KeyHasher>>;

/// The slots that a process has signed in its view, each once, in order of signing. Contracts see them as that list, with those that
/// were signed at a mark, and with how many more are noted without memory.
pub struct SignedSlots {
    keys: Keys,

    // the view whose rows are followed, and for each of them a number below which all slots are signed
    view: u16,
    reached: [u16; ROWS],

    // how many slots there were at the mark
    marked: usize,
}

// Written out, so that whoever drops a value makes one call (docs/CONTRIBUTING.md).
impl Drop for SignedSlots {
    fn drop(self) {
        let SignedSlots {
            keys,
            view: _,
            reached: _,
            marked: _,
        } = self;
        mem::drop(keys);
    }
}

impl Model for SignedSlots {
    ghost use Rattle.std.specs.Prelude.{take};
    ghost use Rattle.indexmap.specs.IndexSet.{spare};
    ghost use Rattle.own_place.specs.Signed.{Signed};

    ghost Value = { Signed };

    ghost view = { λ p. record { slots = p.keys.keys; marked = take p.marked p.keys.keys; left = spare p.keys } };

    ghost use Rattle.own_place.specs.Rows.{AreMarkedRows};

    ghost invariant = { λ p. AreMarkedRows p.keys.keys p.view p.reached p.marked };
}

// Whether the kind and slot are among these.
fn is_among(keys: &Keys, key: &SlotKey) -> bool
    ensures { result ≡ list_any (same_slot_key key.now) keys.now.keys }
{
    keys.contains(key)
}

impl SignedSlots {
    /// Nothing is signed.
    pub fn new(alloc: Global) -> SignedSlots
        ensures slots { result.slots ≡ [] }
        ensures marked { result.marked ≡ [] }
    {
        SignedSlots {
            keys: IndexSet::with_hasher(alloc, BuildHasherDefault::new()),
            view: 0,
            reached: [0; ROWS],
            marked: 0,
        }
    }

    /// Marks what is signed, so that it can be gone back to.
    pub fn mark(&mut self)
        ensures same { self.new.slots ≡ self.old.slots }
        ensures marked { self.new.marked ≡ self.old.slots }
    {
        self.marked = self.keys.len();
    }

    /// Forgets what was signed after the mark. It takes no memory.
    pub fn rewind(&mut self)
        ensures slots { self.new.slots ≡ self.old.marked }
        ensures marked { self.new.marked ≡ self.old.marked }
    {
        self.keys.truncate(self.marked);
        self.reached = [0; ROWS];
    }

    /// Forgets what is signed, as in a view that begins, with the mark at nothing. The room stays.
    pub fn clear(&mut self)
        ensures slots { self.new.slots ≡ [] }
        ensures marked { self.new.marked ≡ [] }
        ensures left { self.old.left ≤ self.new.left }
    {
        self.keys.clear();
        self.reached = [0; ROWS];
        self.marked = 0;
    }

    /// Makes room to note `slots` slots more. Without memory, what is signed is as before.
    pub fn reserve(&mut self, slots: usize) -> Result<(), NoMemory>
        ensures same { self.new.slots ≡ self.old.slots }
        ensures marked { self.new.marked ≡ self.old.marked }
        ensures room { OnOk result (slots ≤ self.new.left) }
        ensures kept { self.old.left ≤ self.new.left }
    {
        self.keys.reserve(slots)?;
        Ok(())
    }

    /// Whether the slot of that kind is signed; false where the kind has no such slots.
    pub fn has_signed(&self, kind: u8, about: &Slot) -> bool
        ensures { result ≡ is_some_and (slot_at kind about.now) (has_slot self.now) }
    {
        match slot_key_at(kind, about) {
            Some(key) => is_among(&self.keys, &key),
            None => false,
        }
    }

    // Whether the slot of this number in the row is signed.
    fn is_signed(&self, row: &Row, view: u16, number: u16) -> bool
        ensures { result ≡ has_slot self.now (slot_in row.now view number) }
    {
        let place = Slot::Place {
            view,
            place: number,
        };
        match *row {
            Row::Inits => self.has_signed(1, &Slot::Number { view, number }),
            Row::Places => self.has_signed(4, &place),
            Row::Keeps => self.has_signed(5, &place),
            Row::Echoes(sender) => {
                let message = Slot::Message {
                    view,
                    sender,
                    number,
                };
                self.has_signed(2, &message)
            }
        }
    }

    // A number below which all slots of the row are signed.
    fn reached(&self, row: &Row, view: u16) -> u16
        ensures { (n : ℕ) → n < result → has_slot self.now (slot_in row.now view n) ≡ true }
    {
        if view == self.view {
            self.reached[row.index()]
        } else {
            0
        }
    }

    // The least number whose slot in the row is not signed; None exactly where all 1,024 are.
    fn first_unsigned(&self, row: &Row, view: u16) -> Option<u16>
        ensures { IsLeastBelow most_places (λ n. not (has_slot self.now (slot_in row.now view n))) result }
    {
        'numbers: for number in self.reached(row, view)..MOST_PLACES {
            if !self.is_signed(row, view, number) {
                return Some(number);
            }
        }
        None
    }

    // Follows the rows of this view, where nothing is signed yet.
    fn turn_to(&mut self, view: u16)
        ensures { self.new ≡ self.old }
    {
        if self.keys.is_empty() {
            self.view = view;
        }
    }

    // Follows the row of the statement, whose slot is signed.
    fn follow(&mut self, row: &Row)
        ensures { self.new ≡ self.old }
    {
        let number = self.first_unsigned(row, self.view).unwrap_or(MOST_PLACES);
        self.reached[row.index()] = number;
    }

    // Notes the slot.
    fn note(&mut self, statement: &Statement<'_>)
        requires fresh { has_slot self.old (slot_of (stmt statement.now)) ≡ false }
        requires room { 1 ≤ self.old.left }
        ensures slots { self.new.slots ≡ self.old.slots ++ slot_key (slot_of (stmt statement.now)) ∷ [] }
        ensures marked { self.new.marked ≡ self.old.marked }
        ensures left { self.old.left ≤ self.new.left + 1 }
    {
        let key = slot_key_of(statement);
        let Ok(_) = self.keys.insert(key) else {
            unreachable!()
        };
    }

    /// Notes that the statement's slot is signed, which it was not. It takes no memory: room for one slot must be reserved.
    pub fn sign(&mut self, statement: &Statement<'_>)
        requires fresh { has_slot self.old (slot_of (stmt statement.now)) ≡ false }
        requires room { 1 ≤ self.old.left }
        ensures slots { self.new.slots ≡ self.old.slots ++ slot_key (slot_of (stmt statement.now)) ∷ [] }
        ensures marked { self.new.marked ≡ self.old.marked }
        ensures left { self.old.left ≤ self.new.left + 1 }
    {
        self.turn_to(statement.view());
        self.note(statement);
        if let Some(row) = row_of(statement) {
            self.follow(&row);
        }
    }

    /// A number below which the Echo of each of the sender's messages is signed in the view of this number. No slot is looked up.
    pub fn echoed_below(&self, view: u16, sender: Pid) -> u16
        ensures { (l : ℕ) → l < result → has_slot self.now (EchoAt view (message sender l)) ≡ true }
    {
        self.reached(&Row::Echoes(sender), view)
    }

    /// A number below which the Place of each place is signed in the view of this number. No slot is looked up.
    pub fn placed_below(&self, view: u16) -> u16
        ensures { (k : ℕ) → k < result → has_slot self.now (PlaceAt view k) ≡ true }
    {
        self.reached(&Row::Places, view)
    }

    /// A number below which the Init of each number is signed in the view of this number. No slot is looked up.
    pub fn inits_below(&self, view: u16) -> u16
        ensures { (l : ℕ) → l < result → has_slot self.now (InitAt view l) ≡ true }
    {
        self.reached(&Row::Inits, view)
    }

    /// A number below which the Keep of each place is signed in the view of this number. No slot is looked up.
    pub fn keeps_below(&self, view: u16) -> u16
        ensures { (k : ℕ) → k < result → has_slot self.now (KeepAt view k) ≡ true }
    {
        self.reached(&Row::Keeps, view)
    }

    /// The least number whose Init is not signed in the view of this number; None exactly where all 1,024 are.
    pub fn first_unsigned_init(&self, view: u16) -> Option<u16>
        ensures { IsLeastBelow most_places (λ l. not (has_slot self.now (InitAt view l))) result }
    {
        self.first_unsigned(&Row::Inits, view)
    }

    /// The least place whose Keep is not signed in the view of this number; None exactly where all 1,024 are.
    pub fn first_unsigned_keep(&self, view: u16) -> Option<u16>
        ensures { IsLeastBelow most_places (λ k. not (has_slot self.now (KeepAt view k))) result }
    {
        self.first_unsigned(&Row::Keeps, view)
    }
}
