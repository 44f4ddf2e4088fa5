ghost use Rattle.std.specs.Prelude.{◌≡◌, ◌+◌, ◌-◌, ◌≤◌, [], ◌++◌, ◌↔◌, length, slice_get, slice_range, None, IsTrue, IsOk, IfOk, OnOk, OnErr, IfSome, option_and_then, sum_by};
ghost use Rattle.std.specs.Option.{option_map, option_copied};
ghost use Rattle.byte_defs.specs.Choices.{is_some_and};
ghost use Rattle.std.specs.Map.{lookup};
ghost use Rattle.std.specs.Str.{bytes_eq};
ghost use Rattle.std.specs.Vec.{vec_len, vec_capacity};
ghost use Rattle.message_defs.specs.Spelling.{IsStatement, IsClaim, spelling};
ghost use Rattle.message_defs.specs.Statements as plain;
ghost use Rattle.message_defs.specs.Reading.{statement_of};
ghost use Rattle.group_defs.specs.Certified as defs;
ghost use Rattle.stmt_codec.specs.Views.{stmt, slot, claim, claim as claim_of};
ghost use Rattle.byte_defs.specs.Orders.{sorted};
ghost use Rattle.claim_index.specs.Keys.{slot_key, same_key};
ghost use Rattle.claim_index.specs.Kept.{by_number, past, middle, spelled, claim_with, claim_bytes, statement_bytes, empty_pool, with_heard, is_kind_heard, AreKept};

use crate::hasher::KeyHasher;
use crate::key::{Key, SlotKey, slot_key_at, slot_key_of};
use indexmap::IndexMap;
use rp_base::{NoMemory, Pid, PidSet};
use std::alloc::Global;
use std::hash::BuildHasherDefault;
use std::marker::Model;
use std::mem;
use stmt_codec::{Claim, STATEMENT_BYTES, Slot, Statement, read_statement, spell_into};
use view_table::{View, quorum};

/// Where the bytes of a claim are: its statement's from `start` on, and its signature's after them.
#[derive(Clone, Copy)]
pub struct Kept {
    start: usize,
    said: u16,
    signed: u16,
}

/// How many numbers a kind can have: 1 to 11, and 0, which none has.
const KIND_NUMBERS: usize = 12;

// How many claims are kept, how many bytes they have, and which kinds are among them.
#[derive(Clone, Copy)]
struct Filled {
    claims: usize,
    bytes: usize,
    kinds: [bool; KIND_NUMBERS],
}

// Where nothing is kept.
const NOTHING: Filled = Filled {
    claims: 0,
    bytes: 0,
    kinds: [false; KIND_NUMBERS],
};

/// The heard claims of a view, in order of hearing, and of each signer and slot one at most that is found. Contracts see
/// them as the definitions' pool, with what of it was heard at a mark, and with the room that is left.
pub struct ClaimIndex {
    view: View,
    bytes: Vec<u8>,
    kept: IndexMap<Key, Kept, BuildHasherDefault<KeyHasher>>,
    kinds: [bool; KIND_NUMBERS],

    // what there was at the mark
    marked: Filled,
}

// Written out, so that whoever drops a value makes one call (docs/CONTRIBUTING.md).
impl Drop for ClaimIndex {
    fn drop(self) {
        let ClaimIndex {
            view,
            bytes,
            kept,
            kinds: _,
            marked: _,
        } = self;
        mem::drop(view);
        mem::drop(bytes);
        mem::drop(kept);
    }
}

impl Model for ClaimIndex {
    ghost use Rattle.std.specs.Prelude.{◌-◌, length, take};
    ghost use Rattle.std.specs.Vec.{vec_capacity};
    ghost use Rattle.indexmap.specs.IndexMap.{spare};
    ghost use Rattle.claim_index.specs.Kept.{Holding, pool_of, IsMarkedIndex};

    ghost Value = { Holding };

    ghost view = { λ p. record {
      pool = pool_of p.view p.bytes.items p.kept.entries;
      marked = pool_of p.view (take p.marked.bytes p.bytes.items) (take p.marked.claims p.kept.entries);
      claims_left = spare p.kept;
      bytes_left = vec_capacity p.bytes - length p.bytes.items;
    } };

    ghost invariant = { λ p. IsMarkedIndex p.bytes.items p.kept.entries p.kinds p.marked };
}

// The entry under this key.
fn find<'a>(
    kept: &'a IndexMap<Key, Kept, BuildHasherDefault<KeyHasher>>,
    key: &Key,
) -> Option<&'a Kept>
    ensures { option_copied result ≡ lookup (same_key key.now) kept.now.entries }
{
    kept.get(key)
}

/// The signer's claim whose bytes are there.
pub fn lent(bytes: &[u8], signer: Pid, kept: Kept) -> Claim<'_>
    requires within { past kept ≤ length bytes.now }
    requires readable { IsOk (statement_of (statement_bytes bytes.now kept)) }
    ensures value { claim result ≡ claim_with bytes.now signer kept }
    ensures range { IsStatement (stmt result.statement) }
{
    let middle = kept.start + kept.said as usize;
    let Ok(statement) = read_statement(&bytes[kept.start..middle]) else {
        unreachable!()
    };
    Claim {
        signer,
        statement,
        signature: &bytes[middle..middle + kept.signed as usize],
    }
}

// The claim under this key of the signer.
fn claim_under<'a>(
    bytes: &'a [u8],
    kept: &IndexMap<Key, Kept, BuildHasherDefault<KeyHasher>>,
    signer: Pid,
    key: Key,
) -> Option<Claim<'a>>
    requires { AreKept bytes.now kept.now.entries }
    ensures value { option_map claim result ≡ option_map (claim_with bytes.now signer) (lookup (same_key key) kept.now.entries) }
    ensures range { IfSome result (λ c. IsStatement (stmt c.statement)) }
{
    match find(kept, &key) {
        Some(kept) => Some(lent(bytes, signer, *kept)),
        None => None,
    }
}

/// Puts the claim's bytes after those that are there, and answers where they are. It takes no memory: room for them
/// must be reserved.
pub fn store(bytes: &mut Vec<u8>, claim: &Claim<'_>) -> Kept
    requires range { IsStatement (stmt claim.now.statement) }
    requires short { length claim.now.signature.now ≤ 16384 }
    requires room { vec_len bytes.old + (length (spelling (stmt claim.now.statement)) + length claim.now.signature.now)
        ≤ vec_capacity bytes.old }
    ensures items { bytes.new.items ≡ bytes.old.items ++ (spelling (stmt claim.now.statement) ++ claim.now.signature.now) }
    ensures capacity { vec_capacity bytes.old ≤ vec_capacity bytes.new }
    ensures start { result.start ≡ length bytes.old.items }
    ensures said { result.said ≡ length (spelling (stmt claim.now.statement)) }
    ensures signed { result.signed ≡ length claim.now.signature.now }
{
    let mut spelled = [0; STATEMENT_BYTES];
    let said = spell_into(&claim.statement, &mut spelled);
    store_spelled(bytes, &spelled[..said], claim.signature)
}

// Puts the bytes of a statement and its signature after those that are there, and answers where they are.
fn store_spelled(bytes: &mut Vec<u8>, spelled: &[u8], signature: &[u8]) -> Kept
    requires short { (length spelled.now ≤ 1032) × (length signature.now ≤ 16384) }
    requires room { vec_len bytes.old + (length spelled.now + length signature.now) ≤ vec_capacity bytes.old }
    ensures items { bytes.new.items ≡ bytes.old.items ++ (spelled.now ++ signature.now) }
    ensures capacity { vec_capacity bytes.old ≤ vec_capacity bytes.new }
    ensures start { result.start ≡ length bytes.old.items }
    ensures said { result.said ≡ length spelled.now }
    ensures signed { result.signed ≡ length signature.now }
{
    let start = bytes.len();
    let Ok(()) = bytes.extend_from_slice(spelled) else {
        unreachable!()
    };
    let Ok(()) = bytes.extend_from_slice(signature) else {
        unreachable!()
    };
    Kept {
        start,
        said: spelled.len() as u16,
        signed: signature.len() as u16,
    }
}

// Whether the bytes of the claim's statement are these.
fn is_said(bytes: &[u8], kept: Kept, spelled: &[u8]) -> bool
    requires { past kept ≤ length bytes.now }
    ensures { result ≡ bytes_eq (statement_bytes bytes.now kept) spelled.now }
{
    let middle = kept.start + kept.said as usize;
    &bytes[kept.start..middle] == spelled
}

impl ClaimIndex {
    /// Nothing is heard of the view yet.
    pub fn new(alloc: Global, view: View) -> ClaimIndex
        ensures pool { result.pool ≡ empty_pool view }
        ensures marked { result.marked ≡ empty_pool view }
    {
        ClaimIndex {
            view,
            bytes: Vec::new(alloc),
            kept: IndexMap::with_hasher(alloc, BuildHasherDefault::new()),
            kinds: [false; KIND_NUMBERS],
            marked: NOTHING,
        }
    }

    /// Forgets what is heard, and turns to this view, with the mark at nothing. The room stays, and grows by what the
    /// forgotten claims took.
    pub fn turn_to(&mut self, view: View)
        ensures pool { self.new.pool ≡ empty_pool view }
        ensures marked { self.new.marked ≡ empty_pool view }
        ensures claims { self.old.claims_left ≤ self.new.claims_left }
        ensures bytes { self.old.bytes_left ≤ self.new.bytes_left }
    {
        self.bytes.clear();
        self.kept.clear();
        self.kinds = [false; KIND_NUMBERS];
        self.marked = NOTHING;
        self.view = view;
    }

    /// Marks what is heard.
    pub fn mark(&mut self)
        ensures same { self.new.pool ≡ self.old.pool }
        ensures marked { self.new.marked ≡ self.old.pool }
    {
        self.marked = Filled {
            claims: self.kept.len(),
            bytes: self.bytes.len(),
            kinds: self.kinds,
        };
    }

    /// Forgets what was heard after the mark.
    pub fn rewind(&mut self)
        ensures pool { self.new.pool ≡ self.old.marked }
        ensures marked { self.new.marked ≡ self.old.marked }
    {
        self.kept.truncate(self.marked.claims);
        self.bytes.truncate(self.marked.bytes);
        self.kinds = self.marked.kinds;
    }

    /// Makes room to hear `claims` claims more, with `bytes` bytes in all, without memory.
    pub fn reserve(&mut self, claims: usize, bytes: usize) -> Result<(), NoMemory>
        ensures same { self.new.pool ≡ self.old.pool }
        ensures marked { self.new.marked ≡ self.old.marked }
        ensures room { OnOk result ((claims ≤ self.new.claims_left) × (bytes ≤ self.new.bytes_left)) }
        ensures kept { (self.old.claims_left ≤ self.new.claims_left) × (self.old.bytes_left ≤ self.new.bytes_left) }
    {
        self.kept.reserve(claims)?;
        self.bytes.reserve(bytes)?;
        Ok(())
    }

    /// How many claims are heard, and how many bytes their statements and signatures have.
    pub fn size(&self) -> (usize, usize)
        ensures claims { result.0 ≡ length self.now.pool.heard }
        ensures bytes { result.1 ≡ sum_by claim_bytes self.now.pool.heard }
    {
        (self.kept.len(), self.bytes.len())
    }

    /// The view.
    pub fn view(&self) -> &View
        ensures { result.now ≡ self.now.pool.view }
    {
        &self.view
    }

    /// The heard claim at this place in order of hearing; None exactly where the place is not below their number.
    pub fn claim_at(&self, place: usize) -> Option<Claim<'_>>
        ensures { option_map claim result ≡ slice_get self.now.pool.heard place }
    {
        match self.kept.get_index(place) {
            Some((key, kept)) => Some(lent(&self.bytes, key.signer(), *kept)),
            None => None,
        }
    }

    /// Whether a claim of the kind is heard; false where no kind has the number.
    pub fn hears(&self, kind: u8) -> bool
        ensures { result ≡ is_kind_heard self.now.pool.heard kind }
    {
        self.kinds.get(kind as usize).copied().unwrap_or(false)
    }

    /// The signer's heard claim of that kind and slot, with its signature; None exactly where there is none, or the kind
    /// has no such slots.
    pub fn heard_claim(&self, signer: Pid, kind: u8, about: &Slot) -> Option<Claim<'_>>
        ensures value { option_map claim result ≡ option_and_then (defs.claim_on self.now.pool.heard signer) (slot kind about.now) }
        ensures range { IfSome result (λ c. IsStatement (stmt c.statement)) }
    {
        let key = Key::new(signer, slot_key_at(kind, about)?);
        claim_under(&self.bytes, &self.kept, signer, key)
    }

    /// The signer's heard claim on the statement's slot.
    pub fn claim_on(&self, signer: Pid, statement: &Statement<'_>) -> Option<Claim<'_>>
        ensures { option_map claim result ≡ defs.claim_on self.now.pool.heard signer (plain.slot_of (stmt statement.now)) }
    {
        let key = Key::new(signer, slot_key_of(statement));
        claim_under(&self.bytes, &self.kept, signer, key)
    }

    /// Whether the member's heard claim on the statement's slot has the statement's bytes, which are handed in.
    pub fn says(&self, member: Pid, statement: &Statement<'_>, spelled: &[u8]) -> bool
        requires range { IsStatement (stmt statement.now) }
        requires spelled { spelled.now ≡ spelling (stmt statement.now) }
        ensures { result ≡ defs.says self.now.pool (stmt statement.now) member }
    {
        match find(&self.kept, &Key::new(member, slot_key_of(statement))) {
            Some(kept) => is_said(&self.bytes, *kept, spelled),
            None => false,
        }
    }

    /// Whether the signer's heard claim on the statement's slot says the same; None where there is none.
    pub fn repeats(&self, signer: Pid, statement: &Statement<'_>) -> Option<bool>
        requires { IsStatement (stmt statement.now) }
        ensures { result ≡ option_map (plain.same_statement (stmt statement.now))
            (defs.heard_on self.now.pool signer (plain.slot_of (stmt statement.now))) }
    {
        let mut spelled = [0; STATEMENT_BYTES];
        let said = spell_into(statement, &mut spelled);
        match find(&self.kept, &Key::new(signer, slot_key_of(statement))) {
            Some(kept) => Some(is_said(&self.bytes, *kept, &spelled[..said])),
            None => None,
        }
    }

    // How many members say this; the statement's bytes are handed in.
    fn count_spelled(&self, statement: &Statement<'_>, spelled: &[u8]) -> usize
        requires range { IsStatement (stmt statement.now) }
        requires spelled { spelled.now ≡ spelling (stmt statement.now) }
        ensures { result ≡ length (defs.backers self.now.pool (stmt statement.now)) }
    {
        self.view
            .members()
            .iter()
            .filter(|m| self.says(**m, statement, spelled))
            .count()
    }

    /// How many members say this.
    pub fn count(&self, statement: &Statement<'_>) -> usize
        requires { IsStatement (stmt statement.now) }
        ensures { result ≡ length (defs.backers self.now.pool (stmt statement.now)) }
    {
        let mut spelled = [0; STATEMENT_BYTES];
        let said = spell_into(statement, &mut spelled);
        self.count_spelled(statement, &spelled[..said])
    }

    /// Whether a quorum of the members says this.
    pub fn is_certified(&self, statement: &Statement<'_>) -> bool
        requires { IsStatement (stmt statement.now) }
        ensures value { result ≡ defs.is_certified self.now.pool (stmt statement.now) }
        ensures some { 1 ≤ defs.number_of_members self.now.pool }
    {
        quorum(self.view.members().len()) <= self.count(statement)
    }

    /// The members that say this.
    pub fn backers(&self, statement: &Statement<'_>) -> PidSet
        requires { IsStatement (stmt statement.now) }
        ensures { result ≡ sorted by_number (defs.backers self.now.pool (stmt statement.now)) }
    {
        let mut spelled = [0; STATEMENT_BYTES];
        let said = spell_into(statement, &mut spelled);
        let members = self.view.members();
        let mut backers = PidSet::new();
        let mut left = members.len();
        'members: while left > 0 {
            left -= 1;
            let member = members[left];
            if self.says(member, statement, &spelled[..said]) {
                backers.insert(member);
            }
        }
        backers
    }

    /// Hears a claim whose signer has none on the slot; the slot and the statement's bytes are handed in.
    pub fn add(&mut self, claim: &Claim<'_>, slot: SlotKey, spelled: &[u8])
        requires range { IsStatement (stmt claim.now.statement) }
        requires short { length claim.now.signature.now ≤ 16384 }
        requires slot { slot ≡ slot_key (plain.slot_of (stmt claim.now.statement)) }
        requires spelled { (spelled.now ≡ spelling (stmt claim.now.statement)) × (length spelled.now ≤ 1032) }
        requires fresh { defs.claim_on self.old.pool.heard claim.now.signer (plain.slot_of (stmt claim.now.statement)) ≡ None }
        requires claims { 1 ≤ self.old.claims_left }
        requires bytes { claim_bytes (claim_of claim.now) ≤ self.old.bytes_left }
        ensures heard { self.new.pool ≡ with_heard self.old.pool (claim_of claim.now) }
        ensures marked { self.new.marked ≡ self.old.marked }
        ensures claims_left { self.old.claims_left ≤ self.new.claims_left + 1 }
        ensures bytes_left { self.old.bytes_left ≤ self.new.bytes_left + claim_bytes (claim_of claim.now) }
    {
        self.kinds[claim.statement.kind() as usize] = true;
        let key = Key::new(claim.signer, slot);
        let kept = store_spelled(&mut self.bytes, spelled, claim.signature);
        let Ok(_) = self.kept.insert(key, kept) else {
            unreachable!()
        };
    }

    /// What the heard claim at this place in order of hearing says; None exactly where the place is not below their number.
    pub fn said_at(&self, place: usize) -> Option<Statement<'_>>
        ensures value { option_map stmt result ≡ option_map (λ c. c.statement) (slice_get self.now.pool.heard place) }
        ensures range { IfSome result (λ st. IsStatement (stmt st)) }
    {
        match self.kept.get_index(place) {
            Some((key, kept)) => Some(lent(&self.bytes, key.signer(), *kept).statement),
            None => None,
        }
    }

    /// Whether the heard claim at this place in order of hearing has the statement's bytes, which are handed in.
    pub fn says_at(&self, place: usize, statement: &Statement<'_>, spelled: &[u8]) -> bool
        requires range { IsStatement (stmt statement.now) }
        requires spelled { spelled.now ≡ spelling (stmt statement.now) }
        ensures { result ≡ is_some_and (option_map (λ c. c.statement) (slice_get self.now.pool.heard place))
            (plain.same_statement (stmt statement.now)) }
    {
        match self.kept.get_index(place) {
            Some((_, kept)) => is_said(&self.bytes, *kept, spelled),
            None => false,
        }
    }
}
