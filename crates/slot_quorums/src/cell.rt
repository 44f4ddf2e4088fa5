ghost use Rattle.std.specs.Prelude.{◌≡◌, ℕ, ◌≤◌, ◌&&◌, None, [], length, filter, if◌then◌else◌, nat_le};
ghost use Rattle.byte_defs.specs.Orders.{sorted};
ghost use Rattle.byte_defs.specs.Members.{has};
ghost use Rattle.message_defs.specs.Spelling.{IsStatement, spelling};
ghost use Rattle.message_defs.specs.Statements as plain;
ghost use Rattle.group_defs.specs.Process.{Pool};
ghost use Rattle.group_defs.specs.Certified as defs;
ghost use Rattle.rp_base.specs.Pids.{put_once};
ghost use Rattle.claim_index.specs.Statements.{stmt, claim as claim_of};
ghost use Rattle.claim_index.specs.Kept.{by_number, with_heard};
ghost use Rattle.slot_quorums.specs.Cells.{joining, speaks_otherwise, others, IsOf, IsCell};

use claim_index::{Claim, ClaimIndex, Statement};
use rp_base::{Pid, PidSet};

/// What is heard on a slot: the place, in order of hearing, of a claim whose content no fewer members say than any other, the members
/// who say it, and all who have a claim on the slot.
#[derive(Clone, Copy)]
pub struct Cell {
    place: usize,
    backers: PidSet,
    speakers: PidSet,
}

// How many processes are in the set.
fn count_of(set: PidSet) -> usize
    ensures { result ≡ length set }
{
    set.mask().count_ones() as usize
}

// The set, and the process in it where it belongs there.
fn with_if(set: PidSet, p: Pid, belongs: bool) -> PidSet
    ensures { result ≡ if belongs then put_once p set else set }
{
    let mut more = set;
    if belongs {
        more.insert(p);
    }
    more
}

impl Cell {
    ghost use Rattle.slot_quorums.specs.declared.cell.Cell.{Cell};

    // Nobody is heard, and what the claim at this place says is to come.
    fn empty(place: usize) -> Cell
        ensures { result ≡ record { place = place; backers = []; speakers = [] } }
    {
        Cell {
            place,
            backers: PidSet::new(),
            speakers: PidSet::new(),
        }
    }

    // With one more who speaks, and who backs its content where that is said.
    fn joined(self, signer: Pid, backs: bool) -> Cell
        ensures { result ≡ joining self signer backs }
    {
        Cell {
            place: self.place,
            backers: with_if(self.backers, signer, backs),
            speakers: with_if(self.speakers, signer, true),
        }
    }

    /// The place of a claim with its content.
    pub(crate) fn place(&self) -> usize
        ensures { result ≡ self.now.place }
    {
        self.place
    }

    /// The members who say its content.
    pub(crate) fn backers(&self) -> PidSet
        ensures { result ≡ self.now.backers }
    {
        self.backers
    }

    /// How many members say its content.
    pub(crate) fn count(&self) -> usize
        ensures { result ≡ length self.now.backers }
    {
        count_of(self.backers)
    }

    /// Whether the process has a claim on the slot.
    pub(crate) fn has_heard(&self, signer: Pid) -> bool
        ensures { result ≡ has self.now.speakers signer }
    {
        self.speakers.contains(signer)
    }
}

// Whether the member says this, and not the cell's content.
fn says_other(
    claims: &ClaimIndex,
    cell: &Cell,
    member: Pid,
    statement: &Statement<'_>,
    spelled: &[u8],
) -> bool
    requires range { IsStatement (stmt statement.now) }
    requires spelled { spelled.now ≡ spelling (stmt statement.now) }
    ensures { result ≡ (speaks_otherwise cell.now member && defs.says claims.now.pool (stmt statement.now) member) }
{
    cell.speakers.contains(member)
        && !cell.backers.contains(member)
        && claims.says(member, statement, spelled)
}

// The members who say this, and not the cell's content.
fn others_of(claims: &ClaimIndex, cell: &Cell, statement: &Statement<'_>, spelled: &[u8]) -> PidSet
    requires range { IsStatement (stmt statement.now) }
    requires spelled { spelled.now ≡ spelling (stmt statement.now) }
    ensures { result ≡ others cell.now claims.now.pool (stmt statement.now) }
{
    let members = claims.view().members();
    let mut backers = PidSet::new();
    let mut left = members.len();
    'members: while left > 0 {
        left -= 1;
        let member = members[left];
        if says_other(claims, cell, member, statement, spelled) {
            backers.insert(member);
        }
    }
    backers
}

// The cell, or that of this other content at this place, where no fewer members say that. Members seldom say different things on a
// slot, so it is kept apart from what is called for each claim.
#[inline(never)]
fn with_other(
    claims: &ClaimIndex,
    cell: Cell,
    place: usize,
    statement: &Statement<'_>,
    spelled: &[u8],
) -> Cell
    requires range { IsStatement (stmt statement.now) }
    requires spelled { spelled.now ≡ spelling (stmt statement.now) }
    ensures { result ≡ if nat_le (length cell.backers) (length (others cell claims.now.pool (stmt statement.now)))
        then record { place = place; backers = others cell claims.now.pool (stmt statement.now); speakers = cell.speakers } else cell }
{
    let backers = others_of(claims, &cell, statement, spelled);
    if count_of(cell.backers) <= count_of(backers) {
        Cell {
            place,
            backers,
            speakers: cell.speakers,
        }
    } else {
        cell
    }
}

/// The slot's cell with the claim at this place, the last that was heard.
pub(crate) fn cell_with(
    claims: &ClaimIndex,
    cell: Option<Cell>,
    place: usize,
    claim: &Claim<'_>,
    spelled: &[u8],
) -> Cell
    requires range { IsStatement (stmt claim.now.statement) }
    requires spelled { spelled.now ≡ spelling (stmt claim.now.statement) }
    ensures { (h : Pool) → claims.now.pool ≡ with_heard h (claim_of claim.now)
        → defs.claim_on h.heard claim.now.signer (plain.slot_of (stmt claim.now.statement)) ≡ None → place ≡ length h.heard
        → IsOf h (plain.slot_of (stmt claim.now.statement)) cell
        → IsCell claims.now.pool (plain.slot_of (stmt claim.now.statement)) result }
{
    let _members = claims.view().members();
    let is_member = claims.view().is_member(claim.signer);
    match cell {
        None => Cell::empty(place).joined(claim.signer, is_member),
        Some(cell) => {
            if claims.says_at(cell.place, &claim.statement, spelled) {
                cell.joined(claim.signer, is_member)
            } else {
                let cell = cell.joined(claim.signer, false);
                with_other(claims, cell, place, &claim.statement, spelled)
            }
        }
    }
}
