//! What the members of a view say at each rank, by a proof: their first valid Readies.
ghost use Rattle.std.specs.Prelude.{◌≡◌, ◌↔◌, ◌+◌, ◌*◌, ◌<◌, ◌≤◌, ◌++◌, [], ◌∷◌, List, length, slice_index_or, slice_set, Some, None, IfSome, IsTrue};
ghost use Rattle.std.specs.Option.{option_map};
ghost use Rattle.std.specs.List.{AllByRecursion};
ghost use Rattle.message_defs.specs.Statements as plain;
ghost use Rattle.message_defs.specs.Spelling.{IsClaim, IsStatement};
ghost use Rattle.group_defs.specs.Process.{Pool};
ghost use Rattle.group_defs.specs.Certified.{backers};
ghost use Rattle.rp_base.specs.Views.{value as value_of};
ghost use Rattle.stmt_codec.specs.Views.{stmt, claim as claim_of};
ghost use Rattle.stmt_codec.specs.Left.{claims_left};
ghost use Rattle.claim_pool.specs.Settings.{as_setting};
ghost use Rattle.chain_defs.specs.Advance.{counted};
ghost use Rattle.chain_check.specs.Readies.{IsLeading, IsTable, ready_at};

use claim_pool::is_signed;
use rp_base::{GroupId, Roster, Scheme, Value};
use stmt_codec::{Claim, Claims, Statement};
use view_table::View;

/// How many ranks there are.
pub(crate) const RANKS: usize = 16;

/// The most members of a view.
const MOST_MEMBERS: usize = 16;

/// A cell for each member of each rank.
const CELLS: usize = 256;

/// For each rank and member what the member's first valid Ready of the rank says: member i of rank r at cell 16 r + i.
#[derive(Drop)]
pub(crate) struct Readies {
    cells: [Option<Value>; CELLS],
}

/// The value that most members say at a rank, and how many do.
#[derive(Clone, Copy, Drop)]
pub(crate) struct Leading {
    pub(crate) value: Value,
    pub(crate) count: usize,
}

// The rank and the value of a Ready of the view.
fn ready_of(view: &View, statement: &Statement<'_>) -> Option<(u8, Value)>
    requires { IsStatement (stmt statement.now) }
    ensures value { option_map (λ x. (x.0, value_of x.1)) result ≡ ready_at view.now.number (stmt statement.now) }
    ensures below { IfSome result (λ x. x.0 < 16) }
{
    match *statement {
        Statement::Ready {
            view: number,
            rank,
            value,
        } if number == view.number() => Some((rank, value)),
        _ => None,
    }
}

impl Readies {
    // Nobody says anything.
    fn new(view: &View) -> Readies
        ensures { (h : Pool) → h ≡ record { view = view.now; heard = [] } → IsTable h result.cells }
    {
        Readies {
            cells: [None; CELLS],
        }
    }

    /// What the claims of a proof say. A signature is looked at only of a member's Ready of the view, and only of the first ones of its
    /// signer and rank up to a valid one.
    pub(crate) fn of<V: Scheme>(
        view: &View,
        scheme: &V,
        roster: &Roster,
        group: &GroupId,
        claims: Claims<'_>,
    ) -> Readies
        requires { AllByRecursion IsClaim (claims_left claims) }
        ensures { IsTable (counted (as_setting (V.valid scheme.now) group.now roster.now) view.now
            (claims_left claims.entry)) result.cells }
    {
        let mut readies = Readies::new(view);
        let mut left = claims;
        'claims: while let Some(claim) = left.next() {
            readies.note(view, scheme, roster, group, &claim);
        }
        readies
    }

    // With one claim more.
    fn note<V: Scheme>(
        &mut self,
        view: &View,
        scheme: &V,
        roster: &Roster,
        group: &GroupId,
        claim: &Claim<'_>,
    )
        requires { IsStatement (stmt claim.now.statement) }
        ensures { (done : List plain.Claim)
            → IsTable (counted (as_setting (V.valid scheme.now) group.now roster.now) view.now done) self.old.cells
            → IsTable (counted (as_setting (V.valid scheme.now) group.now roster.now) view.now
            (done ++ claim_of claim.now ∷ [])) self.new.cells }
    {
        let Some((rank, value)) = ready_of(view, &claim.statement) else {
            return;
        };
        let _members = view.members();
        let Some(place) = view.rank_of(claim.signer) else {
            return;
        };
        if self.at(rank as usize, place as usize).is_some() {
            return;
        }
        if is_signed(scheme, roster, group, claim) {
            self.put(rank as usize, place as usize, value);
        }
    }

    // What the cell of a rank and a member holds.
    fn at(&self, rank: usize, place: usize) -> Option<Value>
        requires { (rank < 16) × (place < 16) }
        ensures { result ≡ slice_index_or self.now.cells (rank * 16 + place) None }
    {
        self.cells[rank * MOST_MEMBERS + place]
    }

    fn put(&mut self, rank: usize, place: usize, value: Value)
        requires { (rank < 16) × (place < 16) }
        ensures value { self.new.cells ≡ slice_set self.old.cells (rank * 16 + place) (Some value) }
        ensures room { rank * 16 + place < length self.old.cells }
    {
        self.cells[rank * MOST_MEMBERS + place] = Some(value);
    }

    // Whether the cell holds this value.
    fn says(&self, rank: usize, place: usize, value: &Value) -> bool
        requires { (rank < 16) × (place < 16) }
        ensures { IsTrue result ↔ (slice_index_or self.now.cells (rank * 16 + place) None ≡ Some value.now) }
    {
        match self.at(rank, place) {
            Some(other) => other == *value,
            None => false,
        }
    }

    // How many members say the value at the rank.
    fn count(&self, view: &View, rank: usize, value: &Value) -> usize
        requires { rank < 16 }
        ensures value { (h : Pool) → h.view ≡ view.now → IsTable h self.now.cells
            → result ≡ length (backers h (plain.Ready h.view.number rank (value_of value.now))) }
        ensures few { result ≤ 16 }
    {
        let members = view.members();
        let mut count = 0;
        for place in 0..members.len() {
            if self.says(rank, place, value) {
                count += 1;
            }
        }
        count
    }

    /// The value that most members say at the rank, the first of several; None exactly where nobody says one.
    pub(crate) fn leading(&self, view: &View, rank: usize) -> Option<Leading>
        requires { rank < 16 }
        ensures leads { (h : Pool) → h.view ≡ view.now → IsTable h self.now.cells → IsLeading h rank result }
        ensures few { IfSome result (λ l. l.count ≤ 16) }
    {
        let members = view.members();
        let mut best: Option<Leading> = None;
        let mut most = 0;
        for place in 0..members.len() {
            let Some(value) = self.at(rank, place) else {
                continue;
            };
            let count = self.count(view, rank, &value);
            if count > most {
                best = Some(Leading { value, count });
                most = count;
            }
        }
        best
    }
}
