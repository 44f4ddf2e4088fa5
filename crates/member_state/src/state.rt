ghost use Rattle.std.specs.Prelude.{◌≡◌, ◌≤◌, ℕ, IfOk, None, slice_get};
ghost use Rattle.std.specs.Option.{option_map};
ghost use Rattle.group_defs.specs.Process.{Setting, Process, start};
ghost use Rattle.group_defs.specs.Accounts.{account_of};
ghost use Rattle.own_place.specs.Words.{empty_pool};
ghost use Rattle.own_place.specs.Owns.{IsOwnOf};
ghost use Rattle.accounts.specs.Views.{account};
ghost use Rattle.member_events.specs.Below.{claim as claim_of};
ghost use Rattle.member_state.specs.States.{ArePairs, IsStateOf, StartsWith, kept_of, signers_in, liars_of, halted_at};

use crate::left::{LeftView, SaidBefore};
use accounts::Account;
use ending_rules::Perceived;
use member_events::Claim;
use own_moves::no_counts;
use own_place::SignedSlots;
use reliable_mcast::{Archive, ClaimList, Conflicts};
use rp_base::{NoMemory, Pid, PidSet, Roster};
use std::alloc::Global;
use std::mem;
use view_phases::{Own, Phase, Pool};
use view_table::View;

/// What a process keeps.
pub struct ProcessState {
    /// The most messages of an own Order, 1 to 16.
    pub batch_limit: u8,

    /// The process's own place in its current view.
    pub own: Own,

    /// What the process has heard in its current view.
    pub pool: Pool,

    /// How far the process is in its current view.
    pub phase: Phase,

    /// The updates that were asked for in the current view.
    pub perceived: Perceived,

    /// What the process has signed in its current view, in order of signing.
    pub said: ClaimList,

    /// How many of the first of these claims are in `said_before` too: none, but where the process began again in this view.
    pub said_from: usize,

    /// What it has signed in the views that it left, list after list.
    pub said_before: Vec<SaidBefore>,

    /// The first two conflicting claims of each signer, over all views.
    pub conflicts: Conflicts,

    /// What is kept of the views that the process left.
    pub archive: Archive,

    /// What the process reports of itself.
    pub account: Account,

    /// What was the process's in the view that it left in this event, where it left one.
    pub left: Option<LeftView>,
}

// Written out, so that whoever drops a value makes one call (docs/CONTRIBUTING.md).
impl Drop for ProcessState {
    fn drop(self) {
        let ProcessState {
            batch_limit: _,
            own,
            pool,
            phase,
            perceived: _,
            said,
            said_from: _,
            said_before,
            conflicts,
            archive,
            account,
            left,
        } = self;
        mem::drop(own);
        mem::drop(pool);
        mem::drop(phase);
        mem::drop(said);
        mem::drop(said_before);
        mem::drop(conflicts);
        mem::drop(archive);
        mem::drop(account);
        mem::drop(left);
    }
}

// The own place of a process that starts in the view.
fn first_place(alloc: Global, roster: &Roster, genesis: &View, me: Pid) -> Own
    ensures { (s : Setting) (limit : ℕ) → StartsWith s roster.now genesis.now → IsOwnOf s (start s me limit) (empty_pool genesis.now) result }
{
    Own {
        me,
        position: genesis.rank_of(me),
        keyed: roster.processes(),
        signed: SignedSlots::new(alloc),
        ended: false,
        rank: 0,
        ready: None,
        ordered: 0,
        orders: no_counts(genesis),
        delivered: 0,
        counts: no_counts(genesis),
        earlier: 0,
    }
}

// What a process that starts in the view reports of itself.
fn first_account(alloc: Global, genesis: View, me: Pid) -> Result<Account, NoMemory>
    ensures { IfOk result (λ a. (s : Setting) (limit : ℕ) → s.genesis ≡ genesis → account_of (start s me limit) ≡ account a) }
{
    let mut views = Vec::new(alloc);
    views.push(genesis)?;
    let mut delivered = Vec::new(alloc);
    delivered.push(Vec::new(alloc))?;
    Ok(Account {
        me,
        views,
        delivered,
        accepted: Vec::new(alloc),
        perceived: Vec::new(alloc),
    })
}

// A copy, which takes no memory.
fn copied(view: &View) -> View
    ensures { result ≡ view.now }
{
    let Ok(copy) = view.clone() else {
        unreachable!()
    };
    copy
}

/// The pair at this place, the heard claim first; None exactly where there are no more than `place`.
pub fn pair_at(conflicts: &Conflicts, place: usize) -> Option<(Claim<'_>, Claim<'_>)>
    ensures { option_map (λ pair. (claim_of pair.0, claim_of pair.1)) result ≡ slice_get conflicts.now.pairs place }
{
    match (conflicts.heard_at(place), conflicts.other_at(place)) {
        (Some(heard), Some(other)) => Some((heard, other)),
        _ => None,
    }
}

// The pair of this signer, if there is one.
fn pair_of(conflicts: &Conflicts, signer: Pid) -> Option<(Claim<'_>, Claim<'_>)>
    ensures { option_map (λ pair. (claim_of pair.0, claim_of pair.1)) result ≡ kept_of signer conflicts.now.pairs }
{
    'pairs: for place in 0..conflicts.len() {
        if let Some((heard, other)) = pair_at(conflicts, place) {
            if heard.signer == signer {
                return Some((heard, other));
            }
        }
    }
    None
}

// The signers of these pairs.
fn liars_in(conflicts: &Conflicts) -> PidSet
    ensures { ArePairs conflicts.now.pairs → result ≡ signers_in conflicts.now.pairs }
{
    let mut liars = PidSet::new();
    let mut left = conflicts.len();
    'pairs: while left > 0 {
        left -= 1;
        if let Some(heard) = conflicts.heard_at(left) {
            liars.insert(heard.signer);
        }
    }
    liars
}

impl ProcessState {
    /// The process of this number as it starts, in the genesis view, which has the number 0. An own Order has at most `batch_limit`
    /// messages, 1 to 16.
    pub fn new(
        alloc: Global,
        roster: &Roster,
        genesis: &View,
        me: Pid,
        batch_limit: u8,
    ) -> Result<ProcessState, NoMemory>
        requires number { genesis.now.number ≡ 0 }
        requires some { 1 ≤ batch_limit }
        requires few { batch_limit ≤ 16 }
        ensures starts { IfOk result (λ st. (s : Setting) → StartsWith s roster.now genesis.now → IsStateOf s (start s me batch_limit) st) }
        ensures here { IfOk result (λ st. st.left ≡ None) }
    {
        let _number = genesis.number();
        Ok(ProcessState {
            batch_limit,
            own: first_place(alloc, roster, genesis, me),
            pool: Pool::new(alloc, copied(genesis))?,
            phase: Phase::begin(genesis, me),
            perceived: Perceived::new(),
            said: ClaimList::new(alloc),
            said_from: 0,
            said_before: Vec::new(alloc),
            conflicts: Conflicts::new(alloc),
            archive: Archive::new(alloc)?,
            account: first_account(alloc, copied(genesis), me)?,
            left: None,
        })
    }

    /// The signers of whom the process keeps two claims that conflict.
    pub fn liars(&self) -> PidSet
        ensures { (s : Setting) (p : Process) → IsStateOf s p self.now → liars_of p ≡ result }
    {
        liars_in(&self.conflicts)
    }

    /// The first two claims of this signer that the process keeps as a conflict, the heard one first; None exactly where it keeps none.
    pub fn conflict(&self, signer: Pid) -> Option<(Claim<'_>, Claim<'_>)>
        ensures { (s : Setting) (p : Process) → IsStateOf s p self.now → option_map (λ pair. (claim_of pair.0, claim_of pair.1)) result ≡ kept_of signer p.conflicts }
    {
        pair_of(&self.conflicts, signer)
    }

    /// Where the process has halted: how many places it has delivered, and the cut, which is below that.
    pub fn halted(&self) -> Option<(u16, u16)>
        ensures { (s : Setting) (p : Process) → IsStateOf s p self.now → halted_at p ≡ result }
    {
        match &self.phase {
            Phase::HaltedView(halted) => { Some((halted.delivered(), halted.decision().value.cut)) }
            _ => None,
        }
    }
}
