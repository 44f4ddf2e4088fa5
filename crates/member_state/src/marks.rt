//! A process at a mark, to which it goes back where an event comes to nothing.
ghost use Rattle.std.specs.Prelude.{◌≡◌, ◌++◌, ◌∷◌, [], List, OnOk, None, MatchOption, true};
ghost use Rattle.group_defs.specs.Process.{Setting, Process};
ghost use Rattle.view_phases.specs.Marks.{marked};
ghost use Rattle.member_state.specs.declared.left.SaidBefore as lists;
ghost use Rattle.member_state.specs.Marks.{MayAsk, Stays, HasLeft, Since};
ghost use Rattle.member_state.specs.States.{IsStateOf};

use crate::left::{LeftView, SaidBefore};
use crate::state::ProcessState;
use accounts::AccountMark;
use ending_rules::Perceived;
use own_place::OwnMark;
use reliable_mcast::ClaimList;
use rp_base::NoMemory;
use std::mem;
use view_phases::PhaseMark;

/// What a process was at a mark, apart from what its pool, its lists and its signed slots keep of it themselves.
#[derive(Drop)]
pub struct Before {
    own: OwnMark,
    phase: PhaseMark,
    perceived: Perceived,
    account: AccountMark,
}

impl Before {
    /// Marks of this process its phase and what was asked for alone: room for a mark.
    pub fn new(state: &ProcessState) -> Before
        ensures phase { marked result.phase ≡ state.now.phase }
        ensures asked { result.perceived ≡ state.now.perceived }
    {
        Before {
            own: OwnMark::new(state.own.me),
            phase: state.phase.mark(),
            perceived: state.perceived,
            account: AccountMark::new(),
        }
    }
}

// Takes back what was said in the view that was left last.
fn take_back(said_before: &mut Vec<SaidBefore>, said: &mut ClaimList, from: &mut usize)
    ensures { (before : List lists.SaidBefore) (last : lists.SaidBefore) → said_before.old.items ≡ before ++ last ∷ []
        → (said_before.new.items ≡ before) × (said.new ≡ last.claims) × (from.new ≡ last.from) }
{
    if let Some(last) = said_before.pop() {
        let SaidBefore {
            claims,
            from: place,
        } = last;
        *said = claims;
        *from = place;
    }
}

impl ProcessState {
    /// Marks the process in `before`, so that it can be gone back to. `asks` says whether an update may be asked for until then.
    pub fn mark(&mut self, asks: bool, before: &mut Before) -> Result<(), NoMemory>
        requires { self.old.left ≡ None }
        ensures same { (s : Setting) (p : Process) → IsStateOf s p self.old → IsStateOf s p self.new }
        ensures stands { (s : Setting) (p : Process) → IsStateOf s p self.old
            → OnOk result (Stays before.new self.old self.new) }
        ensures asks { asks ≡ true → OnOk result (MayAsk before.new) }
        ensures left { self.new.left ≡ self.old.left }
    {
        self.account.mark(asks, &mut before.account)?;
        self.pool.mark();
        self.said.mark();
        self.conflicts.mark();
        self.own.mark(&mut before.own);
        before.phase = self.phase.mark();
        before.perceived = self.perceived;
        Ok(())
    }

    // Goes back to the view that was left last.
    fn come_back(&mut self, left: LeftView)
        ensures stands { (b : Before) (was : ProcessState) → HasLeft b was left self.old → Stays b was self.new }
        ensures left { self.new.left ≡ self.old.left }
    {
        let LeftView { signed, older } = left;
        if let Some(pool) = self.archive.take_back(older) {
            self.pool = pool;
        }
        self.own.signed = signed;
        take_back(&mut self.said_before, &mut self.said, &mut self.said_from);
        self.account.drop_last();
    }

    // Goes back to the view of the mark, where another one was begun since.
    fn come_back_if(&mut self, left: Option<LeftView>)
        ensures stands { (b : Before) (was : ProcessState) → MatchOption left (Stays b was self.old) (λ l. HasLeft b was l self.old)
            → Stays b was self.new }
        ensures left { self.new.left ≡ self.old.left }
    {
        if let Some(left) = left {
            self.come_back(left);
        }
    }

    // Goes back to the mark, in the view of the mark.
    fn rewind_here(&mut self, before: &mut Before)
        ensures left { self.new.left ≡ self.old.left }
        ensures back { (was : ProcessState) → Stays before.old was self.old → (s : Setting) (p : Process) → IsStateOf s p was
            → IsStateOf s p self.new }
    {
        self.pool.rewind();
        self.said.rewind();
        self.conflicts.rewind();
        self.own.rewind(&before.own);
        self.phase.rewind(&before.phase);
        self.perceived = before.perceived;
        self.account.rewind(&mut before.account);
    }

    /// Goes back to what the process was at the mark, which serves once. It takes no memory.
    pub fn rewind(&mut self, before: &mut Before)
        ensures back { (was : ProcessState) → Since before.old was self.old → (s : Setting) (p : Process) → IsStateOf s p was
            → IsStateOf s p self.new }
        ensures stays { self.new.left ≡ None }
    {
        let left = mem::replace(&mut self.left, None);
        self.come_back_if(left);
        self.rewind_here(before);
    }

    // Forgets the view that was left.
    fn forget_left(&mut self)
        ensures { self.new ≡ record self.old { left = None } }
    {
        self.left = None;
    }

    /// The event is over: there is no way back to the mark.
    pub fn go_on(&mut self)
        ensures same { (s : Setting) (p : Process) → IsStateOf s p self.old → IsStateOf s p self.new }
        ensures stays { self.new.left ≡ None }
    {
        // Mostly no view was left, and then there is nothing to drop.
        if self.left.is_some() {
            self.forget_left();
        }
    }
}
