//! A member as it starts, and what it reports of itself.
ghost use Rattle.std.specs.Prelude.{◌≡◌, ◌≤◌, length, IfOk, None};
ghost use Rattle.std.specs.Option.{option_map};
ghost use Rattle.group_defs.specs.Process.{Setting, Process, all_kinds, start};
ghost use Rattle.group_defs.specs.Accounts.{account_of};
ghost use Rattle.group_defs.specs.Settle.{phase_of};
ghost use Rattle.member_events.specs.Below.{claim as claim_of};
ghost use Rattle.member_signing.specs.States.{IsReal, IsStateOf, account, word, kept_of, liars_of, halted_at};
ghost use Rattle.member_core.specs.Cores.{IsCore, Shares, me_of, signer_of};

use crate::attempts::Rooms;
use crate::member::{Core, Keyless};
use member_events::Claim;
use member_sending::Frames;
use member_signing::{Account, PhaseWord, ProcessState};
use rp_base::{GroupId, NoMemory, Pid, PidSet, Roster, Tally};
use std::alloc::Global;
use view_table::View;

impl<G: Tally + Drop> Core<G> {
    /// The process of this number as it starts, in the genesis view, which has the number 0. The signer has signed nothing; on
    /// `NoMemory` it is dropped unused. An own Order has at most `batch_limit` messages, 1 to 16.
    pub fn new(
        alloc: Global,
        group: GroupId,
        roster: Roster,
        genesis: View,
        me: Pid,
        batch_limit: u8,
        signer: G,
    ) -> Result<Core<G>, NoMemory>
        requires number { genesis.number ≡ 0 }
        requires some { 1 ≤ batch_limit }
        requires few { batch_limit ≤ 16 }
        requires unused { G.used signer ≡ 0 }
        ensures starts { IfOk result (λ c. (s : Setting) → Shares s group roster genesis → IsCore G.used s (start s me batch_limit) c) }
        ensures signer { IfOk result (λ c. signer_of c ≡ signer) }
    {
        let state = ProcessState::new(alloc, &roster, &genesis, me, batch_limit)?;
        Core::of_state(alloc, group, roster, state, signer)
    }

    /// The process that has this state, in the group of this roster. The signer has made as many signatures as the process has signed
    /// statements; on `NoMemory` it is dropped unused.
    pub fn of_state(
        alloc: Global,
        group: GroupId,
        roster: Roster,
        state: ProcessState,
        signer: G,
    ) -> Result<Core<G>, NoMemory>
        requires real { IsReal state }
        requires here { state.left ≡ None }
        ensures is { IfOk result (λ c. (s : Setting) (p : Process) → s.group ≡ group → s.roster ≡ roster → s.signs ≡ all_kinds
            → length p.signed ≡ G.used signer → IsStateOf s p state → IsCore G.used s p c) }
        ensures signer { IfOk result (λ c. signer_of c ≡ signer) }
    {
        let frames = Frames::new(alloc)?;
        let rooms = Rooms::new(alloc, &state);
        let kept = Box::new(alloc, state)?;
        let keyless = Keyless {
            alloc,
            group,
            roster,
            state: kept,
            frames,
            rooms,
        };
        Ok(Core { keyless, signer })
    }

    /// The state of the process: its own data, apart from group, roster and signer. Nothing is copied.
    #[tactic(auto, unfolding(crate::specs::Cores::IsCore))]
    pub fn state(&self) -> &ProcessState
        ensures state { (s : Setting) (p : Process) → IsCore G.used s p self.now → IsStateOf s p result.now }
        ensures real { IsReal result.now }
        ensures here { result.now.left ≡ None }
    {
        &self.keyless.state
    }

    /// The process's number.
    #[tactic(auto, unfolding(crate::specs::Cores::IsCore))]
    pub fn me(&self) -> Pid
        ensures value { result ≡ me_of self.now }
        ensures process { (s : Setting) (p : Process) → IsCore G.used s p self.now → p.me ≡ result }
    {
        self.keyless.state.own.me
    }

    /// What the process reports of itself.
    #[tactic(auto, unfolding(crate::specs::Cores::IsCore))]
    pub fn account(&self) -> &Account
        ensures { (s : Setting) (p : Process) → IsCore G.used s p self.now → account_of p ≡ account result.now }
    {
        &self.keyless.state.account
    }

    /// The phase of the process in its current view.
    #[tactic(auto, unfolding(crate::specs::Cores::IsCore))]
    pub fn phase(&self) -> PhaseWord
        ensures { (s : Setting) (p : Process) → IsCore G.used s p self.now → phase_of p ≡ word result }
    {
        self.keyless.state.phase.word()
    }

    /// How many statements the process has signed.
    #[tactic(auto, unfolding(crate::specs::Cores::IsCore))]
    pub fn used(&self) -> u32
        ensures { (s : Setting) (p : Process) → IsCore G.used s p self.now → length p.signed ≡ result }
    {
        self.signer.used()
    }

    /// The signers of whom the process keeps two claims that conflict.
    #[tactic(auto, unfolding(crate::specs::Cores::IsCore))]
    pub fn liars(&self) -> PidSet
        ensures { (s : Setting) (p : Process) → IsCore G.used s p self.now → liars_of p ≡ result }
    {
        self.keyless.state.liars()
    }

    /// The first two claims of this signer that the process keeps as a conflict, the heard one first; None exactly where it keeps none.
    /// Nothing is copied.
    #[tactic(auto, unfolding(crate::specs::Cores::IsCore))]
    pub fn conflict(&self, signer: Pid) -> Option<(Claim<'_>, Claim<'_>)>
        ensures { (s : Setting) (p : Process) → IsCore G.used s p self.now
            → option_map (λ pair. (claim_of pair.0, claim_of pair.1)) result ≡ kept_of signer p.conflicts }
    {
        self.keyless.state.conflict(signer)
    }

    /// Where the process has halted: how many places it has delivered, and the cut, which is below that.
    #[tactic(auto, unfolding(crate::specs::Cores::IsCore))]
    pub fn halted(&self) -> Option<(u16, u16)>
        ensures { (s : Setting) (p : Process) → IsCore G.used s p self.now → halted_at p ≡ result }
    {
        self.keyless.state.halted()
    }
}
