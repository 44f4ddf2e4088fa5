//! A process that is taken as correct, as its journal says what it did.
ghost use Rattle.std.specs.Prelude.{◌≡◌, ◌≤◌, ◌++◌, ◌==◌, ◌&&◌, [], List, IsOkUnless, IsTrue, IfOk, OnOk};
ghost use Rattle.message_defs.specs.Statements as plain;
ghost use Rattle.group_defs.specs.Process.{Setting, start};
ghost use Rattle.group_defs.specs.Events.{outcome};
ghost use Rattle.group_defs.specs.Accounts.{account_of};
ghost use Rattle.group_defs.specs.Family.{claims_in, handed_to};
ghost use Rattle.rp_base.specs.Rosters.{IsRising};
ghost use Rattle.accounts.specs.Views.{account};
ghost use Rattle.conviction_defs.specs.Convictions.{convicted};
ghost use Rattle.journal_entries.specs.Views.{entry as entry_of, event as plain_event};
ghost use Rattle.claim_firsts.specs.Seen.{Saw};
ghost use Rattle.audit_claims.specs.Judges.{Shares};
ghost use Rattle.member_core.specs.Cores as cores;
ghost use Rattle.audit_defs.specs.Players as audit;
ghost use Rattle.audit_defs.specs.Players.{claims_of, event_of, is_written, turn_of, with_turn};
ghost use Rattle.rp_base.specs.Signer.{count_used};
ghost use Rattle.audit_turns.specs.Players.{IsPlayer, begun, is_taken, number_of};

use audit_claims::{Firsts, Judge, Known, see_frame, see_signed};
use member_core::{AbsorbFault, Account, Core, Entry, Event};
use rp_base::{Count, GroupId, NoMemory, Pid, PidSet, Roster, Scheme};
use std::alloc::Global;
use view_table::View;

/// How many signatures a process makes at most.
const MOST_SIGNATURES: u32 = 4_294_967_295;

/// A process that is taken as correct. `IsPlayer` of the specs says which process of the definitions it is.
#[derive(Drop)]
pub struct Player<'a> {
    pub(crate) core: Core<Count>,

    // the index of the journal that hosts it
    pub(crate) journal: usize,

    // the claims that were handed to it
    pub(crate) handed: Firsts<'a>,
}

impl<'a> Player<'a> {
    /// The process of this number as it starts, in the genesis view, which has the number 0. The journal of this index hosts it. An own
    /// Order has at most `batch_limit` messages, 1 to 16.
    ///
    /// # Errors
    /// [`NoMemory`].
    pub fn new(
        alloc: Global,
        group: GroupId,
        roster: Roster,
        genesis: View,
        me: Pid,
        batch_limit: u8,
        journal: usize,
    ) -> Result<Player<'a>, NoMemory>
        requires number { genesis.number ≡ 0 }
        requires some { 1 ≤ batch_limit }
        requires few { batch_limit ≤ 16 }
        ensures starts { IfOk result (λ p. (s : Setting) → cores.Shares s group roster genesis → IsPlayer s (begun s me batch_limit journal) p) }
    {
        let signer = Count::new(MOST_SIGNATURES);
        let core = Core::new(alloc, group, roster, genesis, me, batch_limit, signer)?;
        Ok(Player {
            core,
            journal,
            handed: Firsts::new(alloc),
        })
    }

    /// The process's number.
    pub fn me(&self) -> Pid
        ensures { result ≡ number_of self.now }
    {
        self.core.me()
    }

    /// The process itself, as it is after the entries that it took.
    pub fn core(&self) -> &Core<Count>
        ensures { (s : Setting) (c : audit.Player) → IsPlayer s c self.now → cores.IsCore count_used s c.now result.now }
    {
        &self.core
    }

    /// What the process reports of itself.
    pub fn account(&self) -> &Account
        ensures { (s : Setting) (c : audit.Player) → IsPlayer s c self.now → account_of c.now ≡ account result.now }
    {
        self.core.account()
    }

    /// Whom the claims handed to the process convict. The roster rises, as every `Roster` does.
    pub fn grounds(&self) -> PidSet
        ensures { (s : Setting) (c : audit.Player) → IsRising s.roster → IsPlayer s c self.now → result ≡ convicted s (handed_to c.turns) }
    {
        self.handed.convicted()
    }

    // Sees what the event hands over to the process.
    fn hand_over<V: Scheme>(
        &mut self,
        judge: &Judge<'_, V>,
        event: &Event<'a>,
        all: &mut Firsts<'a>,
    ) -> Result<(), NoMemory>
        ensures seen { (s : Setting) (before own to : List plain.Claim)
            → Shares s (V.valid judge.now.scheme.now) judge.now.group.now judge.now.roster.now
            → Saw s before own all.old → Saw s to [] self.old.handed
            → OnOk result (Saw s (before ++ claims_in (event_of (plain_event event.now))) own all.new
            × Saw s (to ++ claims_in (event_of (plain_event event.now))) [] self.new.handed) }
        ensures core { self.new.core ≡ self.old.core }
        ensures journal { self.new.journal ≡ self.old.journal }
    {
        match *event {
            Event::Frame { bytes, .. } => see_frame(judge, bytes, all, &mut self.handed),
            _ => Ok(()),
        }
    }

    // Takes an entry of its own, which its journal has.
    fn absorb<V: Scheme>(
        &mut self,
        judge: &Judge<'_, V>,
        entry: &Entry<'a>,
        all: &mut Firsts<'a>,
    ) -> Result<(), AbsorbFault>
        requires whose { entry.now.process ≡ number_of self.old }
        ensures taken { (s : Setting) (c : audit.Player) (before own : List plain.Claim) → IsPlayer s c self.old
            → Shares s (V.valid judge.now.scheme.now) judge.now.group.now judge.now.roster.now → Saw s before own all.old
            → OnOk result (IsTrue (is_written s c.now (entry_of entry.now))
            × IsPlayer s (with_turn s c (turn_of c.now (entry_of entry.now))) self.new
            × Saw s (before ++ claims_of s c.now (turn_of c.now (entry_of entry.now)))
            (own ++ (outcome s c.now (turn_of c.now (entry_of entry.now))).signed) all.new) }
        ensures only { (s : Setting) (c : audit.Player) (before own : List plain.Claim) → IsPlayer s c self.old
            → Shares s (V.valid judge.now.scheme.now) judge.now.group.now judge.now.roster.now → Saw s before own all.old
            → IsTrue (is_written s c.now (entry_of entry.now)) → IsOkUnless result AbsorbFault.NoMemory }
    {
        let Ok(()) = self.hand_over(judge, &entry.event, all) else {
            return Err(AbsorbFault::NoMemory);
        };
        let known = Known {
            firsts: all,
            scheme: judge.scheme,
            roster: judge.roster,
            group: judge.group,
        };
        let outcome = match self.core.absorb(&known, entry) {
            Ok(outcome) => outcome,
            Err(fault) => return Err(fault),
        };
        let (signed, _sends, _notes) = outcome.into_parts();
        match see_signed(signed, all) {
            Ok(()) => Ok(()),
            Err(NoMemory) => Err(AbsorbFault::NoMemory),
        }
    }

    // Whether the journal of this index hosts it, and its number is this.
    fn is_of(&self, journal: usize, p: Pid) -> bool
        ensures { result ≡ ((self.now.journal == journal) && (number_of self.now == p)) }
    {
        self.journal == journal && self.me() == p
    }

    /// Takes an entry of the journal of this index: what its frame hands over is seen, the process takes the entry's turn,
    /// and what it signs is seen as its own words.
    ///
    /// # Errors
    /// [`AbsorbFault::Differs`] exactly where the entry is not this process's, or the journal is not the one that hosts it, or the process
    /// cannot have written the entry; and [`AbsorbFault::NoMemory`]. After a fault a part of it may have been seen.
    pub(crate) fn take<V: Scheme>(
        &mut self,
        judge: &Judge<'_, V>,
        journal: usize,
        entry: &Entry<'a>,
        all: &mut Firsts<'a>,
    ) -> Result<(), AbsorbFault>
        ensures taken { (s : Setting) (c : audit.Player) (before own : List plain.Claim) → IsPlayer s c self.old
            → Shares s (V.valid judge.now.scheme.now) judge.now.group.now judge.now.roster.now → Saw s before own all.old
            → OnOk result (IsTrue (is_taken s journal (entry_of entry.now) c)
            × IsPlayer s (with_turn s c (turn_of c.now (entry_of entry.now))) self.new
            × Saw s (before ++ claims_of s c.now (turn_of c.now (entry_of entry.now)))
            (own ++ (outcome s c.now (turn_of c.now (entry_of entry.now))).signed) all.new) }
        ensures only { (s : Setting) (c : audit.Player) (before own : List plain.Claim) → IsPlayer s c self.old
            → Shares s (V.valid judge.now.scheme.now) judge.now.group.now judge.now.roster.now → Saw s before own all.old
            → IsTrue (c.me == entry.now.process) → IsTrue (is_taken s journal (entry_of entry.now) c)
            → IsOkUnless result AbsorbFault.NoMemory }
    {
        if !self.is_of(journal, entry.process) {
            return Err(AbsorbFault::Differs);
        }
        self.absorb(judge, entry, all)
    }
}
