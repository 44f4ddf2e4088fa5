//! One event of a hosted process, up to the turn that its journal takes in.
ghost use Rattle.std.specs.Prelude.{◌≡◌, IfOk};
ghost use Rattle.group_defs.specs.Process.{Setting, Process};
ghost use Rattle.journal_entries.specs.Views.{event as plain_event};
ghost use Rattle.member_core.specs.Events.{event as event_of};
ghost use Rattle.member_core.specs.Cores.{IsCore, me_of, signer_of, turn_of};
ghost use Rattle.hosted_core.specs.Hosts.{core_of, IsReal};
ghost use Rattle.hosted_core.specs.Turns.{hosted_in, TakesTurn};

use crate::hosted::Hosted;
use journal_rp::{Journalled, Turn, Unsynced};
use member_core::{Event, EventFault, EventVerdict};
use rp_base::{NoMemory, Pid, Retract, Scheme};
use std::alloc::Global;

impl<G: Retract + Drop> Journalled for Hosted<G> {
    ghost use Rattle.hosted_core.specs.Hosts.{core_of};
    ghost use Rattle.hosted_core.specs.Turns.{Took};
    ghost use Rattle.member_core.specs.Cores.{me_of};

    ghost number = { λ h. me_of (core_of h) };

    ghost took = { λ h e r. Took G.Tally.used G.Tally.total G.Signer.signature h e r };

    fn number(&self) -> Pid {
        self.core.me()
    }

    ghost spells = { λ h e r took. took.entry };
}

/// What became of an event at a hosted process.
#[derive(Drop)]
pub enum Taken<G> {
    /// It was refused: nothing has changed, and there is nothing to journal.
    Refused(Hosted<G>, EventFault),

    /// Memory ran out in it: it is lost, and the process is as it was.
    Lost(Hosted<G>),

    /// It was taken. The process comes back once the turn is in the journal.
    Turn(Turn<Unsynced, Hosted<G>>),
}

impl<G: Retract + Drop> Hosted<G> {
    /// One event, and the turn that the journal is to take in. The turn has the process with it.
    ///
    /// # Errors
    /// `NoMemory` where memory ran out for the turn of an event that was taken: the process, which was ahead of its journal, is dropped.
    pub fn take<V: Scheme>(
        self,
        alloc: Global,
        scheme: &V,
        event: &Event<'_>,
    ) -> Result<Taken<G>, NoMemory>
        requires real { IsReal G.Tally.used self }
        ensures takes { (s : Setting) (p : Process) → IsCore G.Tally.used s p (core_of self) → s.valid ≡ V.valid scheme.now
            → IfOk result (TakesTurn G.Tally.used s p
            (turn_of G.Tally.used G.Tally.total G.Signer.signature (core_of self) (event_of event.now)) (plain_event event.now)) }
        ensures real { IfOk result (λ t. IsReal G.Tally.used (hosted_in t)) }
        ensures total { IfOk result (λ t. G.Tally.total (signer_of (core_of (hosted_in t))) ≡ G.Tally.total (signer_of (core_of self))) }
        ensures secret { IfOk result (λ t. G.Signer.signature (signer_of (core_of (hosted_in t)))
            ≡ G.Signer.signature (signer_of (core_of self))) }
        ensures key { IfOk result (λ t. G.Signer.public (signer_of (core_of (hosted_in t))) ≡ G.Signer.public (signer_of (core_of self))) }
    {
        let Hosted { core } = self;
        let mut core = core;
        let Ok(outcome) = core.step(scheme, event) else {
            return Ok(Taken::Lost(Hosted { core }));
        };
        match outcome.verdict {
            EventVerdict::Refused(fault) => Ok(Taken::Refused(Hosted { core }, fault)),
            EventVerdict::Taken => {
                let turn = Turn::new(alloc, Hosted { core }, event, outcome)?;
                Ok(Taken::Turn(turn))
            }
        }
    }
}
