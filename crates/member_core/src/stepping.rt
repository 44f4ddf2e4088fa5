//! One event, from the moment that it is handed in until its frames are packed.
ghost use Rattle.std.specs.Prelude.{◌≡◌, ◌-◌, ◌≤◌, length, IfOk, OnErr};
ghost use Rattle.group_defs.specs.Process.{Setting, Process};
ghost use Rattle.event_laws.specs.Slots.{most_signed};
ghost use Rattle.journal_defs.specs.Entries.{IsEntry};
ghost use Rattle.journal_entries.specs.Views.{event as plain_event, turn_entry};
ghost use Rattle.member_events.specs.declared.events.EventVerdict.TheVariants.{Taken};
ghost use Rattle.member_signing.specs.States.{event as event_of};
ghost use Rattle.member_core.specs.Cores.{IsCore, IsKeyless, Steps, Takes, signer_of};
ghost use Rattle.member_core.specs.Entries.{NamesProcesses};

use crate::attempts::attempt;
use crate::member::{Core, Keyless};
use member_events::{Event, Outcome};
use member_sending::Judge;
use rp_base::{NoMemory, Retract, Scheme, Signer, Tally};

impl Keyless {
    // One event, with this signer.
    fn step<G: Signer, V: Scheme>(
        &mut self,
        scheme: &V,
        signer: &mut G,
        event: &Event<'_>,
    ) -> Result<Outcome, NoMemory>
        ensures takes { (s : Setting) (p : Process) → IsKeyless s p self.old → s.valid ≡ V.valid scheme.now
            → length p.signed ≡ G.Tally.used signer.old
            → IfOk result (Takes s p (record {
              event = event_of event.now;
              allowance = G.Tally.total signer.old - G.Tally.used signer.old;
              signer = G.signature signer.old;
            }) self.new (G.Tally.used signer.new)) }
        ensures lost { (s : Setting) (p : Process) → IsKeyless s p self.old → OnErr result (IsKeyless s p self.new) }
        ensures rises { G.Tally.used signer.old ≤ G.Tally.used signer.new }
        ensures total { G.Tally.total signer.new ≡ G.Tally.total signer.old }
        ensures secret { G.signature signer.new ≡ G.signature signer.old }
        ensures key { G.public signer.new ≡ G.public signer.old }
    {
        let judge = Judge {
            scheme,
            roster: &self.roster,
            group: &self.group,
        };
        let frames = &mut self.frames;
        let Ok(outcome) = attempt(
            &mut self.state,
            self.alloc,
            &judge,
            signer,
            &mut self.rooms,
            frames,
            event,
        ) else {
            return Err(NoMemory);
        };
        self.state.go_on();
        Ok(outcome)
    }
}

// The processes that the event names are ones that there can be, by their type.
fn heed(event: &Event<'_>)
    ensures { NamesProcesses event.now }
{
    match *event {
        Event::Frame { from, bytes: _ } => {
            let _number = from.get();
        }
        Event::Suspect(process) | Event::Join(process) => {
            let _number = process.get();
        }
        Event::Submit(_) | Event::Renew | Event::Tick => {}
    }
}

impl<G: Retract + Drop> Core<G> {
    /// One event, taken whole or not at all: the process after it and what comes of it are the definitions', with as many signatures as
    /// the key has left. It signs at most 20,674 statements, and where it is taken, it has a spelling as an entry of a journal.
    ///
    /// This is for a process without a journal. One with a journal takes its turns as `hosted_core` says, so that it is never ahead of it.
    ///
    /// Where memory runs out the event is lost, and the process and its key are as before. Signatures that were made in it are taken
    /// back, since nobody was shown them: their numbers sign what comes next.
    pub fn step<V: Scheme>(&mut self, scheme: &V, event: &Event<'_>) -> Result<Outcome, NoMemory>
        ensures steps { (s : Setting) (p : Process) → IsCore G.Tally.used s p self.old → s.valid ≡ V.valid scheme.now
            → IfOk result (Steps G.Tally.used G.Tally.total G.Signer.signature s p self.old self.new (event_of event.now)) }
        ensures lost { (s : Setting) (p : Process) → IsCore G.Tally.used s p self.old
            → OnErr result (IsCore G.Tally.used s p self.new) }
        ensures few { (s : Setting) (p : Process) → IsCore G.Tally.used s p self.old → s.valid ≡ V.valid scheme.now
            → IfOk result (λ r. length r.signed.items ≤ most_signed) }
        ensures entry { (s : Setting) (p : Process) → IsCore G.Tally.used s p self.old → s.valid ≡ V.valid scheme.now
            → IfOk result (λ r. r.verdict ≡ Taken → IsEntry (turn_entry p.me (plain_event event.now) r)) }
        ensures unspent { OnErr result (G.Tally.used (signer_of self.new) ≡ G.Tally.used (signer_of self.old)) }
        ensures rises { G.Tally.used (signer_of self.old) ≤ G.Tally.used (signer_of self.new) }
        ensures total { G.Tally.total (signer_of self.new) ≡ G.Tally.total (signer_of self.old) }
        ensures secret { G.Signer.signature (signer_of self.new) ≡ G.Signer.signature (signer_of self.old) }
        ensures key { G.Signer.public (signer_of self.new) ≡ G.Signer.public (signer_of self.old) }
    {
        heed(event);
        let _number = self.me().get();
        let used = self.signer.used();
        match self.keyless.step(scheme, &mut self.signer, event) {
            Ok(outcome) => Ok(outcome),
            Err(NoMemory) => {
                self.signer.retract(used);
                Err(NoMemory)
            }
        }
    }
}
