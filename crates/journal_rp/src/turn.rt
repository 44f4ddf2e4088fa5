use journal_entries::staged_entry;
use member_events::{Event, Note, Outcome, Sending};
use rp_base::{NoMemory, Pid};
use std::alloc::Global;
use std::marker::PhantomData;

/// A process whose events a journal keeps. Whoever took an event goes into its [`Turn`], and comes back once the entry is in the journal
/// for good; where the turn is lost, the process is too. So nothing goes on with a process that is ahead of its journal.
pub trait Journalled {
    ghost use Rattle.std.specs.Prelude.{◌≡◌, ℕ};
    ghost use Rattle.journal_defs.specs.Entries.{IsEntry};
    ghost use Rattle.journal_entries.specs.Views.{event as event_of, turn_entry};
    ghost use Rattle.member_events.specs.declared.events.Event.{Event as Taken};
    ghost use Rattle.member_events.specs.declared.events.Outcome.{Outcome as Came};

    /// The process's number.
    ghost number: { Self → ℕ };

    /// The process has taken this event, with this outcome, and no other since.
    ghost took: { Self → Taken → Came → Type 0 };

    /// The process's number.
    fn number(&self) -> Pid
        ensures { result ≡ number self.now };

    /// What it took has a spelling as an entry.
    ghost spells: { (p : Self) (e : Taken) (o : Came) → took p e o → IsEntry (turn_entry (number p) (event_of e) o) };
}

/// The turn is not in the journal yet.
#[derive(Clone, Copy)]
pub struct Unsynced;

/// The turn is in the journal, whatever crash comes.
#[derive(Clone, Copy)]
pub struct Synced;

/// What one event brought about at a process, its entry, and the process itself. What is to be sent and reported is given once the entry is
/// in the journal for good, and so is the process: only `Turn<Synced, P>` has `sends`, `notes`, `process`,
/// `into_parts` and `into_process`, and only `Journal::append` makes one.
#[derive(Drop)]
pub struct Turn<S, P> {
    pub(crate) bytes: Vec<u8>,
    pub(crate) outcome: Outcome,
    pub(crate) process: P,
    pub(crate) state: PhantomData<S>,
}

impl<P: Journalled + Drop> Turn<Unsynced, P> {
    ghost use Rattle.std.specs.Prelude.{◌≡◌, IfOk};
    ghost use Rattle.journal_defs.specs.Crashes.{staged};
    ghost use Rattle.journal_entries.specs.Views.{event as event_of, turn_entry};
    ghost use Rattle.journal_rp.specs.Turns.{outcome_of, process_of, staged_of};

    /// The turn in which this process took this event with this outcome. Without memory the process is dropped with its outcome: it is
    /// ahead of its journal.
    pub fn new(
        alloc: Global,
        process: P,
        event: &Event<'_>,
        outcome: Outcome,
    ) -> Result<Turn<Unsynced, P>, NoMemory>
        requires took { P.took process event.now outcome }
        ensures entry { IfOk result (λ turn. staged_of turn ≡ staged (turn_entry (P.number process) (event_of event.now) outcome)) }
        ensures outcome { IfOk result (λ turn. outcome_of turn ≡ outcome) }
        ensures process { IfOk result (λ turn. process_of turn ≡ process) }
    {
        let bytes = staged_entry(alloc, process.number(), event, &outcome)?;
        Ok(Turn {
            bytes,
            outcome,
            process,
            state: PhantomData,
        })
    }
}

impl<P: Drop> Turn<Unsynced, P> {
    ghost use Rattle.std.specs.Prelude.{◌≡◌};
    ghost use Rattle.journal_rp.specs.Turns.{outcome_of, process_of, staged_of};

    // The same turn, once its entry is in the journal for good.
    pub(crate) fn synced(self) -> Turn<Synced, P>
        ensures outcome { outcome_of result ≡ outcome_of self }
        ensures entry { staged_of result ≡ staged_of self }
        ensures process { process_of result ≡ process_of self }
    {
        let Turn {
            bytes,
            outcome,
            process,
            ..
        } = self;
        Turn {
            bytes,
            outcome,
            process,
            state: PhantomData,
        }
    }
}

impl<P: Drop> Turn<Synced, P> {
    ghost use Rattle.std.specs.Prelude.{◌≡◌};
    ghost use Rattle.journal_rp.specs.Turns.{outcome_of, process_of};

    /// What is to be sent, in this order.
    pub fn sends(&self) -> &[Sending]
        ensures { result.now ≡ (outcome_of self.now).sends.items }
    {
        self.outcome.sends.as_slice()
    }

    /// What is reported to the process's user, in this order.
    pub fn notes(&self) -> &[Note]
        ensures { result.now ≡ (outcome_of self.now).notes.items }
    {
        self.outcome.notes.as_slice()
    }

    /// The process that took the turn, borrowed.
    pub fn process(&self) -> &P
        ensures { result.now ≡ process_of self.now }
    {
        &self.process
    }

    /// The process that took the turn, which can take the next one, and what the event brought about.
    pub fn into_parts(self) -> (P, Outcome)
        ensures process { result.0 ≡ process_of self }
        ensures outcome { result.1 ≡ outcome_of self }
    {
        let Turn {
            outcome,
            process,
            ..
        } = self;
        (process, outcome)
    }

    /// The process that took the turn, which can take the next one.
    pub fn into_process(self) -> P
        ensures { result ≡ process_of self }
    {
        self.process
    }
}
