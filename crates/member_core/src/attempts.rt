//! An event that is taken in whole or not at all.
ghost use Rattle.std.specs.Prelude.{◌≡◌, ◌-◌, ◌≤◌, [], length, true, IfOk, OnOk, OnErr, None};
ghost use Rattle.group_defs.specs.Process.{Setting, Process, all_kinds};
ghost use Rattle.member_sending.specs.Below.{Shares};
ghost use Rattle.member_sending.specs.Taking.{fault as fault_of};
ghost use Rattle.member_signing.specs.States.{event as event_of, IsOutcome, IsReal, IsStateOf, MayAsk, Stays, Since};
ghost use Rattle.member_sending.specs.Sends.{IsEmpty};
ghost use Rattle.member_core.specs.Outcomes.{refusing, is_asked, HasTaken};

use crate::halves::take;
use member_events::{Event, EventFault, EventVerdict, Outcome};
use member_sending::{Frames, Judge, admit};
use member_signing::{Before, ProcessState};
use rp_base::{NoMemory, Scheme, Signer, Tally};
use std::alloc::Global;

// Whether the event asks for an update.
fn is_asking(event: &Event<'_>) -> bool
    ensures { result ≡ is_asked (event_of event.now) }
{
    matches!(event, Event::Suspect(_) | Event::Join(_) | Event::Renew)
}

// What an event brings about that is refused.
fn refused(alloc: Global, fault: EventFault) -> Outcome
    ensures { IsOutcome (refusing (fault_of fault)) result }
{
    Outcome {
        verdict: EventVerdict::Refused(fault),
        heard: 0,
        signed: Vec::new(alloc),
        spent: false,
        sends: Vec::new(alloc),
        notes: Vec::new(alloc),
    }
}

// Takes the event or refuses it. Without memory, the process is in the midst of the event.
fn run<G: Signer, V: Scheme>(
    state: &mut ProcessState,
    alloc: Global,
    judge: &Judge<'_, V>,
    signer: &mut G,
    places: &mut Vec<usize>,
    frames: &mut Frames,
    event: &Event<'_>,
) -> Result<Outcome, NoMemory>
    requires real { IsReal state.old }
    requires here { state.old.left ≡ None }
    requires empty { IsEmpty frames.old }
    ensures taken { (s : Setting) (p : Process) → Shares s (V.valid judge.now.scheme.now) judge.now.group.now judge.now.roster.now
        → s.signs ≡ all_kinds → length p.signed ≡ G.Tally.used signer.old → IsStateOf s p state.old
        → IfOk result (HasTaken s p (record {
          event = event_of event.now;
          allowance = G.Tally.total signer.old - G.Tally.used signer.old;
          signer = G.signature signer.old;
        }) state.new (G.Tally.used signer.new)) }
    ensures real { OnOk result (IsReal state.new) }
    ensures empty { OnOk result (IsEmpty frames.new) }
    ensures since { (b : Before) (was : ProcessState) → (is_asked (event_of event.now) ≡ true → MayAsk b) → Stays b was state.old
        → Since b was state.new }
    ensures rises { G.Tally.used signer.old ≤ G.Tally.used signer.new }
    ensures total { G.Tally.total signer.new ≡ G.Tally.total signer.old }
    ensures secret { G.signature signer.new ≡ G.signature signer.old }
    ensures key { G.public signer.new ≡ G.public signer.old }
{
    match admit(state, event) {
        Ok(input) => take(state, alloc, judge, signer, places, frames, &input),
        Err(fault) => Ok(refused(alloc, fault)),
    }
}

/// What is used again from event to event: room for the places of the claims that an event sends, and the mark of the process before it.
#[derive(Drop)]
pub(crate) struct Rooms {
    // what is there means nothing between two events
    pub(crate) places: Vec<usize>,
    pub(crate) before: Before,
}

impl Rooms {
    /// Rooms for this process.
    pub(crate) fn new(alloc: Global, state: &ProcessState) -> Rooms
        ensures { result.places.items ≡ [] }
    {
        Rooms {
            places: Vec::new(alloc),
            before: Before::new(state),
        }
    }
}

/// Takes the event, and answers what came of it; `rooms` keeps the mark of the process before it, to which it can still go back. Without
/// memory it has gone back: the process is as before, and of the event nothing is left but signatures that were made.
pub(crate) fn attempt<G: Signer, V: Scheme>(
    state: &mut ProcessState,
    alloc: Global,
    judge: &Judge<'_, V>,
    signer: &mut G,
    rooms: &mut Rooms,
    frames: &mut Frames,
    event: &Event<'_>,
) -> Result<Outcome, NoMemory>
    requires real { IsReal state.old }
    requires here { state.old.left ≡ None }
    requires empty { IsEmpty frames.old }
    ensures taken { (s : Setting) (p : Process) → Shares s (V.valid judge.now.scheme.now) judge.now.group.now judge.now.roster.now
        → s.signs ≡ all_kinds → length p.signed ≡ G.Tally.used signer.old → IsStateOf s p state.old
        → IfOk result (HasTaken s p (record {
          event = event_of event.now;
          allowance = G.Tally.total signer.old - G.Tally.used signer.old;
          signer = G.signature signer.old;
        }) state.new (G.Tally.used signer.new)) }
    ensures back { (s : Setting) (p : Process) → IsStateOf s p state.old
        → OnOk result (Since rooms.new.before state.old state.new) }
    ensures lost { (s : Setting) (p : Process) → IsStateOf s p state.old → OnErr result (IsStateOf s p state.new) }
    ensures over { OnErr result (state.new.left ≡ None) }
    ensures real { IsReal state.new }
    ensures empty { IsEmpty frames.new }
    ensures rises { G.Tally.used signer.old ≤ G.Tally.used signer.new }
    ensures total { G.Tally.total signer.new ≡ G.Tally.total signer.old }
    ensures secret { G.signature signer.new ≡ G.signature signer.old }
    ensures key { G.public signer.new ≡ G.public signer.old }
{
    state.mark(is_asking(event), &mut rooms.before)?;
    let places = &mut rooms.places;
    match run(state, alloc, judge, signer, places, frames, event) {
        Ok(outcome) => Ok(outcome),
        Err(NoMemory) => {
            state.rewind(&mut rooms.before);
            frames.clear();
            Err(NoMemory)
        }
    }
}
