//! The two halves of an event that is taken: up to what it signs and sends of that, and from settling on.
ghost use Rattle.std.specs.Prelude.{◌≡◌, ◌-◌, ◌≤◌, length, true, IfOk, OnOk, None};
ghost use Rattle.group_defs.specs.Process.{Setting, Process, all_kinds};
ghost use Rattle.group_defs.specs.Events as defs;
ghost use Rattle.member_sending.specs.Below.{Shares};
ghost use Rattle.member_signing.specs.States.{IsReal, IsStateOf, MayAsk, Stays, Since};
ghost use Rattle.member_sending.specs.Taking.{handed, asks, InRange};
ghost use Rattle.member_sending.specs.Sends.{IsEmpty};
ghost use Rattle.member_core.specs.Outcomes.{HasBegun, HasEnded, HasTaken};

use crate::notes::tell;
use member_events::{EventVerdict, Outcome};
use member_sending::{Frames, Input, Judge, send_answers, send_bundle, take_in};
use member_settling::settle;
use member_signing::{Before, ProcessState, sign_all};
use rp_base::{NoMemory, Scheme, Signer, Tally};
use std::alloc::Global;

// Whether the process is asked to send again what it signed.
fn is_tick(input: &Input<'_>) -> bool
    ensures { result ≡ defs.is_tick (handed input.now) }
{
    matches!(input, Input::Tick)
}

// Begins an event that is not refused: it is taken in, what is due is signed, and the Bundle of that is sent. The answer is what came of
// it so far, with nothing reported.
fn begin<G: Signer, V: Scheme>(
    state: &mut ProcessState,
    alloc: Global,
    judge: &Judge<'_, V>,
    signer: &mut G,
    places: &mut Vec<usize>,
    frames: &mut Frames,
    input: &Input<'_>,
) -> Result<Outcome, NoMemory>
    requires real { IsReal state.old }
    requires empty { IsEmpty frames.old }
    requires range { InRange input.now }
    requires admitted { (s : Setting) (p : Process) → IsStateOf s p state.old → defs.refusal s p (handed input.now) ≡ None }
    ensures begins { (s : Setting) (p : Process) → Shares s (V.valid judge.now.scheme.now) judge.now.group.now judge.now.roster.now
        → s.signs ≡ all_kinds → length p.signed ≡ G.Tally.used signer.old → IsStateOf s p state.old
        → IfOk result (HasBegun s p (record {
          event = handed input.now;
          allowance = G.Tally.total signer.old - G.Tally.used signer.old;
          signer = G.signature signer.old;
        }) state.new (G.Tally.used signer.new)) }
    ensures real { OnOk result (IsReal state.new) }
    ensures empty { OnOk result (IsEmpty frames.new) }
    ensures stays { (b : Before) (was : ProcessState) → (asks input.now ≡ true → MayAsk b) → Stays b was state.old
        → Stays b was state.new }
    ensures left { state.new.left ≡ state.old.left }
    ensures rises { G.Tally.used signer.old ≤ G.Tally.used signer.new }
    ensures total { G.Tally.total signer.new ≡ G.Tally.total signer.old }
    ensures secret { G.signature signer.new ≡ G.signature signer.old }
    ensures key { G.public signer.new ≡ G.public signer.old }
{
    let heard = take_in(state, judge, input)?;
    let mut signed = Vec::new(alloc);
    let spent = sign_all(state, alloc, judge.group, signer, &mut signed)?;
    let mut sends = Vec::new(alloc);
    send_bundle(
        state,
        is_tick(input),
        signed.len(),
        places,
        frames,
        &mut sends,
    )?;
    Ok(Outcome {
        verdict: EventVerdict::Taken,
        heard,
        signed,
        spent,
        sends,
        notes: Vec::new(alloc),
    })
}

// Ends the event: the process settles, what came of it is reported, of conflicts those from this pair on, and Wants and Ticks are answered.
fn end(
    state: &mut ProcessState,
    alloc: Global,
    pairs: usize,
    frames: &mut Frames,
    input: &Input<'_>,
    outcome: &mut Outcome,
) -> Result<(), NoMemory>
    requires real { IsReal state.old }
    requires here { state.old.left ≡ None }
    requires empty { IsEmpty frames.old }
    requires range { InRange input.now }
    ensures ends { (s : Setting) (p : Process) → IsStateOf s p state.old
        → OnOk result (HasEnded s p (handed input.now) pairs state.new outcome.old outcome.new) }
    ensures real { OnOk result (IsReal state.new) }
    ensures empty { OnOk result (IsEmpty frames.new) }
    ensures since { (b : Before) (was : ProcessState) → Stays b was state.old → Since b was state.new }
{
    settle(state, alloc, &mut outcome.notes)?;
    tell(state, pairs, outcome.spent, &mut outcome.notes)?;
    send_answers(state, input, frames, &mut outcome.sends)
}

/// Takes an event that is not refused: one half, and then the other. Without memory, the process is in the midst of the event.
pub(crate) fn take<G: Signer, V: Scheme>(
    state: &mut ProcessState,
    alloc: Global,
    judge: &Judge<'_, V>,
    signer: &mut G,
    places: &mut Vec<usize>,
    frames: &mut Frames,
    input: &Input<'_>,
) -> Result<Outcome, NoMemory>
    requires real { IsReal state.old }
    requires here { state.old.left ≡ None }
    requires empty { IsEmpty frames.old }
    requires range { InRange input.now }
    requires admitted { (s : Setting) (p : Process) → IsStateOf s p state.old → defs.refusal s p (handed input.now) ≡ None }
    ensures taken { (s : Setting) (p : Process) → Shares s (V.valid judge.now.scheme.now) judge.now.group.now judge.now.roster.now
        → s.signs ≡ all_kinds → length p.signed ≡ G.Tally.used signer.old → IsStateOf s p state.old
        → IfOk result (HasTaken s p (record {
          event = handed input.now;
          allowance = G.Tally.total signer.old - G.Tally.used signer.old;
          signer = G.signature signer.old;
        }) state.new (G.Tally.used signer.new)) }
    ensures real { OnOk result (IsReal state.new) }
    ensures empty { OnOk result (IsEmpty frames.new) }

    // Since a mark, which keeps what was asked for where the event asks.
    ensures since { (b : Before) (was : ProcessState) → (asks input.now ≡ true → MayAsk b) → Stays b was state.old
        → Since b was state.new }
    ensures rises { G.Tally.used signer.old ≤ G.Tally.used signer.new }
    ensures total { G.Tally.total signer.new ≡ G.Tally.total signer.old }
    ensures secret { G.signature signer.new ≡ G.signature signer.old }
    ensures key { G.public signer.new ≡ G.public signer.old }
{
    let pairs = state.conflicts.len();
    let mut outcome = begin(state, alloc, judge, signer, places, frames, input)?;
    end(state, alloc, pairs, frames, input, &mut outcome)?;
    Ok(outcome)
}
