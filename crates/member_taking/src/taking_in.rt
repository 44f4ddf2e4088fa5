//! What an event that is not refused changes before anything is signed.
ghost use Rattle.std.specs.Prelude.{◌≡◌, ◌-◌, ◌≤◌, length, map, insert, true, IfOk, OnOk, OnErr, None};
ghost use Rattle.std.specs.List.{AllByRecursion};
ghost use Rattle.byte_defs.specs.Orders.{put, numbers_below};
ghost use Rattle.message_defs.specs.Spelling.{IsClaim, IsUpdate};
ghost use Rattle.group_defs.specs.Process.{Setting, Process};
ghost use Rattle.group_defs.specs.Hearing as hearing;
ghost use Rattle.group_defs.specs.Events as defs;
ghost use Rattle.group_defs.specs.Events.{Submit, refusal, perceives, perceived_numbers};
ghost use Rattle.rp_base.specs.Views.{update as update_of};
ghost use Rattle.member_events.specs.Below.{claims_left};
ghost use Rattle.member_state.specs.Perceiving.{asking};
ghost use Rattle.claim_hearing.specs.Hearing.{Shares};
ghost use Rattle.accounts.specs.Views.{account as account_of, perceived as perceived_of};
ghost use Rattle.member_state.specs.States.{IsStateOf, IsReal};
ghost use Rattle.member_state.specs.Marks.{MayAsk, Stays};
ghost use Rattle.member_taking.specs.Inputs.{handed, asks, InRange, most_claims};

use crate::inputs::Input;
use accounts::Account;
use claim_hearing::{Judge, hear_all};
use member_events::{Claims, Payload};
use member_state::{Before, ProcessState, perceive};
use rp_base::{NoMemory, Scheme, Update};

// Accepts the payload.
fn accept(state: &mut ProcessState, payload: &[u8]) -> Result<(), NoMemory>
    requires short { length payload.now ≤ 1024 }
    requires admitted { (s : Setting) (p : Process) → IsStateOf s p state.old → refusal s p (Submit payload.now) ≡ None }
    ensures taken { (s : Setting) (p : Process) → IsStateOf s p state.old
        → OnOk result (IsStateOf s (defs.take_in s p (Submit payload.now)) state.new) }
    ensures stays { (b : Before) (was : ProcessState) → Stays b was state.old → Stays b was state.new }
    ensures left { state.new.left ≡ state.old.left }
{
    let alloc = *state.account.accepted.allocator();
    let bytes = Vec::from_slice(alloc, payload)?;
    state.account.accepted.push(Payload::from_vec(bytes))?;
    Ok(())
}

// Hears the claims, and answers how many of them are newly heard. The process may be one of another setting than the judge.
fn hear<V: Scheme>(
    state: &mut ProcessState,
    judge: &Judge<'_, V>,
    claims: Claims<'_>,
) -> Result<u16, NoMemory>
    requires real { IsReal state.old }
    requires range { AllByRecursion IsClaim (claims_left claims) }
    requires few { length (claims_left claims) ≤ most_claims }
    ensures taken { (s r : Setting) (p : Process) → Shares r (V.valid judge.now.scheme.now) judge.now.group.now judge.now.roster.now
        → IsStateOf s p state.old → OnOk result (IsStateOf s (hearing.hear_all r p (claims_left claims.entry)) state.new) }
    ensures heard { (s r : Setting) (p : Process) → Shares r (V.valid judge.now.scheme.now) judge.now.group.now judge.now.roster.now
        → IsStateOf s p state.old → IfOk result
        (λ n. n ≡ length (hearing.hear_all r p (claims_left claims.entry)).pool.heard - length p.pool.heard) }
    ensures stays { (b : Before) (was : ProcessState) → Stays b was state.old → Stays b was state.new }
    ensures left { state.new.left ≡ state.old.left }
{
    let before = state.pool.size().0;
    hear_all(
        judge,
        &state.own,
        &mut state.pool,
        &mut state.conflicts,
        claims,
    )?;
    let newly = state.pool.size().0 - before;
    Ok(newly as u16)
}

// Whether the update, asked for in the view of this number, comes before the other one.
fn lie_before(view: u16, update: &Update, other: &(u16, Update)) -> bool
    ensures { result ≡ numbers_below (perceived_numbers (perceived_of (view, update.now))) (perceived_numbers (perceived_of other.now)) }
{
    view < other.0 || (view == other.0 && update.is_before(other.1))
}

// The place in the order where the update is put.
fn place_among(all: &[(u16, Update)], view: u16, update: &Update) -> usize
    ensures within { result ≤ length all.now }
    ensures place { map perceived_of (insert all.now result (view, update.now))
        ≡ put perceived_numbers (perceived_of (view, update.now)) (map perceived_of all.now) }
{
    'updates: for (place, other) in all.iter().enumerate() {
        if lie_before(view, update, other) {
            return place;
        }
    }
    all.len()
}

// Puts the update, with the number of the view, into its place among those that the process reports.
fn tell_perceived(account: &mut Account, view: u16, update: &Update) -> Result<(), NoMemory>
    ensures reported { OnOk result (account_of account.new
        ≡ record (account_of account.old) {
          perceived = put perceived_numbers (perceived_of (view, update.now))
              (account_of account.old).perceived;
        }) }
    ensures same { OnErr result (account_of account.new ≡ account_of account.old) }
{
    let place = place_among(&account.perceived, view, update);
    account.perceived.insert(place, (view, *update))?;
    Ok(())
}

// The process that the update removes or adds is one of 0 to 63, as its type says.
fn in_range(update: &Update)
    ensures { IsUpdate (update_of update.now) }
{
    match update {
        Update::Remove(p) => {
            let _ = p.get();
        }
        Update::Add(p) => {
            let _ = p.get();
        }
        Update::Renew => {}
    }
}

// The update is asked for in the current view.
fn ask(state: &mut ProcessState, update: &Update) -> Result<(), NoMemory>
    requires real { IsReal state.old }
    requires admitted { (s : Setting) (p : Process) → IsStateOf s p state.old → refusal s p (asking (update_of update.now)) ≡ None }
    ensures asked { (s : Setting) (p : Process) → IsStateOf s p state.old
        → OnOk result (IsStateOf s (perceives p (update_of update.now)) state.new) }
    ensures stays { (b : Before) (was : ProcessState) → MayAsk b → Stays b was state.old → Stays b was state.new }
    ensures left { state.new.left ≡ state.old.left }
{
    if state.perceived.contains(*update) {
        return Ok(());
    }
    in_range(update);
    let view = state.pool.view();
    let Ok(()) = perceive(&mut state.perceived, view, state.own.keyed, *update) else {
        unreachable!()
    };
    tell_perceived(&mut state.account, state.pool.view().number(), update)
}

/// Takes in what is handed to the process: a payload is accepted, claims are heard one by one, and an update is perceived in the
/// current view. The answer is how many claims were newly heard. The process does not refuse the input. Without memory, the state
/// is that of no process.
pub fn take_in<V: Scheme>(
    state: &mut ProcessState,
    judge: &Judge<'_, V>,
    input: &Input<'_>,
) -> Result<u16, NoMemory>
    requires real { IsReal state.old }
    requires range { InRange input.now }
    requires admitted { (s : Setting) (p : Process) → IsStateOf s p state.old → refusal s p (handed input.now) ≡ None }
    ensures taken { (s : Setting) (p : Process) → Shares s (V.valid judge.now.scheme.now) judge.now.group.now judge.now.roster.now
        → IsStateOf s p state.old → OnOk result (IsStateOf s (defs.take_in s p (handed input.now)) state.new) }
    ensures heard { (s : Setting) (p : Process) → Shares s (V.valid judge.now.scheme.now) judge.now.group.now judge.now.roster.now
        → IsStateOf s p state.old → IfOk result (λ n. n ≡ length (defs.take_in s p (handed input.now)).pool.heard - length p.pool.heard) }
    ensures real { OnOk result (IsReal state.new) }

    // Since a mark more has come, and no view was left; where an update is asked for, the mark is to keep which ones were.
    ensures stays { (b : Before) (was : ProcessState) → (asks input.now ≡ true → MayAsk b) → Stays b was state.old
        → Stays b was state.new }
    ensures left { state.new.left ≡ state.old.left }
{
    match input {
        Input::Payload(payload) => {
            accept(state, payload)?;
            Ok(0)
        }
        Input::Claims { claims, .. } => hear(state, judge, *claims),
        Input::Update(update) => {
            ask(state, update)?;
            Ok(0)
        }
        Input::Want { .. } | Input::Tick => Ok(0),
    }
}
