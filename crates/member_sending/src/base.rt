//! The own claims that a Bundle has, by their places among those of the view.
ghost use Rattle.std.specs.Prelude.{◌≡◌, ◌-◌, ◌++◌, ◌∷◌, [], length, map, filter, drop, not, if◌then◌else◌, OnOk};
ghost use Rattle.std.specs.List.{list_any};
ghost use Rattle.group_defs.specs.Process.{Process};
ghost use Rattle.group_defs.specs.Sending as sending;
ghost use Rattle.group_defs.specs.Due.{same_message};
ghost use Rattle.member_events.specs.Below.{message, stmt};
ghost use Rattle.accounts.specs.Views.{delivery};
ghost use Rattle.sent_claims.specs.Beside.{chosen};
ghost use Rattle.member_sending.specs.Began.{HasDone};

use member_events::Statement;
use member_taking::{Delivered, ProcessState};
use rp_base::{NoMemory, Pid};

// Whether it is the message of this number of this sender.
fn is_of(one: &Delivered, sender: Pid, number: u16) -> bool
    ensures { result ≡ same_message (delivery one.now).message (message sender number) }
{
    one.sender == sender && one.number == number
}

// Whether the message of this number of this sender is among these.
fn is_among(delivered: &[Delivered], sender: Pid, number: u16) -> bool
    ensures { result ≡ list_any (λ d. same_message d.message (message sender number)) (map delivery delivered.now) }
{
    'delivered: for one in delivered {
        if is_of(one, sender, number) {
            return true;
        }
    }
    false
}

// Whether the message was delivered in the view.
fn has_delivered(state: &ProcessState, sender: Pid, number: u16) -> bool
    ensures { (began : Process) → HasDone state.now began
        → result ≡ list_any (λ d. same_message d.message (message sender number)) began.delivered }
{
    match state.account.delivered.last() {
        Some(delivered) => is_among(delivered, sender, number),
        None => false,
    }
}

// Whether the statement is of a message or a place that was delivered.
fn was_delivered(state: &ProcessState, statement: &Statement<'_>) -> bool
    ensures { (began : Process) → HasDone state.now began → result ≡ sending.was_delivered began (stmt statement.now) }
{
    match *statement {
        Statement::Init { number, .. } => has_delivered(state, state.own.me, number),
        Statement::Echo { sender, number, .. } => has_delivered(state, sender, number),
        Statement::Order { place, .. }
        | Statement::Place { place, .. }
        | Statement::Keep { place, .. } => place < state.own.delivered,
        _ => false,
    }
}

// Puts the place after the others, where its claim is not of what was delivered.
fn put_repeated(places: &mut Vec<usize>, state: &ProcessState, place: usize) -> Result<(), NoMemory>
    ensures { OnOk result ((began : Process) → HasDone state.now began
        → chosen state.now.said.claims places.new.items ≡ chosen state.now.said.claims places.old.items
        ++ filter (λ c. not (sending.was_delivered began c.statement)) (chosen state.now.said.claims (place ∷ []))) }
{
    let Some(claim) = state.said.get(place) else {
        return Ok(());
    };
    if was_delivered(state, &claim.statement) {
        return Ok(());
    }
    places.push(place)?;
    Ok(())
}

// The places of the claims that a Tick repeats: all but those of messages and places that were delivered.
fn repeated(places: &mut Vec<usize>, state: &ProcessState) -> Result<(), NoMemory>
    requires { places.old.items ≡ [] }
    ensures { OnOk result ((began : Process) → HasDone state.now began
        → chosen state.now.said.claims places.new.items
        ≡ filter (λ c. not (sending.was_delivered began c.statement)) state.now.said.claims) }
{
    'claims: for place in 0..state.said.len() {
        put_repeated(places, state, place)?;
    }
    Ok(())
}

// The places of the last `newly` claims.
fn last_places(places: &mut Vec<usize>, state: &ProcessState, newly: usize) -> Result<(), NoMemory>
    requires { places.old.items ≡ [] }
    ensures { OnOk result (chosen state.now.said.claims places.new.items
        ≡ drop (length state.now.said.claims - newly) state.now.said.claims) }
{
    let count = state.said.len();
    'claims: for place in count.saturating_sub(newly)..count {
        places.push(place)?;
    }
    Ok(())
}

/// Puts into `places`, in place of what is there, the places of the claims that a Bundle has: on a Tick of those that it repeats, else
/// of the last `newly`.
pub(crate) fn base_places(
    places: &mut Vec<usize>,
    state: &ProcessState,
    tick: bool,
    newly: usize,
) -> Result<(), NoMemory>
    ensures { OnOk result ((began : Process) → HasDone state.now began
        → chosen state.now.said.claims places.new.items
        ≡ (if tick then filter (λ c. not (sending.was_delivered began c.statement)) state.now.said.claims
        else drop (length state.now.said.claims - newly) state.now.said.claims)) }
{
    places.clear();
    if tick {
        repeated(places, state)
    } else {
        last_places(places, state, newly)
    }
}
