//! A member delivers the places that follow, one by one, up to the limit.
ghost use Rattle.std.specs.Prelude.{◌≡◌, ◌+◌, ◌-◌, ◌≤◌, ◌++◌, ℕ, List, Some, ◌∷◌, [], map, OnOk};
ghost use Rattle.group_defs.specs.Process as defs;
ghost use Rattle.group_defs.specs.Process.{Setting, Process, places_in};
ghost use Rattle.group_defs.specs.Certified.{payload_at};
ghost use Rattle.group_defs.specs.Settle as settle;
ghost use Rattle.accounts.specs.Views.{delivery};
ghost use Rattle.member_events.specs.Below.{message_of};
ghost use Rattle.member_state.specs.Below.{IsIn};
ghost use Rattle.member_state.specs.Marks.{Stays};
ghost use Rattle.member_state.specs.States.{IsStateOf, IsReal};
ghost use Rattle.member_settling.specs.Reported.{ArePut, ArePutLast, HasMore, HasMoreLast};
ghost use Rattle.member_settling.specs.Steps.{ComesNext, Delivers};

use member_events::{Batch, Note, Payload};
use member_state::{Before, Delivered, Phase, Pool, ProcessState, deliver_batch, deliverable};
use rank_rules::certified_payload;
use rp_base::{NoMemory, Pid};
use std::alloc::Global;

// How many places may be delivered in the view: the cut where it is decided, else one more than the greatest kept place.
fn limit_of(phase: &Phase, pool: &Pool) -> u16
    ensures { (p : Process) → IsIn phase.now p → p.pool ≡ pool.now.pool → result ≡ settle.limit p }
{
    match phase {
        Phase::DecidedView(decided) => decided.decision().value.cut,
        Phase::HaltedView(halted) => halted.decision().value.cut,
        _ => pool.fixed_len(),
    }
}

// Puts the message with its certified payload after what was delivered, and reports it.
fn put_message(
    pool: &Pool,
    alloc: Global,
    place: u16,
    message: &(Pid, u16),
    delivered: &mut Vec<Delivered>,
    notes: &mut Vec<Note>,
) -> Result<(), NoMemory>
    ensures puts { (payload : List ℕ) → payload_at pool.now.pool (message_of message.now) ≡ Some payload
        → OnOk result (ArePut pool.now.pool.view.number
        (record { place = place; message = message_of message.now; payload = payload }
        ∷ []) delivered.old.items delivered.new.items notes.old.items notes.new.items) }
    ensures more { HasMore delivered.old.items delivered.new.items }
{
    let (sender, number) = *message;
    let Some(payload) = certified_payload(pool, sender, number) else {
        return Ok(());
    };
    delivered.push(Delivered {
        place,
        sender,
        number,
        payload: Payload::from_vec(payload.to_vec(alloc)?),
    })?;
    notes.push(Note::Delivered {
        view: pool.view().number(),
        place,
        sender,
        number,
        payload: Payload::from_vec(payload.to_vec(alloc)?),
    })?;
    Ok(())
}

// Puts the messages of the place, each with its certified payload, in their order.
fn put_messages(
    pool: &Pool,
    alloc: Global,
    place: u16,
    messages: &[(Pid, u16)],
    delivered: &mut Vec<Delivered>,
    notes: &mut Vec<Note>,
) -> Result<(), NoMemory>
    ensures puts { (ds : List defs.Delivered) → settle.delivery pool.now.pool place (map message_of messages.now) ≡ Some ds
        → OnOk result (ArePut pool.now.pool.view.number ds delivered.old.items delivered.new.items notes.old.items notes.new.items) }
    ensures more { HasMore delivered.old.items delivered.new.items }
{
    'messages: for message in messages {
        put_message(pool, alloc, place, message, delivered, notes)?;
    }
    Ok(())
}

// Puts the messages of the batch after what was delivered in the current view, which is the last list.
fn put_batch(
    pool: &Pool,
    alloc: Global,
    place: u16,
    batch: &Batch,
    lists: &mut Vec<Vec<Delivered>>,
    notes: &mut Vec<Note>,
) -> Result<(), NoMemory>
    ensures puts { (ds : List defs.Delivered) → settle.delivery pool.now.pool place batch.now ≡ Some ds
        → (before : List (List defs.Delivered)) (last : List defs.Delivered)
        → map (λ ds. map delivery ds.items) lists.old.items ≡ before ++ last ∷ []
        → OnOk result (ArePutLast pool.now.pool.view.number ds before last
        (map (λ ds. map delivery ds.items) lists.new.items) notes.old.items notes.new.items) }
    ensures more { (before : List (List defs.Delivered)) (last : List defs.Delivered)
        → map (λ ds. map delivery ds.items) lists.old.items ≡ before ++ last ∷ []
        → HasMoreLast before last (map (λ ds. map delivery ds.items) lists.new.items) }
{
    match lists.last_mut() {
        Some(delivered) => put_messages(pool, alloc, place, batch.messages(), delivered, notes),
        None => Ok(()),
    }
}

// Delivers the next place, whose batch this is.
fn deliver_place(
    state: &mut ProcessState,
    alloc: Global,
    batch: &Batch,
    notes: &mut Vec<Note>,
) -> Result<(), NoMemory>
    requires { IsReal state.old }
    ensures delivers { (s : Setting) (p : Process) → IsStateOf s p state.old → (ds : List defs.Delivered) → ComesNext p ds batch.now
        → OnOk result (Delivers s p (record p { delivered = p.delivered ++ ds }) state.new notes.old.items notes.new.items) }
    ensures stays { (b : Before) (was : ProcessState) → Stays b was state.old → Stays b was state.new }
    ensures left { state.new.left ≡ state.old.left }
{
    let place = state.own.delivered;
    put_batch(
        &state.pool,
        alloc,
        place,
        batch,
        &mut state.account.delivered,
        notes,
    )?;
    deliver_batch(&mut state.own, state.pool.view(), batch);
    Ok(())
}

// Delivers the places below the limit, up to the first that may not be delivered.
fn deliver_below(
    state: &mut ProcessState,
    alloc: Global,
    limit: u16,
    notes: &mut Vec<Note>,
) -> Result<(), NoMemory>
    requires real { IsReal state.old }
    requires limit { (s : Setting) (p : Process) → IsStateOf s p state.old → limit ≡ settle.limit p }
    ensures delivers { (s : Setting) (p : Process) → IsStateOf s p state.old
        → OnOk result (Delivers s p (settle.deliver_more (limit - places_in p.delivered) p) state.new notes.old.items notes.new.items) }
    ensures stays { (b : Before) (was : ProcessState) → Stays b was state.old → Stays b was state.new }
    ensures left { state.new.left ≡ state.old.left }
{
    'places: for _place in state.own.delivered..limit {
        let Some(batch) = deliverable(&state.pool, &state.own, limit) else {
            return Ok(());
        };
        deliver_place(state, alloc, &batch, notes)?;
    }
    Ok(())
}

/// Delivers what a member may: place by place, up to the limit, as far as places and their messages are certified. Others deliver
/// nothing. Without memory some of it may be delivered.
pub(crate) fn deliver(
    state: &mut ProcessState,
    alloc: Global,
    notes: &mut Vec<Note>,
) -> Result<(), NoMemory>
    requires { IsReal state.old }
    ensures delivers { (s : Setting) (p : Process) → IsStateOf s p state.old
        → OnOk result (Delivers s p (settle.deliver p) state.new notes.old.items notes.new.items) }
    ensures stays { (b : Before) (was : ProcessState) → Stays b was state.old → Stays b was state.new }
    ensures left { state.new.left ≡ state.old.left }
{
    if !state.pool.view().is_member(state.own.me) {
        return Ok(());
    }
    let limit = limit_of(&state.phase, &state.pool);
    deliver_below(state, alloc, limit, notes)
}
