//! Which events are refused, and by which reason: the first that holds.
ghost use Rattle.std.specs.Prelude.{◌≡◌, ◌+◌, ◌-◌, ◌≤◌, length, IfOk, IfErr, IfNone, IsTrue, None, Some, false};
ghost use Rattle.std.specs.Option.{option_map};
ghost use Rattle.std.specs.Result.{result_err};
ghost use Rattle.group_defs.specs.Views as views;
ghost use Rattle.group_defs.specs.Process.{Setting, Process, earlier, delivered_from};
ghost use Rattle.message_defs.specs.Claims.{frame_said};
ghost use Rattle.group_defs.specs.Events.{Submit, Hand, refusal};
ghost use Rattle.rp_base.specs.Views.{update as update_of};
ghost use Rattle.member_state.specs.Perceiving.{asking};
ghost use Rattle.member_state.specs.Parts.{fault as fault_of};
ghost use Rattle.member_state.specs.States.{IsStateOf, IsReal};
ghost use Rattle.member_state.specs.Events.{event as event_of};
ghost use Rattle.member_taking.specs.Inputs.{handed, InRange};

use crate::inputs::{Input, read_frame};
use member_events::{Event, EventFault, PAYLOAD_BYTES};
use member_state::{ProcessState, counts_of, perceive};
use rp_base::{Pid, Update};

/// The most accepted payloads that are not delivered yet.
const MOST_WAITING: usize = 256;

// Whether the process is a member of its view.
fn is_member(state: &ProcessState) -> bool
    ensures { (s : Setting) (p : Process) → IsStateOf s p state.now → result ≡ views.is_member p.pool.view p.me }
{
    state.pool.view().is_member(state.own.me)
}

// How many payloads that a member accepted are not delivered yet.
fn waiting(state: &ProcessState) -> usize
    requires real { IsReal state.now }
    ensures { (s : Setting) (p : Process) → IsStateOf s p state.now → IsTrue (views.is_member p.pool.view p.me)
        → result ≡ length p.accepted - (earlier p + delivered_from p.me p.delivered) }
{
    let delivered = state.own.earlier as usize
        + counts_of(&state.pool, &state.own, state.own.me) as usize;
    state.account.accepted.len().saturating_sub(delivered)
}

// Why the payload is refused by a process that has not halted, if it is.
fn payload_fault(state: &ProcessState, payload: &[u8]) -> Option<EventFault>
    requires real { IsReal state.now }
    ensures exactly { (s : Setting) (p : Process) → IsStateOf s p state.now → p.halted ≡ false
        → refusal s p (Submit payload.now) ≡ option_map fault_of result }
    ensures short { IfNone result (length payload.now ≤ 1024) }
{
    if !is_member(state) {
        Some(EventFault::Outsider)
    } else if payload.len() > PAYLOAD_BYTES {
        Some(EventFault::TooLong)
    } else if waiting(state) == MOST_WAITING {
        Some(EventFault::Backlog)
    } else {
        None
    }
}

// Why the update is refused by a process that has not halted, if it is.
fn update_fault(state: &ProcessState, update: &Update) -> Option<EventFault>
    ensures { (s : Setting) (p : Process) → IsStateOf s p state.now → p.halted ≡ false
        → refusal s p (asking (update_of update.now)) ≡ option_map fault_of result }
{
    if !is_member(state) {
        return Some(EventFault::Outsider);
    }
    let mut asked = state.perceived;
    match perceive(&mut asked, state.pool.view(), state.own.keyed, *update) {
        Ok(()) => None,
        Err(fault) => Some(fault),
    }
}

// The payload as an input of a process that has not halted, or why it is refused.
fn admit_payload<'a>(state: &ProcessState, payload: &'a [u8]) -> Result<Input<'a>, EventFault>
    requires real { IsReal state.now }
    ensures read { IfOk result (λ i. Submit payload.now ≡ handed i) }
    ensures range { IfOk result InRange }
    ensures exactly { (s : Setting) (p : Process) → IsStateOf s p state.now → p.halted ≡ false
        → refusal s p (Submit payload.now) ≡ option_map fault_of (result_err result) }
{
    match payload_fault(state, payload) {
        Some(fault) => Err(fault),
        None => Ok(Input::Payload(payload)),
    }
}

// The update as an input of a process that has not halted, or why it is refused.
fn admit_update<'a>(state: &ProcessState, update: Update) -> Result<Input<'a>, EventFault>
    ensures read { IfOk result (λ i. asking (update_of update) ≡ handed i) }
    ensures range { IfOk result InRange }
    ensures exactly { (s : Setting) (p : Process) → IsStateOf s p state.now → p.halted ≡ false
        → refusal s p (asking (update_of update)) ≡ option_map fault_of (result_err result) }
{
    match update_fault(state, &update) {
        Some(fault) => Err(fault),
        None => Ok(Input::Update(update)),
    }
}

// What the frame hands to a process that has not halted, or the first fault in its bytes.
fn admit_frame<'a>(from: Pid, bytes: &'a [u8]) -> Result<Input<'a>, EventFault>
    ensures read { IfOk result (λ i. Hand from (frame_said bytes.now) ≡ handed i) }
    ensures range { IfOk result InRange }
    ensures exactly { (s : Setting) (p : Process) → p.halted ≡ false
        → refusal s p (Hand from (frame_said bytes.now)) ≡ option_map fault_of (result_err result) }
{
    match read_frame(from, bytes) {
        Ok(input) => Ok(input),
        Err(fault) => Err(EventFault::BadFrame(fault)),
    }
}

// What the event hands to a process that has not halted, or why it is refused.
fn admit_running<'a>(state: &ProcessState, event: &Event<'a>) -> Result<Input<'a>, EventFault>
    requires real { IsReal state.now }
    ensures read { IfOk result (λ i. event_of event.now ≡ handed i) }
    ensures range { IfOk result InRange }
    ensures exactly { (s : Setting) (p : Process) → IsStateOf s p state.now → p.halted ≡ false
        → refusal s p (event_of event.now) ≡ option_map fault_of (result_err result) }
{
    match *event {
        Event::Submit(payload) => admit_payload(state, payload),
        Event::Frame { from, bytes } => admit_frame(from, bytes),
        Event::Suspect(p) => admit_update(state, Update::Remove(p)),
        Event::Join(p) => admit_update(state, Update::Add(p)),
        Event::Renew => admit_update(state, Update::Renew),
        Event::Tick => Ok(Input::Tick),
    }
}

/// What the event hands to the process, read; or the first reason why the process refuses it.
pub fn admit<'a>(state: &ProcessState, event: &Event<'a>) -> Result<Input<'a>, EventFault>
    requires real { IsReal state.now }
    ensures read { IfOk result (λ i. event_of event.now ≡ handed i) }
    ensures range { IfOk result InRange }
    ensures taken { IfOk result (λ i. (s : Setting) (p : Process) → IsStateOf s p state.now → refusal s p (event_of event.now) ≡ None) }
    ensures refused { IfErr result
        (λ f. (s : Setting) (p : Process) → IsStateOf s p state.now → refusal s p (event_of event.now) ≡ Some (fault_of f)) }
{
    if let Some((delivered, cut)) = state.halted() {
        return Err(EventFault::HaltedNow { delivered, cut });
    }
    admit_running(state, event)
}
