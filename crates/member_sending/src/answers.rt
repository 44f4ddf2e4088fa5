ghost use Rattle.std.specs.Prelude.{◌≡◌, ◌≤◌, ◌++◌, [], map, IsOk, OnOk};
ghost use Rattle.std.specs.List.{flat_map};
ghost use Rattle.message_defs.specs.Claims.{Wants};
ghost use Rattle.group_defs.specs.Process.{Setting, Process};
ghost use Rattle.group_defs.specs.Events.{Hand, Tick, answers};
ghost use Rattle.member_taking.specs.States.{IsStateOf, IsReal, frame_to, frames_to};
ghost use Rattle.member_taking.specs.Inputs.{handed, InRange};
ghost use Rattle.member_sending.specs.Sends.{IsEmpty};

use crate::sends::{hand_over, is_nobody, others};
use member_events::Sending;
use member_taking::{Frames, Input, ProcessState};
use rp_base::{NoMemory, Pid, PidSet};

// Answers the Want of a process that has a key.
fn answer(
    state: &ProcessState,
    from: Pid,
    view: u16,
    place: u16,
    frames: &mut Frames,
    sends: &mut Vec<Sending>,
) -> Result<(), NoMemory>
    requires real { IsReal state.now }
    requires place { place ≤ 1024 }
    requires empty { IsEmpty frames.old }
    ensures sent { (s : Setting) (q : Process) → IsStateOf s q state.now
        → OnOk result (map frame_to sends.new.items ≡ map frame_to sends.old.items
        ++ flat_map frames_to (answers s q (Hand from (Wants view place)))) }
    ensures none { (s : Setting) (q : Process) → IsStateOf s q state.now → answers s q (Hand from (Wants view place)) ≡ [] → IsOk result }
    ensures empty { OnOk result (IsEmpty frames.new) }
{
    if !state.own.keyed.contains(from) {
        return Ok(());
    }
    state.archive.answer_want(&state.pool, view, place, frames)?;
    let mut to = PidSet::new();
    to.insert(from);
    hand_over(frames, to, sends)
}

// Asks the other members for the places that come next.
fn ask(state: &ProcessState, frames: &mut Frames, sends: &mut Vec<Sending>) -> Result<(), NoMemory>
    requires { IsEmpty frames.old }
    ensures sent { (s : Setting) (q : Process) → IsStateOf s q state.now
        → OnOk result (map frame_to sends.new.items ≡ map frame_to sends.old.items ++ flat_map frames_to (answers s q Tick)) }
    ensures none { (s : Setting) (q : Process) → IsStateOf s q state.now → answers s q Tick ≡ [] → IsOk result }
    ensures empty { OnOk result (IsEmpty frames.new) }
{
    let view = state.pool.view();
    let to = others(view, state.own.me);
    if is_nobody(to) {
        return Ok(());
    }
    frames.want(view.number(), state.own.delivered)?;
    hand_over(frames, to, sends)
}

/// Sends what answers the input, of a process that has settled: to a Want of a process that has a key Proofs, on a Tick to the
/// other members a Want for the places that come next. Where nothing is to be sent, it takes no memory: a process that has no key, or asks
/// for a view that was neither left nor begun, is answered nothing.
pub fn send_answers(
    state: &ProcessState,
    input: &Input<'_>,
    frames: &mut Frames,
    sends: &mut Vec<Sending>,
) -> Result<(), NoMemory>
    requires real { IsReal state.now }
    requires range { InRange input.now }
    requires empty { IsEmpty frames.old }
    ensures sent { (s : Setting) (q : Process) → IsStateOf s q state.now
        → OnOk result (map frame_to sends.new.items ≡ map frame_to sends.old.items ++ flat_map frames_to (answers s q (handed input.now))) }
    ensures none { (s : Setting) (q : Process) → IsStateOf s q state.now → answers s q (handed input.now) ≡ [] → IsOk result }
    ensures empty { OnOk result (IsEmpty frames.new) }
{
    match *input {
        Input::Want { from, view, place } => answer(state, from, view, place, frames, sends),
        Input::Tick => ask(state, frames, sends),
        Input::Payload(_) | Input::Claims { .. } | Input::Update(_) => Ok(()),
    }
}
