ghost use Rattle.std.specs.Prelude.{◌≡◌, ◌++◌, [], map, true, false, IsOk, OnOk};
ghost use Rattle.std.specs.Bool.{OnTrue};
ghost use Rattle.std.specs.List.{flat_map};
ghost use Rattle.group_defs.specs.Process.{Setting, Process};
ghost use Rattle.group_defs.specs.Sending.{Bundle, bundle, others, unless_empty};
ghost use Rattle.member_taking.specs.States.{IsStateOf, IsReal, frame_to, frames_to};
ghost use Rattle.member_sending.specs.Began.{Began};
ghost use Rattle.member_sending.specs.Sends.{IsEmpty};

use crate::base::base_places;
use crate::sends::{hand_over, is_nobody, others};
use member_events::Sending;
use member_taking::{Frames, ProcessState};
use rp_base::NoMemory;

// Whether nothing is to be sent: nothing is new, and nothing is to be repeated.
fn is_silent(tick: bool, newly: usize) -> bool
    ensures once { OnTrue result (tick ≡ false) }
    ensures none { OnTrue result (newly ≡ 0) }
    ensures silent { tick ≡ false → newly ≡ 0 → result ≡ true }
{
    !tick && newly == 0
}

/// Sends the Bundle of a process that has signed, and not settled yet: on a Tick what it signed in its view, but of messages and
/// places that were delivered; else what it signed in this event, the last `newly` claims. It goes to the other members of the
/// view, with what goes beside its Orders and Suggests. `places` is room, used again from event to event. Where nothing is new and nothing
/// is repeated, or there is no other member, it takes no memory.
pub fn send_bundle(
    state: &ProcessState,
    tick: bool,
    newly: usize,
    places: &mut Vec<usize>,
    frames: &mut Frames,
    sends: &mut Vec<Sending>,
) -> Result<(), NoMemory>
    requires real { IsReal state.now }
    requires empty { IsEmpty frames.old }
    ensures sent { (s : Setting) (began p : Process) → Began newly began p → IsStateOf s p state.now
        → OnOk result (map frame_to sends.new.items ≡ map frame_to sends.old.items
        ++ flat_map frames_to (unless_empty (bundle tick began p) Bundle (others began began.pool.view))) }
    ensures silent { tick ≡ false → newly ≡ 0 → IsOk result }
    ensures alone { (s : Setting) (began p : Process) → Began newly began p → IsStateOf s p state.now
        → others began began.pool.view ≡ [] → IsOk result }
    ensures empty { OnOk result (IsEmpty frames.new) }
{
    if is_silent(tick, newly) {
        return Ok(());
    }
    let to = others(state.pool.view(), state.own.me);
    if is_nobody(to) {
        return Ok(());
    }
    base_places(places, state, tick, newly)?;
    frames.resend(
        &state.pool,
        &state.said,
        places.as_slice(),
        state.own.delivered,
    )?;
    hand_over(frames, to, sends)
}
