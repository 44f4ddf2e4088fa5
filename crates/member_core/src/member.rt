ghost use Rattle.std.specs.Prelude.{◌≡◌, length, is_none, true};
ghost use Rattle.member_signing.specs.States.{IsReal};

use crate::attempts::Rooms;
use member_sending::Frames;
use member_signing::ProcessState;
use rp_base::{GroupId, Roster};
use std::alloc::Global;
use std::mem;

/// All of a process but its signer. Between two events no frame waits to be handed over, and there is no way back to an earlier event.
pub(crate) struct Keyless {
    pub(crate) alloc: Global,
    pub(crate) group: GroupId,
    pub(crate) roster: Roster,
    // on the heap: a process that is handed on is not copied
    pub(crate) state: Box<ProcessState>,
    pub(crate) frames: Frames,
    pub(crate) rooms: Rooms,
    ghost real: { IsReal state.value },
    ghost unsent: { length frames.frames ≡ 0 },
    ghost unpacked: { length frames.claims ≡ 0 },
    ghost over: { is_none state.value.left ≡ true },
}

// Written out, so that whoever drops a process makes one call: a derived drop is proved anew, down to the last field, wherever a value is
// dropped.
impl Drop for Keyless {
    fn drop(self) {
        let Keyless {
            alloc: _,
            group: _,
            roster,
            state,
            frames,
            rooms,
        } = self;
        mem::drop(roster);
        mem::drop(state);
        mem::drop(frames);
        mem::drop(rooms);
    }
}

/// A process of a group, correct by construction. `IsCore` of the specs says which process of the definitions it is.
#[derive(Drop)]
pub struct Core<G> {
    pub(crate) keyless: Keyless,
    pub(crate) signer: G,
}
