ghost use Rattle.std.specs.Prelude.{◌≡◌, ◌++◌, map, drop, length, nat_lt, None, OnOk};
ghost use Rattle.group_defs.specs.Process.{Setting, Process};
ghost use Rattle.group_defs.specs.Settle as defs;
ghost use Rattle.group_defs.specs.Events.{Delivers, Installs, note_if};
ghost use Rattle.member_state.specs.Events.{note};
ghost use Rattle.member_state.specs.Marks.{Stays, Since};
ghost use Rattle.member_state.specs.States.{IsStateOf, IsReal};

use crate::deciding::decide;
use crate::delivering::deliver;
use crate::leaving::leave;
use member_events::Note;
use member_state::{Before, ProcessState};
use rp_base::NoMemory;
use std::alloc::Global;

/// Settles an event: the view is decided, then what may be delivered is, and then the view is left. What was delivered, and the view
/// that was installed, are reported after the other notes. Without memory nothing is promised of the state but that it can go back to its
/// mark.
pub fn settle(
    state: &mut ProcessState,
    alloc: Global,
    notes: &mut Vec<Note>,
) -> Result<(), NoMemory>
    requires real { IsReal state.old }
    requires here { state.old.left ≡ None }
    ensures settles { (s : Setting) (p : Process) → IsStateOf s p state.old → OnOk result (IsStateOf s (defs.settle s p) state.new) }
    ensures reported { (s : Setting) (p : Process) → IsStateOf s p state.old
        → OnOk result (map note notes.new.items ≡ map note notes.old.items
        ++ map (Delivers p.pool.view.number) (drop (length p.delivered) (defs.deliver (defs.decide s p)).delivered)
        ++ note_if (nat_lt (length p.left) (length (defs.settle s p).left)) (Installs (defs.settle s p).pool.view)) }
    ensures real { OnOk result (IsReal state.new) }

    // Since a mark the process has stayed in its view, or has left it; so it can go back, with memory or without.
    ensures since { (b : Before) (was : ProcessState) → Stays b was state.old → Since b was state.new }
{
    decide(state);
    deliver(state, alloc, notes)?;
    leave(state, alloc, notes)
}
