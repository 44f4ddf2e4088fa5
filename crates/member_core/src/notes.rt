//! What an event reports after what was delivered and installed.
ghost use Rattle.std.specs.Prelude.{◌≡◌, ◌++◌, false, map, OnOk, IsOk};
ghost use Rattle.group_defs.specs.Process.{Setting, Process};
ghost use Rattle.group_defs.specs.Events as defs;
ghost use Rattle.member_signing.specs.States.{note, IsStateOf};
ghost use Rattle.member_core.specs.Outcomes.{halts, liars_from};

use member_events::Note;
use member_signing::{Conflicts, ProcessState};
use rp_base::NoMemory;

// Reports the signer of each pair from this place on.
fn tell_liars(conflicts: &Conflicts, from: usize, notes: &mut Vec<Note>) -> Result<(), NoMemory>
    ensures { OnOk result (map note notes.new.items ≡ map note notes.old.items ++ liars_from from conflicts.now.pairs) }
{
    'pairs: for place in from..conflicts.len() {
        if let Some(other) = conflicts.other_at(place) {
            notes.push(Note::Liar(other.signer))?;
        }
    }
    Ok(())
}

// Reports that a signature was missing, where one was.
fn tell_spent(spent: bool, notes: &mut Vec<Note>) -> Result<(), NoMemory>
    ensures reported { OnOk result (map note notes.new.items ≡ map note notes.old.items ++ defs.note_if spent defs.Spent) }
    ensures none { spent ≡ false → IsOk result }
{
    if spent {
        notes.push(Note::Spent)?;
    }
    Ok(())
}

// Reports that the process has halted, where it has.
fn tell_halted(state: &ProcessState, notes: &mut Vec<Note>) -> Result<(), NoMemory>
    ensures { (s : Setting) (p : Process) → IsStateOf s p state.now
        → OnOk result (map note notes.new.items ≡ map note notes.old.items ++ halts p) }
{
    if let Some((delivered, cut)) = state.halted() {
        notes.push(Note::Halted { delivered, cut })?;
    }
    Ok(())
}

/// Reports, after the other notes, who is caught in a conflict by the pairs from this place on, that a signature was missing, and that
/// the process has halted.
pub(crate) fn tell(
    state: &ProcessState,
    pairs: usize,
    spent: bool,
    notes: &mut Vec<Note>,
) -> Result<(), NoMemory>
    ensures { (s : Setting) (p : Process) → IsStateOf s p state.now
        → OnOk result (map note notes.new.items ≡ map note notes.old.items ++ liars_from pairs p.conflicts ++ defs.note_if spent defs.Spent
        ++ halts p) }
{
    tell_liars(&state.conflicts, pairs, notes)?;
    tell_spent(spent, notes)?;
    tell_halted(state, notes)
}
