//! The journals of an input, one after the other.
ghost use Rattle.std.specs.Prelude.{◌≡◌, ◌⊎◌, ◌-◌, ◌+◌, ◌<◌, ◌≤◌, length, IfErr, IfOk, IfSome, IsErrOf, OnOk, Ok, Err, None, [], ◌∷◌, ◌++◌};
ghost use Rattle.rp_base.specs.Causes.{Rose};
ghost use Rattle.line_input.specs.Places.{Ends, Leads, Settles};
ghost use Rattle.kit_reading.specs.Fronts.{front_fault};
ghost use Rattle.audit_input.specs.Places.{behind_journal, first_place, journals_from, place};

use crate::journal_lines::next_length;
use audit_sources::Payload;
use kit_reading::{FrontFault, KitFault};
use line_input::Lines;
use rp_base::{NoMemory, Source};
use std::alloc::Global;

/// How many journals an audit takes.
const MOST_JOURNALS: usize = 64;

/// How many bytes all of them have together at most.
const MOST_BYTES: usize = 2_147_483_648;

// The next journal, whose line has this number, where `left` may still come, and `room` bytes in them; None at the input's end. Its vector
// grows with what comes, and not with the length that its line names.
fn next_journal<S: Source>(
    alloc: Global,
    lines: &mut Lines,
    input: &mut S,
    number: usize,
    left: usize,
    room: usize,
) -> Result<Option<Payload>, FrontFault>
    ensures taken { IfOk result (λ found. IfSome found (λ journal.
        Leads (journals_from (place left number room lines.old.ahead)) (S.left input.old) (S.left input.new)
        (behind_journal journal (place (left - 1) (number + 1) (room - length journal) lines.new.ahead)))) }
    ensures within { IfOk result (λ found. IfSome found (λ journal. (0 < left) × (length journal ≤ room))) }
    ensures ended { result ≡ Ok None → Ends (journals_from (place left number room lines.old.ahead)) (S.left input.old) (S.left input.new) (Ok []) }
    ensures fault { IfErr result (λ e. IfSome (front_fault e) (λ f.
        Settles (journals_from (place left number room lines.old.ahead)) (S.left input.old) (S.left input.new) (Err f))) }
    ensures failed { IsErrOf result FrontFault.Read → Rose (S.faults input.old) (S.faults input.new) }
    ensures steady { IsErrOf result FrontFault.Read ⊎ (S.faults input.new ≡ S.faults input.old) }
{
    let Some(len) = next_length(lines, input, number, left, room)? else {
        return Ok(None);
    };
    match lines.read_bytes(alloc, input, len)? {
        Some(bytes) => Ok(Some(Payload::from_vec(bytes))),
        None => Err(FrontFault::Kit(KitFault::Line { line: number })),
    }
}

// Puts a journal after those that were read.
fn push_journal(journals: &mut Vec<Payload>, journal: Payload) -> Result<(), NoMemory>
    ensures { OnOk result (journals.new.items ≡ journals.old.items ++ journal ∷ []) }
{
    journals.push(journal)?;
    Ok(())
}

/// All journals to the input's end, where the line of the first one has this number.
///
/// # Errors
/// [`KitFault::Line`] with the first line that is none of a journal, or that no journal may have, or within whose journal the input ends;
/// [`FrontFault::Read`] only where a read failed; [`KitFault::NoMemory`].
pub(crate) fn read_journals<S: Source>(
    alloc: Global,
    lines: &mut Lines,
    input: &mut S,
    first: usize,
) -> Result<Vec<Payload>, FrontFault>
    ensures read { IfOk result (λ journals.
        Ends (journals_from (first_place first lines.old.ahead)) (S.left input.old) (S.left input.new) (Ok journals.items)) }
    ensures fault { IfErr result (λ e. IfSome (front_fault e) (λ f.
        Settles (journals_from (first_place first lines.old.ahead)) (S.left input.old) (S.left input.new) (Err f))) }
    ensures failed { IsErrOf result FrontFault.Read → Rose (S.faults input.old) (S.faults input.new) }
    ensures steady { IsErrOf result FrontFault.Read ⊎ (S.faults input.new ≡ S.faults input.old) }
{
    let mut journals = Vec::new(alloc);
    let mut left = MOST_JOURNALS;
    let mut room = MOST_BYTES;
    'journals: for number in first..usize::MAX {
        let Some(journal) = next_journal(alloc, lines, input, number, left, room)? else {
            return Ok(journals);
        };
        left -= 1;
        room -= journal.bytes().len();
        push_journal(&mut journals, journal)?;
    }
    Err(FrontFault::Kit(KitFault::NoMemory))
}
