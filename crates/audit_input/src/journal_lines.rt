//! The line before a journal.
ghost use Rattle.std.specs.Prelude.{◌≡◌, ◌⊎◌, ◌<◌, ◌≤◌, IfErr, IfOk, IfSome, IsErrOf, Ok, Err, None, Some, []};
ghost use Rattle.rp_base.specs.Causes.{Rose};
ghost use Rattle.text_defs.specs.Words.{words_of};
ghost use Rattle.text_codec.specs.Views.{parts_left};
ghost use Rattle.line_input.specs.Places.{Ends, Leads, Settles};
ghost use Rattle.kit_reading.specs.Fronts.{front_fault};
ghost use Rattle.audit_defs.specs.Inputs as plain;
ghost use Rattle.audit_input.specs.Places.{behind_line, journals_from, length_behind, length_within, place};

use kit_reading::{FrontFault, KitFault};
use line_input::{Lines, Next};
use rp_base::Source;
use text_codec::{Parts as Words, number};

/// The most bytes of the line before a journal: those of `journal 1073741824`.
const MOST_LINE: usize = 18;

/// The most bytes of a journal.
const MOST_JOURNAL_BYTES: u32 = 1_073_741_824;

// The length that the words after the first one spell.
fn length_of_rest(mut words: Words<'_>) -> Option<u32>
    ensures { result ≡ length_behind (parts_left words.entry) }
{
    let word = words.next()?;
    if words.is_done() {
        number(word, 0, MOST_JOURNAL_BYTES)
    } else {
        None
    }
}

// The length that a line names; None exactly where it is none of a journal.
fn length_of(line: &[u8]) -> Option<u32>
    ensures { result ≡ plain.length_of (words_of line.now) }
{
    let mut words = Words::words(line);
    match words.next() {
        Some(word) if word == b"journal".as_slice() => length_of_rest(words),
        _ => None,
    }
}

// The same, where a journal may come and has room.
fn length_that_fits(line: &[u8], left: usize, room: usize) -> Option<usize>
    ensures { result ≡ length_within left room line.now }
{
    let len = length_of(line)? as usize;
    if left > 0 && len <= room {
        Some(len)
    } else {
        None
    }
}

/// Takes the line of the next journal, which has this number, where `left` journals may still come, and `room` bytes in them. It
/// answers the journal's length, and None at the input's end.
///
/// # Errors
/// [`KitFault::Line`] where what comes is no such line; [`FrontFault::Read`] only where a read failed; [`KitFault::NoMemory`].
pub(crate) fn next_length<S: Source>(
    lines: &mut Lines,
    input: &mut S,
    number: usize,
    left: usize,
    room: usize,
) -> Result<Option<usize>, FrontFault>
    ensures taken { IfOk result (λ found. IfSome found (λ len.
        Leads (journals_from (place left number room lines.old.ahead)) (S.left input.old) (S.left input.new)
        (behind_line len (place left number room lines.new.ahead)))) }
    ensures within { IfOk result (λ found. IfSome found (λ len. (0 < left) × (len ≤ room))) }
    ensures ended { result ≡ Ok None → Ends (journals_from (place left number room lines.old.ahead)) (S.left input.old) (S.left input.new) (Ok []) }
    ensures fault { IfErr result (λ e. IfSome (front_fault e) (λ f.
        Settles (journals_from (place left number room lines.old.ahead)) (S.left input.old) (S.left input.new) (Err f))) }
    ensures failed { IsErrOf result FrontFault.Read → Rose (S.faults input.old) (S.faults input.new) }
    ensures steady { IsErrOf result FrontFault.Read ⊎ (S.faults input.new ≡ S.faults input.old) }
{
    match lines.read(input, MOST_LINE)? {
        Next::End => Ok(None),
        Next::Broken => Err(FrontFault::Kit(KitFault::Line { line: number })),
        Next::Line => match length_that_fits(lines.line(), left, room) {
            Some(len) => Ok(Some(len)),
            None => Err(FrontFault::Kit(KitFault::Line { line: number })),
        },
    }
}
