//! What is asked: the lines after a kit up to the line of the view.
ghost use Rattle.std.specs.Prelude.{◌≡◌, ◌⊎◌, ◌+◌, [], IfErr, IfOk, IfSome, IsErrOf, Err};
ghost use Rattle.rp_base.specs.Causes.{Rose};
ghost use Rattle.line_input.specs.Places.{Leads, Settles};
ghost use Rattle.kit_reading.specs.declared.fronts.FrontFault.TheVariants as fronts;
ghost use Rattle.kit_reading.specs.declared.faults.KitFault.TheVariants as faults;
ghost use Rattle.kit_reading.specs.Fronts.{front_fault};
ghost use Rattle.store_defs.specs.Asking.{most_replies};
ghost use Rattle.store_asking.specs.Lines.{IsNext, said};
ghost use Rattle.store_asking.specs.Places.{key_place, question_at, question_behind, replies_at, with_replies};

use crate::said::{Said, read_said};
use kit_reading::{FrontFault, Kit, KitFault, Lines, Next};
use rp_base::{NoMemory, Roster, Source};
use std::alloc::Global;
use view_table::View;

/// The most bytes of a line.
pub(crate) const MOST_LINE_BYTES: usize = 70_000;

/// What the lines before the replies say.
#[derive(Drop)]
pub(crate) struct Question {
    /// The reply keys of processes.
    pub(crate) keys: Roster,

    /// The view whose members are asked.
    pub(crate) view: View,

    /// The number of the view's line.
    pub(crate) line: usize,
}

/// The fault of a line with this number that is none.
pub(crate) fn line_fault(number: usize) -> FrontFault
    ensures { result ≡ fronts.Kit (faults.Line number) }
{
    FrontFault::Kit(KitFault::Line { line: number })
}

/// The number of the line after the line of this number.
///
/// # Errors
/// `NoMemory` where it does not fit into 64 bits: no input has so many lines.
pub(crate) fn number_behind(line: usize) -> Result<usize, NoMemory>
    ensures { IfOk result (λ n. n ≡ line + 1) }
{
    line.checked_add(1).ok_or(NoMemory)
}

// Takes the next line, which has this number, and reads what it says where these reply keys were given before it.
fn next_said<S: Source>(
    kit: &Kit,
    keys: &Roster,
    number: usize,
    lines: &mut Lines,
    input: &mut S,
) -> Result<Said, FrontFault>
    ensures said { IfOk result (λ s. Leads (question_at (key_place kit.now number keys.now lines.old.ahead)) (S.left input.old) (S.left input.new)
        (question_behind kit.now number keys.now lines.new.ahead (said s))) }
    ensures next { IfOk result (λ s. IsNext keys.now (said s)) }
    ensures refused { IfErr result (λ e. IfSome (front_fault e) (λ f.
        Settles (question_at (key_place kit.now number keys.now lines.old.ahead)) (S.left input.old) (S.left input.new) (Err f))) }
    ensures failed { IsErrOf result FrontFault.Read → Rose (S.faults input.old) (S.faults input.new) }
    ensures steady { IsErrOf result FrontFault.Read ⊎ (S.faults input.new ≡ S.faults input.old) }
{
    match lines.read(input, MOST_LINE_BYTES)? {
        Next::Line => match read_said(kit.scheme(), kit.roster(), keys, lines.line()) {
            Some(said) => Ok(said),
            None => Err(line_fault(number)),
        },
        Next::Broken => Err(line_fault(number)),
        Next::End => Err(line_fault(number)),
    }
}

/// The lines from this number on, up to the line of the view.
///
/// # Errors
/// The first line that says no further reply key before the view's, or the end of the input before it; `Read` only where a read failed; and
/// `NoMemory`.
pub(crate) fn read_question<S: Source>(
    alloc: Global,
    kit: &Kit,
    first: usize,
    lines: &mut Lines,
    input: &mut S,
) -> Result<Question, FrontFault>
    ensures asked { IfOk result (λ q. Leads (question_at (key_place kit.now first [] lines.old.ahead)) (S.left input.old) (S.left input.new)
        (λ rest. with_replies q.keys q.view (replies_at (q.line + 1) most_replies lines.new.ahead rest))) }
    ensures refused { IfErr result (λ e. IfSome (front_fault e) (λ f.
        Settles (question_at (key_place kit.now first [] lines.old.ahead)) (S.left input.old) (S.left input.new) (Err f))) }
    ensures failed { IsErrOf result FrontFault.Read → Rose (S.faults input.old) (S.faults input.new) }
    ensures steady { IsErrOf result FrontFault.Read ⊎ (S.faults input.new ≡ S.faults input.old) }
{
    let mut keys = Roster::new(alloc)?;
    'lines: for number in first..usize::MAX {
        match next_said(kit, &keys, number, lines, input)? {
            Said::ReplyKey { process, key } => keys.add(process, key.as_bytes())?,
            Said::Of(view) => {
                return Ok(Question {
                    keys,
                    view,
                    line: number,
                });
            }
        }
    }
    Err(FrontFault::Kit(KitFault::NoMemory))
}
