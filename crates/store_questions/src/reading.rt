//! The whole input, line by line, to the text that is made of it.
ghost use Rattle.std.specs.Prelude.{◌≡◌, ◌⊎◌, ◌+◌, IfErr, IfOk, IfSome, IsErrOf, Err, Ok, true, false};
ghost use Rattle.rp_base.specs.Causes.{Rose};
ghost use Rattle.line_input.specs.Places.{Ends, Leads, Settles};
ghost use Rattle.kit_reading.specs.declared.fronts.FrontFault.TheVariants as fronts;
ghost use Rattle.kit_reading.specs.declared.faults.KitFault.TheVariants as faults;
ghost use Rattle.kit_reading.specs.Fronts.{front_fault};
ghost use Rattle.store_question_defs.specs.Inputs.{ask_input};
ghost use Rattle.store_questions.specs.Gathering.{nothing_gathered};
ghost use Rattle.store_questions.specs.Views.{gathered as plain};
ghost use Rattle.store_questions.specs.Places.{gather_at, place};

use crate::gathered::Gathered;
use kit_reading::{FrontFault, Kit, KitFault, Lines, Next, read_front};
use rp_base::{NoMemory, Source};
use std::alloc::Global;

/// How many bytes a line may have after the kit.
const MOST_LINE: usize = 8_388_608;

// The fault of a line with this number that is none.
fn line_fault(number: usize) -> FrontFault
    ensures { result ≡ fronts.Kit (faults.Line number) }
{
    FrontFault::Kit(KitFault::Line { line: number })
}

// The number of the line after the line of this number.
fn number_after(line: usize) -> Result<usize, NoMemory>
    ensures { IfOk result (λ n. n ≡ line + 1) }
{
    line.checked_add(1).ok_or(NoMemory)
}

// Takes the next line, which has this number, and gathers what it says. Answers whether there was a line.
fn next_line<S: Source>(
    alloc: Global,
    kit: &Kit,
    payload: &[u8],
    number: usize,
    gathered: &mut Gathered,
    lines: &mut Lines,
    input: &mut S,
) -> Result<bool, FrontFault>
    ensures taken { result ≡ Ok true
        → Leads (gather_at (place kit.now payload.now number (plain gathered.old) lines.old.ahead)) (S.left input.old) (S.left input.new)
        (gather_at (place kit.now payload.now (number + 1) (plain gathered.new) lines.new.ahead)) }
    ensures ended { result ≡ Ok false
        → Ends (gather_at (place kit.now payload.now number (plain gathered.old) lines.old.ahead)) (S.left input.old) (S.left input.new)
        (Ok (plain gathered.new)) }
    ensures refused { IfErr result (λ e. IfSome (front_fault e) (λ f.
        Settles (gather_at (place kit.now payload.now number (plain gathered.old) lines.old.ahead)) (S.left input.old) (S.left input.new) (Err f))) }
    ensures failed { IsErrOf result FrontFault.Read → Rose (S.faults input.old) (S.faults input.new) }
    ensures steady { IsErrOf result FrontFault.Read ⊎ (S.faults input.new ≡ S.faults input.old) }
{
    match lines.read(input, MOST_LINE)? {
        Next::End => Ok(false),
        Next::Broken => Err(line_fault(number)),
        Next::Line => {
            if !gathered.take(alloc, kit, payload, lines.line())? {
                return Err(line_fault(number));
            }
            Ok(true)
        }
    }
}

// Gathers the lines from this number on, to the end of the input.
fn gather<S: Source>(
    alloc: Global,
    kit: &Kit,
    payload: &[u8],
    first: usize,
    lines: &mut Lines,
    input: &mut S,
) -> Result<Gathered, FrontFault>
    ensures gathered { IfOk result (λ g. Ends (gather_at (place kit.now payload.now first nothing_gathered lines.old.ahead))
        (S.left input.old) (S.left input.new) (Ok (plain g))) }
    ensures refused { IfErr result (λ e. IfSome (front_fault e) (λ f.
        Settles (gather_at (place kit.now payload.now first nothing_gathered lines.old.ahead)) (S.left input.old) (S.left input.new) (Err f))) }
    ensures failed { IsErrOf result FrontFault.Read → Rose (S.faults input.old) (S.faults input.new) }
    ensures steady { IsErrOf result FrontFault.Read ⊎ (S.faults input.new ≡ S.faults input.old) }
{
    let mut gathered = Gathered::new(alloc);
    'lines: for number in first..usize::MAX {
        if !next_line(alloc, kit, payload, number, &mut gathered, lines, input)? {
            return Ok(gathered);
        }
    }
    Err(FrontFault::Kit(KitFault::NoMemory))
}

/// What `ask` is to read for the payload, made of the whole input.
///
/// # Errors
/// The first fault of the kit, or of a line after it; `Read` only where a read failed; and `NoMemory`.
pub(crate) fn make_input<S: Source>(
    alloc: Global,
    payload: &[u8],
    input: &mut S,
) -> Result<Vec<u8>, FrontFault>
    ensures made { IfOk result (λ text. Ends (ask_input payload.now) (S.left input.old) (S.left input.new) (Ok text.items)) }
    ensures refused { IfErr result (λ e. IfSome (front_fault e) (λ f.
        Settles (ask_input payload.now) (S.left input.old) (S.left input.new) (Err f))) }
    ensures failed { IsErrOf result FrontFault.Read → Rose (S.faults input.old) (S.faults input.new) }
    ensures steady { IsErrOf result FrontFault.Read ⊎ (S.faults input.new ≡ S.faults input.old) }
{
    let mut lines = Lines::new(alloc);
    let front = read_front(alloc, &mut lines, input)?;
    let first = number_after(front.go)?;
    let gathered = gather(alloc, &front.kit, payload, first, &mut lines, input)?;
    Ok(gathered.text(alloc, &front.kit)?)
}
