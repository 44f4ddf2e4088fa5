//! The next line of the script.
ghost use Rattle.std.specs.Prelude.{◌≡◌, ◌⊎◌, ◌+◌, ◌^◌, ◌<◌, List, Some, None, IfErr, IfOk, IsOk, OnOk, ℕ};
ghost use Rattle.node_defs.specs.Scripts.{line_said};
ghost use Rattle.node_text.specs.Views.{line as line_of, stop as stop_of};
ghost use Rattle.node_traces.specs.Outside.{SourceSeen, SourceTook};
ghost use Rattle.node_input.specs.Sources.{IsSeen, SeenAs};
ghost use Rattle.node_input.specs.Reads.{Asks, AsksNone, EndsAfter, IsFor, TakesNone, line_limit};

use kit_reading::{InputFault, Lines, Next, Source};
use node_text::{Line, Stop, read_line};
use rp_base::{NoMemory, PidSet};
use std::alloc::Global;

/// The most bytes of a line of the script, where no service takes longer ones.
const MOST_LINE: usize = 70_000;

/// The most bytes of a line of the script, where one for the service has `longest` at most.
pub fn most_of_line(longest: usize) -> usize
    ensures { result ≡ line_limit longest }
{
    if longest > MOST_LINE {
        longest
    } else {
        MOST_LINE
    }
}

/// The number of the line that is `count` lines after the line `go`, whose number is given. Lines are counted from 1.
///
/// # Errors
/// [`NoMemory`] exactly where the number does not fit into 64 bits: no input has so many lines.
pub fn number_after(go: usize, count: u32) -> Result<u64, NoMemory>
    ensures is { IfOk result (λ n. n ≡ go + count) }
    ensures only { go + count < 2 ^ 64 → IsOk result }
{
    (go as u64).checked_add(u64::from(count)).ok_or(NoMemory)
}

/// Takes the next line, which has this number, and at most `most` bytes.
///
/// # Errors
/// `Ended` at the input's end; `BadLine` where what comes is no line of so many bytes; `ReadFailed` only where a read failed; and `NoMemory`.
pub fn take_line<S: Source>(
    lines: &mut Lines,
    input: &mut S,
    most: usize,
    number: u64,
) -> Result<(), Stop>
    ensures took { (k : SourceSeen) → IsSeen k lines.old.ahead (S.left input.old) (S.faults input.old)
        → OnOk result (SeenAs (λ l. SourceTook most k l lines.new.line) lines.new.ahead (S.left input.new) (S.faults input.new)) }
    ensures none { (k : SourceSeen) → IsSeen k lines.old.ahead (S.left input.old) (S.faults input.old)
        → IfErr result (λ why. SeenAs (λ l. TakesNone most number k l (stop_of why)) lines.new.ahead (S.left input.new) (S.faults input.new)) }
{
    match lines.read(input, most) {
        Ok(Next::Line) => Ok(()),
        Ok(Next::Broken) => Err(Stop::BadLine(number)),
        Ok(Next::End) => Err(Stop::Ended),
        Err(InputFault::Read) => Err(Stop::ReadFailed),
        Err(InputFault::NoMemory) => Err(Stop::NoMemory),
    }
}

// What a line asks for, which has this number.
fn asked(alloc: Global, hosted: PidSet, line: &[u8], number: u64) -> Result<Line, Stop>
    ensures says { IfOk result (λ said. line_said hosted line.now ≡ Some (line_of said)) }
    ensures none { IfErr result (λ why. (why ≡ Stop.NoMemory) ⊎ ((why ≡ Stop.BadLine number) × (line_said hosted line.now ≡ None))) }
{
    match read_line(alloc, hosted, line)? {
        Some(said) => Ok(said),
        None => Err(Stop::BadLine(number)),
    }
}

/// Takes the next line of the script, which has this number, and reads what it asks for. Some bytes of the input may have been read ahead.
///
/// # Errors
/// `Ended` at the input's end; `BadLine` where what comes is no line of the script, or has more bytes than a line may have;
/// `ReadFailed` only where a read failed; and `NoMemory`: no line was taken then.
pub fn read_next<S: Source>(
    alloc: Global,
    hosted: PidSet,
    lines: &mut Lines,
    input: &mut S,
    most: usize,
    number: u64,
) -> Result<Line, Stop>
    ensures asks { (k : SourceSeen) → IsSeen k lines.old.ahead (S.left input.old) (S.faults input.old)
        → IfOk result (λ said. SeenAs (λ l. Asks most hosted k l lines.new.line (line_of said)) lines.new.ahead (S.left input.new)
        (S.faults input.new)) }
    ensures within { IfOk result (λ said. IsFor hosted lines.new.line (line_of said)) }
    ensures none { (k : SourceSeen) → IsSeen k lines.old.ahead (S.left input.old) (S.faults input.old)
        → IfErr result (λ why. (ahead : List ℕ) × SeenAs (λ l. AsksNone most hosted number k l (stop_of why)) ahead
        (S.left input.new) (S.faults input.new)) }
{
    take_line(lines, input, most, number)?;
    asked(alloc, hosted, lines.line(), number)
}

/// Why a script ends that had as many lines as one may have: a further one, which has this number, is refused before it is read for
/// meaning.
pub fn end_after<S: Source>(lines: &mut Lines, input: &mut S, most: usize, number: u64) -> Stop
    ensures { (k : SourceSeen) → IsSeen k lines.old.ahead (S.left input.old) (S.faults input.old)
        → SeenAs (λ l. EndsAfter most number k l (stop_of result)) lines.new.ahead (S.left input.new) (S.faults input.new) }
{
    match take_line(lines, input, most, number) {
        Ok(()) => Stop::BadLine(number),
        Err(stop) => stop,
    }
}
