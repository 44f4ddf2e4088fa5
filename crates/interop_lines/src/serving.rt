ghost use Rattle.std.specs.Prelude.{◌≡◌, ◌≢◌, ◌⊎◌, ℕ, suc, List, IfErr, IsErrOf, OnErr, OnOk};
ghost use Rattle.std.specs.Io.KnownBytes.{Appends, Keeps};
ghost use Rattle.rp_base.specs.Causes.{Rose};
ghost use Rattle.rp_base.specs.Streams.{AppendsPrefix, WritesLine};
ghost use Rattle.interop_lines.specs.Lines.{Answers};
ghost use Rattle.interop_lines.specs.Stops.{line_of, status_of};
ghost use Rattle.interop_lines.specs.Serving.{AllServed, HasNoQuestion, HasServed, Refused, ServedAndSays, ServedInPart, SomeServed, ended};

use crate::answers::answer;
use crate::line_reader::{Ahead, read_on};
use crate::stops::Stop;
use interop_runs::Program;
use interop_words::LineFault;
use rp_base::{Sink, Source, write_all};
use std::alloc::Global;

/// Writes the answer to a line, which is given without its line feed.
fn answer_line<K: Sink, P: Program>(
    alloc: Global,
    program: &P,
    line: &[u8],
    number: u64,
    output: &mut K,
) -> Result<(), Stop>
    ensures answered { OnOk result
        ((reported : List ℕ) × Answers (P.comes_to program.now) line.now reported
        × Appends (K.written output.old) (K.written output.new) (ended reported)) }
    ensures steady { OnOk result (K.faults output.new ≡ K.faults output.old) }
    ensures refused { (n : ℕ) → IsErrOf result (Stop.Line n) → (n ≡ number)
        × ((reported : List ℕ) → ¬ Answers (P.comes_to program.now) line.now reported) }
    ensures part { IsErrOf result Stop.Write
        → (reported : List ℕ) × Answers (P.comes_to program.now) line.now reported
        × AppendsPrefix (K.written output.old) (K.written output.new) (ended reported) }
    ensures failed { IsErrOf result Stop.Write → Rose (K.faults output.old) (K.faults output.new) }
    ensures untouched { IfErr result (λ stop. (stop ≡ Stop.Write) ⊎ (output.new ≡ output.old)) }
    ensures no_read { ¬ IsErrOf result Stop.Read }
{
    let mut reported = match answer(alloc, program, line) {
        Ok(reported) => reported,
        Err(LineFault::NoQuestion) => return Err(Stop::Line(number)),
        Err(LineFault::NoMemory) => return Err(Stop::NoMemory),
    };
    reported.extend_from_slice(b"\n")?;
    match write_all(output, &reported) {
        Ok(()) => Ok(()),
        Err(_) => Err(Stop::Write),
    }
}

/// Answers each line of the input, up to its end.
fn answer_all<S: Source, K: Sink, P: Program>(
    alloc: Global,
    program: &P,
    input: &mut S,
    output: &mut K,
) -> Result<(), Stop>
    ensures done { OnOk result (AllServed (P.comes_to program.now)
        (S.left input.old) (S.left input.new) (K.written output.old) (K.written output.new)) }
    ensures steady { OnOk result
        ((S.faults input.new ≡ S.faults input.old) × (K.faults output.new ≡ K.faults output.old)) }
    ensures read { IsErrOf result Stop.Read → Rose (S.faults input.old) (S.faults input.new) }
    ensures part { IsErrOf result Stop.Write
        → ServedInPart (P.comes_to program.now) (S.left input.old) (S.left input.new) (K.written output.old) (K.written output.new) }
    ensures failed { IsErrOf result Stop.Write → Rose (K.faults output.old) (K.faults output.new) }
    ensures some { IfErr result (λ stop. (stop ≡ Stop.Write)
        ⊎ SomeServed (P.comes_to program.now) (S.left input.old) (S.left input.new) (K.written output.old) (K.written output.new)) }
    ensures calm { IfErr result (λ stop. (stop ≡ Stop.Write) ⊎ (K.faults output.new ≡ K.faults output.old)) }
    ensures refused { (number : ℕ) → IsErrOf result (Stop.Line number) → (n : ℕ) × (ahead : List ℕ) × (number ≡ suc n)
        × HasServed (P.comes_to program.now) n ahead (S.left input.old) (S.left input.new) (K.written output.old) (K.written output.new)
        × HasNoQuestion (P.comes_to program.now) ahead (S.left input.new) }
    ensures whole { (number : ℕ) → IsErrOf result (Stop.Line number) → S.faults input.new ≡ S.faults input.old }
{
    let mut ahead = Ahead::new(alloc);
    for number in 1..u64::MAX {
        read_on(alloc, input, &mut ahead)?;
        if ahead.bytes().is_empty() {
            return Ok(());
        }
        let Some(end) = ahead.line() else {
            return Err(Stop::Line(number));
        };
        answer_line(alloc, program, &ahead.bytes()[..end], number, output)?;
        ahead.skip(end + 1);
    }
    Err(Stop::NoMemory)
}

/// Writes the line that says why a run stops, and answers its status, or 1 where there is no memory for the line. A fault
/// meanwhile leaves the status as it is.
fn tell<K: Sink>(alloc: Global, output: &mut K, stop: Stop) -> u8
    ensures silent { result ≡ 1 → Keeps (K.written output.old) (K.written output.new) }
    ensures status { result ≢ 1 → result ≡ status_of stop }
    ensures write { stop ≡ Stop.Write → result ≡ 4 }
    ensures line { result ≢ 1 → WritesLine (line_of stop)
        (K.written output.old) (K.written output.new) (K.faults output.old) (K.faults output.new) }
{
    let Ok(line) = stop.line(alloc) else {
        return Stop::NoMemory.status();
    };
    let _ = write_all(output, line.as_bytes());
    stop.status()
}

/// The whole of `interop`: answers each line of the input with a line of the output, in order, and answers the status that it
/// ends with. The lines `run ..` ask about runs of the program that is handed in.
///
/// | Status | Written last | Comes |
/// |---|---|---|
/// | 0 | the answer to the last line | each line to the input's end was answered |
/// | 1 | the answer to a line | no memory is left, or 2^64 - 2 lines were answered |
/// | 3 | `stop 3 read` | only where a read failed |
/// | 4 | a prefix of an answer | only where a write failed |
/// | 7 | `stop 7 line N` | line N, counted from 1, is no question, or has no line feed or more than 1,000,000 bytes before it |
pub fn interop<S: Source, K: Sink, P: Program>(
    alloc: Global,
    program: &P,
    input: &mut S,
    output: &mut K,
) -> u8
    // 0: the input was read to its end, and each line was answered.
    ensures done { result ≡ 0
        → AllServed (P.comes_to program.now) (S.left input.old) (S.left input.new) (K.written output.old) (K.written output.new) }
    ensures steady { result ≡ 0
        → (S.faults input.new ≡ S.faults input.old) × (K.faults output.new ≡ K.faults output.old) }

    // 1: no memory is left; the lines before were answered.
    ensures some { result ≡ 1
        → SomeServed (P.comes_to program.now) (S.left input.old) (S.left input.new) (K.written output.old) (K.written output.new) }

    // 3: only where the source failed; the lines before were answered.
    ensures read { result ≡ 3 → Rose (S.faults input.old) (S.faults input.new) }
    ensures read_line { result ≡ 3 → ServedAndSays (P.comes_to program.now) Stop.Read (S.left input.old) (S.left input.new)
        (K.written output.old) (K.written output.new) (K.faults output.old) (K.faults output.new) }

    // 4: only where the sink failed; the lines before were answered, and one in part.
    ensures failed { result ≡ 4 → Rose (K.faults output.old) (K.faults output.new) }
    ensures part { result ≡ 4
        → ServedInPart (P.comes_to program.now) (S.left input.old) (S.left input.new) (K.written output.old) (K.written output.new) }

    // 7: only where a line is no question, and no read failed; the lines before were answered.
    ensures refused { result ≡ 7 → Refused (P.comes_to program.now) (S.left input.old) (S.left input.new)
        (K.written output.old) (K.written output.new) (K.faults output.old) (K.faults output.new) }
    ensures whole { result ≡ 7 → S.faults input.new ≡ S.faults input.old }

    ensures only { (result ≡ 0) ⊎ (result ≡ 1) ⊎ (result ≡ 3) ⊎ (result ≡ 4) ⊎ (result ≡ 7) }
{
    match answer_all(alloc, program, input, output) {
        Ok(()) => 0,
        Err(stop) => tell(alloc, output, stop),
    }
}
