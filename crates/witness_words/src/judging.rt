//! Lines of evidence judged by the keys of a kit.
ghost use Rattle.std.specs.Prelude.{◌≡◌, ◌≢◌, ◌⊎◌, ◌+◌, [], Ok, IfErr, IfOk, IsErrOf, OnOk, codes, true, false};
ghost use Rattle.std.specs.Io.KnownBytes.{Keeps};
ghost use Rattle.rp_base.specs.Causes.{Rose};
ghost use Rattle.rp_base.specs.Streams.{WritesLine};
ghost use Rattle.line_input.specs.Places.{Ends, Leads};
ghost use Rattle.audit_defs.specs.Players.{setting_of};
ghost use Rattle.witness_defs.specs.Lines as reported;
ghost use Rattle.witness_defs.specs.Judging as plain;
ghost use Rattle.witness_words.specs.Places.{Refuses, ReportsAs, behind, judged_from, line_gives, place};
ghost use Rattle.witness_words.specs.Running.{IsRefused, IsTaken, Refused, Takes};
ghost use Rattle.witness_words.specs.Seen.{evidence_with};

use crate::reading::{MOST_EVIDENCE_LINE, evidence_in};
use audit_input::{Fault, Stop, report};
use conviction::convicts;
use frame_codec::{FrameView, split_frame};
use kit_reading::{Kit, Lines, Next, read_front};
use rp_base::{Pid, Sink, Source};
use std::alloc::Global;

/// Whether the bytes are a Bundle that convicts the process.
pub(crate) fn is_taken(kit: &Kit, process: Pid, frame: &[u8]) -> bool
    ensures { result ≡ plain.is_taken (setting_of kit.now) (evidence_with process frame.now) }
{
    let Ok(frame) = split_frame(frame) else {
        return false;
    };
    match frame {
        FrameView::Bundle(_) => {
            convicts(&kit.scheme(), kit.roster(), &kit.group(), &frame, process)
        }
        FrameView::Proof(_) => false,
        FrameView::Want { .. } => false,
    }
}

// Takes the evidence of the line of this number.
fn take_line(alloc: Global, kit: &Kit, number: usize, line: &[u8]) -> Result<(), Stop>
    ensures taken { OnOk result ((e : reported.Evidence) × (line_gives (setting_of kit.now) number line.now ≡ Ok e)) }
    ensures refused { (fault : Fault) → IsErrOf result (Stop.Input fault)
        → (r : plain.Refusal) × (line_gives (setting_of kit.now) number line.now ≡ Err r) × ReportsAs fault r }
    ensures no_read { ¬ IsErrOf result Stop.Read }
    ensures no_write { ¬ IsErrOf result Stop.Write }
{
    let Some(evidence) = evidence_in(alloc, line)? else {
        return Err(Stop::Input(Fault::Line(number)));
    };
    if is_taken(kit, evidence.process, &evidence.frame) {
        Ok(())
    } else {
        Err(Stop::Input(Fault::Evidence(number)))
    }
}

// Takes the next line, which has this number. Answers whether there was a line.
fn step<S: Source>(
    alloc: Global,
    kit: &Kit,
    number: usize,
    lines: &mut Lines,
    input: &mut S,
) -> Result<bool, Stop>
    ensures taken { result ≡ Ok true → (e : reported.Evidence) × Leads (judged_from (place kit.now number lines.old.ahead))
        (S.left input.old) (S.left input.new) (behind e (place kit.now (number + 1) lines.new.ahead)) }
    ensures ended { result ≡ Ok false
        → Ends (judged_from (place kit.now number lines.old.ahead)) (S.left input.old) (S.left input.new) (Ok []) }
    ensures refused { (fault : Fault) → IsErrOf result (Stop.Input fault)
        → Refuses (judged_from (place kit.now number lines.old.ahead)) (S.left input.old) (S.left input.new) fault }
    ensures read { IsErrOf result Stop.Read → Rose (S.faults input.old) (S.faults input.new) }
    ensures steady { IsErrOf result Stop.Read ⊎ (S.faults input.new ≡ S.faults input.old) }
    ensures no_write { ¬ IsErrOf result Stop.Write }
{
    match lines.read(input, MOST_EVIDENCE_LINE)? {
        Next::End => Ok(false),
        Next::Broken => Err(Stop::Input(Fault::Line(number))),
        Next::Line => {
            take_line(alloc, kit, number, lines.line())?;
            Ok(true)
        }
    }
}

// The number of the line after the line of this number.
fn number_behind(line: usize) -> Result<usize, Stop>
    ensures next { IfOk result (λ n. n ≡ line + 1) }
    ensures only { IfErr result (λ stop. stop ≡ Stop.NoMemory) }
{
    line.checked_add(1).ok_or(Stop::NoMemory)
}

// Judges an input up to its end.
fn judge_all<S: Source>(alloc: Global, input: &mut S) -> Result<(), Stop>
    ensures taken { OnOk result (Takes (S.left input.old) (S.left input.new)) }
    ensures refused { (fault : Fault) → IsErrOf result (Stop.Input fault)
        → Refuses plain.judged (S.left input.old) (S.left input.new) fault }
    ensures read { IsErrOf result Stop.Read → Rose (S.faults input.old) (S.faults input.new) }
    ensures steady { IsErrOf result Stop.Read ⊎ (S.faults input.new ≡ S.faults input.old) }
    ensures no_write { ¬ IsErrOf result Stop.Write }
{
    let mut lines = Lines::new(alloc);
    let front = read_front(alloc, &mut lines, input)?;
    let first = number_behind(front.go)?;
    'evidence: for number in first..usize::MAX {
        if !step(alloc, &front.kit, number, &mut lines, input)? {
            return Ok(());
        }
    }
    Err(Stop::NoMemory)
}

/// The words `judge`: reads a kit up to the line `go`, and then lines of evidence, and answers the status that the program ends with. A line is
/// taken where its frame is a Bundle that convicts its process by the kit's keys; nothing is written where all are.
///
/// | Status | Written | Comes |
/// |---|---|---|
/// | 0 | nothing | the input was read to its end, and each line is taken |
/// | 1 | nothing | no memory is left, or 2^64 - 2 lines were read |
/// | 3 | `stop 3 read` | only where a read failed |
/// | 7 | `stop 7 ..` with the number of a line, counted from 1 | the line has this fault; `stop 7 evidence ..` where its evidence is not taken |
pub fn judge<S: Source, K: Sink>(alloc: Global, input: &mut S, output: &mut K) -> u8
    // 0: the input was read to its end, and all evidence in it is taken.
    ensures taken { result ≡ 0 → Takes (S.left input.old) (S.left input.new) }
    ensures steady { result ≡ 0 → (S.faults input.new ≡ S.faults input.old) × (K.faults output.new ≡ K.faults output.old) }

    // 0, 1: nothing was written.
    ensures silent { (result ≡ 0) ⊎ (result ≡ 1) → Keeps (K.written output.old) (K.written output.new) }

    // 3: only where the source failed.
    ensures read { result ≡ 3 → Rose (S.faults input.old) (S.faults input.new) }
    ensures read_line { result ≡ 3 → WritesLine (codes "stop 3 read\n")
        (K.written output.old) (K.written output.new) (K.faults output.old) (K.faults output.new) }

    // 7: what was read is not taken, and the line that says why was written and nothing else. No read failed.
    ensures refused { result ≡ 7 → Refused (S.left input.old) (S.left input.new)
        (K.written output.old) (K.written output.new) (K.faults output.old) (K.faults output.new) }
    ensures whole { result ≡ 7 → S.faults input.new ≡ S.faults input.old }

    // An input of which all is taken gives 0, and another one 7, where memory is left and no read failed.
    ensures completes { IsTaken (S.left input.old) → ¬ Rose (S.faults input.old) (S.faults input.new)
        → (result ≡ 0) ⊎ (result ≡ 1) }
    ensures refuses { IsRefused (S.left input.old) → ¬ Rose (S.faults input.old) (S.faults input.new)
        → (result ≡ 7) ⊎ (result ≡ 1) }
    ensures only { (result ≡ 0) ⊎ (result ≡ 1) ⊎ (result ≡ 3) ⊎ (result ≡ 7) }
{
    match judge_all(alloc, input) {
        Ok(()) => 0,
        Err(stop) => report(alloc, output, stop),
    }
}
