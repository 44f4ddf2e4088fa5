ghost use Rattle.std.specs.Prelude.{◌≡◌, ◌⊎◌, ◌+◌, List, ℕ, IfErr, IfOk, IfSome, IsErrOf, IsSome, OnOk, Ok, Some, None, codes};
ghost use Rattle.std.specs.Io.KnownBytes.{Appends, Consumes};
ghost use Rattle.byte_defs.specs.Reads.{Makes};
ghost use Rattle.rp_base.specs.Causes.{Rose};
ghost use Rattle.rp_base.specs.Streams.{AppendsPrefix};
ghost use Rattle.kit_defs.specs.Kits.{IsKit};
ghost use Rattle.chain_text_defs.specs.Chains.{setting_of, view_line};
ghost use Rattle.chain_words.specs.Stops.{input_words, words_of};
ghost use Rattle.chain_words.specs.Lines.{taken};
ghost use Rattle.chain_words.specs.Places.{place};
ghost use Rattle.chain_words.specs.Running.{AnsweredBy, FaultyBy, SomeShownBy};
ghost use Rattle.witness_chain.specs.Running.{AnswerReportsFrom, Answered, Faulty, HasStatus, InPart, LinesWritten, Refused, ShownAndSays, SomeShown};
ghost use Rattle.witness_chain.specs.Starting.{BegunBy, InPartBy, PartShown, first_lines, starts_at};

use crate::starts::start_of;
use chain_words::{
    Chain, Fault, Kit, Lines, MOST_PROOF_LINE, Next, Stop, answer_rest, genesis_of, number_behind,
    read_front, take, tell, write_view,
};
use rp_base::{Sink, Source};
use std::alloc::Global;

// Writes the line of the kit's first view, takes what comes next as of a chain from there on, and writes the line of the view that it shows.
// Answers the chain, or None where the input has ended.
fn begin_first<K: Sink>(
    alloc: Global,
    kit: &Kit,
    number: usize,
    next: Next,
    line: &[u8],
    output: &mut K,
) -> Result<Option<Chain>, Stop>
    requires { IsKit kit.now }
    ensures shown { Makes input_words (λ o. o) result (taken (setting_of kit.now) number (setting_of kit.now).genesis next line.now) }
    ensures wrote { IfOk result (λ o. Appends (K.written output.old) (K.written output.new) (first_lines (setting_of kit.now).genesis o)) }
    ensures steady { OnOk result (K.faults output.new ≡ K.faults output.old) }
    ensures failed { IsErrOf result Stop.Write → Rose (K.faults output.old) (K.faults output.new) }
    ensures part { IsErrOf result Stop.Write
        → AppendsPrefix (K.written output.old) (K.written output.new) (view_line (setting_of kit.now).genesis)
        ⊎ PartShown (setting_of kit.now) number next line.now (K.written output.old) (K.written output.new) }
    ensures refused { (fault : Fault) → IsErrOf result (Stop.Input fault)
        → Appends (K.written output.old) (K.written output.new) (view_line (setting_of kit.now).genesis) }
    ensures no_room { IsErrOf result Stop.NoMemory → (output.new ≡ output.old)
        ⊎ ((next ≡ Next.Line) × Appends (K.written output.old) (K.written output.new) (view_line (setting_of kit.now).genesis)) }
    ensures calm { IfErr result (λ stop. (stop ≡ Stop.Write) ⊎ (K.faults output.new ≡ K.faults output.old)) }
    ensures no_read { ¬ IsErrOf result Stop.Read }
{
    let genesis = genesis_of(kit);
    write_view(alloc, &genesis, output)?;
    let mut chain = Chain::new(genesis);
    if take(alloc, kit, &mut chain, number, next, line, output)? {
        Ok(Some(chain))
    } else {
        Ok(None)
    }
}

// Takes the first line after a kit, which has this number, and writes the line of its view, or else that of the kit's first view and of the
// one that the line shows. Answers the chain, or None where the input has ended.
fn begin<S: Source, K: Sink>(
    alloc: Global,
    kit: &Kit,
    number: usize,
    lines: &mut Lines,
    input: &mut S,
    output: &mut K,
) -> Result<Option<Chain>, Stop>
    requires { IsKit kit.now }
    ensures begun { IfOk result (λ o. IfSome o (λ v. BegunBy (starts_at kit.now number lines.old.ahead) (S.left input.old) (S.left input.new)
        (K.written output.old) (K.written output.new) (place kit.now (number + 1) v lines.new.ahead))) }
    ensures ended { result ≡ Ok None → AnsweredBy (starts_at kit.now number lines.old.ahead) (S.left input.old) (S.left input.new)
        (K.written output.old) (K.written output.new) }
    ensures steady { OnOk result ((S.faults input.new ≡ S.faults input.old) × (K.faults output.new ≡ K.faults output.old)) }
    ensures read { IsErrOf result Stop.Read → Rose (S.faults input.old) (S.faults input.new) }
    ensures failed { IsErrOf result Stop.Write → Rose (K.faults output.old) (K.faults output.new) }
    ensures part { IsErrOf result Stop.Write → InPartBy (starts_at kit.now number lines.old.ahead) (S.left input.old) (S.left input.new)
        (K.written output.old) (K.written output.new) }
    ensures some { IfErr result (λ stop. (stop ≡ Stop.Write) ⊎ IsSome (input_words stop)
        ⊎ SomeShownBy (starts_at kit.now number lines.old.ahead) (S.left input.old) (S.left input.new)
        (K.written output.old) (K.written output.new)) }
    ensures calm { IfErr result (λ stop. (stop ≡ Stop.Write) ⊎ (K.faults output.new ≡ K.faults output.old)) }
    ensures refused { (fault : Fault) → IsErrOf result (Stop.Input fault)
        → FaultyBy (starts_at kit.now number lines.old.ahead) (words_of fault) (S.left input.old) (S.left input.new)
        (K.written output.old) (K.written output.new) }
    ensures whole { IfErr result (λ stop. (stop ≡ Stop.Read) ⊎ (S.faults input.new ≡ S.faults input.old)) }
{
    let next = lines.read(input, MOST_PROOF_LINE)?;
    let line = lines.line();
    if let Some(view) = start_of(kit, next, line) {
        write_view(alloc, &view, output)?;
        return Ok(Some(Chain::new(view)));
    }
    begin_first(alloc, kit, number, next, line, output)
}

// Answers an input up to its end, and writes the line of each view.
fn answer_input<S: Source, K: Sink>(
    alloc: Global,
    input: &mut S,
    output: &mut K,
) -> Result<(), Stop>
    ensures done { OnOk result (Answered (S.left input.old) (S.left input.new) (K.written output.old) (K.written output.new)) }
    ensures steady { OnOk result ((S.faults input.new ≡ S.faults input.old) × (K.faults output.new ≡ K.faults output.old)) }
    ensures read { IsErrOf result Stop.Read → Rose (S.faults input.old) (S.faults input.new) }
    ensures failed { IsErrOf result Stop.Write → Rose (K.faults output.old) (K.faults output.new) }
    ensures part { IsErrOf result Stop.Write
        → InPart (S.left input.old) (S.left input.new) (K.written output.old) (K.written output.new) }
    ensures some { IfErr result (λ stop. (stop ≡ Stop.Write) ⊎ IsSome (input_words stop)
        ⊎ SomeShown (S.left input.old) (S.left input.new) (K.written output.old) (K.written output.new)) }
    ensures calm { IfErr result (λ stop. (stop ≡ Stop.Write) ⊎ (K.faults output.new ≡ K.faults output.old)) }
    ensures refused { (fault : Fault) → IsErrOf result (Stop.Input fault) → Faulty (words_of fault)
        (S.left input.old) (S.left input.new) (K.written output.old) (K.written output.new) }
    ensures whole { IfErr result (λ stop. (stop ≡ Stop.Read) ⊎ (S.faults input.new ≡ S.faults input.old)) }
{
    let mut lines = Lines::new(alloc);
    let front = read_front(alloc, &mut lines, input)?;
    let first = number_behind(front.go)?;
    match begin(alloc, &front.kit, first, &mut lines, input, output)? {
        Some(chain) => answer_rest(alloc, &front.kit, chain, first, &mut lines, input, output),
        None => Ok(()),
    }
}

/// The words `chain`: reads a kit up to the line `go`, then the line of a view at which the chain begins, or none, and then lines with a proof
/// each. It writes the line of that view, or of the kit's first one where there is no such line, and after each proof the line of the view that
/// it shows after the one before it, and answers the status that the program ends with. Lines are written as they are read: a fault leaves those
/// before it.
///
/// | Status | Written last | Comes |
/// |---|---|---|
/// | 0 | the line of the last view | the input was read to its end, and each proof shows a view |
/// | 1 | the line of a view, or nothing | no memory is left, or 2^64 - 2 lines were read |
/// | 3 | `stop 3 read` | only where a read failed |
/// | 4 | a prefix of the line of a view | only where a write failed |
/// | 7 | `stop 7 ..` with the number of a line, counted from 1 | the line has this fault (docs/FORMATS.md, «Chains from any view») |
pub fn chain<S: Source, K: Sink>(alloc: Global, input: &mut S, output: &mut K) -> u8
    // 0: the input was read to its end, and the whole answer to it was written.
    ensures done { result ≡ 0
        → Answered (S.left input.old) (S.left input.new) (K.written output.old) (K.written output.new) }
    ensures steady { result ≡ 0 → (S.faults input.new ≡ S.faults input.old) × (K.faults output.new ≡ K.faults output.old) }

    // 1: no memory is left; the lines before were written.
    ensures some { result ≡ 1
        → LinesWritten (S.left input.old) (S.left input.new) (K.written output.old) (K.written output.new) }

    // 3: only where the source failed; the lines before were written.
    ensures read { result ≡ 3 → Rose (S.faults input.old) (S.faults input.new) }
    ensures read_line { result ≡ 3 → ShownAndSays (codes "stop 3 read\n") (S.left input.old) (S.left input.new)
        (K.written output.old) (K.written output.new) (K.faults output.old) (K.faults output.new) }

    // 4: only where the sink failed; a prefix of the answer was written.
    ensures failed { result ≡ 4 → Rose (K.faults output.old) (K.faults output.new) }
    ensures part { result ≡ 4
        → InPart (S.left input.old) (S.left input.new) (K.written output.old) (K.written output.new) }

    // 7: only where the input has a fault; the lines before were written, and the one that says so.
    ensures refused { result ≡ 7 → Refused (S.left input.old) (S.left input.new)
        (K.written output.old) (K.written output.new) (K.faults output.old) (K.faults output.new) }

    // 4, 7: no read failed.
    ensures whole { (result ≡ 4) ⊎ (result ≡ 7) → S.faults input.new ≡ S.faults input.old }

    // An input whose answer has status 0 gives 0, and one whose answer has status 7 gives 7, where memory is left and nothing failed.
    ensures completes { HasStatus 0 (S.left input.old)
        → ¬ Rose (S.faults input.old) (S.faults input.new) → ¬ Rose (K.faults output.old) (K.faults output.new)
        → (result ≡ 0) ⊎ (result ≡ 1) }
    ensures refuses { HasStatus 7 (S.left input.old)
        → ¬ Rose (S.faults input.old) (S.faults input.new) → ¬ Rose (K.faults output.old) (K.faults output.new)
        → (result ≡ 7) ⊎ (result ≡ 1) }

    // Whatever the status: the answer to what was read is the line of each view of a chain, and at most one line more; and these are the views of
    // the group where the first one is, and the proofs quote its correct processes truly.
    ensures views { (read : List ℕ) → Consumes (S.left input.old) (S.left input.new) read → AnswerReportsFrom read }
    ensures only { (result ≡ 0) ⊎ (result ≡ 1) ⊎ (result ≡ 3) ⊎ (result ≡ 4) ⊎ (result ≡ 7) }
{
    match answer_input(alloc, input, output) {
        Ok(()) => 0,
        Err(stop) => tell(alloc, output, stop),
    }
}
