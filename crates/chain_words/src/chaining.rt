ghost use Rattle.std.specs.Prelude.{◌≡◌, ◌≢◌, ◌⊎◌, ◌+◌, ℕ, List, IfErr, IfOk, IsErrOf, OnErr, OnOk, Ok, codes, true, false};
ghost use Rattle.std.specs.Io.KnownBytes.{Appends, Consumes, Keeps};
ghost use Rattle.byte_defs.specs.Reads.{Makes};
ghost use Rattle.rp_base.specs.Causes.{Rose};
ghost use Rattle.rp_base.specs.Streams.{AppendsPrefix, WritesLine};
ghost use Rattle.kit_defs.specs.Kits.{IsKit};
ghost use Rattle.kit_reading.specs.Fronts.{Begins};
ghost use Rattle.group_defs.specs.Views.{View as PlainView};
ghost use Rattle.chain_text_defs.specs.Chains as plain;
ghost use Rattle.chain_text_defs.specs.Chains.{behind, done, setting_of, stopped};
ghost use Rattle.chain_words.specs.Stops.{input_words, line_of, status_of, words_of};
ghost use Rattle.chain_words.specs.Lines.{if_taken, line_shows, taken};
ghost use Rattle.chain_words.specs.Places.{Ends, ReadsMore, Settles, Shows, answer_at, place};
ghost use Rattle.chain_words.specs.Running.{Answered, AnsweredBy, Faulty, FaultyBy, HasStatus, Refused, ShownAndSays, ShownBy, ShownInPart, ShownInPartBy, SomeShown, Reaches};

use crate::proof_lines::{MOST_PROOF_LINE, proof_in};
use crate::stops::{Fault, Stop};
use crate::view_lines::view_line;
use chain_check::Chain;
use kit_reading::{Kit, Lines, Next, read_front};
use rp_base::{Sink, Source, write_all};
use std::alloc::Global;
use view_table::View;

/// The first view of a kit.
pub fn genesis_of(kit: &Kit) -> View
    requires { IsKit kit.now }
    ensures { result ≡ (setting_of kit.now).genesis }
{
    let Some(view) = View::new(0, kit.genesis()) else {
        unreachable!()
    };
    view
}

/// Writes the line of a view.
///
/// # Errors
/// `Write` where the sink failed, and then a prefix of the line may be written; `NoMemory` where there is no room for the line, and then nothing
/// is.
pub fn write_view<K: Sink>(alloc: Global, view: &View, output: &mut K) -> Result<(), Stop>
    ensures wrote { OnOk result (Appends (K.written output.old) (K.written output.new) (plain.view_line view.now)) }
    ensures steady { OnOk result (K.faults output.new ≡ K.faults output.old) }
    ensures part { IsErrOf result Stop.Write → AppendsPrefix (K.written output.old) (K.written output.new) (plain.view_line view.now) }
    ensures failed { IsErrOf result Stop.Write → Rose (K.faults output.old) (K.faults output.new) }
    ensures untouched { IfErr result (λ stop. (stop ≡ Stop.Write) ⊎ ((stop ≡ Stop.NoMemory) × (output.new ≡ output.old))) }
{
    let line = view_line(alloc, view)?;
    match write_all(output, &line) {
        Ok(()) => Ok(()),
        Err(_) => Err(Stop::Write),
    }
}

// The view that the line of this number shows after the chain's last one.
fn shown_by(
    alloc: Global,
    kit: &Kit,
    chain: &mut Chain,
    number: usize,
    line: &[u8],
) -> Result<View, Stop>
    ensures shown { Makes input_words (λ w. w) result (line_shows (setting_of kit.now) number chain.old line.now) }
    ensures kept { IfOk result (λ w. chain.new ≡ w) }
    ensures no_read { ¬ IsErrOf result Stop.Read }
    ensures no_write { ¬ IsErrOf result Stop.Write }
{
    let Some(frame) = proof_in(alloc, line)? else {
        return Err(Stop::Input(Fault::Line(number)));
    };
    match chain.advance(&kit.scheme(), kit.roster(), &kit.group(), &frame) {
        Ok(view) => Ok(view),
        Err(fault) => Err(Stop::Input(Fault::Proof(number, fault))),
    }
}

/// Takes what comes next of an input, where the next line has this number and is given without its line feed, and writes the line of the view
/// that it shows. Answers whether there was a line; if not, nothing is written.
///
/// # Errors
/// `Input` with the fault of the line, or of the input's end in it; `Write` where the sink failed; `NoMemory`, but only at a line.
pub fn take<K: Sink>(
    alloc: Global,
    kit: &Kit,
    chain: &mut Chain,
    number: usize,
    next: Next,
    line: &[u8],
    output: &mut K,
) -> Result<bool, Stop>
    ensures shown { Makes input_words (λ more. if_taken chain.new more) result (taken (setting_of kit.now) number chain.old next line.now) }
    ensures wrote { result ≡ Ok true → Appends (K.written output.old) (K.written output.new) (plain.view_line chain.new) }
    ensures silent { result ≡ Ok false → output.new ≡ output.old }
    ensures steady { OnOk result (K.faults output.new ≡ K.faults output.old) }
    ensures failed { IsErrOf result Stop.Write → Rose (K.faults output.old) (K.faults output.new) }
    ensures last { IsErrOf result Stop.Write → taken (setting_of kit.now) number chain.old next line.now ≡ Ok (Some chain.new) }
    ensures part { IsErrOf result Stop.Write
        → AppendsPrefix (K.written output.old) (K.written output.new) (plain.view_line chain.new) }
    ensures untouched { IfErr result (λ stop. (stop ≡ Stop.Write) ⊎ (output.new ≡ output.old)) }
    ensures no_room { IsErrOf result Stop.NoMemory → next ≡ Next.Line }
    ensures no_read { ¬ IsErrOf result Stop.Read }
{
    match next {
        Next::End => Ok(false),
        Next::Broken => Err(Stop::Input(Fault::Line(number))),
        Next::Line => {
            let view = shown_by(alloc, kit, chain, number, line)?;
            write_view(alloc, &view, output)?;
            Ok(true)
        }
    }
}

// Takes the next line, which has this number, and writes the view that it shows. Answers whether there was a line: at the input's end
// nothing is written.
fn step<S: Source, K: Sink>(
    alloc: Global,
    kit: &Kit,
    chain: &mut Chain,
    number: usize,
    lines: &mut Lines,
    input: &mut S,
    output: &mut K,
) -> Result<bool, Stop>
    ensures shown { result ≡ Ok true → Shows (S.left input.old) (S.left input.new)
        (place kit.now number chain.old lines.old.ahead) (place kit.now (number + 1) chain.new lines.new.ahead) }
    ensures wrote { result ≡ Ok true → Appends (K.written output.old) (K.written output.new) (plain.view_line chain.new) }
    ensures ended { result ≡ Ok false → Ends (answer_at (place kit.now number chain.old lines.old.ahead))
        (S.left input.old) (S.left input.new) done }
    ensures silent { result ≡ Ok false → K.written output.new ≡ K.written output.old }
    ensures steady { OnOk result ((S.faults input.new ≡ S.faults input.old) × (K.faults output.new ≡ K.faults output.old)) }
    ensures read { IsErrOf result Stop.Read → Rose (S.faults input.old) (S.faults input.new) }
    ensures failed { IsErrOf result Stop.Write → Rose (K.faults output.old) (K.faults output.new) }
    ensures last { IsErrOf result Stop.Write → Shows (S.left input.old) (S.left input.new)
        (place kit.now number chain.old lines.old.ahead) (place kit.now (number + 1) chain.new lines.new.ahead) }
    ensures part { IsErrOf result Stop.Write
        → AppendsPrefix (K.written output.old) (K.written output.new) (plain.view_line chain.new) }
    ensures refused { (fault : Fault) → IsErrOf result (Stop.Input fault)
        → Settles (answer_at (place kit.now number chain.old lines.old.ahead)) (S.left input.old) (S.left input.new)
        (stopped (words_of fault)) }
    ensures reads { OnErr result (ReadsMore (S.left input.old) (S.left input.new)) }
    ensures untouched { IfErr result (λ stop. (stop ≡ Stop.Write) ⊎ (output.new ≡ output.old)) }
    ensures whole { IfErr result (λ stop. (stop ≡ Stop.Read) ⊎ (S.faults input.new ≡ S.faults input.old)) }
{
    let next = lines.read(input, MOST_PROOF_LINE)?;
    take(alloc, kit, chain, number, next, lines.line(), output)
}

/// The number of the line after the line of this number.
///
/// # Errors
/// `NoMemory` where it does not fit into 64 bits: no input has so many lines.
pub fn number_behind(line: usize) -> Result<usize, Stop>
    ensures next { IfOk result (λ n. n ≡ line + 1) }
    ensures only { IfErr result (λ stop. stop ≡ Stop.NoMemory) }
{
    line.checked_add(1).ok_or(Stop::NoMemory)
}

/// Answers an input from a place in a chain on to its end: the chain has the view that was shown last, and the lines come that follow the one of
/// this number. Each is to be a proof, and the line of the view that it shows is written.
///
/// # Errors
/// `Read` only where a read failed, `Write` only where a write did; `Input` with the fault of the first line that shows no view; `NoMemory`. The
/// lines before were written.
pub fn answer_rest<S: Source, K: Sink>(
    alloc: Global,
    kit: &Kit,
    chain: Chain,
    last: usize,
    lines: &mut Lines,
    input: &mut S,
    output: &mut K,
) -> Result<(), Stop>
    ensures done { OnOk result (AnsweredBy (answer_at (place kit.now (last + 1) chain lines.old.ahead))
        (S.left input.old) (S.left input.new) (K.written output.old) (K.written output.new)) }
    ensures steady { OnOk result ((S.faults input.new ≡ S.faults input.old) × (K.faults output.new ≡ K.faults output.old)) }
    ensures read { IsErrOf result Stop.Read → Rose (S.faults input.old) (S.faults input.new) }
    ensures failed { IsErrOf result Stop.Write → Rose (K.faults output.old) (K.faults output.new) }
    ensures part { IsErrOf result Stop.Write → ShownInPartBy (answer_at (place kit.now (last + 1) chain lines.old.ahead))
        (S.left input.old) (S.left input.new) (K.written output.old) (K.written output.new) }
    ensures some { IfErr result (λ stop. (stop ≡ Stop.Write) ⊎ ShownBy (answer_at (place kit.now (last + 1) chain lines.old.ahead))
        (S.left input.old) (S.left input.new) (K.written output.old) (K.written output.new)) }
    ensures calm { IfErr result (λ stop. (stop ≡ Stop.Write) ⊎ (K.faults output.new ≡ K.faults output.old)) }
    ensures refused { (fault : Fault) → IsErrOf result (Stop.Input fault)
        → FaultyBy (answer_at (place kit.now (last + 1) chain lines.old.ahead)) (words_of fault)
        (S.left input.old) (S.left input.new) (K.written output.old) (K.written output.new) }
    ensures whole { IfErr result (λ stop. (stop ≡ Stop.Read) ⊎ (S.faults input.new ≡ S.faults input.old)) }
{
    let mut chain = chain;
    let first = number_behind(last)?;
    'proofs: for number in first..usize::MAX {
        if !step(alloc, kit, &mut chain, number, lines, input, output)? {
            return Ok(());
        }
    }
    Err(Stop::NoMemory)
}

// Answers an input up to its end, and writes the line of each view.
fn answer_input<S: Source, K: Sink>(
    alloc: Global,
    input: &mut S,
    output: &mut K,
) -> Result<(), Stop>
    ensures done { OnOk result (Answered (S.left input.old) (S.left input.new) (K.written output.old) (K.written output.new)) }
    ensures steady { OnOk result ((S.faults input.new ≡ S.faults input.old) × (K.faults output.new ≡ K.faults output.old)) }
    ensures read { IsErrOf result Stop.Read → Rose (S.faults input.old) (S.faults input.new) }
    ensures failed { IsErrOf result Stop.Write → Rose (K.faults output.old) (K.faults output.new) }
    ensures part { IsErrOf result Stop.Write
        → ShownInPart (S.left input.old) (S.left input.new) (K.written output.old) (K.written output.new) }
    ensures some { IfErr result (λ stop. (stop ≡ Stop.Write)
        ⊎ SomeShown (S.left input.old) (S.left input.new) (K.written output.old) (K.written output.new)) }
    ensures calm { IfErr result (λ stop. (stop ≡ Stop.Write) ⊎ (K.faults output.new ≡ K.faults output.old)) }
    ensures refused { (fault : Fault) → IsErrOf result (Stop.Input fault)
        → Faulty (words_of fault) (S.left input.old) (S.left input.new) (K.written output.old) (K.written output.new) }
    ensures whole { IfErr result (λ stop. (stop ≡ Stop.Read) ⊎ (S.faults input.new ≡ S.faults input.old)) }
{
    let mut lines = Lines::new(alloc);
    let front = read_front(alloc, &mut lines, input)?;
    let genesis = genesis_of(&front.kit);
    write_view(alloc, &genesis, output)?;
    let chain = Chain::new(genesis);
    answer_rest(
        alloc, &front.kit, chain, front.go, &mut lines, input, output,
    )
}

/// Writes the line that says why a run stops, and answers its status, or 1 where there is no memory for the line. A fault meanwhile leaves
/// the status as it is.
pub fn tell<K: Sink>(alloc: Global, output: &mut K, stop: Stop) -> u8
    ensures silent { result ≡ 1 → Keeps (K.written output.old) (K.written output.new) }
    ensures status { result ≢ 1 → result ≡ status_of stop }
    ensures write { stop ≡ Stop.Write → result ≡ 4 }
    ensures line { result ≢ 1 → WritesLine (line_of stop)
        (K.written output.old) (K.written output.new) (K.faults output.old) (K.faults output.new) }
{
    let Ok(line) = stop.line(alloc) else {
        return Stop::NoMemory.status();
    };
    let _ = write_all(output, &line);
    stop.status()
}

/// The word `chain`: reads a kit up to the line `go`, and then lines with a proof each. It writes the line of the kit's first view, and
/// after each proof the line of the view that it shows after the last one, and answers the status that the program ends with. Lines are
/// written as they are read: a fault leaves those before it.
///
/// | Status | Written last | Comes |
/// |---|---|---|
/// | 0 | the line of the last view | the input was read to its end, and each proof shows a view |
/// | 1 | the line of a view, or nothing | no memory is left, or 2^64 - 2 lines were read |
/// | 3 | `stop 3 read` | only where a read failed |
/// | 4 | a prefix of the line of a view | only where a write failed |
/// | 7 | `stop 7 ..` with the number of a line, counted from 1 | the line has this fault (docs/FORMATS.md, «Chains») |
pub fn chain<S: Source, K: Sink>(alloc: Global, input: &mut S, output: &mut K) -> u8
    // 0: the input was read to its end, and the whole answer to it was written.
    ensures done { result ≡ 0 → Answered (S.left input.old) (S.left input.new) (K.written output.old) (K.written output.new) }
    ensures steady { result ≡ 0 → (S.faults input.new ≡ S.faults input.old) × (K.faults output.new ≡ K.faults output.old) }

    // 1: no memory is left; the lines before were written.
    ensures some { result ≡ 1 → SomeShown (S.left input.old) (S.left input.new) (K.written output.old) (K.written output.new) }

    // 3: only where the source failed; the lines before were written.
    ensures read { result ≡ 3 → Rose (S.faults input.old) (S.faults input.new) }
    ensures read_line { result ≡ 3 → ShownAndSays (codes "stop 3 read\n") (S.left input.old) (S.left input.new)
        (K.written output.old) (K.written output.new) (K.faults output.old) (K.faults output.new) }

    // 4: only where the sink failed; the lines before were written, and one in part.
    ensures failed { result ≡ 4 → Rose (K.faults output.old) (K.faults output.new) }
    ensures part { result ≡ 4
        → ShownInPart (S.left input.old) (S.left input.new) (K.written output.old) (K.written output.new) }

    // 7: only where the input has a fault; the lines before were written, and the one that says so.
    ensures refused { result ≡ 7 → Refused (S.left input.old) (S.left input.new)
        (K.written output.old) (K.written output.new) (K.faults output.old) (K.faults output.new) }

    // 4, 7: no read failed.
    ensures whole { (result ≡ 4) ⊎ (result ≡ 7) → S.faults input.new ≡ S.faults input.old }

    // An input whose answer has status 0 gives 0, and one whose answer has status 7 gives 7, where memory is left and nothing failed.
    ensures completes { HasStatus 0 (S.left input.old)
        → ¬ Rose (S.faults input.old) (S.faults input.new) → ¬ Rose (K.faults output.old) (K.faults output.new)
        → (result ≡ 0) ⊎ (result ≡ 1) }
    ensures refuses { HasStatus 7 (S.left input.old)
        → ¬ Rose (S.faults input.old) (S.faults input.new) → ¬ Rose (K.faults output.old) (K.faults output.new)
        → (result ≡ 7) ⊎ (result ≡ 1) }
    ensures only { (result ≡ 0) ⊎ (result ≡ 1) ⊎ (result ≡ 3) ⊎ (result ≡ 4) ⊎ (result ≡ 7) }
{
    match answer_input(alloc, input, output) {
        Ok(()) => 0,
        Err(stop) => tell(alloc, output, stop),
    }
}
