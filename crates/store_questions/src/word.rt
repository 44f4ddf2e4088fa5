//! The word itself: from streams to a status.
ghost use Rattle.std.specs.Prelude.{◌≡◌, ◌≢◌, ◌⊎◌, codes};
ghost use Rattle.rp_base.specs.Causes.{Rose};
ghost use Rattle.std.specs.Io.KnownBytes.{Appends};
ghost use Rattle.rp_base.specs.Streams.{AppendsPrefix, WritesLine};
ghost use Rattle.store_questions.specs.Running.{IsMade, IsNotMade, Made, MadeInPart, Refused};

use crate::reading::make_input;
use crate::stops::tell;
use rp_base::{Sink, Source, write_all};
use std::alloc::Global;
use store_question_laws::question_is_asked;

// Writes the text, and answers the status: 0, or 4 where a write failed.
fn give<K: Sink>(output: &mut K, text: &[u8]) -> u8
    ensures done { result ≡ 0 → Appends (K.written output.old) (K.written output.new) text.now }
    ensures steady { result ≡ 0 → K.faults output.new ≡ K.faults output.old }
    ensures failed { result ≡ 4 → Rose (K.faults output.old) (K.faults output.new) }
    ensures part { result ≡ 4 → AppendsPrefix (K.written output.old) (K.written output.new) text.now }
    ensures only { (result ≡ 0) ⊎ (result ≡ 4) }
{
    match write_all(output, text) {
        Ok(()) => 0,
        Err(_) => 4,
    }
}

/// Reads a kit up to the line `go`, and lines that nodes which serve wrote, to the end of the input; and writes what `ask` is to read for this
/// payload: the kit, the first reply key of each process, the last view, and the replies to the payload. Answers the status that the program
/// ends with. It is written once all is read.
///
/// | Status | Written | Comes |
/// |---|---|---|
/// | 0 | what `ask` is to read | the input was read to its end, and has no fault |
/// | 1 | nothing | no memory is left |
/// | 3 | nothing; `stop 3 read` to `errors` | exactly where a read failed |
/// | 4 | a prefix | exactly where a write failed |
/// | 7 | nothing; `stop 7 ..` to `errors`, with the number of a line, counted from 1 | exactly where the line has this fault |
pub fn write_question<S: Source, K: Sink, E: Sink>(
    alloc: Global,
    payload: &[u8],
    input: &mut S,
    output: &mut K,
    errors: &mut E,
) -> u8
    // 0: the input was read to its end, and the text that asks with its lines was written, and nothing else.
    ensures made { result ≡ 0
        → Made payload.now (S.left input.old) (S.left input.new) (K.written output.old) (K.written output.new) }

    // 1, 3, 7: nothing was written.
    ensures unwritten { (result ≡ 1) ⊎ (result ≡ 3) ⊎ (result ≡ 7) → output.new ≡ output.old }

    // 3: exactly where the source failed; the line that says so was written to `errors`.
    ensures read { result ≡ 3 → Rose (S.faults input.old) (S.faults input.new) }
    ensures no_read { result ≢ 3 → S.faults input.new ≡ S.faults input.old }
    ensures read_line { result ≡ 3 → WritesLine (codes "stop 3 read\n")
        (E.written errors.old) (E.written errors.new) (E.faults errors.old) (E.faults errors.new) }

    // 4: exactly where the sink failed; a prefix of the text was written and nothing else.
    ensures write { result ≡ 4 → Rose (K.faults output.old) (K.faults output.new) }
    ensures no_write { result ≢ 4 → K.faults output.new ≡ K.faults output.old }
    ensures part { result ≡ 4
        → MadeInPart payload.now (S.left input.old) (S.left input.new) (K.written output.old) (K.written output.new) }

    // 7: what was read has a first fault; only the line that says so was written, to `errors`.
    ensures refused { result ≡ 7 → Refused payload.now (S.left input.old) (S.left input.new)
        (E.written errors.old) (E.written errors.new) (E.faults errors.old) (E.faults errors.new) }

    // 0, 1, 4: nothing is written to `errors`.
    ensures quiet { (result ≡ 0) ⊎ (result ≡ 1) ⊎ (result ≡ 4) → errors.new ≡ errors.old }

    // An input without a fault gives 0, and one with a fault gives 7, where memory is left and nothing failed.
    ensures completes { IsMade payload.now (S.left input.old)
        → ¬ Rose (S.faults input.old) (S.faults input.new) → ¬ Rose (K.faults output.old) (K.faults output.new)
        → (result ≡ 0) ⊎ (result ≡ 1) }
    ensures refuses { IsNotMade payload.now (S.left input.old)
        → ¬ Rose (S.faults input.old) (S.faults input.new)
        → (result ≡ 7) ⊎ (result ≡ 1) }
    ensures only { (result ≡ 0) ⊎ (result ≡ 1) ⊎ (result ≡ 3) ⊎ (result ≡ 4) ⊎ (result ≡ 7) }
{
    question_is_asked();
    match make_input(alloc, payload, input) {
        Ok(text) => give(output, &text),
        Err(fault) => tell(alloc, errors, fault),
    }
}
