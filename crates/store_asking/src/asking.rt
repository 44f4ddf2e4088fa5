//! The answer to an input, and the word itself.
ghost use Rattle.std.specs.Prelude.{◌≡◌, ◌≢◌, ◌⊎◌, ◌++◌, ◌∷◌, codes, IfErr, IfOk, IfSome, IsErrOf, OnOk, Err, Ok, option_map};
ghost use Rattle.std.specs.Io.KnownBytes.{Appends, Keeps};
ghost use Rattle.std.specs.Fmt.{decimal};
ghost use Rattle.hex.specs.Hex.{encode_lower};
ghost use Rattle.text_defs.specs.Words.{space};
ghost use Rattle.rp_base.specs.Causes.{Rose};
ghost use Rattle.rp_base.specs.Streams.{AppendsPrefix, WritesLine};
ghost use Rattle.line_input.specs.Places.{Ends, Settles};
ghost use Rattle.kit_reading.specs.Fronts.{front_fault};
ghost use Rattle.store_defs.specs.Asking.{answer_text, ask_output, asked};
ghost use Rattle.vote_client.specs.Views.{content as content_of};
ghost use Rattle.store_asking.specs.Places.{found};
ghost use Rattle.store_asking.specs.Stops.{line_of, status_of};
ghost use Rattle.store_asking.specs.Answers.{Answered, AnsweredInPart, Asks, AsksNothing, Refused};

use crate::counting::read_replies;
use crate::question::{number_behind, read_question};
use crate::stops::{push_count, status, stop_line};
use kit_reading::{FrontFault, Lines, read_front};
use rp_base::{NoMemory, Sink, Source, write_all};
use std::alloc::Global;
use text_codec::push_hex;
use vote_client::{Content, Vote};

// The words of a content after the number of the view.
#[tactic(auto, using(crate::proofs::Written::content_written))]
fn push_content(out: &mut Vec<u8>, content: &Content<'_>) -> Result<(), NoMemory>
    ensures { OnOk result (out.new.items ≡ out.old.items
        ++ (space ∷ decimal content.now.place ++ (space ∷ decimal content.now.position ++ space ∷ encode_lower content.now.answer.now))) }
{
    push_count(out, content.place.into())?;
    push_count(out, content.position.into())?;
    out.push(b' ')?;
    push_hex(out, content.answer)
}

// The line of what was answered in the view of this number.
#[tactic(auto, using(crate::proofs::Written::answer_written))]
fn content_line(alloc: Global, view: u16, content: &Content<'_>) -> Result<Vec<u8>, NoMemory>
    ensures { IfOk result (λ text. text.items ≡ answer_text view (Some (content_of content.now))) }
{
    let mut text = b"answer".to_vec(alloc)?;
    push_count(&mut text, view.into())?;
    push_content(&mut text, content)?;
    text.push(b'\n')?;
    Ok(text)
}

// The line of what more than f members of the view of this number answered, where they did.
fn answer_line(alloc: Global, view: u16, content: Option<Content<'_>>) -> Result<Vec<u8>, NoMemory>
    ensures { IfOk result (λ text. text.items ≡ answer_text view (option_map content_of content.entry)) }
{
    match content {
        Some(content) => content_line(alloc, view, &content),
        None => Ok(b"answer none\n".to_vec(alloc)?),
    }
}

// What an input answers to a payload, in a line.
fn answer_input<S: Source>(
    alloc: Global,
    payload: &[u8],
    input: &mut S,
) -> Result<Vec<u8>, FrontFault>
    ensures answers { IfOk result (λ text. Ends (ask_output payload.now) (S.left input.old) (S.left input.new) (text.items, 0)) }
    ensures refused { IfErr result (λ e. IfSome (front_fault e) (λ f. Settles asked (S.left input.old) (S.left input.new) (Err f))) }
    ensures failed { IsErrOf result FrontFault.Read → Rose (S.faults input.old) (S.faults input.new) }
    ensures steady { IsErrOf result FrontFault.Read ⊎ (S.faults input.new ≡ S.faults input.old) }
{
    let mut lines = Lines::new(alloc);
    let front = read_front(alloc, &mut lines, input)?;
    let first = number_behind(front.go)?;
    let question = read_question(alloc, &front.kit, first, &mut lines, input)?;
    let number = question.view.number();
    let nobody = Vote::new(alloc, question.view, payload)?;
    let next = number_behind(question.line)?;
    let vote = read_replies(
        alloc,
        &front.kit,
        &question.keys,
        nobody,
        next,
        &mut lines,
        input,
    )?;
    Ok(answer_line(alloc, number, vote.accepted())?)
}

// Writes a line, and answers the status: 0, or 4 where a write failed.
fn give<K: Sink>(output: &mut K, line: &[u8]) -> u8
    ensures done { result ≡ 0 → Appends (K.written output.old) (K.written output.new) line.now }
    ensures steady { result ≡ 0 → K.faults output.new ≡ K.faults output.old }
    ensures failed { result ≡ 4 → Rose (K.faults output.old) (K.faults output.new) }
    ensures part { result ≡ 4 → AppendsPrefix (K.written output.old) (K.written output.new) line.now }
    ensures only { (result ≡ 0) ⊎ (result ≡ 4) }
{
    match write_all(output, line) {
        Ok(()) => 0,
        Err(_) => 4,
    }
}

// Writes the line that says why there is no answer, and answers its status, or 1 where there is no memory for the line. A fault meanwhile
// leaves the status as it is.
fn tell<K: Sink>(alloc: Global, output: &mut K, fault: FrontFault) -> u8
    ensures silent { result ≡ 1 → Keeps (K.written output.old) (K.written output.new) }
    ensures status { result ≢ 1 → result ≡ status_of fault }
    ensures line { result ≢ 1 → WritesLine (line_of fault)
        (K.written output.old) (K.written output.new) (K.faults output.old) (K.faults output.new) }
{
    let Ok(line) = stop_line(alloc, fault) else {
        return 1;
    };
    let _ = write_all(output, &line);
    status(fault)
}

/// The word `ask`: reads a kit up to the line `go`, and after it reply keys, a view and replies to the end of the input. It writes which
/// answer to the payload more than f of the view's members gave, in replies that are valid under these keys, or that there is none; and
/// answers the status that the program ends with. It is written once all is read.
///
/// | Status | Written | Comes |
/// |---|---|---|
/// | 0 | `answer X K I HEX`, or `answer none` | the input was read to its end |
/// | 1 | nothing | no memory is left |
/// | 3 | `stop 3 read` | only where a read failed |
/// | 4 | a prefix of the line | only where a write failed |
/// | 7 | `stop 7 ..` with the number of a line, counted from 1 | exactly where the line has this fault (docs/FORMATS.md, «The store») |
pub fn ask<S: Source, K: Sink>(alloc: Global, payload: &[u8], input: &mut S, output: &mut K) -> u8
    // 0: the input was read to its end, and the whole answer to it was written, and nothing else.
    ensures answered { result ≡ 0
        → Answered payload.now (S.left input.old) (S.left input.new) (K.written output.old) (K.written output.new) }
    ensures steady { result ≡ 0 → (S.faults input.new ≡ S.faults input.old) × (K.faults output.new ≡ K.faults output.old) }

    // 1: no memory is left; nothing was written.
    ensures silent { result ≡ 1 → Keeps (K.written output.old) (K.written output.new) }

    // 3: only where the source failed; only the line that says so was written.
    ensures read { result ≡ 3 → Rose (S.faults input.old) (S.faults input.new) }
    ensures read_line { result ≡ 3 → WritesLine (codes "stop 3 read\n")
        (K.written output.old) (K.written output.new) (K.faults output.old) (K.faults output.new) }

    // 4: only where the sink failed; a prefix of the answer was written.
    ensures failed { result ≡ 4 → Rose (K.faults output.old) (K.faults output.new) }
    ensures part { result ≡ 4
        → AnsweredInPart payload.now (S.left input.old) (S.left input.new) (K.written output.old) (K.written output.new) }

    // 7: only where the input has a fault; only the line that says so was written.
    ensures stops { result ≡ 7 → Refused (S.left input.old) (S.left input.new)
        (K.written output.old) (K.written output.new) (K.faults output.old) (K.faults output.new) }

    // 4, 7: no read failed.
    ensures whole { (result ≡ 4) ⊎ (result ≡ 7) → S.faults input.new ≡ S.faults input.old }

    // An input that has a question gives 0, and one that has a fault gives 7, where memory is left and nothing failed.
    ensures completes { Asks (S.left input.old)
        → ¬ Rose (S.faults input.old) (S.faults input.new) → ¬ Rose (K.faults output.old) (K.faults output.new)
        → (result ≡ 0) ⊎ (result ≡ 1) }
    ensures refuses { AsksNothing (S.left input.old)
        → ¬ Rose (S.faults input.old) (S.faults input.new)
        → (result ≡ 7) ⊎ (result ≡ 1) }
    ensures only { (result ≡ 0) ⊎ (result ≡ 1) ⊎ (result ≡ 3) ⊎ (result ≡ 4) ⊎ (result ≡ 7) }
{
    match answer_input(alloc, payload, input) {
        Ok(line) => give(output, &line),
        Err(fault) => tell(alloc, output, fault),
    }
}
