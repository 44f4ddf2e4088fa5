ghost use Rattle.std.specs.Prelude.{◌≡◌, ◌≢◌, ◌↔◌, ◌⊎◌, ℕ, List, codes};
ghost use Rattle.rp_base.specs.Causes.{Rose};
ghost use Rattle.rp_base.specs.Streams.{WritesLine};
ghost use Rattle.store_text_defs.specs.declared.Filter.{Filter};
ghost use Rattle.store_questions.specs.Running as questions;
ghost use Rattle.store_questions.specs.Running.{IsMade, IsNotMade, Made};
ghost use Rattle.store_cli.specs.Commands.{AskAny, AskSome, Asks, AsksFor};
ghost use Rattle.store_cli.specs.Messages as reported;
ghost use Rattle.store_cli.specs.Messages.{Ends, usage};
ghost use Rattle.store_cli.specs.Running.{Done, HasFault, HasOutput, MadeInPart, RefusedAndSays, SomeMade};

use crate::commands::{asks_question, filter_of};
use crate::filtering::run;
use crate::stops::{Stop, fault_line};
use command_line::payload_in;
use rp_base::{Sink, Source, write_all};
use std::alloc::Global;
use store_questions::write_question;
use store_text_laws::one_outcome;

// Statuses.
const MEMORY: u8 = 1;

const WORDS: u8 = 2;

const READ: u8 = 3;

const WRITE: u8 = 4;

const FAULTY: u8 = 7;

const USAGE: &[u8] =
    b"assemble     requests in words become lines that submit them: 0 put 7 \"a\" \"b\"
tell         lines about a store are followed by what they say
ask HEX      a kit and lines that nodes wrote become what rampart ask HEX is to read
stop 2 words
";

// Writes a line, or a prefix of it where a write fails: a fault is no more than that.
fn say<E: Sink>(errors: &mut E, line: &[u8])
    ensures { WritesLine line.now (E.written errors.old) (E.written errors.new) (E.faults errors.old) (E.faults errors.new) }
{
    let _ = write_all(errors, line);
}

// Tells the number of the first faulty line, and answers the status: 1 where there is no memory for the line that says so.
fn tell_fault<E: Sink>(alloc: Global, errors: &mut E, number: u64) -> u8
    ensures { ((result ≡ 7) × WritesLine (reported.fault_line number) (E.written errors.old) (E.written errors.new) (E.faults errors.old) (E.faults errors.new))
        ⊎ ((result ≡ 1) × (errors.new ≡ errors.old)) }
{
    let Ok(line) = fault_line(alloc, number) else {
        return MEMORY;
    };
    say(errors, &line);
    FAULTY
}

// Tells why a run stops, where a line says so, and answers the status.
fn tell<E: Sink>(alloc: Global, errors: &mut E, stop: Stop) -> u8
    ensures { Ends (E.written errors.old) (E.written errors.new) (E.faults errors.old) (E.faults errors.new) (errors.new ≡ errors.old) stop result }
{
    match stop {
        Stop::NoMemory => MEMORY,
        Stop::Read => {
            say(errors, b"stop 3 read\n");
            READ
        }
        Stop::Write => WRITE,
        Stop::Faulty(number) => tell_fault(alloc, errors, number),
    }
}

// Makes what `rampart ask` is to read, where the words ask for it; else it says which words there are.
fn ask<S: Source, K: Sink, E: Sink>(
    alloc: Global,
    words: &[String],
    input: &mut S,
    output: &mut K,
    errors: &mut E,
) -> u8
    ensures asked { (payload : List ℕ) → AsksFor words.now payload → result ≡ 0
        → Made payload (S.left input.old) (S.left input.new) (K.written output.old) (K.written output.new) }
    ensures unwritten { AskSome words.now → (result ≡ 1) ⊎ (result ≡ 3) ⊎ (result ≡ 7) → output.new ≡ output.old }
    ensures read { result ≡ 3 → Rose (S.faults input.old) (S.faults input.new) }
    ensures no_read { result ≢ 3 → S.faults input.new ≡ S.faults input.old }
    ensures read_line { result ≡ 3 → WritesLine (codes "stop 3 read\n")
        (E.written errors.old) (E.written errors.new) (E.faults errors.old) (E.faults errors.new) }
    ensures words { (result ≡ 2) ↔ (¬ AskSome words.now) }
    ensures unread { result ≡ 2 → (input.new ≡ input.old) × (output.new ≡ output.old) }
    ensures words_line { result ≡ 2 → WritesLine usage
        (E.written errors.old) (E.written errors.new) (E.faults errors.old) (E.faults errors.new) }
    ensures write { result ≡ 4 → Rose (K.faults output.old) (K.faults output.new) }
    ensures no_write { result ≢ 4 → K.faults output.new ≡ K.faults output.old }
    ensures quiet { (result ≡ 0) ⊎ (result ≡ 1) ⊎ (result ≡ 4) → errors.new ≡ errors.old }
    ensures asked_in_part { (payload : List ℕ) → AsksFor words.now payload → result ≡ 4
        → questions.MadeInPart payload (S.left input.old) (S.left input.new) (K.written output.old) (K.written output.new) }
    ensures faulty { (payload : List ℕ) → AsksFor words.now payload → result ≡ 7
        → questions.Refused payload (S.left input.old) (S.left input.new)
        (E.written errors.old) (E.written errors.new) (E.faults errors.old) (E.faults errors.new) }
    ensures asks { (payload : List ℕ) → AsksFor words.now payload → IsMade payload (S.left input.old)
        → ¬ Rose (S.faults input.old) (S.faults input.new) → ¬ Rose (K.faults output.old) (K.faults output.new)
        → (result ≡ 0) ⊎ (result ≡ 1) }
    ensures asks_not { (payload : List ℕ) → AsksFor words.now payload → IsNotMade payload (S.left input.old)
        → ¬ Rose (S.faults input.old) (S.faults input.new)
        → (result ≡ 7) ⊎ (result ≡ 1) }
    ensures only { (result ≡ 0) ⊎ (result ≡ 1) ⊎ (result ≡ 2) ⊎ (result ≡ 3) ⊎ (result ≡ 4) ⊎ (result ≡ 7) }
{
    if !asks_question(words) {
        say(errors, USAGE);
        return WORDS;
    }
    let Ok(payload) = payload_in(alloc, words) else {
        return MEMORY;
    };
    write_question(alloc, &payload, input, output, errors)
}

/// The whole program: `words` are those behind the program's name, and the answer is the status that it ends with. What stops it is told
/// on standard error, `errors`. Each line is written as what it becomes before the next one is read, so that it stands between programs that
/// answer each other; but by `ask` all is read first.
pub fn store<S: Source, K: Sink, E: Sink>(
    alloc: Global,
    words: &[String],
    input: &mut S,
    output: &mut K,
    errors: &mut E,
) -> u8
    // 0: the input was read to its end and has no faulty line, and what becomes of its lines was written, and nothing else.
    ensures done { (filter : Filter) → Asks words.now filter → result ≡ 0
        → Done filter (S.left input.old) (S.left input.new) (K.written output.old) (K.written output.new) }

    // ask, 0: the input was read to its end and has no fault, and what `rampart ask` is to read was written, and nothing else: it asks the
    // question that the input's lines make.
    ensures asked { (payload : List ℕ) → AsksFor words.now payload → result ≡ 0
        → Made payload (S.left input.old) (S.left input.new) (K.written output.old) (K.written output.new) }

    // ask, 1, 3 and 7: nothing was written.
    ensures unwritten { AskSome words.now → (result ≡ 1) ⊎ (result ≡ 3) ⊎ (result ≡ 7) → output.new ≡ output.old }

    // 1: no memory is left, or 2^64 - 2 lines were read; 3: exactly where the source failed. What some lines from the front become was written,
    // and nothing else.
    ensures some { (filter : Filter) → Asks words.now filter → (result ≡ 1) ⊎ (result ≡ 3)
        → SomeMade filter (S.left input.old) (S.left input.new) (K.written output.old) (K.written output.new) }
    ensures read { result ≡ 3 → Rose (S.faults input.old) (S.faults input.new) }
    ensures no_read { result ≢ 3 → S.faults input.new ≡ S.faults input.old }
    ensures read_line { result ≡ 3 → WritesLine (codes "stop 3 read\n")
        (E.written errors.old) (E.written errors.new) (E.faults errors.old) (E.faults errors.new) }

    // 2: exactly where the words are no command; nothing was read, and nothing written but which words there are, on standard error.
    ensures words { (result ≡ 2) ↔ (¬ AskAny words.now) }
    ensures unread { result ≡ 2 → (input.new ≡ input.old) × (output.new ≡ output.old) }
    ensures words_line { result ≡ 2 → WritesLine usage
        (E.written errors.old) (E.written errors.new) (E.faults errors.old) (E.faults errors.new) }

    // 4: exactly where the sink failed; what some lines from the front become was written, and of the next line a prefix, and nothing else.
    ensures write { result ≡ 4 → Rose (K.faults output.old) (K.faults output.new) }
    ensures no_write { result ≢ 4 → K.faults output.new ≡ K.faults output.old }
    ensures part { (filter : Filter) → Asks words.now filter → result ≡ 4
        → MadeInPart filter (S.left input.old) (S.left input.new) (K.written output.old) (K.written output.new) }

    // ask, 4: a prefix of what `rampart ask` is to read was written, and nothing else.
    ensures asked_in_part { (payload : List ℕ) → AsksFor words.now payload → result ≡ 4
        → questions.MadeInPart payload (S.left input.old) (S.left input.new) (K.written output.old) (K.written output.new) }

    // 7: a line is faulty, the first such one; what becomes of those before it was written and nothing else, and the line that says which one,
    // on standard error.
    ensures refused { (filter : Filter) → Asks words.now filter → result ≡ 7
        → RefusedAndSays filter (S.left input.old) (S.left input.new) (K.written output.old) (K.written output.new)
        (E.written errors.old) (E.written errors.new) (E.faults errors.old) (E.faults errors.new) }

    // ask, 7: what was read has a fault, and the line that says the first one was written on standard error.
    ensures faulty { (payload : List ℕ) → AsksFor words.now payload → result ≡ 7
        → questions.Refused payload (S.left input.old) (S.left input.new)
        (E.written errors.old) (E.written errors.new) (E.faults errors.old) (E.faults errors.new) }

    // 0, 1, 4: nothing is written on standard error.
    ensures quiet { (result ≡ 0) ⊎ (result ≡ 1) ⊎ (result ≡ 4) → errors.new ≡ errors.old }

    // An input without a faulty line gives 0, and one with such a line 7, where memory is left and nothing failed.
    ensures completes { (filter : Filter) → Asks words.now filter → HasOutput filter (S.left input.old)
        → ¬ Rose (S.faults input.old) (S.faults input.new) → ¬ Rose (K.faults output.old) (K.faults output.new)
        → (result ≡ 0) ⊎ (result ≡ 1) }
    ensures refuses { (filter : Filter) → Asks words.now filter → HasFault filter (S.left input.old)
        → ¬ Rose (S.faults input.old) (S.faults input.new) → ¬ Rose (K.faults output.old) (K.faults output.new)
        → (result ≡ 7) ⊎ (result ≡ 1) }

    // ask: an input without a fault gives 0, and one with a fault 7, where memory is left and nothing failed.
    ensures asks { (payload : List ℕ) → AsksFor words.now payload → IsMade payload (S.left input.old)
        → ¬ Rose (S.faults input.old) (S.faults input.new) → ¬ Rose (K.faults output.old) (K.faults output.new)
        → (result ≡ 0) ⊎ (result ≡ 1) }
    ensures asks_not { (payload : List ℕ) → AsksFor words.now payload → IsNotMade payload (S.left input.old)
        → ¬ Rose (S.faults input.old) (S.faults input.new)
        → (result ≡ 7) ⊎ (result ≡ 1) }

    // No other status comes.
    ensures only { (result ≡ 0) ⊎ (result ≡ 1) ⊎ (result ≡ 2) ⊎ (result ≡ 3) ⊎ (result ≡ 4) ⊎ (result ≡ 7) }
{
    let Some(filter) = filter_of(words) else {
        return ask(alloc, words, input, output, errors);
    };
    one_outcome();
    match run(alloc, filter, input, output) {
        Ok(()) => 0,
        Err(stop) => tell(alloc, errors, stop),
    }
}
