//! Why nothing is made: the status, and the line that says so.
ghost use Rattle.std.specs.Prelude.{◌≡◌, ◌++◌, ◌∷◌, [], codes, IfOk, OnOk, option_map};
ghost use Rattle.std.specs.Fmt.{decimal};
ghost use Rattle.text_defs.specs.Words.{line_text, space};
ghost use Rattle.rp_base.specs.Streams.{WritesLine};
ghost use Rattle.kit_reading.specs.Faults.{fault_of};
ghost use Rattle.store_questions.specs.Stops.{EndsByFault, EndsByKitFault, stop_text};

use kit_reading::{FrontFault, KitFault};
use rp_base::{NoMemory, Sink, write_all};
use std::alloc::Global;
use text_codec::push_number;

// A space, and a number as the next word.
fn push_count(out: &mut Vec<u8>, n: u64) -> Result<(), NoMemory>
    ensures { OnOk result (out.new.items ≡ out.old.items ++ space ∷ decimal n) }
{
    out.push(b' ')?;
    push_number(out, n)
}

// The line of a fault: its word, and the number of the line that has it.
#[tactic(auto, using(crate::proofs::Written::stop_written))]
fn stop_line(alloc: Global, word: &[u8], line: usize) -> Result<Vec<u8>, NoMemory>
    ensures { IfOk result (λ text. text.items ≡ line_text (codes "stop" ∷ decimal 7 ∷ word.now ∷ decimal line ∷ [])) }
{
    let mut text = b"stop 7 ".to_vec(alloc)?;
    text.extend_from_slice(word)?;
    push_count(&mut text, line as u64)?;
    text.push(b'\n')?;
    Ok(text)
}

// The line of a fault; None where it is want of memory.
fn fault_line(alloc: Global, fault: KitFault) -> Result<Option<Vec<u8>>, NoMemory>
    ensures { IfOk result (λ line. option_map (λ text. text.items) line ≡ option_map stop_text (fault_of fault)) }
{
    match fault {
        KitFault::Line { line } => Ok(Some(stop_line(alloc, b"line", line)?)),
        KitFault::Repeated { line } => Ok(Some(stop_line(alloc, b"repeated", line)?)),
        KitFault::Missing { line } => Ok(Some(stop_line(alloc, b"missing", line)?)),
        KitFault::KeyMismatch { line, .. } => Ok(Some(stop_line(alloc, b"keymismatch", line)?)),
        KitFault::NoMemory => Ok(None),
    }
}

// Writes a line, or a prefix of it where a write fails: a fault is no more than that.
fn say<E: Sink>(errors: &mut E, line: &[u8])
    ensures { WritesLine line.now (E.written errors.old) (E.written errors.new) (E.faults errors.old) (E.faults errors.new) }
{
    let _ = write_all(errors, line);
}

fn tell_fault<E: Sink>(alloc: Global, errors: &mut E, fault: KitFault) -> u8
    ensures { EndsByKitFault (E.written errors.old) (E.written errors.new) (E.faults errors.old) (E.faults errors.new) (errors.new ≡ errors.old)
        (fault_of fault) result }
{
    let Ok(Some(line)) = fault_line(alloc, fault) else {
        return 1;
    };
    say(errors, &line);
    7
}

/// Writes the line that says why nothing is made, where there is one and memory for it, and answers the status.
pub(crate) fn tell<E: Sink>(alloc: Global, errors: &mut E, fault: FrontFault) -> u8
    ensures { EndsByFault (E.written errors.old) (E.written errors.new) (E.faults errors.old) (E.faults errors.new) (errors.new ≡ errors.old)
        fault result }
{
    match fault {
        FrontFault::Read => {
            say(errors, b"stop 3 read\n");
            3
        }
        FrontFault::Kit(fault) => tell_fault(alloc, errors, fault),
    }
}
