//! Why there is no answer: the status, and the line that says so.
ghost use Rattle.std.specs.Prelude.{◌≡◌, ◌++◌, ◌∷◌, [], codes, IfOk, OnOk};
ghost use Rattle.std.specs.Fmt.{decimal};
ghost use Rattle.text_defs.specs.Words.{line_text, space};
ghost use Rattle.store_asking.specs.Stops.{line_of, status_of};

use kit_reading::{FrontFault, KitFault};
use rp_base::NoMemory;
use std::alloc::Global;
use text_codec::push_number;

/// A space, and a number as the next word.
pub(crate) fn push_count(out: &mut Vec<u8>, n: u64) -> Result<(), NoMemory>
    ensures { OnOk result (out.new.items ≡ out.old.items ++ space ∷ decimal n) }
{
    out.push(b' ')?;
    push_number(out, n)
}

// The line of a fault: its word, and the number of the line that has it.
#[tactic(auto, using(crate::proofs::Written::stop_written))]
fn fault_line(alloc: Global, word: &[u8], line: usize) -> Result<Vec<u8>, NoMemory>
    ensures { IfOk result (λ text. text.items ≡ line_text (codes "stop" ∷ decimal 7 ∷ word.now ∷ decimal line ∷ [])) }
{
    let mut text = b"stop 7 ".to_vec(alloc)?;
    text.extend_from_slice(word)?;
    push_count(&mut text, line as u64)?;
    text.push(b'\n')?;
    Ok(text)
}

fn kit_line(alloc: Global, fault: KitFault) -> Result<Vec<u8>, NoMemory>
    ensures { IfOk result (λ text. text.items ≡ line_of (FrontFault.Kit fault)) }
{
    match fault {
        KitFault::Line { line } => fault_line(alloc, b"line", line),
        KitFault::Repeated { line } => fault_line(alloc, b"repeated", line),
        KitFault::Missing { line } => fault_line(alloc, b"missing", line),
        KitFault::KeyMismatch { line, .. } => fault_line(alloc, b"keymismatch", line),
        KitFault::NoMemory => Ok(Vec::new(alloc)),
    }
}

/// The status that the program ends with.
pub(crate) fn status(fault: FrontFault) -> u8
    ensures { result ≡ status_of fault }
{
    match fault {
        FrontFault::Read => 3,
        FrontFault::Kit(KitFault::NoMemory) => 1,
        FrontFault::Kit(_) => 7,
    }
}

/// The line that says so, empty where none is written.
///
/// # Errors
/// [`NoMemory`] where room for it is refused.
pub(crate) fn stop_line(alloc: Global, fault: FrontFault) -> Result<Vec<u8>, NoMemory>
    ensures { IfOk result (λ text. text.items ≡ line_of fault) }
{
    match fault {
        FrontFault::Read => Ok(b"stop 3 read\n".to_vec(alloc)?),
        FrontFault::Kit(fault) => kit_line(alloc, fault),
    }
}
