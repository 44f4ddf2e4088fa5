ghost use Rattle.std.specs.Prelude.{◌≡◌, ℕ, List, String, IfOk};
ghost use Rattle.std.specs.declared.alloc.Global.{Global as Heap};
ghost use Rattle.interop_runs.specs.declared.outside.Outside.{Outside as Devices};
ghost use Rattle.interop_runs.specs.Questions.{question as plain};
ghost use Rattle.interop_runs.specs.Runs.{IsReportedOf};

use crate::outside::{Outside, set_up};
use crate::questions::Question;
use crate::telling::push_end;
use rp_base::NoMemory;
use std::alloc::Global;

/// The status of a run for which there is no memory.
const NO_MEMORY: u8 = 1;

/// A program: words and the outside in, a status out.
pub trait Program {
    /// What a run on these words may come to: the outside before it, the outside after it, and the status.
    ghost comes_to: { Self → List (String Heap) → Devices → Devices → ℕ → Type 0 };

    /// Runs it.
    fn run(&self, alloc: Global, words: &[String], outside: &mut Outside) -> u8
        ensures { comes_to self.now words.now outside.old outside.new result };
}

/// Runs the program as the question wants it, and writes what it came to.
///
/// # Errors
/// No memory is left, also where the program says so.
pub(crate) fn run<P: Program>(
    alloc: Global,
    program: &P,
    asked: &Question,
) -> Result<Vec<u8>, NoMemory>
    ensures { IfOk result (λ reported. IsReportedOf (P.comes_to program.now) (plain asked.now) reported.items) }
{
    let mut outside = set_up(alloc, asked)?;
    let status = program.run(alloc, &asked.words, &mut outside);
    if status == NO_MEMORY {
        return Err(NoMemory);
    }
    let mut reported = Vec::new(alloc);
    push_end(&mut reported, status, &outside, asked.coming.len())?;
    Ok(reported)
}
