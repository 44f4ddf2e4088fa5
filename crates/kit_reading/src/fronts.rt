//! A kit at the front of an input, line by line up to the line `go`.
ghost use Rattle.std.specs.Prelude.{◌≡◌, ◌⊎◌, IfErr, IfOk, IfSome, IsErrOf, Ok, OnOk};
ghost use Rattle.byte_defs.specs.Reads.{Makes};
ghost use Rattle.rp_base.specs.Causes.{Rose};
ghost use Rattle.kit_defs.specs.Kits as plain_kits;
ghost use Rattle.kit_defs.specs.Kits.{IsKit};
ghost use Rattle.kit_defs.specs.KitReading as plain;
ghost use Rattle.kit_reading.specs.declared.faults.KitFault.TheVariants as faults;
ghost use Rattle.kit_reading.specs.Faults.{fault_of};
ghost use Rattle.kit_reading.specs.Fronts.{Begins, HasFault, LineTaken, NoLine, front_fault, of_input, of_kit};

use crate::faults::KitFault;
use crate::reading::finish;
use crate::taking::{MOST_LINE_BYTES, take_line};
use kit_draft::Draft;
use kit_file::Kit;
use line_input::{InputFault, Lines, Next, Source};
use rp_base::NoMemory;
use std::alloc::Global;

/// A kit that was read from the front of an input.
#[derive(Drop)]
pub struct Front {
    pub kit: Kit,

    /// The number of the line `go`, where lines are counted from 1.
    pub go: usize,
}

/// Why no kit was read from the front of an input.
#[derive(Clone, Copy, Debug, PartialEq, Eq)]
pub enum FrontFault {
    /// A read of the input failed.
    Read,

    /// The lines of the input have this fault, or memory ran out.
    Kit(KitFault),
}

impl From<InputFault> for FrontFault {
    ghost from_gives = { λ fault e. e ≡ of_input fault };

    fn from(fault: InputFault) -> FrontFault {
        match fault {
            InputFault::Read => FrontFault::Read,
            InputFault::NoMemory => FrontFault::Kit(KitFault::NoMemory),
        }
    }
}

impl From<KitFault> for FrontFault {
    ghost from_gives = { λ fault e. e ≡ of_kit fault };

    fn from(fault: KitFault) -> FrontFault {
        FrontFault::Kit(fault)
    }
}

impl From<NoMemory> for FrontFault {
    ghost from_gives = { λ _ e. e ≡ of_kit faults.NoMemory };

    fn from(_refused: NoMemory) -> FrontFault {
        FrontFault::Kit(KitFault::NoMemory)
    }
}

// Takes the next line, which has this number.
fn next_line<S: Source>(lines: &mut Lines, input: &mut S, number: usize) -> Result<(), FrontFault>
    ensures taken { OnOk result (LineTaken (S.left input.old) (S.left input.new) lines.old.ahead lines.new) }
    ensures none { IfErr result (λ e. IfSome (front_fault e)
        (λ f. (f ≡ plain.Line number) × NoLine (S.left input.old) (S.left input.new) lines.old.ahead)) }
    ensures failed { IsErrOf result FrontFault.Read → Rose (S.faults input.old) (S.faults input.new) }
    ensures steady { IsErrOf result FrontFault.Read ⊎ (S.faults input.new ≡ S.faults input.old) }
{
    match lines.read(input, MOST_LINE_BYTES)? {
        Next::Line => Ok(()),
        Next::Broken => Err(FrontFault::Kit(KitFault::Line { line: number })),
        Next::End => Err(FrontFault::Kit(KitFault::Line { line: number })),
    }
}

// The kit of the lines before the line `go`, which has this number.
fn end(alloc: Global, go: usize, draft: Draft) -> Result<Kit, KitFault>
    requires { (kit : plain_kits.Kit) → plain.finish go draft ≡ Ok kit → IsKit kit }
    ensures { Makes fault_of (λ kit. kit) result (plain.finish go draft) }
{
    let parts = finish(go, draft)?;
    Ok(Kit::new(alloc, parts)?)
}

/// The kit at the front of an input, up to and with the line `go`. The lines after it are still to be read.
///
/// # Errors
/// [`FrontFault::Kit`] with the first fault of the lines in their order, where the input's end before the line `go` is a line that is none;
/// or with [`KitFault::NoMemory`]. [`FrontFault::Read`] only where a read failed.
pub fn read_front<S: Source>(
    alloc: Global,
    lines: &mut Lines,
    input: &mut S,
) -> Result<Front, FrontFault>
    ensures found { IfOk result (λ front. Begins (S.left input.old) (S.left input.new) lines.old.ahead front.kit front.go lines.new.ahead) }
    ensures kit { IfOk result (λ front. IsKit front.kit) }
    ensures fault { IfErr result (λ e. IfSome (front_fault e) (HasFault (S.left input.old) (S.left input.new) lines.old.ahead)) }
    ensures failed { IsErrOf result FrontFault.Read → Rose (S.faults input.old) (S.faults input.new) }
    ensures steady { IsErrOf result FrontFault.Read ⊎ (S.faults input.new ≡ S.faults input.old) }
{
    let mut draft = Draft::new(alloc)?;
    'lines: for number in 1..usize::MAX {
        next_line(lines, input, number)?;
        if lines.line() == b"go".as_slice() {
            let kit = end(alloc, number, draft)?;
            return Ok(Front { kit, go: number });
        }
        take_line(&mut draft, alloc, number, lines.line())?;
    }
    Err(FrontFault::Kit(KitFault::NoMemory))
}
