//! The whole input.
ghost use Rattle.std.specs.Prelude.{◌≡◌, ◌⊎◌, ◌+◌, IfErr, IfOk, IfSome, IsErrOf, None, Ok, Err};
ghost use Rattle.rp_base.specs.Causes.{Rose};
ghost use Rattle.line_input.specs.Places.{Ends, Settles};
ghost use Rattle.kit_defs.specs.Kits.{IsKit};
ghost use Rattle.kit_reading.specs.Fronts.{front_fault};
ghost use Rattle.audit_defs.specs.Inputs.{input_of};
ghost use Rattle.audit_input.specs.Views.{input as input_seen};

use crate::journals::read_journals;
use audit_sources::Payload;
use kit_reading::{FrontFault, Kit, KitFault, read_front};
use line_input::Lines;
use rp_base::Source;
use std::alloc::Global;

/// What an audit is of.
#[derive(Drop)]
pub struct Input {
    pub kit: Kit,

    /// Any bytes, in the order of the input.
    pub journals: Vec<Payload>,
}

// The number of the line after the line of this number.
fn line_behind(line: usize) -> Result<usize, FrontFault>
    ensures next { IfOk result (λ n. n ≡ line + 1) }
    ensures only { IfErr result (λ e. front_fault e ≡ None) }
    ensures no_read { ¬ IsErrOf result FrontFault.Read }
{
    line.checked_add(1)
        .ok_or(FrontFault::Kit(KitFault::NoMemory))
}

/// Reads the input of an audit to its end. Lines are counted from 1, without the journals' bytes.
///
/// # Errors
/// [`FrontFault::Kit`] with the first fault of the lines in their order, or with [`KitFault::NoMemory`]; [`FrontFault::Read`] only where a
/// read failed.
pub fn read_input<S: Source>(alloc: Global, input: &mut S) -> Result<Input, FrontFault>
    // The input was read to its end, and this is what it says.
    ensures found { IfOk result (λ seen. Ends input_of (S.left input.old) (S.left input.new) (Ok (input_seen seen))) }
    ensures kit { IfOk result (λ seen. IsKit seen.kit) }

    // The input has this fault, whatever comes after what was read, or as it ends there.
    ensures fault { IfErr result (λ e. IfSome (front_fault e) (λ f. Settles input_of (S.left input.old) (S.left input.new) (Err f))) }
    ensures failed { IsErrOf result FrontFault.Read → Rose (S.faults input.old) (S.faults input.new) }
    ensures steady { IsErrOf result FrontFault.Read ⊎ (S.faults input.new ≡ S.faults input.old) }
{
    let mut lines = Lines::new(alloc);
    let front = read_front(alloc, &mut lines, input)?;
    let first = line_behind(front.go)?;
    let journals = read_journals(alloc, &mut lines, input, first)?;
    Ok(Input {
        kit: front.kit,
        journals,
    })
}
