ghost use Rattle.std.specs.Prelude.{◌≡◌, ◌==◌, ◌-◌, ◌∷◌, ◌++◌, [], if◌then◌else◌, IfOk, OnOk};
ghost use Rattle.interop_runs.specs.Calls.{kind_number, numbers_of};

use crate::calls::{Kind, Nth};
use std::alloc::{AllocError, Global};

// One more number, where the call is of this kind.
fn push_if(numbers: &mut Vec<u64>, nth: Nth, kind: Kind) -> Result<(), AllocError>
    ensures { OnOk result (numbers.new.items
        ≡ numbers.old.items ++ (if kind_number nth.kind == kind_number kind then (nth.number - 1) ∷ [] else [])) }
{
    if nth.kind.number() == kind.number() {
        numbers.push(u64::from(nth.number).saturating_sub(1))?;
    }
    Ok(())
}

/// The numbers of the calls of one kind among these, counted from 0.
pub(crate) fn numbers_of(alloc: Global, calls: &[Nth], kind: Kind) -> Result<Vec<u64>, AllocError>
    ensures { IfOk result (λ numbers. numbers.items ≡ numbers_of kind calls.now) }
{
    let mut numbers = Vec::new(alloc);
    for nth in calls {
        push_if(&mut numbers, *nth, kind)?;
    }
    Ok(numbers)
}
