//! An audit of an input.
ghost use Rattle.std.specs.Prelude.{IfSome};
ghost use Rattle.kit_defs.specs.Kits.{IsKit};

use audit_core::audit;
use audit_input::{Input, Kit, Source, read_input};
use rp_base::PidSet;
use std::alloc::Global;

/// The input that a source gives to its end; None where it is none, or there is no memory.
pub(crate) fn read<S: Source>(alloc: Global, source: &mut S) -> Option<Input>
    ensures { IfSome result (λ input. IsKit input.kit) }
{
    match read_input(alloc, source) {
        Ok(input) => Some(input),
        Err(_) => None,
    }
}

fn members(kit: &Kit) -> PidSet {
    let mut all = PidSet::new();
    for member in kit.genesis() {
        all.insert(*member);
    }
    all
}

/// Whether an audit finds that the members were honest and nobody is convicted; None where it finds nothing.
pub(crate) fn is_clean(alloc: Global, input: &Input) -> Option<bool>
    requires { IsKit input.now.kit }
{
    match audit(alloc, &input.kit, members(&input.kit), &input.journals) {
        Ok(found) => Some(found.honest() && found.convicted().is_empty()),
        Err(_) => None,
    }
}
