//! What a line becomes.
ghost use Rattle.std.specs.Prelude.{◌≡◌, ◌++◌, IfOk, option_map};
ghost use Rattle.store_text_defs.specs.Filters as plain;
ghost use Rattle.store_text_defs.specs.Filters.{becomes};
ghost use Rattle.store_text_defs.specs.Meanings.{meaning};

use crate::meanings::push_meaning;
use rp_base::NoMemory;
use std::alloc::Global;
use store_wording::{Filter, assembled, ended};

fn reported(alloc: Global, line: &[u8]) -> Result<Vec<u8>, NoMemory>
    ensures { IfOk result (λ bytes. bytes.items ≡ plain.ended line.now ++ meaning line.now) }
{
    let mut bytes = ended(alloc, line)?;
    push_meaning(alloc, line, &mut bytes)?;
    Ok(bytes)
}

/// What a line becomes, which is given without its line feed. None exactly where it becomes nothing: it is to be assembled, and asks for a
/// request, but is none.
///
/// # Errors
/// [`NoMemory`] where room is refused.
pub fn made_of(alloc: Global, filter: Filter, line: &[u8]) -> Result<Option<Vec<u8>>, NoMemory>
    ensures { IfOk result (λ made. option_map (λ bytes. bytes.items) made ≡ becomes filter line.now) }
{
    match filter {
        Filter::Assemble => assembled(alloc, line),
        Filter::Tell => Ok(Some(reported(alloc, line)?)),
    }
}
