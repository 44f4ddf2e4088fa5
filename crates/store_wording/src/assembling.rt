//! What a line becomes that may ask for a request.
ghost use Rattle.std.specs.Prelude.{◌≡◌, IfOk, option_map};
ghost use Rattle.store_text_defs.specs.Filters as plain;
ghost use Rattle.store_text_defs.specs.Filters.{becomes};
ghost use Rattle.store_text_defs.specs.declared.Filter.TheVariants as filters;

use crate::requests::{asks, request_in, submit_line};
use rp_base::NoMemory;
use std::alloc::Global;

/// The line with its line feed.
///
/// # Errors
/// [`NoMemory`] where room is refused.
pub fn ended(alloc: Global, line: &[u8]) -> Result<Vec<u8>, NoMemory>
    ensures { IfOk result (λ bytes. bytes.items ≡ plain.ended line.now) }
{
    let mut bytes = line.to_vec(alloc)?;
    bytes.push(b'\n')?;
    Ok(bytes)
}

/// What a line, given without its line feed, is assembled to. None exactly where it asks for a request, and is none.
///
/// # Errors
/// [`NoMemory`] where room is refused.
pub fn assembled(alloc: Global, line: &[u8]) -> Result<Option<Vec<u8>>, NoMemory>
    ensures { IfOk result (λ made. option_map (λ bytes. bytes.items) made ≡ becomes filters.Assemble line.now) }
{
    if !asks(line) {
        return Ok(Some(ended(alloc, line)?));
    }
    match request_in(alloc, line)? {
        Some(request) => Ok(Some(submit_line(alloc, &request)?)),
        None => Ok(None),
    }
}
