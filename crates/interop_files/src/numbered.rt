ghost use Rattle.std.specs.Prelude.{◌≡◌, ◌++◌, IfOk};
ghost use Rattle.std.specs.Fmt.{decimal};

use rp_base::NoMemory;
use std::alloc::Global;
use text_codec::push_number;

/// A word, and a number after it: that of a line, or of the bytes before a fault.
pub(crate) fn numbered(alloc: Global, word: &[u8], number: usize) -> Result<Vec<u8>, NoMemory>
    ensures { IfOk result (λ reported. reported.items ≡ word.now ++ decimal number) }
{
    let mut reported = word.to_vec(alloc)?;
    push_number(&mut reported, number as u64)?;
    Ok(reported)
}
