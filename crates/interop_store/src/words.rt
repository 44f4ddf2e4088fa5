//! The words of an answer.
ghost use Rattle.std.specs.Prelude.{◌≡◌, ◌++◌, OnOk};
ghost use Rattle.interop_store.specs.Telling.{bytes_next, number_next};

use rp_base::NoMemory;
use text_codec::{push_byte_list, push_number};

/// A space, and a number as the next word.
pub(crate) fn push_next_number(out: &mut Vec<u8>, n: u64) -> Result<(), NoMemory>
    ensures { OnOk result (out.new.items ≡ out.old.items ++ number_next n) }
{
    out.push(b' ')?;
    push_number(out, n)
}

/// A space, and bytes as the next word.
pub(crate) fn push_next_bytes(out: &mut Vec<u8>, bytes: &[u8]) -> Result<(), NoMemory>
    ensures { OnOk result (out.new.items ≡ out.old.items ++ bytes_next bytes.now) }
{
    out.push(b' ')?;
    push_byte_list(out, bytes)
}
