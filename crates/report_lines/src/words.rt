//! A line is written word by word.
ghost use Rattle.std.specs.Prelude.{◌≡◌, ◌++◌, ◌∷◌, [], OnOk};
ghost use Rattle.std.specs.Fmt.{decimal};
ghost use Rattle.text_defs.specs.Words.{space, line_feed};

use rp_base::NoMemory;
use text_codec::push_number;

/// A space, and a number as the next word.
pub(crate) fn push_number_word(out: &mut Vec<u8>, n: u64) -> Result<(), NoMemory>
    ensures { OnOk result (out.new.items ≡ out.old.items ++ space ∷ decimal n) }
{
    out.push(b' ')?;
    push_number(out, n)
}

/// A space, and bytes as the next word.
pub(crate) fn push_word(out: &mut Vec<u8>, word: &[u8]) -> Result<(), NoMemory>
    ensures { OnOk result (out.new.items ≡ out.old.items ++ space ∷ word.now) }
{
    out.push(b' ')?;
    out.extend_from_slice(word)?;
    Ok(())
}

/// The line feed.
pub(crate) fn end_line(out: &mut Vec<u8>) -> Result<(), NoMemory>
    ensures { OnOk result (out.new.items ≡ out.old.items ++ line_feed ∷ []) }
{
    out.push(b'\n')?;
    Ok(())
}
