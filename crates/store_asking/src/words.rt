//! The last word of a line.
ghost use Rattle.std.specs.Prelude.{◌≡◌};
ghost use Rattle.std.specs.Option.{option_copied};
ghost use Rattle.text_codec.specs.Views.{parts_left};
ghost use Rattle.store_asking.specs.Lines.{only_word};

use text_codec::Parts as Words;

/// The word that is left, where it is the only one.
pub(crate) fn last_word<'a>(mut words: Words<'a>) -> Option<&'a [u8]>
    ensures { option_copied result ≡ only_word (parts_left words.entry) }
{
    let word = words.next()?;
    if words.is_done() { Some(word) } else { None }
}
