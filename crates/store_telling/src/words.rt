//! How many words a line has.
ghost use Rattle.std.specs.Prelude.{◌≡◌, option_map};
ghost use Rattle.std.specs.Option.{option_copied};
ghost use Rattle.text_codec.specs.Views.{parts_left};
ghost use Rattle.store_text_defs.specs.Meanings as meanings;

use store_wording::both;
use text_codec::Parts as Words;

/// The words that are left, where they are three.
pub(crate) fn three<'a>(mut words: Words<'a>) -> Option<(&'a [u8], &'a [u8], &'a [u8])>
    ensures { option_map (λ w. (w.0.now, w.1.now, w.2.now)) result ≡ meanings.three (parts_left words.entry) }
{
    let first = words.next()?;
    let (second, third) = both(words)?;
    Some((first, second, third))
}

/// The last of the words that are left, where they are four.
pub(crate) fn fourth<'a>(mut words: Words<'a>) -> Option<&'a [u8]>
    ensures { option_copied result ≡ meanings.fourth (parts_left words.entry) }
{
    let _view = words.next()?;
    let (_place, _position, word) = three(words)?;
    Some(word)
}

/// The last of the words that are left, where they are six.
pub(crate) fn sixth<'a>(mut words: Words<'a>) -> Option<&'a [u8]>
    ensures { option_copied result ≡ meanings.sixth (parts_left words.entry) }
{
    let _process = words.next()?;
    let _view = words.next()?;
    fourth(words)
}
