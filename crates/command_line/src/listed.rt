//! The processes that an audit takes as correct.
ghost use Rattle.std.specs.Prelude.{◌≡◌, map, string_bytes, IfSome};
ghost use Rattle.text_defs.specs.Words.{number_within};
ghost use Rattle.command_line.specs.Reading.{listed_of, rising_from};

use rp_base::{Pid, PidSet};
use text_codec::number;

// The process from this number on whose number the word spells.
fn process_from(word: &[u8], least: u32) -> Option<Pid>
    ensures { result ≡ number_within least 63 word.now }
{
    Pid::new(number(word, least, 63)? as u8)
}

// The processes whose numbers the words spell, rising.
fn rising(words: &[String]) -> Option<PidSet>
    ensures { result ≡ rising_from 0 (map string_bytes words.now) }
{
    let mut listed = PidSet::new();
    let mut least = 0;
    'words: for word in words {
        let p = process_from(word.as_bytes(), least)?;
        listed.insert(p);
        least = u32::from(p.get()) + 1;
    }
    Some(listed)
}

/// The processes whose numbers the words spell, one at least, by rising numbers up to 63; None exactly where the words are others.
pub fn read_listed(words: &[String]) -> Option<PidSet>
    ensures { result ≡ listed_of (map string_bytes words.now) }
{
    if words.is_empty() {
        None
    } else {
        rising(words)
    }
}
