//! A line is written word by word.
ghost use Rattle.std.specs.Prelude.{◌≡◌, ◌++◌, ◌∷◌, [], codes, map, OnOk};
ghost use Rattle.std.specs.List.{flat_map};
ghost use Rattle.std.specs.Fmt.{decimal};
ghost use Rattle.text_defs.specs.Words.{space, line_feed, line_text};
ghost use Rattle.trace_defs.specs.Phrases.{number_and_colon};
ghost use Rattle.story_words.specs.Words.{spelled};

use rp_base::{NoMemory, Pid};
use text_codec::push_number;

/// A word of a line, or several that always come together.
#[derive(Clone, Copy)]
pub enum Word<'a> {
    Text(&'a [u8]),
    Number(u64),

    /// A number and a colon.
    Head(u64),

    /// A message, by its sender and its number.
    Message(u64, u64),
}

fn push_message(out: &mut Vec<u8>, sender: u64, number: u64) -> Result<(), NoMemory>
    ensures { OnOk result (out.new.items ≡ out.old.items ++ (decimal sender ++ codes "/" ++ decimal number)) }
{
    push_number(out, sender)?;
    out.push(b'/')?;
    push_number(out, number)
}

fn push_head(out: &mut Vec<u8>, number: u64) -> Result<(), NoMemory>
    ensures { OnOk result (out.new.items ≡ out.old.items ++ number_and_colon number) }
{
    push_number(out, number)?;
    out.push(b':')?;
    Ok(())
}

fn push_text(out: &mut Vec<u8>, text: &[u8]) -> Result<(), NoMemory>
    ensures { OnOk result (out.new.items ≡ out.old.items ++ text.now) }
{
    out.extend_from_slice(text)?;
    Ok(())
}

/// The number of a process.
pub fn process_word(p: Pid) -> Word<'static>
    ensures { result ≡ Word.Number p }
{
    Word::Number(p.get().into())
}

/// A word, with nothing before it.
pub fn push_word(out: &mut Vec<u8>, word: Word<'_>) -> Result<(), NoMemory>
    ensures { OnOk result (out.new.items ≡ out.old.items ++ spelled word.entry) }
{
    match word {
        Word::Text(text) => push_text(out, text),
        Word::Number(number) => push_number(out, number),
        Word::Head(number) => push_head(out, number),
        Word::Message(sender, number) => push_message(out, sender, number),
    }
}

/// A space, and the word.
pub fn push_next(out: &mut Vec<u8>, word: Word<'_>) -> Result<(), NoMemory>
    ensures { OnOk result (out.new.items ≡ out.old.items ++ space ∷ spelled word.entry) }
{
    out.push(b' ')?;
    push_word(out, word)
}

/// A space before each word, and the word.
pub fn push_more(out: &mut Vec<u8>, words: &[Word<'_>]) -> Result<(), NoMemory>
    ensures { OnOk result (out.new.items ≡ out.old.items ++ flat_map (λ w. space ∷ spelled w) words.now) }
{
    for word in words {
        push_next(out, *word)?;
    }
    Ok(())
}

/// The line feed.
pub fn end_line(out: &mut Vec<u8>) -> Result<(), NoMemory>
    ensures { OnOk result (out.new.items ≡ out.old.items ++ line_feed ∷ []) }
{
    out.push(b'\n')?;
    Ok(())
}

/// A whole line.
pub fn push_line(out: &mut Vec<u8>, first: Word<'_>, words: &[Word<'_>]) -> Result<(), NoMemory>
    ensures { OnOk result (out.new.items ≡ out.old.items ++ line_text (spelled first.entry ∷ map spelled words.now)) }
{
    push_word(out, first)?;
    push_more(out, words)?;
    end_line(out)?;
    Ok(())
}

/// Pieces of a text, with nothing between them.
pub fn push_pieces(out: &mut Vec<u8>, pieces: &[Word<'_>]) -> Result<(), NoMemory>
    ensures { OnOk result (out.new.items ≡ out.old.items ++ flat_map spelled pieces.now) }
{
    for piece in pieces {
        push_word(out, *piece)?;
    }
    Ok(())
}
