//! A line, word by word.
ghost use Rattle.std.specs.Prelude.{◌≡◌, ◌++◌, ◌∷◌, [], map, OnOk, OnErr};
ghost use Rattle.std.specs.List.{flat_map};
ghost use Rattle.std.specs.Fmt.{decimal};
ghost use Rattle.hex.specs.Hex.{encode_lower};
ghost use Rattle.text_defs.specs.Words.{space, bytes_word, line_text};
ghost use Rattle.node_text.specs.Words.{GoesOn, spaced, spelled, spelled_after};

use rp_base::{NoMemory, Pid};
use text_codec::{push_hex, push_number};

/// A word of a line, or several that come together.
#[derive(Clone, Copy)]
pub(crate) enum Word<'a> {
    Text(&'a [u8]),
    Number(u64),

    /// In hexadecimal, or a dash where there are none.
    Bytes(&'a [u8]),

    /// The numbers of processes, a word for each.
    Processes(&'a [Pid]),
}

/// The number of a process.
pub(crate) fn process_word(p: Pid) -> Word<'static>
    ensures { result ≡ Word.Number p }
{
    Word::Number(p.get().into())
}

// The text as it is.
fn push_letters(out: &mut Vec<u8>, text: &[u8]) -> Result<(), NoMemory>
    ensures pushed { OnOk result (out.new.items ≡ out.old.items ++ text.now) }
    ensures unchanged { OnErr result (out.new.items ≡ out.old.items) }
{
    out.extend_from_slice(text)?;
    Ok(())
}

fn push_byte(out: &mut Vec<u8>, byte: u8) -> Result<(), NoMemory>
    ensures pushed { OnOk result (out.new.items ≡ out.old.items ++ byte ∷ []) }
    ensures unchanged { OnErr result (out.new.items ≡ out.old.items) }
{
    out.push(byte)?;
    Ok(())
}

fn push_text(out: &mut Vec<u8>, text: &[u8]) -> Result<(), NoMemory>
    ensures pushed { OnOk result (out.new.items ≡ out.old.items ++ space ∷ text.now) }
    ensures begun { OnErr result (GoesOn out.old.items out.new.items) }
{
    push_byte(out, b' ')?;
    push_letters(out, text)?;
    Ok(())
}

fn push_digits(out: &mut Vec<u8>, n: u64) -> Result<(), NoMemory>
    ensures pushed { OnOk result (out.new.items ≡ out.old.items ++ space ∷ decimal n) }
    ensures begun { OnErr result (GoesOn out.old.items out.new.items) }
{
    push_byte(out, b' ')?;
    push_number(out, n)?;
    Ok(())
}

fn push_digits_of(out: &mut Vec<u8>, bytes: &[u8]) -> Result<(), NoMemory>
    ensures pushed { OnOk result (out.new.items ≡ out.old.items ++ space ∷ encode_lower bytes.now) }
    ensures begun { OnErr result (GoesOn out.old.items out.new.items) }
{
    push_byte(out, b' ')?;
    push_hex(out, bytes)?;
    Ok(())
}

fn push_bytes(out: &mut Vec<u8>, bytes: &[u8]) -> Result<(), NoMemory>
    ensures pushed { OnOk result (out.new.items ≡ out.old.items ++ space ∷ bytes_word bytes.now) }
    ensures begun { OnErr result (GoesOn out.old.items out.new.items) }
{
    if bytes.is_empty() {
        push_text(out, b"-")
    } else {
        push_digits_of(out, bytes)
    }
}

fn push_processes(out: &mut Vec<u8>, processes: &[Pid]) -> Result<(), NoMemory>
    ensures pushed { OnOk result (out.new.items ≡ out.old.items ++ spaced (map decimal processes.now)) }
    ensures begun { OnErr result (GoesOn out.old.items out.new.items) }
{
    for process in processes {
        push_digits(out, process.get().into())?;
    }
    Ok(())
}

fn push_word(out: &mut Vec<u8>, word: Word<'_>) -> Result<(), NoMemory>
    ensures pushed { OnOk result (out.new.items ≡ out.old.items ++ spelled_after word.entry) }
    ensures begun { OnErr result (GoesOn out.old.items out.new.items) }
{
    match word {
        Word::Text(text) => push_text(out, text),
        Word::Number(n) => push_digits(out, n),
        Word::Bytes(bytes) => push_bytes(out, bytes),
        Word::Processes(processes) => push_processes(out, processes),
    }
}

fn push_words(out: &mut Vec<u8>, words: &[Word<'_>]) -> Result<(), NoMemory>
    ensures pushed { OnOk result (out.new.items ≡ out.old.items ++ flat_map spelled_after words.now) }
    ensures begun { OnErr result (GoesOn out.old.items out.new.items) }
{
    for word in words {
        push_word(out, *word)?;
    }
    Ok(())
}

// The line, as far as memory lasts.
fn begin_line(out: &mut Vec<u8>, name: &[u8], words: &[Word<'_>]) -> Result<(), NoMemory>
    ensures pushed { OnOk result (out.new.items ≡ out.old.items ++ line_text (name.now ∷ flat_map spelled words.now)) }
    ensures begun { OnErr result (GoesOn out.old.items out.new.items) }
{
    push_letters(out, name)?;
    push_words(out, words)?;
    push_byte(out, b'\n')?;
    Ok(())
}

/// A line of a name and the words after it.
///
/// # Errors
/// [`NoMemory`]; nothing is appended then.
pub(crate) fn push_line(out: &mut Vec<u8>, name: &[u8], words: &[Word<'_>]) -> Result<(), NoMemory>
    ensures pushed { OnOk result (out.new.items ≡ out.old.items ++ line_text (name.now ∷ flat_map spelled words.now)) }
    ensures unchanged { OnErr result (out.new.items ≡ out.old.items) }
{
    let start = out.as_slice().len();
    match begin_line(out, name, words) {
        Ok(()) => Ok(()),
        Err(refused) => {
            out.truncate(start);
            Err(refused)
        }
    }
}
