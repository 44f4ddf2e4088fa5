//! Tokens of a line: words, numbers and bytes.
ghost use Rattle.std.specs.Prelude.{◌≡◌, ◌++◌, ◌∷◌, [], map, OnOk};
ghost use Rattle.std.specs.List.{list_all};
ghost use Rattle.text_defs.specs.Words.{space};
ghost use Rattle.rp_base.specs.Pids.{mask_of, members};
ghost use Rattle.story_defs.specs.Texts as plain;
ghost use Rattle.story_writing.specs.Tokens as views;

use rp_base::{NoMemory, PidSet};
use text_codec::{push_byte_list, push_number};

/// A token of a line.
#[derive(Clone, Copy)]
pub enum Token<'a> {
    Word(&'a [u8]),
    Number(u64),

    /// Bytes, which are quoted or in hexadecimal.
    Bytes(&'a [u8]),
}

fn is_printable(bytes: &[u8]) -> bool
    ensures { result ≡ list_all plain.is_printable bytes.now }
{
    bytes.iter().all(|c| b' ' <= *c && *c < 127)
}

// A byte of a quoted text, after a backslash where it must be.
fn push_quoted_byte(out: &mut Vec<u8>, c: u8) -> Result<(), NoMemory>
    ensures { OnOk result (out.new.items ≡ out.old.items ++ plain.quoted_byte c) }
{
    if c == b'"' || c == b'\\' {
        out.push(b'\\')?;
    }
    out.push(c)?;
    Ok(())
}

fn push_quoted(out: &mut Vec<u8>, bytes: &[u8]) -> Result<(), NoMemory>
    ensures { OnOk result (out.new.items ≡ out.old.items ++ plain.quoted_text bytes.now) }
{
    out.push(b'"')?;
    'bytes: for c in bytes {
        push_quoted_byte(out, *c)?;
    }
    out.push(b'"')?;
    Ok(())
}

// Bytes, quoted where all are printable, and else in hexadecimal.
fn push_bytes(out: &mut Vec<u8>, bytes: &[u8]) -> Result<(), NoMemory>
    ensures { OnOk result (out.new.items ≡ out.old.items ++ plain.shown_bytes bytes.now) }
{
    if is_printable(bytes) {
        push_quoted(out, bytes)
    } else {
        push_byte_list(out, bytes)
    }
}

fn push_word(out: &mut Vec<u8>, word: &[u8]) -> Result<(), NoMemory>
    ensures { OnOk result (out.new.items ≡ out.old.items ++ word.now) }
{
    out.extend_from_slice(word)?;
    Ok(())
}

fn push_token(out: &mut Vec<u8>, token: Token<'_>) -> Result<(), NoMemory>
    ensures { OnOk result (out.new.items ≡ out.old.items ++ plain.shown (views.token token.entry)) }
{
    match token {
        Token::Word(word) => push_word(out, word),
        Token::Number(n) => push_number(out, n),
        Token::Bytes(bytes) => push_bytes(out, bytes),
    }
}

// A token after others.
fn push_one(out: &mut Vec<u8>, token: Token<'_>) -> Result<(), NoMemory>
    ensures { OnOk result (out.new.items ≡ out.old.items ++ space ∷ plain.shown (views.token token.entry)) }
{
    out.push(b' ')?;
    push_token(out, token)
}

/// Appends tokens after others in a line.
pub fn push_behind(out: &mut Vec<u8>, tokens: &[Token<'_>]) -> Result<(), NoMemory>
    ensures { OnOk result (out.new.items ≡ out.old.items ++ views.behind (map views.token tokens.now)) }
{
    'tokens: for token in tokens {
        push_one(out, *token)?;
    }
    Ok(())
}

/// Appends a line of this word and tokens.
pub fn push_line(out: &mut Vec<u8>, word: &[u8], tokens: &[Token<'_>]) -> Result<(), NoMemory>
    ensures { OnOk result (out.new.items ≡ out.old.items ++ plain.token_line (plain.Word word.now ∷ map views.token tokens.now)) }
{
    push_word(out, word)?;
    push_behind(out, tokens)?;
    end_line(out)
}

/// Appends the first word of a line.
pub fn begin_line(out: &mut Vec<u8>, word: &[u8]) -> Result<(), NoMemory>
    ensures { OnOk result (out.new.items ≡ out.old.items ++ word.now) }
{
    push_word(out, word)
}

/// Ends a line.
pub fn end_line(out: &mut Vec<u8>) -> Result<(), NoMemory>
    ensures { OnOk result (out.new.items ≡ out.old.items ++ 10 ∷ []) }
{
    out.push(b'\n')?;
    Ok(())
}

// The mask of the processes.
fn mask_of(to: PidSet) -> u64
    ensures value { result ≡ mask_of to }
    ensures members { members result ≡ to }
{
    to.mask()
}

// The numbers of the processes.
fn push_named(out: &mut Vec<u8>, to: PidSet) -> Result<(), NoMemory>
    ensures { OnOk result (out.new.items ≡ out.old.items ++ views.behind (plain.numbers to)) }
{
    'named: for p in to.iter() {
        push_one(out, Token::Number(p.get().into()))?;
    }
    Ok(())
}

/// Appends all, nobody, or the processes.
#[tactic(auto, unfolding(story_defs::specs::Words::everyone))]
pub fn push_mask(out: &mut Vec<u8>, to: PidSet) -> Result<(), NoMemory>
    ensures { OnOk result (out.new.items ≡ out.old.items ++ views.behind (plain.mask_tokens (mask_of to))) }
{
    let mask = mask_of(to);
    if mask == u64::MAX {
        return push_one(out, Token::Word(b"all"));
    }
    if mask == 0 {
        return push_one(out, Token::Word(b"nobody"));
    }
    push_named(out, to)
}
