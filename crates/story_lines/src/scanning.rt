//! The plain line of a line: single spaces between words, no comment, and all bytes in hexadecimal.
ghost use Rattle.std.specs.Prelude.{◌≡◌, ◌++◌, ◌∷◌, [], OnOk};
ghost use Rattle.byte_defs.specs.Reads.{Makes};
ghost use Rattle.story_defs.specs.PlainLines as plain;
ghost use Rattle.story_lines.specs.Faults.{expected_of};

use crate::faults::LineFault;
use rp_base::NoMemory;
use std::alloc::Global;
use story_defs::{Expected, Place};
use text_codec::push_hex;

fn is_blank(c: u8) -> bool
    ensures { result ≡ plain.is_blank c }
{
    c == b' ' || c == b'\t' || c == b'\r'
}

fn ends_word(c: u8) -> bool
    ensures { result ≡ plain.ends_word c }
{
    is_blank(c) || c == b'#' || c == b'"' || c == b':'
}

fn push(out: &mut Vec<u8>, c: u8) -> Result<(), NoMemory>
    ensures { OnOk result (out.new.items ≡ out.old.items ++ c ∷ []) }
{
    out.push(c)?;
    Ok(())
}

// Room for one more word.
fn part(out: &mut Vec<u8>) -> Result<(), NoMemory>
    ensures { OnOk result (out.new.items ≡ plain.parted out.old.items) }
{
    if out.is_empty() {
        return Ok(());
    }
    push(out, b' ')
}

// The first byte of a word, or a colon, which is one.
fn push_first(out: &mut Vec<u8>, c: u8) -> Result<(), NoMemory>
    ensures { OnOk result (out.new.items ≡ plain.parted out.old.items ++ c ∷ []) }
{
    part(out)?;
    push(out, c)
}

// A byte between words.
fn scan_between(out: &mut Vec<u8>, c: u8) -> Result<Place, LineFault>
    ensures { Makes expected_of (λ place. (out.new.items, place)) result (plain.between out.old.items c) }
{
    if is_blank(c) {
        return Ok(Place::Between);
    }
    if c == b'#' {
        return Ok(Place::Comment);
    }
    if c == b'"' {
        part(out)?;
        return Ok(Place::Opened);
    }
    push_first(out, c)?;
    if c == b':' {
        Ok(Place::Between)
    } else {
        Ok(Place::Bare)
    }
}

// A byte of a word, or the one after it.
fn scan_bare(out: &mut Vec<u8>, c: u8) -> Result<Place, LineFault>
    ensures { Makes expected_of (λ place. (out.new.items, place)) result (plain.bare out.old.items c) }
{
    if ends_word(c) {
        return scan_between(out, c);
    }
    push(out, c)?;
    Ok(Place::Bare)
}

// A byte of a quoted text, or the one after it.
fn scan_quoted(out: &mut Vec<u8>, c: u8) -> Result<Place, LineFault>
    ensures { Makes expected_of (λ place. (out.new.items, place)) result (plain.quoted out.old.items c) }
{
    if c == b'"' {
        return Ok(Place::Between);
    }
    if c == b'\\' {
        return Ok(Place::Escaped);
    }
    if c < b' ' {
        return Err(LineFault::Expected(Expected::Quote));
    }
    push_hex(out, &[c])?;
    Ok(Place::Quoted)
}

// The first byte of a quoted text. Where there is none, a dash is its hexadecimal.
fn scan_opened(out: &mut Vec<u8>, c: u8) -> Result<Place, LineFault>
    ensures { Makes expected_of (λ place. (out.new.items, place)) result (plain.opened out.old.items c) }
{
    if c == b'"' {
        push(out, b'-')?;
        return Ok(Place::Between);
    }
    scan_quoted(out, c)
}

// A byte after a backslash.
fn scan_escaped(out: &mut Vec<u8>, c: u8) -> Result<Place, LineFault>
    ensures { Makes expected_of (λ place. (out.new.items, place)) result (plain.escaped out.old.items c) }
{
    if c == b'"' || c == b'\\' {
        push_hex(out, &[c])?;
        return Ok(Place::Quoted);
    }
    Err(LineFault::Expected(Expected::Escape))
}

fn scan_byte(out: &mut Vec<u8>, place: Place, c: u8) -> Result<Place, LineFault>
    ensures { Makes expected_of (λ next. (out.new.items, next)) result (plain.scanned out.old.items place c) }
{
    match place {
        Place::Between => scan_between(out, c),
        Place::Bare => scan_bare(out, c),
        Place::Opened => scan_opened(out, c),
        Place::Quoted => scan_quoted(out, c),
        Place::Escaped => scan_escaped(out, c),
        Place::Comment => Ok(Place::Comment),
    }
}

// The plain line, where the line ends here.
fn line_end(out: Vec<u8>, place: Place) -> Result<Vec<u8>, LineFault>
    ensures { Makes expected_of (λ line. line.items) result (plain.line_end out.items place) }
{
    match place {
        Place::Between | Place::Bare | Place::Comment => Ok(out),
        Place::Opened | Place::Quoted | Place::Escaped => {
            Err(LineFault::Expected(Expected::Quote))
        }
    }
}

/// The plain line of a line, which is given without its line feed.
///
/// # Errors
/// [`LineFault::Expected`] exactly where a quoted text does not end, or has a byte that it cannot have.
pub fn plain_line(alloc: Global, line: &[u8]) -> Result<Vec<u8>, LineFault>
    ensures { Makes expected_of (λ reported. reported.items) result (plain.plain_line line.now) }
{
    let mut out = Vec::new(alloc);
    let mut place = Place::Between;
    'bytes: for c in line {
        place = scan_byte(&mut out, place, *c)?;
    }
    line_end(out, place)
}
