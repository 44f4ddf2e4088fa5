//! The words of a plain line, read from the front. Each reading is given what is expected of the line.
ghost use Rattle.std.specs.Prelude.{◌≡◌, ◌==◌, ◌<◌, ◌≤◌, ◌∷◌, [], ℕ, List, length, IfOk, IfSome, MatchOption};
ghost use Rattle.byte_defs.specs.Reads.{Makes};
ghost use Rattle.rp_base.specs.Pids.{mask_of, put_once};
ghost use Rattle.text_defs.specs.Words.{words_of};
ghost use Rattle.story_defs.specs.Words as plain;
ghost use Rattle.story_lines.specs.Faults.{expected_of, reported};

use crate::faults::LineFault;
use replay_defs::Scheme;
use rp_base::{Pid, PidSet};
use std::alloc::Global;
use story_defs::Expected;
use text_codec::{Parts, WordFault, byte_list, bytes, number, process};

fn scheme_of_word(word: &[u8]) -> Option<Scheme>
    ensures { result ≡ plain.scheme_of_word word.now }
{
    if word == b"plain".as_slice() {
        Some(Scheme::Plain)
    } else if word == b"lms".as_slice() {
        Some(Scheme::Lms)
    } else if word == b"hss".as_slice() {
        Some(Scheme::Hss)
    } else {
        None
    }
}

fn role_of_word(word: &[u8]) -> Option<u8>
    ensures { result ≡ plain.role_of_word word.now }
{
    if word == b"correct".as_slice() {
        Some(0)
    } else if word == b"corrupt".as_slice() {
        Some(1)
    } else {
        None
    }
}

// The bytes of a word in hexadecimal, any number of them.
fn hex_word(alloc: Global, word: &[u8], x: Expected) -> Result<Vec<u8>, LineFault>
    ensures { Makes expected_of (λ found. found.items) result (reported x (plain.hex_word word.now)) }
{
    match byte_list(alloc, word) {
        Ok(found) => Ok(found),
        Err(WordFault::NoBytes) => Err(LineFault::Expected(x)),
        Err(WordFault::NoMemory) => Err(LineFault::NoMemory),
    }
}

// At most `most` bytes.
fn payload_of(alloc: Global, word: &[u8], most: usize, x: Expected) -> Result<Vec<u8>, LineFault>
    ensures { Makes expected_of (λ found. found.items) result (reported x (plain.payload_of most word.now)) }
{
    let found = hex_word(alloc, word, x)?;
    if found.len() > most {
        return Err(LineFault::Expected(x));
    }
    Ok(found)
}

// The mask of the processes.
fn mask(set: PidSet) -> u64
    ensures { result ≡ mask_of set }
{
    set.mask()
}

/// The words of a line that are left.
#[derive(Clone, Copy)]
pub struct Words<'a> {
    parts: Parts<'a>,
}

impl<'a> Words<'a> {
    ghost use Rattle.story_lines.specs.Cursors.{left};

    /// The words of a plain line.
    pub fn new(line: &'a [u8]) -> Words<'a>
        ensures { left result ≡ words_of line.now }
    {
        Words {
            parts: Parts::words(line),
        }
    }

    /// Whether no word is left.
    pub fn is_done(&self) -> bool
        ensures { result ≡ (length (left self.now) == 0) }
    {
        self.parts.is_done()
    }

    /// The next word.
    pub fn next_word(&mut self, x: Expected) -> Result<&'a [u8], LineFault>
        ensures { Makes expected_of (λ word. (word.now, left self.new)) result (plain.next_at x (left self.old)) }
    {
        match self.parts.next() {
            Some(word) => Ok(word),
            None => Err(LineFault::Expected(x)),
        }
    }

    /// A number from the least to the most.
    pub fn number(&mut self, least: u32, most: u32, x: Expected) -> Result<u32, LineFault>
        ensures exact { Makes expected_of (λ n. (n, left self.new)) result (plain.number_at x least most (left self.old)) }
        ensures within { IfOk result (λ n. (least ≤ n) × (n ≤ most)) }
    {
        let word = self.next_word(x)?;
        number(word, least, most).ok_or(LineFault::Expected(x))
    }

    /// The number of a process.
    pub fn process(&mut self, x: Expected) -> Result<Pid, LineFault>
        ensures { Makes expected_of (λ p. (p, left self.new)) result (plain.process_at x (left self.old)) }
    {
        let word = self.next_word(x)?;
        process(word).ok_or(LineFault::Expected(x))
    }

    /// At most `most` bytes.
    pub fn payload(&mut self, alloc: Global, most: usize, x: Expected) -> Result<Vec<u8>, LineFault>
        ensures exact { Makes expected_of (λ found. (found.items, left self.new)) result (plain.payload_at x most (left self.old)) }
        ensures within { IfOk result (λ found. length found.items ≤ most) }
    {
        let word = self.next_word(x)?;
        payload_of(alloc, word, most, x)
    }

    /// `N` bytes.
    pub fn sized<const N: usize>(&mut self, x: Expected) -> Result<[u8; N], LineFault>
        ensures { Makes expected_of (λ found. (found, left self.new)) result (plain.sized_at x N (left self.old)) }
    {
        let word = self.next_word(x)?;
        bytes(word).ok_or(LineFault::Expected(x))
    }

    /// A scheme.
    pub fn scheme(&mut self, x: Expected) -> Result<Scheme, LineFault>
        ensures { Makes expected_of (λ scheme. (scheme, left self.new)) result (plain.said_at x plain.scheme_of_word (left self.old)) }
    {
        let word = self.next_word(x)?;
        scheme_of_word(word).ok_or(LineFault::Expected(x))
    }

    /// The byte of a role.
    pub fn role(&mut self, x: Expected) -> Result<u8, LineFault>
        ensures { Makes expected_of (λ role. (role, left self.new)) result (plain.said_at x plain.role_of_word (left self.old)) }
    {
        let word = self.next_word(x)?;
        role_of_word(word).ok_or(LineFault::Expected(x))
    }

    /// This word.
    pub fn word(&mut self, word: &[u8], x: Expected) -> Result<(), LineFault>
        ensures { Makes expected_of (λ _. (tt, left self.new)) result (plain.word_at x word.now (left self.old)) }
    {
        let next = self.next_word(x)?;
        if next == word {
            Ok(())
        } else {
            Err(LineFault::Expected(x))
        }
    }

    /// No word is left.
    pub fn end(&self, x: Expected) -> Result<(), LineFault>
        ensures { Makes expected_of (λ _. tt) result (plain.ended x (left self.now)) }
    {
        if self.is_done() {
            Ok(())
        } else {
            Err(LineFault::Expected(x))
        }
    }

    // Takes the next word, where it names a process.
    fn next_named(&mut self) -> Option<Pid>
        ensures names { MatchOption result
            ((set : List ℕ) → plain.named set (left self.old) ≡ (set, left self.new))
            (λ p. (set : List ℕ) → plain.named set (left self.old) ≡ plain.named (put_once p set) (left self.new)) }
        ensures shorter { IfSome result (λ _. length (left self.new) < length (left self.old)) }
    {
        let mut ahead = self.parts;
        let p = process(ahead.next()?)?;
        self.parts = ahead;
        Some(p)
    }

    // These processes, and those that are named from here on.
    fn more_named(&mut self, first: Pid) -> PidSet
        ensures { (result, left self.new) ≡ plain.named (first ∷ []) (left self.old) }
    {
        let mut set = PidSet::new();
        set.insert(first);
        'named: while let Some(p) = self.next_named() {
            set.insert(p);
        }
        set
    }

    // The mask of one process number or more.
    fn named(&mut self, x: Expected) -> Result<u64, LineFault>
        ensures { Makes expected_of (λ mask. (mask, left self.new)) result (plain.named_at x (left self.old)) }
    {
        let first = self.process(x)?;
        let set = self.more_named(first);
        Ok(mask(set))
    }

    /// `to` and a mask: all, nobody, or processes.
    #[tactic(auto, unfolding(story_defs::specs::Words::mask_at, story_defs::specs::Words::everyone))]
    pub fn mask(&mut self, x: Expected) -> Result<u64, LineFault>
        ensures { Makes expected_of (λ mask. (mask, left self.new)) result (plain.mask_at x (left self.old)) }
    {
        self.word(b"to", x)?;
        let mut ahead = *self;
        let word = ahead.next_word(x)?;
        if word == b"all".as_slice() {
            *self = ahead;
            return Ok(u64::MAX);
        }
        if word == b"nobody".as_slice() {
            *self = ahead;
            return Ok(0);
        }
        self.named(x)
    }
}
