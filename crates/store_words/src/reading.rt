//! The words of a line of a script that ask a server something.
ghost use Rattle.std.specs.Prelude.{◌≡◌, IfOk, option_map, [], ◌∷◌};
ghost use Rattle.std.specs.List.{list_any};
ghost use Rattle.std.specs.Option.{option_copied};
ghost use Rattle.byte_defs.specs.Members.{has};
ghost use Rattle.text_defs.specs.Words.{bytes_of, is_upper_case, words_of};
ghost use Rattle.text_codec.specs.Views.{parts_left};
ghost use Rattle.kit_defs.specs.Kits.{key_length, roster_of};
ghost use Rattle.sig_scheme.specs.Keys.{key_bytes};
ghost use Rattle.sig_scheme.specs.Views.{scheme as scheme_in};
ghost use Rattle.store_defs.specs.Services.{behind_first};
ghost use Rattle.store_defs.specs.Words as plain;
ghost use Rattle.store_words.specs.Views.{word as word_of};
ghost use Rattle.store_words.specs.Lines.{only_word};

use rp_base::{NoMemory, Pid, Roster};
use sig_scheme::{AnyScheme, PublicKey};
use std::alloc::Global;
use text_codec::{Parts as Words, bytes, process};

/// What a line says to the server of a process.
#[derive(Drop)]
pub enum Word {
    /// It is asked for its state.
    Give,

    /// It is offered these bytes as a state record.
    State(Vec<u8>),

    /// It is handed the state key of a process.
    StateKey { process: Pid, key: PublicKey },
}

fn has_upper_case(word: &[u8]) -> bool
    ensures { result ≡ list_any is_upper_case word.now }
{
    word.iter().any(|c| c.is_ascii_uppercase())
}

/// The bytes that a word spells, one at least; None exactly where it spells none.
///
/// # Errors
/// [`NoMemory`] where room for them is refused.
#[tactic(auto, unfolding(text_defs::specs::Words::bytes_of))]
pub fn some_bytes(alloc: Global, word: &[u8]) -> Result<Option<Vec<u8>>, NoMemory>
    ensures { IfOk result (λ found. option_map (λ bytes. bytes.items) found ≡ plain.some_bytes_of word.now) }
{
    if word.len() < 2 || has_upper_case(word) {
        return Ok(None);
    }
    let mut found = vec![in alloc; 0; word.len() / 2]?;
    match hex::decode_to_slice(word, &mut found) {
        Ok(()) => Ok(Some(found)),
        Err(_) => Ok(None),
    }
}

fn is_listed(roster: &Roster, p: Pid) -> bool
    ensures { result ≡ has (roster_of roster.now) p }
{
    roster.processes().contains(p)
}

/// The process of the roster that a word names; None exactly where it names none.
pub fn listed_process(roster: &Roster, word: &[u8]) -> Option<Pid>
    ensures { result ≡ plain.listed_process (roster_of roster.now) word.now }
{
    let p = process(word)?;
    if is_listed(roster, p) { Some(p) } else { None }
}

/// The key of a scheme that a word spells; None exactly where it spells none.
pub fn key_in(scheme: AnyScheme, word: &[u8]) -> Option<PublicKey>
    ensures { option_map key_bytes result ≡ bytes_of (key_length (scheme_in scheme)) word.now }
{
    match scheme {
        AnyScheme::Plain => Some(PublicKey::Plain(bytes(word)?)),
        AnyScheme::Lms => Some(PublicKey::Lms(bytes(word)?)),
        AnyScheme::Hss => Some(PublicKey::Hss(bytes(word)?)),
    }
}

// The word that is left, where it is the only one.
fn last_word<'a>(mut words: Words<'a>) -> Option<&'a [u8]>
    ensures { option_copied result ≡ only_word (parts_left words.entry) }
{
    let word = words.next()?;
    if words.is_done() { Some(word) } else { None }
}

fn give_by(words: Words<'_>) -> Option<Word>
    ensures { option_map word_of result ≡ plain.give_by (parts_left words.entry) }
{
    if words.is_done() {
        Some(Word::Give)
    } else {
        None
    }
}

fn state_by(alloc: Global, words: Words<'_>) -> Result<Option<Word>, NoMemory>
    ensures { IfOk result (λ found. option_map word_of found ≡ plain.state_by (parts_left words.entry)) }
{
    let Some(word) = last_word(words) else {
        return Ok(None);
    };
    match some_bytes(alloc, word)? {
        Some(bytes) => Ok(Some(Word::State(bytes))),
        None => Ok(None),
    }
}

fn state_key_by(scheme: AnyScheme, roster: &Roster, mut words: Words<'_>) -> Option<Word>
    ensures { option_map word_of result ≡ plain.state_key_by (scheme_in scheme) (roster_of roster.now) (parts_left words.entry) }
{
    let first = words.next()?;
    let second = last_word(words)?;
    let process = listed_process(roster, first)?;
    let key = key_in(scheme, second)?;
    Some(Word::StateKey { process, key })
}

// What the words after the process say.
#[tactic(auto, unfolding(store_defs::specs::Words::word_by))]
fn word_by(
    alloc: Global,
    scheme: AnyScheme,
    roster: &Roster,
    mut words: Words<'_>,
) -> Result<Option<Word>, NoMemory>
    ensures { IfOk result (λ found. option_map word_of found
        ≡ plain.word_by (scheme_in scheme) (roster_of roster.now) (parts_left words.entry)) }
{
    let Some(word) = words.next() else {
        return Ok(None);
    };
    if word == b"give".as_slice() {
        Ok(give_by(words))
    } else if word == b"state".as_slice() {
        state_by(alloc, words)
    } else if word == b"statekey".as_slice() {
        Ok(state_key_by(scheme, roster, words))
    } else {
        Ok(None)
    }
}

/// What a line says to the server of the process that it begins with, in a group of this scheme and roster; None exactly where it says
/// nothing to it.
///
/// # Errors
/// [`NoMemory`] where room for the bytes of a state is refused.
pub fn read_word(
    alloc: Global,
    scheme: AnyScheme,
    roster: &Roster,
    line: &[u8],
) -> Result<Option<Word>, NoMemory>
    ensures { IfOk result (λ found. option_map word_of found
        ≡ plain.word_by (scheme_in scheme) (roster_of roster.now) (behind_first (words_of line.now))) }
{
    let mut words = Words::words(line);
    let _process = words.next();
    word_by(alloc, scheme, roster, words)
}
