//! What the words of one line say, by their form alone.
//!
//! | Words | Line |
//! |---|---|
//! | `rampart kit 1`, `rampart kit 2` | the version, which the scheme has: 2 of HSS, 1 of the others |
//! | `scheme plain`, `scheme lms`, `scheme hss` | the scheme of the group |
//! | `group HEX` | its name, 16 bytes |
//! | `key P HEX` | the public key of a process: 32 bytes plain, 56 bytes LMS, 60 bytes HSS |
//! | `genesis P P P` | the members of the first view, 1 to 16 different ones |
//! | `port P N` | the port of a process, 1 to 65,535 |
//! | `host P plain TOTAL` | a process that is hosted, and how many signatures its plain key makes |
//! | `host P lms H W I SEED` | the same with an LMS key: typecodes 5 to 7 and 1 to 4, 16 bytes, 32 bytes |
//! | `host P hss L H W I SEED` | the same with an HSS key: 1 to 3 levels, and of each tree what a line of LMS has |
//! | `pair P Q HEX` | the key that two processes share, 32 bytes |
ghost use Rattle.std.specs.Prelude.{◌≡◌, ◌==◌, drop, option_map};
ghost use Rattle.std.specs.List.{list_any};
ghost use Rattle.std.specs.Option.{option_copied};
ghost use Rattle.sig_scheme.specs.Keys.{key_bytes};
ghost use Rattle.sig_scheme.specs.Views as views;
ghost use Rattle.text_codec.specs.Views.{parts_left};
ghost use Rattle.kit_defs.specs.KitReading as plain;
ghost use Rattle.kit_lines.specs.FirstWords.{only_word, first_process};
ghost use Rattle.kit_lines.specs.LineViews.{line, may};

use crate::first_words::{FirstWord, first_word};
use crate::reported::{Reported, Version};
use arrayvec::ArrayVec;
use lms_ots::ots_type_of;
use rp_base::{GroupId, Pid};
use sig_scheme::{AnyScheme, OtsType, PublicKey, levels_are_built};
use text_codec::{Parts as Words, bytes, number, process};

/// What a line of a kit says.
#[derive(Drop)]
pub enum KitLine {
    Version(Version),
    SchemeIs(AnyScheme),
    GroupIs(GroupId),
    Key {
        process: Pid,
        key: PublicKey,
    },

    /// The members of the first view, in rank order.
    Genesis(ArrayVec<Pid, 16>),

    Port {
        process: Pid,
        port: u16,
    },

    PlainHost {
        process: Pid,

        /// How many signatures its key makes.
        total: u32,
    },

    LmsHost {
        process: Pid,

        /// The typecode of the tree's height, 5 to 7 (RFC 8554, section 5.1).
        height: u32,
        ots: OtsType,
        id: [u8; 16],
        seed: [u8; 32],
    },

    HssHost {
        process: Pid,

        /// How many levels of trees, 1 to 3 (RFC 8554, section 6).
        levels: u32,

        /// The typecode of the height of each, which fits the levels, as the one-time parameter set does.
        height: u32,
        ots: OtsType,
        id: [u8; 16],
        seed: [u8; 32],
    },

    Pair {
        process: Pid,
        other: Pid,
        key: [u8; 32],
    },
}

// The last word of a line.
fn last<'a>(words: &mut Words<'a>) -> Option<&'a [u8]>
    ensures { option_copied result ≡ only_word (parts_left words.old) }
{
    let word = words.next()?;
    if words.is_done() { Some(word) } else { None }
}

/// The process that the next word names.
pub fn next_process(words: &mut Words<'_>) -> Option<Pid>
    ensures value { result ≡ first_process (parts_left words.old) }
    ensures rest { parts_left words.new ≡ drop 1 (parts_left words.old) }
{
    process(words.next()?)
}

fn version_by(mut words: Words<'_>) -> Option<KitLine>
    ensures { option_map line result ≡ plain.version_by (parts_left words.entry) }
{
    let kit = words.next()?;
    let number = last(&mut words)?;
    if kit != b"kit".as_slice() {
        return None;
    }
    if number == b"1".as_slice() {
        Some(KitLine::Version(Version::One))
    } else if number == b"2".as_slice() {
        Some(KitLine::Version(Version::Two))
    } else {
        None
    }
}

fn scheme_of_word(word: &[u8]) -> Option<AnyScheme>
    ensures { option_map views.scheme result ≡ plain.scheme_of_word word.now }
{
    if word == b"plain".as_slice() {
        Some(AnyScheme::Plain)
    } else if word == b"lms".as_slice() {
        Some(AnyScheme::Lms)
    } else if word == b"hss".as_slice() {
        Some(AnyScheme::Hss)
    } else {
        None
    }
}

// The scheme that the word names, if this kit may have it.
fn scheme_in(reported: Reported, word: &[u8]) -> Option<AnyScheme>
    ensures { option_map views.scheme result ≡ plain.scheme_in (may reported) word.now }
{
    let scheme = scheme_of_word(word)?;
    if reported.may_be(scheme) {
        Some(scheme)
    } else {
        None
    }
}

fn scheme_by(reported: Reported, mut words: Words<'_>) -> Option<KitLine>
    ensures { option_map line result ≡ plain.scheme_by (may reported) (parts_left words.entry) }
{
    Some(KitLine::SchemeIs(scheme_in(reported, last(&mut words)?)?))
}

fn group_by(mut words: Words<'_>) -> Option<KitLine>
    ensures { option_map line result ≡ plain.group_by (parts_left words.entry) }
{
    Some(KitLine::GroupIs(GroupId(bytes(last(&mut words)?)?)))
}

// A public key of this scheme, where the kit may be of it.
fn key_in(reported: Reported, word: &[u8], scheme: AnyScheme) -> Option<PublicKey>
    ensures { option_map key_bytes result ≡ plain.key_in (may reported) word.now (views.scheme scheme) }
{
    if !reported.may_be(scheme) {
        return None;
    }
    match scheme {
        AnyScheme::Plain => Some(PublicKey::Plain(bytes(word)?)),
        AnyScheme::Lms => Some(PublicKey::Lms(bytes(word)?)),
        AnyScheme::Hss => Some(PublicKey::Hss(bytes(word)?)),
    }
}

// A public key of one of the schemes.
fn public_key_by(reported: Reported, word: &[u8]) -> Option<PublicKey>
    ensures { option_map key_bytes result ≡ plain.public_key_by (may reported) word.now }
{
    match key_in(reported, word, AnyScheme::Plain) {
        Some(key) => Some(key),
        None => match key_in(reported, word, AnyScheme::Lms) {
            Some(key) => Some(key),
            None => key_in(reported, word, AnyScheme::Hss),
        },
    }
}

fn key_by(reported: Reported, mut words: Words<'_>) -> Option<KitLine>
    ensures { option_map line result ≡ plain.key_by (may reported) (parts_left words.entry) }
{
    let process = next_process(&mut words)?;
    let key = public_key_by(reported, last(&mut words)?)?;
    Some(KitLine::Key { process, key })
}

fn is_among(pids: &[Pid], p: Pid) -> bool
    ensures { result ≡ list_any (λ q. q == p) pids.now }
{
    pids.iter().any(|q| *q == p)
}

// The numbers of 1 to 16 processes, each different from those before.
fn genesis_by(mut words: Words<'_>) -> Option<KitLine>
    ensures { option_map line result ≡ plain.genesis_by (parts_left words.entry) }
{
    let mut members = ArrayVec::new();
    'members: while let Some(word) = words.next() {
        let member = process(word)?;
        if is_among(&members, member) || members.is_full() {
            return None;
        }
        members.push(member);
    }
    if members.is_empty() {
        None
    } else {
        Some(KitLine::Genesis(members))
    }
}

fn port_by(mut words: Words<'_>) -> Option<KitLine>
    ensures { option_map line result ≡ plain.port_by (parts_left words.entry) }
{
    let process = next_process(&mut words)?;
    let port = number(last(&mut words)?, 1, 65_535)? as u16;
    Some(KitLine::Port { process, port })
}

fn plain_host_by(process: Pid, mut words: Words<'_>) -> Option<KitLine>
    ensures { option_map line result ≡ plain.plain_host_by process (parts_left words.entry) }
{
    let total = number(last(&mut words)?, 0, u32::MAX)?;
    Some(KitLine::PlainHost { process, total })
}

// The one-time parameter set of a typecode.
fn kind_by(word: &[u8]) -> Option<OtsType>
    ensures { result ≡ plain.kind_by word.now }
{
    ots_type_of(number(word, 1, 4)?)
}

fn lms_host_by(process: Pid, mut words: Words<'_>) -> Option<KitLine>
    ensures { option_map line result ≡ plain.lms_host_by process (parts_left words.entry) }
{
    let height = number(words.next()?, 5, 7)?;
    let ots = kind_by(words.next()?)?;
    let id = bytes(words.next()?)?;
    let seed = bytes(last(&mut words)?)?;
    Some(KitLine::LmsHost {
        process,
        height,
        ots,
        id,
        seed,
    })
}

fn hss_host_by(process: Pid, mut words: Words<'_>) -> Option<KitLine>
    ensures { option_map line result ≡ plain.hss_host_by process (parts_left words.entry) }
{
    let levels = number(words.next()?, 1, 3)?;
    let height = number(words.next()?, 5, 7)?;
    let ots = kind_by(words.next()?)?;
    if !levels_are_built(levels, height, ots) {
        return None;
    }
    let id = bytes(words.next()?)?;
    let seed = bytes(last(&mut words)?)?;
    Some(KitLine::HssHost {
        process,
        levels,
        height,
        ots,
        id,
        seed,
    })
}

fn host_by(reported: Reported, mut words: Words<'_>) -> Option<KitLine>
    ensures { option_map line result ≡ plain.host_by (may reported) (parts_left words.entry) }
{
    let process = next_process(&mut words)?;
    match scheme_in(reported, words.next()?)? {
        AnyScheme::Plain => plain_host_by(process, words),
        AnyScheme::Lms => lms_host_by(process, words),
        AnyScheme::Hss => hss_host_by(process, words),
    }
}

fn pair_by(mut words: Words<'_>) -> Option<KitLine>
    ensures { option_map line result ≡ plain.pair_by (parts_left words.entry) }
{
    let process = next_process(&mut words)?;
    let other = next_process(&mut words)?;
    let key = bytes(last(&mut words)?)?;
    if process == other {
        return None;
    }
    Some(KitLine::Pair {
        process,
        other,
        key,
    })
}

/// The line that these words are, given the version and scheme so far; None exactly where they are none.
pub fn line_by(reported: Reported, mut words: Words<'_>) -> Option<KitLine>
    ensures { option_map line result ≡ plain.line_by (may reported) (parts_left words.entry) }
{
    match first_word(words.next()?)? {
        FirstWord::Rampart => version_by(words),
        FirstWord::Scheme => scheme_by(reported, words),
        FirstWord::Group => group_by(words),
        FirstWord::Key => key_by(reported, words),
        FirstWord::Genesis => genesis_by(words),
        FirstWord::Port => port_by(words),
        FirstWord::Host => host_by(reported, words),
        FirstWord::Pair => pair_by(words),
    }
}
