//! Requests in words, read as the payload that submits them.
ghost use Rattle.std.specs.Prelude.{◌≡◌, ◌≤◌, ◌==◌, ◌++◌, ◌∷◌, if◌then◌else◌, length, IfOk, IfSome, OnOk, Some, None, option_map};
ghost use Rattle.byte_defs.specs.Fields.{text};
ghost use Rattle.text_codec.specs.Views.{parts_left};
ghost use Rattle.store_records.specs.Views.{command as command_of};
ghost use Rattle.store_text_defs.specs.Requests as plain;
ghost use Rattle.store_text_defs.specs.Requests.{command_bytes, request_bytes};
ghost use Rattle.store_wording.specs.Pieces.{IsShort, head_of, line_of, payload, submitted};
ghost use Rattle.store_wording.specs.Views.{first_words, submission};

use crate::words::{both, only, payload_of, tag};
use rp_base::{NoMemory, Pid};
use std::alloc::Global;
use store_records::Command;
use story_lines::{LineFault, plain_line};
use text_codec::{Parts as Words, process, push_hex, push_number};

const KEY_BYTES: usize = 64;

const VALUE_BYTES: usize = 512;

const PAYLOAD_BYTES: usize = 1024;

// ---- payloads

// The kind of a command and its key, after the key's length.
fn push_key(out: &mut Vec<u8>, kind: u8, key: &[u8]) -> Result<(), NoMemory>
    requires { length key.now ≤ 64 }
    ensures { OnOk result (out.new.items ≡ out.old.items ++ kind ∷ length key.now ∷ key.now) }
{
    out.extend_from_slice(&[kind, key.len() as u8])?;
    out.extend_from_slice(key)?;
    Ok(())
}

// A value after its length.
fn push_value(out: &mut Vec<u8>, value: &[u8]) -> Result<(), NoMemory>
    requires { length value.now ≤ 512 }
    ensures { OnOk result (out.new.items ≡ out.old.items ++ text value.now) }
{
    out.extend_from_slice(&(value.len() as u16).to_be_bytes())?;
    out.extend_from_slice(value)?;
    Ok(())
}

fn push_command(out: &mut Vec<u8>, asked: Command<'_>) -> Result<(), NoMemory>
    requires { IsShort (command_of asked) }
    ensures { OnOk result (out.new.items ≡ out.old.items ++ command_bytes (command_of asked.entry)) }
{
    match asked {
        Command::Set { key, value } => {
            push_key(out, 1, key)?;
            push_value(out, value)
        }
        Command::Get { key } => push_key(out, 2, key),
        Command::Remove { key } => push_key(out, 3, key),
        Command::Exchange {
            key,
            expected,
            value,
        } => {
            push_key(out, 4, key)?;
            push_value(out, expected)?;
            push_value(out, value)
        }
    }
}

// The payload of a command with this tag.
fn payload_with(alloc: Global, tag: u64, asked: Command<'_>) -> Result<Vec<u8>, NoMemory>
    requires { IsShort (command_of asked) }
    ensures { IfOk result (λ bytes. bytes.items ≡ request_bytes tag (command_of asked.entry)) }
{
    let mut bytes = tag.to_be_bytes().to_vec(alloc)?;
    push_command(&mut bytes, asked)?;
    Ok(bytes)
}

// ---- commands in words

fn key_by(alloc: Global, word: &[u8]) -> Result<Option<Vec<u8>>, NoMemory>
    ensures read { IfOk result (λ found. option_map (λ bytes. bytes.items) found ≡ plain.key_by word.now) }
    ensures short { IfOk result (λ found. IfSome found (λ bytes. length bytes.items ≤ 64)) }
{
    let Some(key) = payload_of(alloc, word, KEY_BYTES)? else {
        return Ok(None);
    };
    if key.is_empty() {
        return Ok(None);
    }
    Ok(Some(key))
}

fn value_by(alloc: Global, word: &[u8]) -> Result<Option<Vec<u8>>, NoMemory>
    ensures read { IfOk result (λ found. option_map (λ bytes. bytes.items) found ≡ plain.value_by word.now) }
    ensures short { IfOk result (λ found. IfSome found (λ bytes. length bytes.items ≤ 512)) }
{
    payload_of(alloc, word, VALUE_BYTES)
}

// The payload of a `put`, by the words after its key.
fn put_by(
    alloc: Global,
    tag: u64,
    key: &[u8],
    words: Words<'_>,
) -> Result<Option<Vec<u8>>, NoMemory>
    requires { length key.now ≤ 64 }
    ensures { IfOk result (λ found. option_map (λ bytes. bytes.items) found
        ≡ option_map (request_bytes tag) (plain.set_by key.now (parts_left words.entry))) }
{
    let Some(word) = only(words) else {
        return Ok(None);
    };
    let Some(value) = value_by(alloc, word)? else {
        return Ok(None);
    };
    let asked = Command::Set { key, value: &value };
    Ok(Some(payload_with(alloc, tag, asked)?))
}

// The payload of a `swap`, by the words after its key.
fn swap_by(
    alloc: Global,
    tag: u64,
    key: &[u8],
    words: Words<'_>,
) -> Result<Option<Vec<u8>>, NoMemory>
    requires { length key.now ≤ 64 }
    ensures { IfOk result (λ found. option_map (λ bytes. bytes.items) found
        ≡ option_map (request_bytes tag) (plain.exchange_by key.now (parts_left words.entry))) }
{
    let Some((old, new)) = both(words) else {
        return Ok(None);
    };
    let Some(expected) = value_by(alloc, old)? else {
        return Ok(None);
    };
    let Some(value) = value_by(alloc, new)? else {
        return Ok(None);
    };
    let asked = Command::Exchange {
        key,
        expected: &expected,
        value: &value,
    };
    Ok(Some(payload_with(alloc, tag, asked)?))
}

// The payload of a command of a key alone, which no words follow.
fn alone(
    alloc: Global,
    tag: u64,
    asked: Command<'_>,
    words: Words<'_>,
) -> Result<Option<Vec<u8>>, NoMemory>
    requires { IsShort (command_of asked) }
    ensures { IfOk result (λ found. option_map (λ bytes. bytes.items) found
        ≡ option_map (request_bytes tag) (if length (parts_left words.entry) == 0 then Some (command_of asked.entry) else None)) }
{
    if words.is_done() {
        Ok(Some(payload_with(alloc, tag, asked)?))
    } else {
        Ok(None)
    }
}

// The payload of the command of this word and key, by the words after the key.
fn command_by(
    alloc: Global,
    verb: &[u8],
    tag: u64,
    key: &[u8],
    words: Words<'_>,
) -> Result<Option<Vec<u8>>, NoMemory>
    requires { length key.now ≤ 64 }
    ensures { IfOk result (λ found. option_map (λ bytes. bytes.items) found
        ≡ option_map (request_bytes tag) (plain.command_by verb.now key.now (parts_left words.entry))) }
{
    if verb == b"put".as_slice() {
        put_by(alloc, tag, key, words)
    } else if verb == b"get".as_slice() {
        alone(alloc, tag, Command::Get { key }, words)
    } else if verb == b"remove".as_slice() {
        alone(alloc, tag, Command::Remove { key }, words)
    } else if verb == b"swap".as_slice() {
        swap_by(alloc, tag, key, words)
    } else {
        Ok(None)
    }
}

// The payload of these words.
#[tactic(auto, using(crate::proofs::Asked::tagged))]
fn asked_by(
    alloc: Global,
    verb: &[u8],
    tag_word: &[u8],
    key_word: &[u8],
    words: Words<'_>,
) -> Result<Option<Vec<u8>>, NoMemory>
    ensures { IfOk result (λ found. option_map (λ bytes. bytes.items) found
        ≡ option_map payload (plain.asked_by verb.now tag_word.now key_word.now (parts_left words.entry))) }
{
    let Some(tag) = tag(tag_word) else {
        return Ok(None);
    };
    let Some(key) = key_by(alloc, key_word)? else {
        return Ok(None);
    };
    command_by(alloc, verb, tag, &key, words)
}

// ---- requests

/// What a process is to submit.
#[derive(Drop)]
pub(crate) struct Submission {
    process: Pid,

    /// At most 1,024 bytes.
    payload: Vec<u8>,
}

// The first four words of a request.
#[derive(Clone, Copy)]
struct Head<'a> {
    process: &'a [u8],
    verb: &'a [u8],
    tag: &'a [u8],
    key: &'a [u8],
}

// Takes the first four words.
fn take_head<'a>(words: &mut Words<'a>) -> Option<Head<'a>>
    ensures { option_map (λ h. (first_words h, parts_left words.new)) result ≡ head_of (parts_left words.old) }
{
    let process = words.next()?;
    let verb = words.next()?;
    let tag = words.next()?;
    let key = words.next()?;
    Some(Head {
        process,
        verb,
        tag,
        key,
    })
}

// The request of these words.
#[tactic(auto, using(crate::proofs::Asked::by_head))]
fn request_by(alloc: Global, mut words: Words<'_>) -> Result<Option<Submission>, NoMemory>
    ensures { IfOk result (λ found. option_map submission found ≡ option_map submitted (plain.request_by (parts_left words.entry))) }
{
    let Some(head) = take_head(&mut words) else {
        return Ok(None);
    };
    let Some(process) = process(head.process) else {
        return Ok(None);
    };
    let Some(payload) = asked_by(alloc, head.verb, head.tag, head.key, words)? else {
        return Ok(None);
    };
    if payload.len() > PAYLOAD_BYTES {
        return Ok(None);
    }
    Ok(Some(Submission { process, payload }))
}

/// The request of a line; None exactly where it is none.
///
/// # Errors
/// [`NoMemory`] where room is refused.
#[tactic(auto, unfolding(store_text_defs::specs::Requests::request_in))]
pub(crate) fn request_in(alloc: Global, line: &[u8]) -> Result<Option<Submission>, NoMemory>
    ensures { IfOk result (λ found. option_map submission found ≡ option_map submitted (plain.request_in line.now)) }
{
    match plain_line(alloc, line) {
        Ok(plain) => request_by(alloc, Words::words(&plain)),
        Err(LineFault::Expected(_)) => Ok(None),
        Err(LineFault::NoMemory) => Err(NoMemory),
    }
}

fn is_verb(word: &[u8]) -> bool
    ensures { result ≡ plain.is_verb word.now }
{
    word == b"put".as_slice()
        || word == b"get".as_slice()
        || word == b"remove".as_slice()
        || word == b"swap".as_slice()
}

/// Whether a line asks for a request, by the second of its words.
#[tactic(auto, unfolding(store_text_defs::specs::Requests::asks))]
pub(crate) fn asks(line: &[u8]) -> bool
    ensures { result ≡ plain.asks line.now }
{
    let mut words = Words::words(line);
    let _process = words.next();
    match words.next() {
        Some(verb) => is_verb(verb),
        None => false,
    }
}

/// The line that submits a request, with its line feed.
///
/// # Errors
/// [`NoMemory`] where room is refused.
pub(crate) fn submit_line(alloc: Global, request: &Submission) -> Result<Vec<u8>, NoMemory>
    ensures { IfOk result (λ line. line.items ≡ line_of (submission request.now)) }
{
    let mut line = Vec::new(alloc);
    push_number(&mut line, request.process.get().into())?;
    line.extend_from_slice(b" submit ")?;
    push_hex(&mut line, &request.payload)?;
    line.push(b'\n')?;
    Ok(line)
}
