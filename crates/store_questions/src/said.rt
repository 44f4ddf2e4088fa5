//! What a line says to whoever asks.
ghost use Rattle.std.specs.Prelude.{◌≡◌, [], IfOk, option_map, is_some};
ghost use Rattle.std.specs.Option.{option_copied};
ghost use Rattle.text_codec.specs.Views.{parts_left};
ghost use Rattle.kit_defs.specs.Kits.{roster_of};
ghost use Rattle.sig_scheme.specs.Views.{scheme as scheme_in};
ghost use Rattle.store_defs.specs.Asking as plain;
ghost use Rattle.store_question_defs.specs.Lines as lines;
ghost use Rattle.store_question_defs.specs.Lines.{is_reply, key_said, named_view};
ghost use Rattle.store_questions.specs.Said.{is_record, only_word, record_behind, replies_by};

use kit_reading::Kit;
use rp_base::{NoMemory, Pid, Roster};
use sig_scheme::AnyScheme;
use std::alloc::Global;
use store_records::read_reply;
use store_words::{key_in, listed_process, some_bytes};
use text_codec::{Parts as Words, process};
use view_table::View;
use view_words::view_by;

/// How many bytes a line has at most that `ask` reads.
const MOST_LINE_BYTES: usize = 70_000;

// The word that is left, where it is the only one.
fn last_word<'a>(mut words: Words<'a>) -> Option<&'a [u8]>
    ensures { option_copied result ≡ only_word (parts_left words.entry) }
{
    let word = words.next()?;
    if words.is_done() { Some(word) } else { None }
}

// ---- reply keys

// The process whose key the words after `replykey` say.
fn process_after(scheme: AnyScheme, roster: &Roster, mut words: Words<'_>) -> Option<Pid>
    ensures { result ≡ option_map (λ k. k.0) (plain.reply_key_by (scheme_in scheme) (roster_of roster.now) [] (parts_left words.entry)) }
{
    let first = words.next()?;
    let second = last_word(words)?;
    let process = listed_process(roster, first)?;
    let _key = key_in(scheme, second)?;
    Some(process)
}

fn process_by(scheme: AnyScheme, roster: &Roster, mut words: Words<'_>) -> Option<Pid>
    ensures { result ≡ option_map (λ k. k.0) (plain.named_key (scheme_in scheme) (roster_of roster.now) [] (parts_left words.entry)) }
{
    let word = words.next()?;
    if word == b"replykey".as_slice() {
        process_after(scheme, roster, words)
    } else {
        None
    }
}

/// The process whose reply key the line says; None exactly where it says none.
#[tactic(auto, using(crate::proofs::LineWords::long_key, crate::proofs::LineWords::short_key))]
pub(crate) fn process_of_key(kit: &Kit, line: &[u8]) -> Option<Pid>
    ensures { result ≡ option_map (λ k. k.0) (key_said kit.now line.now) }
{
    if line.len() > MOST_LINE_BYTES {
        return None;
    }
    process_by(kit.scheme(), kit.roster(), Words::words(line))
}

// ---- views

fn view_in(mut words: Words<'_>) -> Option<View>
    ensures { result ≡ named_view (parts_left words.entry) }
{
    let word = words.next()?;
    if word == b"view".as_slice() {
        view_by(words)
    } else {
        None
    }
}

/// Whether the line says a view.
#[tactic(auto, using(crate::proofs::LineWords::long_view, crate::proofs::LineWords::short_view))]
pub(crate) fn says_view(line: &[u8]) -> bool
    ensures { result ≡ lines.says_view line.now }
{
    if line.len() > MOST_LINE_BYTES {
        return false;
    }
    view_in(Words::words(line)).is_some()
}

// ---- replies

// Whether the bytes are a reply of this process to the payload.
fn is_record_of(payload: &[u8], process: Pid, bytes: &[u8]) -> bool
    ensures { result ≡ is_record payload.now process bytes.now }
{
    match read_reply(bytes) {
        Some(reply) => reply.signer == process && reply.payload == payload,
        None => false,
    }
}

// Whether the words after `reply` are such a process and its reply.
fn is_reply_after(alloc: Global, payload: &[u8], mut words: Words<'_>) -> Result<bool, NoMemory>
    ensures { IfOk result (λ b. b ≡ record_behind payload.now (parts_left words.entry)) }
{
    let Some(first) = words.next() else {
        return Ok(false);
    };
    let Some(second) = last_word(words) else {
        return Ok(false);
    };
    let Some(process) = process(first) else {
        return Ok(false);
    };
    match some_bytes(alloc, second)? {
        Some(bytes) => Ok(is_record_of(payload, process, &bytes)),
        None => Ok(false),
    }
}

fn is_reply_by(alloc: Global, payload: &[u8], mut words: Words<'_>) -> Result<bool, NoMemory>
    ensures { IfOk result (λ b. b ≡ replies_by payload.now (parts_left words.entry)) }
{
    match words.next() {
        Some(word) if word == b"reply".as_slice() => is_reply_after(alloc, payload, words),
        _ => Ok(false),
    }
}

/// Whether the line says a reply to the payload.
///
/// # Errors
/// [`NoMemory`] where room for its bytes is refused.
#[tactic(auto, using(crate::proofs::LineWords::long_reply, crate::proofs::LineWords::short_reply))]
pub(crate) fn says_reply(alloc: Global, payload: &[u8], line: &[u8]) -> Result<bool, NoMemory>
    ensures { IfOk result (λ b. b ≡ is_reply payload.now line.now) }
{
    if line.len() > MOST_LINE_BYTES {
        return Ok(false);
    }
    is_reply_by(alloc, payload, Words::words(line))
}
