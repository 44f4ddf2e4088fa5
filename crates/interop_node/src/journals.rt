ghost use Rattle.std.specs.Prelude.{◌≡◌, ◌≢◌, ◌<◌, ◌++◌, ℕ, List, length, take, codes, IfOk, OnOk, IfSome, IfNone};
ghost use Rattle.std.specs.List.{flat_map};
ghost use Rattle.std.specs.Fmt.{decimal};
ghost use Rattle.journal_defs.specs.declared.Version.{Version as Kind};
ghost use Rattle.journal_defs.specs.Entries as plain;
ghost use Rattle.journal_defs.specs.Journals.{BreaksAt, ReadsAs, batch_limit, magic};
ghost use Rattle.journal_entries.specs.Views.{entry as entry_of, event as event_of};
ghost use Rattle.member_events.specs.Kept.{signatures_left};
ghost use Rattle.interop_node.specs.Journals.{BeginsAs, SaysOfJournal, entry_words, event_words, header_of, signature_words, spent_word};

use journal_defs::Version;
use journal_entries::entry_at;
use member_events::{Entry, EntrySignatures, Event};
use rp_base::{NoMemory, Pid};
use std::alloc::Global;
use text_codec::{push_byte_list, push_number};

/// The bytes of a header, after which the first gate comes.
const HEADER_BYTES: usize = 60;

/// The bytes of a magic.
const MAGIC_BYTES: usize = 4;

// ---- entries

fn push_of_process(out: &mut Vec<u8>, word: &[u8], process: Pid) -> Result<(), NoMemory>
    ensures { OnOk result (out.new.items ≡ out.old.items ++ (word.now ++ decimal process)) }
{
    out.extend_from_slice(word)?;
    push_number(out, process.get().into())
}

fn push_submit(out: &mut Vec<u8>, payload: &[u8]) -> Result<(), NoMemory>
    ensures { OnOk result (out.new.items ≡ out.old.items ++ event_words (plain.Submit payload.now)) }
{
    out.extend_from_slice(b"submit ")?;
    push_byte_list(out, payload)
}

fn push_frame(out: &mut Vec<u8>, from: Pid, bytes: &[u8]) -> Result<(), NoMemory>
    ensures { OnOk result (out.new.items ≡ out.old.items ++ event_words (plain.Frame from bytes.now)) }
{
    push_of_process(out, b"frame ", from)?;
    out.extend_from_slice(b" ")?;
    push_byte_list(out, bytes)
}

fn push_word(out: &mut Vec<u8>, word: &[u8]) -> Result<(), NoMemory>
    ensures { OnOk result (out.new.items ≡ out.old.items ++ word.now) }
{
    out.extend_from_slice(word)?;
    Ok(())
}

fn push_event(out: &mut Vec<u8>, event: &Event<'_>) -> Result<(), NoMemory>
    ensures { OnOk result (out.new.items ≡ out.old.items ++ event_words (event_of event.now)) }
{
    match *event {
        Event::Submit(payload) => push_submit(out, payload),
        Event::Frame { from, bytes } => push_frame(out, from, bytes),
        Event::Suspect(process) => push_of_process(out, b"suspect ", process),
        Event::Join(process) => push_of_process(out, b"join ", process),
        Event::Renew => push_word(out, b"renew"),
        Event::Tick => push_word(out, b"tick"),
    }
}

fn spent_word_of(spent: bool) -> &'static [u8]
    ensures { result.now ≡ spent_word spent }
{
    if spent { b" 1" } else { b" 0" }
}

// Each signature after a space.
fn push_signatures(out: &mut Vec<u8>, signatures: EntrySignatures<'_>) -> Result<(), NoMemory>
    ensures { OnOk result (out.new.items ≡ out.old.items ++ flat_map signature_words (signatures_left signatures.entry)) }
{
    let mut left = signatures;
    'signatures: while let Some(signature) = left.next() {
        out.extend_from_slice(b" ")?;
        push_byte_list(out, signature)?;
    }
    Ok(())
}

fn push_entry(out: &mut Vec<u8>, entry: &Entry<'_>) -> Result<(), NoMemory>
    ensures { OnOk result (out.new.items ≡ out.old.items ++ entry_words (entry_of entry.now)) }
{
    push_of_process(out, b" entry ", entry.process)?;
    out.extend_from_slice(b" ")?;
    push_event(out, &entry.event)?;
    out.extend_from_slice(spent_word_of(entry.spent))?;
    push_signatures(out, entry.signatures)
}

// Each entry up to the first gate that is not open. The place of a gate that is open, with no entry after it.
fn push_entries(out: &mut Vec<u8>, bytes: &[u8]) -> Result<Option<u64>, NoMemory>
    requires { 60 < length bytes.now }
    ensures entries { IfOk result (λ o. IfNone o ((es : List plain.Entry)
        × ReadsAs (header_of bytes.now) bytes.now es × (out.new.items ≡ out.old.items ++ flat_map entry_words es))) }
    ensures broken { IfOk result (λ o. IfSome o (BreaksAt (header_of bytes.now) bytes.now)) }
{
    let mut place = HEADER_BYTES as u64;
    'entries: loop {
        match entry_at(bytes, place) {
            Ok(Some((entry, next))) => {
                push_entry(out, &entry)?;
                place = next;
            }
            Ok(None) => return Ok(None),
            Err(at) => return Ok(Some(at)),
        }
    }
}

// ---- journals

// The kind of journal as which the bytes begin. None, exactly where they begin as none.
fn version_of(bytes: &[u8]) -> Option<Version>
    ensures found { IfSome result (λ v. BeginsAs v bytes.now) }
    ensures none { IfNone result ((v : Kind) → ¬ BeginsAs v bytes.now) }
{
    if bytes.len() <= HEADER_BYTES {
        return None;
    }
    let (letters, _) = bytes.split_at(MAGIC_BYTES);
    if letters == b"RPJ2".as_slice() {
        return Some(Version::Two);
    }
    if letters == b"RPJ1".as_slice() {
        return Some(Version::One);
    }
    None
}

// How many messages a process orders at a place.
fn limit_of(version: Version) -> u64
    ensures { result ≡ batch_limit version }
{
    match version {
        Version::One => 1,
        Version::Two => 16,
    }
}

// `journal`, and that limit.
fn limit_words(alloc: Global, version: Version) -> Result<Vec<u8>, NoMemory>
    ensures { IfOk result (λ reported. reported.items ≡ codes "journal " ++ decimal (batch_limit version)) }
{
    let mut reported = b"journal ".to_vec(alloc)?;
    push_number(&mut reported, limit_of(version))?;
    Ok(reported)
}

// `entry`, and the place.
fn place_words(alloc: Global, place: u64) -> Result<Vec<u8>, NoMemory>
    ensures { IfOk result (λ reported. reported.items ≡ codes "entry " ++ decimal place) }
{
    let mut reported = b"entry ".to_vec(alloc)?;
    push_number(&mut reported, place)?;
    Ok(reported)
}

/// What the bytes say as a journal: `journal LIMIT` and for each entry ` entry PROCESS EVENT SPENT` and its signatures; or `entry PLACE`,
/// the place of a gate that is open and that no whole entry and next gate follow; or `notajournal`.
pub(crate) fn answer_journal(alloc: Global, bytes: &[u8]) -> Result<Vec<u8>, NoMemory>
    ensures { IfOk result (λ reported. SaysOfJournal bytes.now reported.items) }
{
    let Some(version) = version_of(bytes) else {
        return Ok(b"notajournal".to_vec(alloc)?);
    };
    let mut reported = limit_words(alloc, version)?;
    match push_entries(&mut reported, bytes)? {
        None => Ok(reported),
        Some(place) => place_words(alloc, place),
    }
}
