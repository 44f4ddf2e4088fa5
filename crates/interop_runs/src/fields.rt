ghost use Rattle.std.specs.Prelude.{◌≡◌, ◌≢◌, ◌==◌, ◌≤◌, ◌∷◌, ◌++◌, ℕ, [], List, String, map, IfOk, IsErrOf, OnOk, Option, Some};
ghost use Rattle.std.specs.List.{slice_split};
ghost use Rattle.std.specs.Fmt.{decimal};
ghost use Rattle.std.specs.declared.alloc.Global.{Global as Heap};
ghost use Rattle.text_defs.specs.Words as plain;
ghost use Rattle.text_defs.specs.Words.{Spells};
ghost use Rattle.rp_devices.specs.Links.{ported};
ghost use Rattle.interop_runs.specs.declared.calls.Nth.{Nth as Call};
ghost use Rattle.interop_runs.specs.Calls.{IsCut, kind_word};
ghost use Rattle.interop_runs.specs.Questions.{AreCalls, AreDatagrams, Each, IsCall, IsCutWord, IsDatagram, IsList, IsText, IsWord};

use crate::calls::{Kind, Nth};
use interop_words::{LineFault, read_bytes, read_number, words_of};
use rp_base::NoMemory;
use rp_devices::Datagram;
use std::alloc::{AllocError, Global};

// What is between the colons of a word.
fn parts_of(alloc: Global, word: &[u8]) -> Result<Vec<&[u8]>, AllocError>
    ensures { IfOk result (λ parts. map (λ part. part.now) parts.items ≡ slice_split (λ c. c == 58) word.now) }
{
    word.split(|c| *c == b':').collect(alloc)
}

// What is between the commas of a word.
fn between_commas(alloc: Global, word: &[u8]) -> Result<Vec<&[u8]>, AllocError>
    ensures { IfOk result (λ parts. map (λ part. part.now) parts.items ≡ slice_split (λ c. c == 44) word.now) }
{
    word.split(|c| *c == b',').collect(alloc)
}

// The items of a list, none where the word is a dash.
fn items_of(alloc: Global, word: &[u8]) -> Result<Vec<&[u8]>, AllocError>
    ensures { IfOk result (λ items. IsList word.now (map (λ item. item.now) items.items)) }
{
    if word == b"-".as_slice() {
        Ok(Vec::new(alloc))
    } else {
        between_commas(alloc, word)
    }
}

// One item more.
fn push<T: Drop>(to: &mut Vec<T>, item: T) -> Result<(), NoMemory>
    ensures { OnOk result (to.new.items ≡ to.old.items ++ item ∷ []) }
{
    to.push(item)?;
    Ok(())
}

// The call with this name and number.
fn call_of(kind: &[u8], number: &[u8]) -> Result<Nth, LineFault>
    ensures read { IfOk result (λ call. (kind.now ≡ kind_word call.kind) × (number.now ≡ decimal call.number)
        × (1 ≤ call.number) × (call.number ≤ 4294967295)) }
    ensures none { IsErrOf result LineFault.NoQuestion → (call : Call) → 1 ≤ call.number → call.number ≤ 4294967295
        → kind.now ≡ kind_word call.kind → number.now ≢ decimal call.number }
{
    match Kind::of(kind) {
        Some(kind) => {
            let number = read_number(number, 1, u32::MAX)?;
            Ok(Nth { kind, number })
        }
        None => Err(LineFault::NoQuestion),
    }
}

// The call that a word names.
fn read_call(alloc: Global, word: &[u8]) -> Result<Nth, LineFault>
    ensures read { IfOk result (λ call. IsCall word.now call) }
    ensures none { IsErrOf result LineFault.NoQuestion → (call : Call) → ¬ IsCall word.now call }
{
    let parts = parts_of(alloc, word)?;
    match parts.as_slice() {
        [kind, number] => call_of(kind, number),
        _ => Err(LineFault::NoQuestion),
    }
}

/// The calls that a word lists.
pub(crate) fn read_calls(alloc: Global, word: &[u8]) -> Result<Vec<Nth>, LineFault>
    ensures read { IfOk result (λ calls. AreCalls word.now calls.items) }
    ensures none { IsErrOf result LineFault.NoQuestion → (calls : List Call) → ¬ AreCalls word.now calls }
{
    let items = items_of(alloc, word)?;
    let mut calls = Vec::new(alloc);
    for item in &items {
        push(&mut calls, read_call(alloc, item)?)?;
    }
    Ok(calls)
}

// The call, if a run can be cut off there.
fn cut_at(call: Nth) -> Result<Option<Nth>, LineFault>
    ensures read { IfOk result (λ cut. (cut ≡ Some call) × IsCut call.kind) }
    ensures none { IsErrOf result LineFault.NoQuestion → ¬ IsCut call.kind }
    ensures memory { ¬ IsErrOf result LineFault.NoMemory }
{
    match call.kind {
        Kind::Write | Kind::Sync => Ok(Some(call)),
        _ => Err(LineFault::NoQuestion),
    }
}

/// The call at which a run is cut off, if a word names one.
pub(crate) fn read_cut(alloc: Global, word: &[u8]) -> Result<Option<Nth>, LineFault>
    ensures read { IfOk result (λ cut. IsCutWord word.now cut) }
    ensures none { IsErrOf result LineFault.NoQuestion → (cut : Option Call) → ¬ IsCutWord word.now cut }
{
    if word == b"-".as_slice() {
        Ok(None)
    } else {
        let call = read_call(alloc, word)?;
        cut_at(call)
    }
}

// The datagram with this port and these bytes.
fn datagram_of(alloc: Global, port: &[u8], bytes: &[u8]) -> Result<Datagram, LineFault>
    ensures read { IfOk result (λ d. (port.now ≡ decimal d.port) × (d.port ≤ 65535) × Spells bytes.now d.bytes.items) }
    ensures none { IsErrOf result LineFault.NoQuestion → (n : ℕ) (found : List ℕ) → n ≤ 65535 → port.now ≡ decimal n → ¬ Spells bytes.now found }
{
    let port = read_number(port, 0, u16::MAX.into())? as u16;
    let bytes = read_bytes(alloc, bytes)?;
    Ok(Datagram { port, bytes })
}

// The datagram that a word spells, with its port.
fn read_datagram(alloc: Global, word: &[u8]) -> Result<Datagram, LineFault>
    ensures read { IfOk result (λ d. IsDatagram word.now (ported d)) }
    ensures none { IsErrOf result LineFault.NoQuestion → (d : ℕ × List ℕ) → ¬ IsDatagram word.now d }
{
    let parts = parts_of(alloc, word)?;
    match parts.as_slice() {
        [port, bytes] => datagram_of(alloc, port, bytes),
        _ => Err(LineFault::NoQuestion),
    }
}

/// The datagrams that a word lists.
pub(crate) fn read_datagrams(alloc: Global, word: &[u8]) -> Result<Vec<Datagram>, LineFault>
    ensures read { IfOk result (λ all. AreDatagrams word.now (map ported all.items)) }
    ensures none { IsErrOf result LineFault.NoQuestion → (all : List (ℕ × List ℕ)) → ¬ AreDatagrams word.now all }
{
    let items = items_of(alloc, word)?;
    let mut all = Vec::new(alloc);
    for item in &items {
        push(&mut all, read_datagram(alloc, item)?)?;
    }
    Ok(all)
}

// The word of these bytes.
fn word_of(alloc: Global, bytes: &[u8]) -> Result<String, LineFault>
    ensures read { IfOk result (λ word. IsWord bytes.now word) }
    ensures none { IsErrOf result LineFault.NoQuestion → (word : String Heap) → ¬ IsWord bytes.now word }
{
    match String::from_utf8(bytes.to_vec(alloc)?) {
        Ok(word) => Ok(word),
        Err(_) => Err(LineFault::NoQuestion),
    }
}

// The parts of a text between its spaces, each as a text.
fn words_in(alloc: Global, text: &[u8]) -> Result<Vec<String>, LineFault>
    ensures read { IfOk result (λ words. Each IsWord (plain.words_of text.now) words.items) }
    ensures none { IsErrOf result LineFault.NoQuestion → (words : List (String Heap)) → ¬ Each IsWord (plain.words_of text.now) words }
{
    let parts = words_of(alloc, text)?;
    let mut words = Vec::new(alloc);
    for part in &parts {
        push(&mut words, word_of(alloc, part)?)?;
    }
    Ok(words)
}

/// The program's words that a word spells: none where it is a dash.
pub(crate) fn read_words(alloc: Global, word: &[u8]) -> Result<Vec<String>, LineFault>
    ensures read { IfOk result (λ words. IsText word.now words.items) }
    ensures none { IsErrOf result LineFault.NoQuestion → (words : List (String Heap)) → ¬ IsText word.now words }
{
    let text = read_bytes(alloc, word)?;
    if text.is_empty() {
        Ok(Vec::new(alloc))
    } else {
        words_in(alloc, &text)
    }
}
