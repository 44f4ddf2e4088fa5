//! The lines of events.
ghost use Rattle.std.specs.Prelude.{◌≡◌, ◌++◌, ◌∷◌, [], OnOk, IfOk};
ghost use Rattle.byte_defs.specs.Fields.{four_bytes, text};
ghost use Rattle.byte_defs.specs.Reads.{Makes};
ghost use Rattle.replay_defs.specs.Schedules.{eight_bytes};
ghost use Rattle.story_defs.specs.Lines as plain;
ghost use Rattle.story_lines.specs.Cursors.{left};
ghost use Rattle.story_lines.specs.Faults.{expected_of};

use rp_base::{NoMemory, Pid};
use std::alloc::{AllocError, Global};
use story_lines::{Expected, LineFault, Words};
use story_statements::statement;

const SUBMIT: Expected = Expected::Submit;

const RAW: Expected = Expected::Raw;

const PASS: Expected = Expected::Pass;

const DRAIN: Expected = Expected::Drain;

const LIE: Expected = Expected::Lie;

/// The most bytes that a length of two bytes can give.
const MOST_BYTES: usize = 65_535;

// These bytes, and a text: the lower two bytes of its length, and its own.
fn with_text(alloc: Global, first: &[u8], bytes: &[u8]) -> Result<Vec<u8>, NoMemory>
    ensures { IfOk result (λ all. all.items ≡ first.now ++ text bytes.now) }
{
    let mut all = first.to_vec(alloc)?;
    all.push((bytes.len() / 256 % 256) as u8)?;
    all.push((bytes.len() % 256) as u8)?;
    all.extend_from_slice(bytes)?;
    Ok(all)
}

#[tactic(auto, unfolding(story_defs::specs::Lines::submit_at))]
fn submit(alloc: Global, words: &mut Words<'_>) -> Result<Vec<u8>, LineFault>
    ensures { Makes expected_of (λ bytes. bytes.items) result (plain.submit_at (left words.old)) }
{
    let at = words.process(SUBMIT)?;
    let payload = words.payload(alloc, MOST_BYTES, SUBMIT)?;
    words.end(SUBMIT)?;
    Ok(with_text(alloc, &[1, at.get()], &payload)?)
}

#[tactic(auto, unfolding(story_defs::specs::Lines::raw_at))]
fn raw(alloc: Global, words: &mut Words<'_>) -> Result<Vec<u8>, LineFault>
    ensures { Makes expected_of (λ bytes. bytes.items) result (plain.raw_at (left words.old)) }
{
    let to = words.process(RAW)?;
    words.word(b"from", RAW)?;
    let from = words.process(RAW)?;
    let frame = words.payload(alloc, MOST_BYTES, RAW)?;
    words.end(RAW)?;
    Ok(with_text(alloc, &[2, to.get(), from.get()], &frame)?)
}

fn pass_bytes(alloc: Global, frame: u32, to: Pid) -> Result<Vec<u8>, AllocError>
    ensures { IfOk result (λ bytes. bytes.items ≡ 3 ∷ (four_bytes frame ++ to ∷ [])) }
{
    let [a, b, c, d] = frame.to_be_bytes();
    [3, a, b, c, d, to.get()].to_vec(alloc)
}

#[tactic(auto, unfolding(story_defs::specs::Lines::pass_at))]
fn pass(alloc: Global, words: &mut Words<'_>) -> Result<Vec<u8>, LineFault>
    ensures { Makes expected_of (λ bytes. bytes.items) result (plain.pass_at (left words.old)) }
{
    let frame = words.number(0, u32::MAX, PASS)?;
    words.word(b"to", PASS)?;
    let to = words.process(PASS)?;
    words.end(PASS)?;
    Ok(pass_bytes(alloc, frame, to)?)
}

fn drain_bytes(alloc: Global, count: u32, mask: u64) -> Result<Vec<u8>, NoMemory>
    ensures { IfOk result (λ bytes. bytes.items ≡ 4 ∷ (four_bytes count ++ eight_bytes mask)) }
{
    let mut bytes = [4].to_vec(alloc)?;
    bytes.extend_from_slice(&count.to_be_bytes())?;
    bytes.extend_from_slice(&mask.to_be_bytes())?;
    Ok(bytes)
}

#[tactic(auto, unfolding(story_defs::specs::Lines::drain_at))]
fn drain(alloc: Global, words: &mut Words<'_>) -> Result<Vec<u8>, LineFault>
    ensures { Makes expected_of (λ bytes. bytes.items) result (plain.drain_at (left words.old)) }
{
    let count = words.number(0, u32::MAX, DRAIN)?;
    let mask = words.mask(DRAIN)?;
    words.end(DRAIN)?;
    Ok(drain_bytes(alloc, count, mask)?)
}

// The bytes of a Lie before its statement.
fn lie_front(alloc: Global, signer: Pid, mask: u64) -> Result<Vec<u8>, NoMemory>
    ensures { IfOk result (λ bytes. bytes.items ≡ 5 ∷ signer ∷ eight_bytes mask) }
{
    let mut bytes = [5, signer.get()].to_vec(alloc)?;
    bytes.extend_from_slice(&mask.to_be_bytes())?;
    Ok(bytes)
}

#[tactic(auto, unfolding(story_defs::specs::Lines::lie_at))]
fn lie(alloc: Global, words: &mut Words<'_>) -> Result<Vec<u8>, LineFault>
    ensures { Makes expected_of (λ bytes. bytes.items) result (plain.lie_at (left words.old)) }
{
    let signer = words.process(LIE)?;
    let mask = words.mask(LIE)?;
    words.word(b":", LIE)?;
    let said = statement(alloc, words)?;
    let front = lie_front(alloc, signer, mask)?;
    Ok(with_text(alloc, &front, &said)?)
}

// `P of Q`, of a Suspect or a Join, by its tag.
#[tactic(auto, unfolding(story_defs::specs::Lines::about_at))]
fn about(alloc: Global, x: Expected, tag: u8, words: &mut Words<'_>) -> Result<Vec<u8>, LineFault>
    ensures { Makes expected_of (λ bytes. bytes.items) result (plain.about_at x tag (left words.old)) }
{
    let at = words.process(x)?;
    words.word(b"of", x)?;
    let other = words.process(x)?;
    words.end(x)?;
    Ok([tag, at.get(), other.get()].to_vec(alloc)?)
}

// `P`, of a Renew or a Tick, by its tag.
#[tactic(auto, unfolding(story_defs::specs::Lines::alone_at))]
fn alone(alloc: Global, x: Expected, tag: u8, words: &mut Words<'_>) -> Result<Vec<u8>, LineFault>
    ensures { Makes expected_of (λ bytes. bytes.items) result (plain.alone_at x tag (left words.old)) }
{
    let at = words.process(x)?;
    words.end(x)?;
    Ok([tag, at.get()].to_vec(alloc)?)
}

/// The kind of an event, by its word; None exactly where it is the word of none.
pub fn kind_of_word(word: &[u8]) -> Option<Expected>
    ensures { result ≡ plain.kind_of_word word.now }
{
    if word == b"submit".as_slice() {
        Some(Expected::Submit)
    } else if word == b"raw".as_slice() {
        Some(Expected::Raw)
    } else if word == b"pass".as_slice() {
        Some(Expected::Pass)
    } else if word == b"drain".as_slice() {
        Some(Expected::Drain)
    } else if word == b"lie".as_slice() {
        Some(Expected::Lie)
    } else if word == b"suspect".as_slice() {
        Some(Expected::Suspect)
    } else if word == b"join".as_slice() {
        Some(Expected::Join)
    } else if word == b"renew".as_slice() {
        Some(Expected::Renew)
    } else if word == b"tick".as_slice() {
        Some(Expected::Tick)
    } else {
        None
    }
}

/// The bytes of an event of this kind, by the words after the word of its kind.
pub fn event(alloc: Global, kind: Expected, words: &mut Words<'_>) -> Result<Vec<u8>, LineFault>
    ensures { Makes expected_of (λ bytes. bytes.items) result (plain.event_by kind (left words.old)) }
{
    match kind {
        Expected::Submit => submit(alloc, words),
        Expected::Raw => raw(alloc, words),
        Expected::Pass => pass(alloc, words),
        Expected::Drain => drain(alloc, words),
        Expected::Lie => lie(alloc, words),
        Expected::Suspect => about(alloc, kind, 6, words),
        Expected::Join => about(alloc, kind, 7, words),
        Expected::Renew => alone(alloc, kind, 8, words),
        Expected::Tick => alone(alloc, kind, 9, words),
        _ => Err(LineFault::Expected(Expected::Event)),
    }
}
