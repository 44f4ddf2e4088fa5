//! A line with a reply.
ghost use Rattle.std.specs.Prelude.{◌≡◌, IfOk, OnErr, option_map};
ghost use Rattle.byte_defs.specs.Reads.{Makes};
ghost use Rattle.text_codec.specs.Views.{parts_left};
ghost use Rattle.kit_reading.specs.Faults.{fault_of};
ghost use Rattle.store_asking.specs.Lines.{line_voted, reply_in, reported, reported_behind, reported_by, vote_with};

use crate::words::last_word;
use kit_reading::{Kit, KitFault};
use rp_base::{NoMemory, Pid, Roster};
use std::alloc::Global;
use store_records::read_reply;
use store_words::some_bytes;
use text_codec::{Parts as Words, process};
use vote_client::Vote;

// The process that a line names, and the bytes that it has as its reply.
#[derive(Drop)]
struct Reported {
    process: Pid,
    bytes: Vec<u8>,
}

// What the words after `reply` say.
fn reported_after(alloc: Global, mut words: Words<'_>) -> Result<Option<Reported>, NoMemory>
    ensures { IfOk result (λ found. option_map reported found ≡ reported_behind (parts_left words.entry)) }
{
    let Some(first) = words.next() else {
        return Ok(None);
    };
    let Some(second) = last_word(words) else {
        return Ok(None);
    };
    let Some(process) = process(first) else {
        return Ok(None);
    };
    match some_bytes(alloc, second)? {
        Some(bytes) => Ok(Some(Reported { process, bytes })),
        None => Ok(None),
    }
}

// What the words of a line say.
fn reported_in(alloc: Global, mut words: Words<'_>) -> Result<Option<Reported>, NoMemory>
    ensures { IfOk result (λ found. option_map reported found ≡ reported_by (parts_left words.entry)) }
{
    match words.next() {
        Some(word) if word == b"reply".as_slice() => reported_after(alloc, words),
        _ => Ok(None),
    }
}

// Offers the bytes that the line of this number has as a reply of its process.
#[tactic(auto, using(crate::proofs::Votes::no_record, crate::proofs::Votes::other_signer, crate::proofs::Votes::counted_reported))]
fn offer_reported(
    alloc: Global,
    kit: &Kit,
    keys: &Roster,
    vote: &mut Vote,
    number: usize,
    reported: &Reported,
) -> Result<(), KitFault>
    ensures counted { Makes fault_of (λ _. vote.new) result
        (vote_with kit.now keys.now number vote.old (reply_in reported.now.process reported.now.bytes.items)) }
    ensures unchanged { OnErr result (vote.new ≡ vote.old) }
{
    let Some(reply) = read_reply(&reported.bytes) else {
        return Err(KitFault::Line { line: number });
    };
    if reply.signer != reported.process {
        return Err(KitFault::Line { line: number });
    }
    let key = keys.key(reply.signer);
    let _offer = vote.offer(alloc, &kit.scheme(), &kit.group(), key, &reply)?;
    Ok(())
}

/// Offers the reply of the line of this number, which is given without its line feed, under the reply key of its process.
///
/// # Errors
/// `Line` where the line is no reply of the process that it names, and `NoMemory`; the vote is as before then.
#[tactic(auto, using(crate::proofs::Votes::none_reported, crate::proofs::Votes::some_reported))]
pub(crate) fn offer_line(
    alloc: Global,
    kit: &Kit,
    keys: &Roster,
    vote: &mut Vote,
    number: usize,
    line: &[u8],
) -> Result<(), KitFault>
    ensures counted { Makes fault_of (λ _. vote.new) result (line_voted kit.now keys.now number vote.old line.now) }
    ensures unchanged { OnErr result (vote.new ≡ vote.old) }
{
    let Some(reported) = reported_in(alloc, Words::words(line))? else {
        return Err(KitFault::Line { line: number });
    };
    offer_reported(alloc, kit, keys, vote, number, &reported)
}
