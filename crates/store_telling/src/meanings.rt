//! What a line about a store says, in lines of its own.
ghost use Rattle.std.specs.Prelude.{◌≡◌, ◌++◌, ◌∷◌, [], OnOk};
ghost use Rattle.std.specs.Option.{option_copied, option_map_or};
ghost use Rattle.byte_defs.specs.Choices.{and_then};
ghost use Rattle.text_codec.specs.Views.{parts_left};
ghost use Rattle.store_records.specs.Views.{reply as reply_of};
ghost use Rattle.store_text_defs.specs.Answers.{said_tokens};
ghost use Rattle.store_text_defs.specs.Meanings as plain;
ghost use Rattle.store_text_defs.specs.Meanings.{meaning, payload_tokens, reply_tokens};
ghost use Rattle.store_text_defs.specs.Requests.{only};
ghost use Rattle.store_telling.specs.Pieces.{offered_lines, reply_from, taken_tokens, reported_text};

use crate::reported::{push_payload, push_reply, push_said, tell_line};
use crate::sentences::{no_answer, no_reply, no_state, refusal};
use crate::states::tell_state;
use crate::words::{fourth, sixth, three};
use rp_base::{NoMemory, Pid};
use std::alloc::Global;
use store_records::{Reply, read_reply, read_state};
use store_wording::{both, hex_word, only};
use store_words::some_bytes;
use story_writing::Token;
use text_codec::{Parts as Words, process};

// ---- lines of their own

fn tell_payload(out: &mut Vec<u8>, payload: &[u8]) -> Result<(), NoMemory>
    ensures { OnOk result (out.new.items ≡ out.old.items ++ reported_text (payload_tokens payload.now ∷ [])) }
{
    out.push(b' ')?;
    push_payload(out, payload)?;
    out.push(b'\n')?;
    Ok(())
}

fn tell_reply(out: &mut Vec<u8>, reply: &Reply<'_>) -> Result<(), NoMemory>
    ensures { OnOk result (out.new.items ≡ out.old.items ++ reported_text (reply_tokens (reply_of reply.now) ∷ [])) }
{
    out.push(b' ')?;
    push_reply(out, reply)?;
    out.push(b'\n')?;
    Ok(())
}

fn tell_said(out: &mut Vec<u8>, answer: &[u8]) -> Result<(), NoMemory>
    ensures { OnOk result (out.new.items ≡ out.old.items ++ reported_text (said_tokens answer.now ∷ [])) }
{
    out.push(b' ')?;
    push_said(out, answer)?;
    out.push(b'\n')?;
    Ok(())
}

// A sentence, where there is one.
#[tactic(auto, using(crate::proofs::Pieces::nothing_reported))]
fn tell_perhaps(out: &mut Vec<u8>, text: Option<&[u8]>) -> Result<(), NoMemory>
    ensures { OnOk result (out.new.items ≡ out.old.items ++ reported_text (plain.perhaps (option_copied text.entry))) }
{
    match text {
        Some(text) => tell_line(out, &[Token::Word(text)]),
        None => Ok(()),
    }
}

// How many members gave the state that was offered, as the word says.
fn tell_taken(out: &mut Vec<u8>, count: &[u8]) -> Result<(), NoMemory>
    ensures { OnOk result (out.new.items ≡ out.old.items ++ reported_text (taken_tokens count.now ∷ [])) }
{
    tell_line(
        out,
        &[
            Token::Word(b"members that gave this state:"),
            Token::Word(count),
        ],
    )
}

// ---- deliveries

// The words after `deliver`.
#[tactic(auto, using(crate::proofs::Pieces::nothing_reported))]
fn tell_delivery(alloc: Global, words: Words<'_>, out: &mut Vec<u8>) -> Result<(), NoMemory>
    ensures { OnOk result (out.new.items ≡ out.old.items ++ reported_text (plain.deliver_lines (parts_left words.entry))) }
{
    let Some(word) = sixth(words) else {
        return Ok(());
    };
    match hex_word(alloc, word)? {
        Some(payload) => tell_payload(out, &payload),
        None => Ok(()),
    }
}

// ---- replies

// What a word says that spells these bytes: the reply of this process, if they are one.
fn tell_record(p: Pid, word: &[u8], bytes: &[u8], out: &mut Vec<u8>) -> Result<(), NoMemory>
    ensures { OnOk result (out.new.items ≡ out.old.items ++ reported_text (plain.reply_or word.now (reply_from p bytes.now))) }
{
    let Some(reply) = read_reply(bytes) else {
        return tell_perhaps(out, no_reply(word));
    };
    if reply.signer != p {
        return tell_perhaps(out, no_reply(word));
    }
    tell_reply(out, &reply)
}

// What a process replied.
fn tell_replied(alloc: Global, p: Pid, word: &[u8], out: &mut Vec<u8>) -> Result<(), NoMemory>
    ensures { OnOk result (out.new.items ≡ out.old.items ++ reported_text (plain.reply_said p word.now)) }
{
    match some_bytes(alloc, word)? {
        Some(bytes) => tell_record(p, word, &bytes, out),
        None => tell_perhaps(out, no_reply(word)),
    }
}

// The words after `reply`.
#[tactic(auto, using(crate::proofs::Pieces::nothing_reported))]
fn tell_reply_line(alloc: Global, words: Words<'_>, out: &mut Vec<u8>) -> Result<(), NoMemory>
    ensures { OnOk result (out.new.items ≡ out.old.items ++ reported_text (plain.reply_lines (parts_left words.entry))) }
{
    let Some((first, word)) = both(words) else {
        return Ok(());
    };
    match process(first) {
        Some(p) => tell_replied(alloc, p, word, out),
        None => Ok(()),
    }
}

// ---- states

// What a word says that spells these bytes: the store of this process's state record, if they are one.
fn tell_state_of(p: Pid, word: &[u8], bytes: &[u8], out: &mut Vec<u8>) -> Result<(), NoMemory>
    ensures { OnOk result (out.new.items ≡ out.old.items ++ reported_text (plain.state_or word.now (plain.state_from p bytes.now))) }
{
    let Some(given) = read_state(bytes) else {
        return tell_perhaps(out, no_state(word));
    };
    if given.signer != p {
        return tell_perhaps(out, no_state(word));
    }
    tell_state(out, &given)
}

// What a process gave, or made of an offer in one word.
fn tell_given(alloc: Global, p: Pid, word: &[u8], out: &mut Vec<u8>) -> Result<(), NoMemory>
    ensures { OnOk result (out.new.items ≡ out.old.items ++ reported_text (plain.state_said p word.now)) }
{
    match some_bytes(alloc, word)? {
        Some(bytes) => tell_state_of(p, word, &bytes, out),
        None => tell_perhaps(out, no_state(word)),
    }
}

// What two words say of an offer.
#[tactic(auto, using(crate::proofs::Pieces::nothing_reported, crate::proofs::Pieces::refused_reported))]
fn tell_offered(out: &mut Vec<u8>, word: &[u8], more: &[u8]) -> Result<(), NoMemory>
    ensures { OnOk result (out.new.items ≡ out.old.items ++ reported_text (offered_lines (plain.offered word.now more.now))) }
{
    if word == b"taken".as_slice() {
        tell_taken(out, more)
    } else if word == b"refused".as_slice() {
        tell_perhaps(out, refusal(more))
    } else {
        Ok(())
    }
}

// The three words after `state` of an offer.
#[tactic(auto, using(crate::proofs::Pieces::nothing_reported))]
fn tell_offer(words: Words<'_>, out: &mut Vec<u8>) -> Result<(), NoMemory>
    ensures { OnOk result (out.new.items
        ≡ out.old.items ++ reported_text (option_map_or plain.offer_lines (plain.three (parts_left words.entry)) [])) }
{
    let Some((first, word, more)) = three(words) else {
        return Ok(());
    };
    match process(first) {
        Some(_) => tell_offered(out, word, more),
        None => Ok(()),
    }
}

// The words after `state`.
#[tactic(auto, using(crate::proofs::Pieces::nothing_reported))]
fn tell_state_line(alloc: Global, words: Words<'_>, out: &mut Vec<u8>) -> Result<(), NoMemory>
    ensures { OnOk result (out.new.items ≡ out.old.items ++ reported_text (plain.given_lines (parts_left words.entry))) }
{
    let Some((first, word)) = both(words) else {
        return tell_offer(words, out);
    };
    match process(first) {
        Some(p) => tell_given(alloc, p, word, out),
        None => Ok(()),
    }
}

// ---- answers

// The only word after `answer`, in the place of an answer.
#[tactic(auto, using(crate::proofs::Pieces::nothing_reported))]
fn tell_no_answer(words: Words<'_>, out: &mut Vec<u8>) -> Result<(), NoMemory>
    ensures { OnOk result (out.new.items ≡ out.old.items
        ++ reported_text (plain.perhaps (and_then (only (parts_left words.entry)) plain.no_answer))) }
{
    match only(words) {
        Some(word) => tell_perhaps(out, no_answer(word)),
        None => Ok(()),
    }
}

// The words after `answer`.
#[tactic(auto, using(crate::proofs::Pieces::nothing_reported))]
fn tell_answer_line(alloc: Global, words: Words<'_>, out: &mut Vec<u8>) -> Result<(), NoMemory>
    ensures { OnOk result (out.new.items ≡ out.old.items ++ reported_text (plain.answer_lines (parts_left words.entry))) }
{
    let Some(word) = fourth(words) else {
        return tell_no_answer(words, out);
    };
    match some_bytes(alloc, word)? {
        Some(answer) => tell_said(out, &answer),
        None => Ok(()),
    }
}

// ---- a line

/// Appends what the line says, which is given without its line feed.
///
/// # Errors
/// [`NoMemory`] where room is refused.
#[tactic(auto, using(crate::proofs::Pieces::nothing_reported), unfolding(store_text_defs::specs::Meanings::meaning, crate::specs::Pieces::reported_text))]
pub(crate) fn push_meaning(alloc: Global, line: &[u8], out: &mut Vec<u8>) -> Result<(), NoMemory>
    ensures { OnOk result (out.new.items ≡ out.old.items ++ meaning line.now) }
{
    let mut words = Words::words(line);
    let Some(word) = words.next() else {
        return Ok(());
    };
    if word == b"deliver".as_slice() {
        tell_delivery(alloc, words, out)
    } else if word == b"reply".as_slice() {
        tell_reply_line(alloc, words, out)
    } else if word == b"state".as_slice() {
        tell_state_line(alloc, words, out)
    } else if word == b"answer".as_slice() {
        tell_answer_line(alloc, words, out)
    } else {
        Ok(())
    }
}
