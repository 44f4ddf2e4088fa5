//! What payloads, answers and replies say, as tokens behind others in a line, a space before each.
ghost use Rattle.std.specs.Prelude.{◌≡◌, ◌<◌, ◌++◌, ◌∷◌, [], length, map, OnOk, option_map};
ghost use Rattle.store_records.specs.Views.{command as command_of, reply as reply_of};
ghost use Rattle.store_text_defs.specs.Answers.{answer_tokens, said_tokens};
ghost use Rattle.store_text_defs.specs.Meanings.{payload_tokens, reply_tokens};
ghost use Rattle.store_text_defs.specs.Requests.{asked_tokens};
ghost use Rattle.store_telling.specs.Pieces.{asked_in, place_tokens, reported_text};
ghost use Rattle.store_telling.specs.Views.{answer as answer_in, asked as asked_view};
ghost use Rattle.story_writing.specs.Tokens.{behind, token};

use crate::answers::{Answer, read_answer};
use byte_fields::u64_at;
use rp_base::NoMemory;
use store_records::{Command, Reply, read_request};
use story_writing::{Token, push_behind};

// A command with its tag.
fn push_asked(out: &mut Vec<u8>, tag: u64, asked: Command<'_>) -> Result<(), NoMemory>
    ensures { OnOk result (out.new.items ≡ out.old.items ++ behind (asked_tokens tag (command_of asked.entry))) }
{
    match asked {
        Command::Set { key, value } => push_behind(
            out,
            &[
                Token::Word(b"put"),
                Token::Number(tag),
                Token::Bytes(key),
                Token::Bytes(value),
            ],
        ),
        Command::Get { key } => push_behind(
            out,
            &[Token::Word(b"get"), Token::Number(tag), Token::Bytes(key)],
        ),
        Command::Remove { key } => push_behind(
            out,
            &[
                Token::Word(b"remove"),
                Token::Number(tag),
                Token::Bytes(key),
            ],
        ),
        Command::Exchange {
            key,
            expected,
            value,
        } => push_behind(
            out,
            &[
                Token::Word(b"swap"),
                Token::Number(tag),
                Token::Bytes(key),
                Token::Bytes(expected),
                Token::Bytes(value),
            ],
        ),
    }
}

// The tag and the command of a payload that is a request.
#[tactic(auto, using(crate::proofs::Asked::no_tag, crate::proofs::Asked::tag_read))]
fn asked_in(payload: &[u8]) -> Option<(u64, Command<'_>)>
    ensures { option_map asked_view result ≡ asked_in payload.now }
{
    let asked = read_request(payload)?;
    let (tag, _) = u64_at(payload, ()).ok()?;
    Some((tag, asked))
}

/// Appends what a payload asks of the store.
#[tactic(auto, using(crate::proofs::Asked::request_reported, crate::proofs::Asked::none_reported))]
pub(crate) fn push_payload(out: &mut Vec<u8>, payload: &[u8]) -> Result<(), NoMemory>
    ensures { OnOk result (out.new.items ≡ out.old.items ++ behind (payload_tokens payload.now)) }
{
    match asked_in(payload) {
        Some((tag, asked)) => push_asked(out, tag, asked),
        None => push_behind(out, &[Token::Word(b"no"), Token::Word(b"request")]),
    }
}

fn push_answer(out: &mut Vec<u8>, answer: Answer<'_>) -> Result<(), NoMemory>
    ensures { OnOk result (out.new.items ≡ out.old.items ++ behind (answer_tokens (answer_in answer.entry))) }
{
    match answer {
        Answer::Done => push_behind(out, &[Token::Word(b"done")]),
        Answer::Value(value) => push_behind(out, &[Token::Word(b"value"), Token::Bytes(value)]),
        Answer::Absent => push_behind(out, &[Token::Word(b"absent")]),
        Answer::NoCommand => push_behind(out, &[Token::Word(b"no"), Token::Word(b"request")]),
        Answer::Full => push_behind(out, &[Token::Word(b"full")]),
        Answer::Differs(value) => {
            push_behind(out, &[Token::Word(b"differs"), Token::Bytes(value)])
        }
    }
}

/// Appends what the bytes of an answer say.
pub(crate) fn push_said(out: &mut Vec<u8>, bytes: &[u8]) -> Result<(), NoMemory>
    ensures { OnOk result (out.new.items ≡ out.old.items ++ behind (said_tokens bytes.now)) }
{
    match read_answer(bytes) {
        Some(answer) => push_answer(out, answer),
        None => push_behind(out, &[Token::Word(b"unknown"), Token::Bytes(bytes)]),
    }
}

// Where a reply is from.
fn push_place(out: &mut Vec<u8>, reply: &Reply<'_>) -> Result<(), NoMemory>
    ensures { OnOk result (out.new.items ≡ out.old.items ++ behind (place_tokens (reply_of reply.now))) }
{
    push_behind(
        out,
        &[
            Token::Word(b"view"),
            Token::Number(reply.view.into()),
            Token::Word(b"place"),
            Token::Number(reply.place.into()),
            Token::Word(b"position"),
            Token::Number(reply.position.into()),
            Token::Word(b":"),
        ],
    )
}

/// Appends where a reply is from, what was asked and what was answered.
pub(crate) fn push_reply(out: &mut Vec<u8>, reply: &Reply<'_>) -> Result<(), NoMemory>
    ensures { OnOk result (out.new.items ≡ out.old.items ++ behind (reply_tokens (reply_of reply.now))) }
{
    push_place(out, reply)?;
    push_payload(out, reply.payload)?;
    push_behind(out, &[Token::Word(b":")])?;
    push_said(out, reply.answer)
}

/// Appends a line of these tokens, one at least, behind two blanks.
pub(crate) fn tell_line(out: &mut Vec<u8>, tokens: &[Token<'_>]) -> Result<(), NoMemory>
    requires { 0 < length tokens.now }
    ensures { OnOk result (out.new.items ≡ out.old.items ++ reported_text (map token tokens.now ∷ [])) }
{
    out.push(b' ')?;
    push_behind(out, tokens)?;
    out.push(b'\n')?;
    Ok(())
}
