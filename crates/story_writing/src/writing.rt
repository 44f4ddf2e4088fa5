//! The text of a schedule.
ghost use Rattle.std.specs.Prelude.{◌≡◌, ◌++◌, ◌∷◌, [], map, codes, OnOk};
ghost use Rattle.std.specs.List.{flat_map};
ghost use Rattle.replay_defs.specs.Schedules as schedules;
ghost use Rattle.rp_base.specs.Pids.{mask_of};
ghost use Rattle.schedule_file.specs.Views as views;
ghost use Rattle.story_defs.specs.Texts as plain;
ghost use Rattle.story_writing.specs.Tokens.{behind};

use crate::headers::{push_all_listed, push_genesis, push_group};
use crate::statements_said::push_statement;
use crate::tokens::{Token, begin_line, end_line, push_behind, push_line, push_mask};
use rp_base::{NoMemory, Pid, PidSet};
use schedule_file::{Schedule, ScheduleEvent};

fn push_drain(out: &mut Vec<u8>, count: u32, to: PidSet) -> Result<(), NoMemory>
    ensures { OnOk result (out.new.items ≡ out.old.items ++ plain.token_line (plain.drain_tokens count (mask_of to))) }
{
    begin_line(out, b"drain")?;
    push_behind(out, &[Token::Number(count.into()), Token::Word(b"to")])?;
    push_mask(out, to)?;
    end_line(out)
}

// After the mask of a Lie, its statement.
fn push_said(out: &mut Vec<u8>, statement: &[u8]) -> Result<(), NoMemory>
    ensures { OnOk result (out.new.items ≡ out.old.items ++ (behind (plain.Word (codes ":") ∷ plain.statement_tokens statement.now) ++ 10 ∷ [])) }
{
    push_behind(out, &[Token::Word(b":")])?;
    push_statement(out, statement)?;
    end_line(out)
}

fn push_lie(out: &mut Vec<u8>, signer: Pid, to: PidSet, statement: &[u8]) -> Result<(), NoMemory>
    ensures { OnOk result (out.new.items ≡ out.old.items ++ plain.token_line (plain.lie_tokens signer (mask_of to) statement.now)) }
{
    begin_line(out, b"lie")?;
    push_behind(
        out,
        &[Token::Number(signer.get().into()), Token::Word(b"to")],
    )?;
    push_mask(out, to)?;
    push_said(out, statement)
}

// `P of Q` after this word.
fn push_about(out: &mut Vec<u8>, word: &[u8], at: Pid, of: Pid) -> Result<(), NoMemory>
    ensures { OnOk result (out.new.items ≡ out.old.items ++ plain.token_line (plain.about_tokens word.now at of)) }
{
    push_line(
        out,
        word,
        &[
            Token::Number(at.get().into()),
            Token::Word(b"of"),
            Token::Number(of.get().into()),
        ],
    )
}

fn push_raw(out: &mut Vec<u8>, to: Pid, from: Pid, bytes: &[u8]) -> Result<(), NoMemory>
    ensures { OnOk result (out.new.items ≡ out.old.items ++ plain.token_line (plain.event_tokens (schedules.Raw to from bytes.now))) }
{
    push_line(
        out,
        b"raw",
        &[
            Token::Number(to.get().into()),
            Token::Word(b"from"),
            Token::Number(from.get().into()),
            Token::Bytes(bytes),
        ],
    )
}

fn push_event(out: &mut Vec<u8>, event: &ScheduleEvent) -> Result<(), NoMemory>
    ensures { OnOk result (out.new.items ≡ out.old.items ++ plain.token_line (plain.event_tokens (views.event event.now))) }
{
    match event {
        ScheduleEvent::Submit { at, payload } => push_line(
            out,
            b"submit",
            &[Token::Number(at.get().into()), Token::Bytes(payload)],
        ),
        ScheduleEvent::Raw { to, from, bytes } => push_raw(out, *to, *from, bytes),
        ScheduleEvent::Pass { frame, to } => push_line(
            out,
            b"pass",
            &[
                Token::Number((*frame).into()),
                Token::Word(b"to"),
                Token::Number(to.get().into()),
            ],
        ),
        ScheduleEvent::Drain { count, to } => push_drain(out, *count, *to),
        ScheduleEvent::Lie {
            signer,
            to,
            statement,
        } => push_lie(out, *signer, *to, statement),
        ScheduleEvent::Suspect { at, of } => push_about(out, b"suspect", *at, *of),
        ScheduleEvent::Join { at, of } => push_about(out, b"join", *at, *of),
        ScheduleEvent::Renew { at } => {
            push_line(out, b"renew", &[Token::Number(at.get().into())])
        }
        ScheduleEvent::Tick { at } => push_line(out, b"tick", &[Token::Number(at.get().into())]),
    }
}

fn push_events(out: &mut Vec<u8>, events: &[ScheduleEvent]) -> Result<(), NoMemory>
    ensures { OnOk result (out.new.items ≡ out.old.items
        ++ flat_map plain.token_line (map plain.event_tokens (map views.event events.now))) }
{
    'events: for event in events {
        push_event(out, event)?;
    }
    Ok(())
}

/// Appends the text of a schedule, as docs/FORMATS.md has it.
///
/// # Errors
/// [`NoMemory`] where the room for the text is refused.
#[tactic(auto, unfolding(story_defs::specs::Texts::schedule_text))]
pub fn push_story(schedule: &Schedule, out: &mut Vec<u8>) -> Result<(), NoMemory>
    ensures { OnOk result (out.new.items ≡ out.old.items ++ plain.schedule_text (views.schedule schedule.now)) }
{
    push_group(out, &schedule.header)?;
    push_all_listed(out, &schedule.header.processes)?;
    push_genesis(out, &schedule.header.genesis)?;
    push_events(out, &schedule.events)
}
