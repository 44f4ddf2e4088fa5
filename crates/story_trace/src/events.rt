//! What the schedule lets happen, and who takes part.
ghost use Rattle.std.specs.Prelude.{◌≡◌, ◌++◌, ◌∷◌, [], codes, map, if◌then◌else◌, OnOk};
ghost use Rattle.std.specs.List.{flat_map};
ghost use Rattle.text_defs.specs.Words.{line_text};
ghost use Rattle.rp_base.specs.Pids.{mask_of};
ghost use Rattle.replay_defs.specs.Schedules as schedules;
ghost use Rattle.schedule_file.specs.Views as views;
ghost use Rattle.trace_defs.specs.Events as plain;

use rp_base::{NoMemory, Pid, PidSet};
use schedule_file::{Header, Listed, ScheduleEvent};
use story_words::{
    Word, end_line, event_line, event_with_payload, event_with_processes, process_word, push_line,
    push_members, push_word,
};

fn push_submit(out: &mut Vec<u8>, n: u64, at: Pid, payload: &[u8]) -> Result<(), NoMemory>
    ensures { OnOk result (out.new.items ≡ out.old.items ++ line_text (plain.event_line n (schedules.Submit at payload.now))) }
{
    event_with_payload(
        out,
        n,
        &[process_word(at), Word::Text(b"is asked to send")],
        payload,
    )
}

fn push_raw(out: &mut Vec<u8>, n: u64, to: Pid, from: Pid, bytes: &[u8]) -> Result<(), NoMemory>
    ensures { OnOk result (out.new.items ≡ out.old.items ++ line_text (plain.event_line n (schedules.Raw to from bytes.now))) }
{
    event_line(
        out,
        n,
        &[
            Word::Number(bytes.len() as u64),
            Word::Text(b"bytes are handed to"),
            process_word(to),
            Word::Text(b"as a frame of"),
            process_word(from),
        ],
    )
}

fn push_pass(out: &mut Vec<u8>, n: u64, frame: u32, to: Pid) -> Result<(), NoMemory>
    ensures { OnOk result (out.new.items ≡ out.old.items ++ line_text (plain.event_line n (schedules.Pass frame to))) }
{
    event_line(
        out,
        n,
        &[
            Word::Text(b"frame"),
            Word::Number(frame.into()),
            Word::Text(b"is handed to"),
            process_word(to),
        ],
    )
}

fn push_drain(out: &mut Vec<u8>, n: u64, count: u32, to: PidSet) -> Result<(), NoMemory>
    ensures { OnOk result (out.new.items ≡ out.old.items ++ line_text (plain.event_line n (schedules.Drain count (mask_of to)))) }
{
    event_with_processes(
        out,
        n,
        &[
            Word::Text(b"up to"),
            Word::Number(count.into()),
            Word::Text(b"deliveries are made to"),
        ],
        PidSet::from_mask(to.mask()),
    )
}

// The line of a lie does not say what the lie is.
fn push_lie(out: &mut Vec<u8>, n: u64, signer: Pid, to: PidSet) -> Result<(), NoMemory>
    ensures { OnOk result (out.new.items ≡ out.old.items ++ line_text (plain.event_line n (schedules.Lie signer (mask_of to) []))) }
{
    event_with_processes(
        out,
        n,
        &[process_word(signer), Word::Text(b"lies to")],
        PidSet::from_mask(to.mask()),
    )
}

fn push_suspect(out: &mut Vec<u8>, n: u64, at: Pid, of: Pid) -> Result<(), NoMemory>
    ensures { OnOk result (out.new.items ≡ out.old.items ++ line_text (plain.event_line n (schedules.Suspect at of))) }
{
    event_line(
        out,
        n,
        &[
            process_word(at),
            Word::Text(b"is told to have"),
            process_word(of),
            Word::Text(b"removed"),
        ],
    )
}

fn push_join(out: &mut Vec<u8>, n: u64, at: Pid, of: Pid) -> Result<(), NoMemory>
    ensures { OnOk result (out.new.items ≡ out.old.items ++ line_text (plain.event_line n (schedules.Join at of))) }
{
    event_line(
        out,
        n,
        &[
            process_word(at),
            Word::Text(b"is told to have"),
            process_word(of),
            Word::Text(b"added"),
        ],
    )
}

fn push_renew(out: &mut Vec<u8>, n: u64, at: Pid) -> Result<(), NoMemory>
    ensures { OnOk result (out.new.items ≡ out.old.items ++ line_text (plain.event_line n (schedules.Renew at))) }
{
    event_line(
        out,
        n,
        &[process_word(at), Word::Text(b"is told to have a next view")],
    )
}

fn push_tick(out: &mut Vec<u8>, n: u64, at: Pid) -> Result<(), NoMemory>
    ensures { OnOk result (out.new.items ≡ out.old.items ++ line_text (plain.event_line n (schedules.Tick at))) }
{
    event_line(out, n, &[Word::Text(b"time passes for"), process_word(at)])
}

/// The event of this number.
pub(crate) fn push_event(out: &mut Vec<u8>, n: u64, event: &ScheduleEvent) -> Result<(), NoMemory>
    ensures { OnOk result (out.new.items ≡ out.old.items ++ line_text (plain.event_line n (views.event event.now))) }
{
    match event {
        ScheduleEvent::Submit { at, payload } => push_submit(out, n, *at, payload),
        ScheduleEvent::Raw { to, from, bytes } => push_raw(out, n, *to, *from, bytes),
        ScheduleEvent::Pass { frame, to } => push_pass(out, n, *frame, *to),
        ScheduleEvent::Drain { count, to } => push_drain(out, n, *count, *to),
        ScheduleEvent::Lie { signer, to, .. } => push_lie(out, n, *signer, *to),
        ScheduleEvent::Suspect { at, of } => push_suspect(out, n, *at, *of),
        ScheduleEvent::Join { at, of } => push_join(out, n, *at, *of),
        ScheduleEvent::Renew { at } => push_renew(out, n, *at),
        ScheduleEvent::Tick { at } => push_tick(out, n, *at),
    }
}

fn role(corrupt: bool) -> &'static [u8]
    ensures { result.now ≡ (if corrupt then codes "corrupt" else codes "correct") }
{
    if corrupt { b"corrupt" } else { b"correct" }
}

// A process, and its role.
fn push_role(out: &mut Vec<u8>, one: &Listed) -> Result<(), NoMemory>
    ensures { OnOk result (out.new.items ≡ out.old.items ++ line_text (plain.role_line (views.listed one.now))) }
{
    push_line(
        out,
        Word::Text(b"process"),
        &[
            Word::Head(one.process.get().into()),
            Word::Text(role(one.corrupt)),
        ],
    )
}

fn push_roles(out: &mut Vec<u8>, processes: &[Listed]) -> Result<(), NoMemory>
    ensures { OnOk result (out.new.items ≡ out.old.items ++ flat_map line_text (map plain.role_line (map views.listed processes.now))) }
{
    for one in processes {
        push_role(out, one)?;
    }
    Ok(())
}

// The members of view 0.
fn push_genesis(out: &mut Vec<u8>, members: &[Pid]) -> Result<(), NoMemory>
    ensures { OnOk result (out.new.items ≡ out.old.items ++ flat_map line_text (plain.genesis_line members.now ∷ [])) }
{
    push_word(out, Word::Text(b"view 0:"))?;
    push_members(out, members)?;
    end_line(out)?;
    Ok(())
}

/// Who takes part.
pub(crate) fn push_cast(out: &mut Vec<u8>, header: &Header) -> Result<(), NoMemory>
    ensures { OnOk result (out.new.items ≡ out.old.items ++ flat_map line_text (plain.cast_lines (views.header header.now))) }
{
    push_roles(out, &header.processes)?;
    push_genesis(out, header.genesis.as_slice())?;
    Ok(())
}
