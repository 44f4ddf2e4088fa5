//! Events of a schedule, read without memory, and copied.
ghost use Rattle.std.specs.Prelude.{◌≡◌, is_ok, nat_le, IfOk, IfErr, Ok, Err};
ghost use Rattle.std.specs.Int.{w16};
ghost use Rattle.byte_defs.specs.Reads.{Gives, Makes};
ghost use Rattle.byte_defs.specs.Members.{has};
ghost use Rattle.message_defs.specs.Reading.{statement_of};
ghost use Rattle.replay_defs.specs.Schedules as schedules;
ghost use Rattle.replay_defs.specs.Reading as plain;
ghost use Rattle.replay_defs.specs.declared.FaultKind.TheVariants as kinds;
ghost use Rattle.schedule_file.specs.Views as views;
ghost use Rattle.schedule_events.specs.Seen.{seen, roles};
ghost use Rattle.schedule_fields.specs.Faults.{found_of};

use replay_defs::{FaultKind, Found};
use rp_base::{Pid, PidSet};
use schedule_fields::{ReadError, Reader};
use schedule_file::ScheduleEvent;
use statements::read_statement;
use std::alloc::{AllocError, Global};

/// The most steps of a schedule.
pub const STEPS: u32 = 1_000_000;

/// The most bytes of a Raw.
const RAW_BYTES: u16 = 61_440;

const SUBMIT: u8 = 1;

const RAW: u8 = 2;

const PASS: u8 = 3;

const DRAIN: u8 = 4;

const LIE: u8 = 5;

const SUSPECT: u8 = 6;

const JOIN: u8 = 7;

const RENEW: u8 = 8;

const TICK: u8 = 9;

/// Who is correct, and who is corrupt.
#[derive(Clone, Copy)]
pub struct Roles {
    pub correct: PidSet,
    pub corrupt: PidSet,
}

/// An event whose bytes are still in the input.
#[derive(Clone, Copy)]
pub enum Seen<'a> {
    Submit {
        at: Pid,
        payload: &'a [u8],
    },
    Raw {
        to: Pid,
        from: Pid,
        bytes: &'a [u8],
    },
    Pass {
        frame: u32,
        to: Pid,
    },
    Drain {
        count: u32,
        to: PidSet,
    },
    Lie {
        signer: Pid,
        to: PidSet,
        statement: &'a [u8],
    },
    Suspect {
        at: Pid,
        of: Pid,
    },
    Join {
        at: Pid,
        of: Pid,
    },
    Renew {
        at: Pid,
    },
    Tick {
        at: Pid,
    },
}

/// A tag, and how many steps its event takes.
#[derive(Clone, Copy)]
struct Tag {
    tag: u8,
    steps: u32,
}

fn is_statement(bytes: &[u8]) -> bool
    ensures { result ≡ is_ok (statement_of bytes.now) }
{
    read_statement(bytes).is_ok()
}

#[tactic(auto, unfolding(replay_defs::specs::Reading::submit_at))]
fn read_submit<'a>(of: &Roles, reader: &mut Reader<'a>) -> Result<Seen<'a>, Found>
    ensures { Gives (λ e. (seen e, reader.new.rest.now)) result (plain.submit_at (roles of.now) reader.old.rest.now) }
{
    let at = reader.process_in(of.correct, FaultKind::Field)?;
    let payload = reader.text(u16::MAX)?;
    Ok(Seen::Submit { at, payload })
}

#[tactic(auto, unfolding(replay_defs::specs::Reading::raw_at))]
fn read_raw<'a>(of: &Roles, reader: &mut Reader<'a>) -> Result<Seen<'a>, Found>
    ensures { Gives (λ e. (seen e, reader.new.rest.now)) result (plain.raw_at (roles of.now) reader.old.rest.now) }
{
    let to = reader.process_in(of.correct, FaultKind::Field)?;
    let from = reader.process()?;
    let bytes = reader.text(RAW_BYTES)?;
    Ok(Seen::Raw { to, from, bytes })
}

#[tactic(auto, unfolding(replay_defs::specs::Reading::pass_at))]
fn read_pass<'a>(of: &Roles, reader: &mut Reader<'_>) -> Result<Seen<'a>, Found>
    ensures { Gives (λ e. (seen e, reader.new.rest.now)) result (plain.pass_at (roles of.now) reader.old.rest.now) }
{
    let frame = reader.long()?;
    let to = reader.process_in(of.correct, FaultKind::Field)?;
    Ok(Seen::Pass { frame, to })
}

#[tactic(auto, unfolding(replay_defs::specs::Reading::drain_at))]
fn read_drain<'a>(of: &Roles, reader: &mut Reader<'_>) -> Result<Seen<'a>, Found>
    ensures { Gives (λ e. (seen e, reader.new.rest.now)) result (plain.drain_at (roles of.now) reader.old.rest.now) }
{
    let count = reader.long()?;
    let to = reader.processes()?;
    Ok(Seen::Drain { count, to })
}

// A statement of `len` bytes, without fault.
fn read_lied<'a>(len: u16, reader: &mut Reader<'a>) -> Result<&'a [u8], Found>
    ensures { Gives (λ st. (st.now, reader.new.rest.now)) result
        (plain.tested (λ st. is_ok (statement_of st)) kinds.Field (plain.field_at len) reader.old.rest.now) }
{
    let fault = reader.fault(FaultKind::Field);
    let statement = reader.bytes(len as usize)?;
    if !is_statement(statement) {
        return Err(fault);
    }
    Ok(statement)
}

#[tactic(auto, unfolding(replay_defs::specs::Reading::lie_at))]
fn read_lie<'a>(of: &Roles, reader: &mut Reader<'a>) -> Result<Seen<'a>, Found>
    ensures { Gives (λ e. (seen e, reader.new.rest.now)) result (plain.lie_at (roles of.now) reader.old.rest.now) }
{
    let signer = reader.process_in(of.corrupt, FaultKind::Field)?;
    let to = reader.processes()?;
    let len = reader.short()?;
    let statement = read_lied(len, reader)?;
    Ok(Seen::Lie {
        signer,
        to,
        statement,
    })
}

#[tactic(auto, unfolding(replay_defs::specs::Reading::about_at))]
fn read_suspect<'a>(of: &Roles, reader: &mut Reader<'_>) -> Result<Seen<'a>, Found>
    ensures { Gives (λ e. (seen e, reader.new.rest.now)) result (plain.about_at (roles of.now) schedules.Suspect reader.old.rest.now) }
{
    let at = reader.process_in(of.correct, FaultKind::Field)?;
    let other = reader.process()?;
    Ok(Seen::Suspect { at, of: other })
}

#[tactic(auto, unfolding(replay_defs::specs::Reading::about_at))]
fn read_join<'a>(of: &Roles, reader: &mut Reader<'_>) -> Result<Seen<'a>, Found>
    ensures { Gives (λ e. (seen e, reader.new.rest.now)) result (plain.about_at (roles of.now) schedules.Join reader.old.rest.now) }
{
    let at = reader.process_in(of.correct, FaultKind::Field)?;
    let other = reader.process()?;
    Ok(Seen::Join { at, of: other })
}

#[tactic(auto, unfolding(replay_defs::specs::Reading::alone_at))]
fn read_renew<'a>(of: &Roles, reader: &mut Reader<'_>) -> Result<Seen<'a>, Found>
    ensures { Gives (λ e. (seen e, reader.new.rest.now)) result (plain.alone_at (roles of.now) schedules.Renew reader.old.rest.now) }
{
    let at = reader.process_in(of.correct, FaultKind::Field)?;
    Ok(Seen::Renew { at })
}

#[tactic(auto, unfolding(replay_defs::specs::Reading::alone_at))]
fn read_tick<'a>(of: &Roles, reader: &mut Reader<'_>) -> Result<Seen<'a>, Found>
    ensures { Gives (λ e. (seen e, reader.new.rest.now)) result (plain.alone_at (roles of.now) schedules.Tick reader.old.rest.now) }
{
    let at = reader.process_in(of.correct, FaultKind::Field)?;
    Ok(Seen::Tick { at })
}

// The fields by the tag, which is one of the table.
#[tactic(auto, unfolding(replay_defs::specs::Reading::fields_at))]
fn read_fields<'a>(tag: u8, of: &Roles, reader: &mut Reader<'a>) -> Result<Seen<'a>, Found>
    ensures { Gives (λ e. (seen e, reader.new.rest.now)) result (plain.fields_at (roles of.now) tag reader.old.rest.now) }
{
    match tag {
        SUBMIT => read_submit(of, reader),
        RAW => read_raw(of, reader),
        PASS => read_pass(of, reader),
        DRAIN => read_drain(of, reader),
        LIE => read_lie(of, reader),
        SUSPECT => read_suspect(of, reader),
        JOIN => read_join(of, reader),
        RENEW => read_renew(of, reader),
        _ => read_tick(of, reader),
    }
}

// How many steps the event of this tag takes: as many as a Drain counts, else one.
#[tactic(auto, unfolding(replay_defs::specs::Reading::steps_at))]
fn read_steps(tag: u8, reader: &mut Reader<'_>) -> Result<u32, Found>
    ensures { Gives (λ n. (n, reader.new.rest.now)) result (plain.steps_at tag reader.old.rest.now) }
{
    if tag == DRAIN { reader.long() } else { Ok(1) }
}

#[tactic(auto, unfolding(replay_defs::specs::Reading::tag_at))]
fn read_tag(reader: &mut Reader<'_>) -> Result<Tag, Found>
    ensures { Gives (λ t. ((t.tag, t.steps), reader.new.rest.now)) result (plain.tag_at reader.old.rest.now) }
{
    let tag = reader.byte_from(SUBMIT, TICK, FaultKind::Tag)?;
    let mut ahead = Reader { rest: reader.rest };
    let steps = read_steps(tag, &mut ahead)?;
    Ok(Tag { tag, steps })
}

fn read_tag_within(left: u32, reader: &mut Reader<'_>) -> Result<Tag, Found>
    ensures { Gives (λ t. ((t.tag, t.steps), reader.new.rest.now)) result
        (plain.tested (λ tag. nat_le tag.1 left) kinds.TooMany plain.tag_at reader.old.rest.now) }
{
    let fault = reader.fault(FaultKind::TooMany);
    let tag = read_tag(reader)?;
    if tag.steps > left {
        return Err(fault);
    }
    Ok(tag)
}

// An event, where `left` steps are left.
#[tactic(auto, unfolding(replay_defs::specs::Reading::event_at))]
fn read_seen<'a>(of: &Roles, left: u32, reader: &mut Reader<'a>) -> Result<Seen<'a>, Found>
    ensures { Gives (λ e. (seen e, reader.new.rest.now)) result (plain.event_at (roles of.now) left reader.old.rest.now) }
{
    let tag = read_tag_within(left, reader)?;
    read_fields(tag.tag, of, reader)
}

/// An event, where `left` steps are left.
pub fn read_event(
    alloc: Global,
    of: &Roles,
    left: u32,
    reader: &mut Reader<'_>,
) -> Result<ScheduleEvent, ReadError>
    ensures { Makes found_of (λ e. (views.event e, reader.new.rest.now)) result (plain.event_at (roles of.now) left reader.old.rest.now) }
{
    match read_seen(of, left, reader) {
        Ok(seen) => Ok(seen.copied(alloc)?),
        Err(found) => Err(ReadError::Found(found)),
    }
}

/// How many steps the next event takes, where `left` are left; no memory is taken.
pub fn pass_event(of: &Roles, left: u32, reader: &mut Reader<'_>) -> Result<u32, Found>
    ensures ok { IfOk result (λ n. (e : schedules.ScheduleEvent)
        × (plain.event_at (roles of.now) left reader.old.rest.now ≡ Ok (e, reader.new.rest.now)) × (n ≡ schedules.steps_of e)) }
    ensures err { IfErr result (λ found. plain.event_at (roles of.now) left reader.old.rest.now ≡ Err found) }
{
    match read_seen(of, left, reader) {
        Ok(seen) => Ok(seen.steps()),
        Err(found) => Err(found),
    }
}

impl Seen<'_> {
    /// How many steps it takes.
    pub fn steps(&self) -> u32
        ensures { result ≡ schedules.steps_of (seen self.now) }
    {
        match self {
            Seen::Drain { count, .. } => *count,
            _ => 1,
        }
    }

    /// The event, with bytes of its own.
    pub fn copied(self, alloc: Global) -> Result<ScheduleEvent, AllocError>
        ensures { IfOk result (λ e. views.event e ≡ seen self.entry) }
    {
        Ok(match self {
            Seen::Submit { at, payload } => ScheduleEvent::Submit {
                at,
                payload: payload.to_vec(alloc)?,
            },
            Seen::Raw { to, from, bytes } => ScheduleEvent::Raw {
                to,
                from,
                bytes: bytes.to_vec(alloc)?,
            },
            Seen::Pass { frame, to } => ScheduleEvent::Pass { frame, to },
            Seen::Drain { count, to } => ScheduleEvent::Drain { count, to },
            Seen::Lie {
                signer,
                to,
                statement,
            } => ScheduleEvent::Lie {
                signer,
                to,
                statement: statement.to_vec(alloc)?,
            },
            Seen::Suspect { at, of } => ScheduleEvent::Suspect { at, of },
            Seen::Join { at, of } => ScheduleEvent::Join { at, of },
            Seen::Renew { at } => ScheduleEvent::Renew { at },
            Seen::Tick { at } => ScheduleEvent::Tick { at },
        })
    }
}
