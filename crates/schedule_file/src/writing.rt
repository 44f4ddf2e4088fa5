//! Schedules written as bytes. docs/FORMATS.md has the format.
ghost use Rattle.std.specs.Prelude.{◌≡◌, ◌<◌, ◌++◌, ◌∷◌, [], length, map, OnOk, OnErr};
ghost use Rattle.std.specs.List.{flat_map};
ghost use Rattle.byte_defs.specs.Fields.{four_bytes, text};
ghost use Rattle.rp_base.specs.Pids.{mask_of};
ghost use Rattle.replay_defs.specs.Keys.{tree_bytes, key_bytes};
ghost use Rattle.replay_defs.specs.Schedules.{IsSchedule, eight_bytes, scheme_byte, version_of, magic, limit_bytes, role_byte, listed_bytes, header_bytes, event_bytes, schedule_bytes};
ghost use Rattle.schedule_file.specs.Views as views;

use crate::schedule::{Header, Key, Listed, Schedule, ScheduleEvent};
use arrayvec::ArrayVec;
use lms_ots::ots_typecode;
use replay_defs::Scheme;
use rp_base::{NoMemory, Pid, PidSet};
use signature_defs::OtsType;

/// Appends the bytes of a schedule, as docs/FORMATS.md spells it.
///
/// # Errors
/// [`NoMemory`] where the room for the bytes is refused; nothing is appended then.
pub fn write_schedule(schedule: &Schedule, out: &mut Vec<u8>) -> Result<(), NoMemory>
    requires { IsSchedule (views.schedule schedule.now) }
    ensures written { OnOk result (out.new.items ≡ out.old.items ++ schedule_bytes (views.schedule schedule.now)) }
    ensures unchanged { OnErr result (out.new.items ≡ out.old.items) }
{
    let mut bytes = Vec::new(*out.allocator());
    push_header(&mut bytes, &schedule.header)?;
    push_events(&mut bytes, &schedule.events)?;
    out.extend_from_slice(&bytes)?;
    Ok(())
}

fn push_byte(out: &mut Vec<u8>, byte: u8) -> Result<(), NoMemory>
    ensures { OnOk result (out.new.items ≡ out.old.items ++ byte ∷ []) }
{
    out.push(byte)?;
    Ok(())
}

fn push_long(out: &mut Vec<u8>, number: u32) -> Result<(), NoMemory>
    ensures { OnOk result (out.new.items ≡ out.old.items ++ four_bytes number) }
{
    out.extend_from_slice(&number.to_be_bytes())?;
    Ok(())
}

// The mask of the processes.
fn push_mask(out: &mut Vec<u8>, processes: PidSet) -> Result<(), NoMemory>
    ensures { OnOk result (out.new.items ≡ out.old.items ++ eight_bytes (mask_of processes)) }
{
    out.extend_from_slice(&mask(processes).to_be_bytes())?;
    Ok(())
}

fn mask(processes: PidSet) -> u64
    ensures { result ≡ mask_of processes }
{
    processes.mask()
}

// The lower two bytes of the length, and the bytes.
fn push_text(out: &mut Vec<u8>, bytes: &[u8]) -> Result<(), NoMemory>
    ensures { OnOk result (out.new.items ≡ out.old.items ++ text bytes.now) }
{
    push_byte(out, (bytes.len() / 256 % 256) as u8)?;
    push_byte(out, (bytes.len() % 256) as u8)?;
    out.extend_from_slice(bytes)?;
    Ok(())
}

fn push_tree(
    out: &mut Vec<u8>,
    height: u8,
    ots: OtsType,
    id: &[u8; 16],
    seed: &[u8; 32],
) -> Result<(), NoMemory>
    ensures { OnOk result (out.new.items ≡ out.old.items ++ tree_bytes height ots id.now seed.now) }
{
    push_byte(out, height)?;
    push_byte(out, ots_typecode(ots) as u8)?;
    out.extend_from_slice(id)?;
    out.extend_from_slice(seed)?;
    Ok(())
}

fn push_key(out: &mut Vec<u8>, key: &Key) -> Result<(), NoMemory>
    ensures { OnOk result (out.new.items ≡ out.old.items ++ key_bytes (views.key key.now)) }
{
    match key {
        Key::Plain { key, total } => {
            out.extend_from_slice(key)?;
            push_long(out, *total)
        }
        Key::Lms {
            height,
            ots,
            id,
            seed,
        } => push_tree(out, *height, *ots, id, seed),
        Key::Hss {
            levels,
            height,
            ots,
            id,
            seed,
        } => {
            push_byte(out, *levels)?;
            push_tree(out, *height, *ots, id, seed)
        }
    }
}

fn push_listed(out: &mut Vec<u8>, listed: &Listed) -> Result<(), NoMemory>
    ensures { OnOk result (out.new.items ≡ out.old.items ++ listed_bytes (views.listed listed.now)) }
{
    push_byte(out, listed.process.get())?;
    push_byte(out, role(listed.corrupt))?;
    push_key(out, &listed.key)
}

fn role(corrupt: bool) -> u8
    ensures { result ≡ role_byte corrupt }
{
    if corrupt { 1 } else { 0 }
}

fn push_all_listed(out: &mut Vec<u8>, processes: &[Listed]) -> Result<(), NoMemory>
    ensures { OnOk result (out.new.items ≡ out.old.items ++ flat_map listed_bytes (map views.listed processes.now)) }
{
    for listed in processes {
        push_listed(out, listed)?;
    }
    Ok(())
}

fn push_members(out: &mut Vec<u8>, members: &[Pid]) -> Result<(), NoMemory>
    ensures { OnOk result (out.new.items ≡ out.old.items ++ members.now) }
{
    for member in members {
        push_byte(out, member.get())?;
    }
    Ok(())
}

fn scheme_byte(scheme: Scheme) -> u8
    ensures { result ≡ scheme_byte scheme }
{
    match scheme {
        Scheme::Plain => 0,
        Scheme::Lms => 1,
        Scheme::Hss => 2,
    }
}

// The magic, the scheme, and the batch limit where it is not 1.
fn push_version(out: &mut Vec<u8>, scheme: Scheme, batch: u8) -> Result<(), NoMemory>
    ensures { OnOk result (out.new.items ≡ out.old.items ++ (magic (version_of scheme batch) ++ (scheme_byte scheme ∷ limit_bytes batch))) }
{
    if batch == 1 {
        out.extend_from_slice(match scheme {
            Scheme::Plain | Scheme::Lms => b"RPS1",
            Scheme::Hss => b"RPS2",
        })?;
        push_byte(out, scheme_byte(scheme))
    } else {
        out.extend_from_slice(b"RPS3")?;
        push_byte(out, scheme_byte(scheme))?;
        push_byte(out, batch)
    }
}

// All before the events.
fn push_header(out: &mut Vec<u8>, header: &Header) -> Result<(), NoMemory>
    requires { length header.now.processes.items < 256 }
    ensures { OnOk result (out.new.items ≡ out.old.items ++ header_bytes (views.header header.now)) }
{
    push_version(out, header.scheme, header.batch)?;
    out.extend_from_slice(header.group.bytes())?;
    push_roster(out, &header.processes, &header.genesis)
}

// The processes and the members, with their numbers.
fn push_roster(
    out: &mut Vec<u8>,
    processes: &[Listed],
    genesis: &ArrayVec<Pid, 16>,
) -> Result<(), NoMemory>
    requires { length processes.now < 256 }
    ensures { OnOk result (out.new.items ≡ out.old.items
        ++ (length processes.now ∷ (flat_map listed_bytes (map views.listed processes.now)
        ++ (length genesis.now.items ∷ genesis.now.items)))) }
{
    push_byte(out, processes.len() as u8)?;
    push_all_listed(out, processes)?;
    push_byte(out, genesis.len() as u8)?;
    push_members(out, genesis)
}

// The tag, and then one or two numbers of a byte.
fn push_bytes(out: &mut Vec<u8>, bytes: &[u8]) -> Result<(), NoMemory>
    ensures { OnOk result (out.new.items ≡ out.old.items ++ bytes.now) }
{
    out.extend_from_slice(bytes)?;
    Ok(())
}

fn push_pass(out: &mut Vec<u8>, frame: u32, to: Pid) -> Result<(), NoMemory>
    ensures { OnOk result (out.new.items ≡ out.old.items ++ 3 ∷ (four_bytes frame ++ to ∷ [])) }
{
    push_byte(out, 3)?;
    push_long(out, frame)?;
    push_byte(out, to.get())
}

fn push_drain(out: &mut Vec<u8>, count: u32, to: PidSet) -> Result<(), NoMemory>
    ensures { OnOk result (out.new.items ≡ out.old.items ++ 4 ∷ (four_bytes count ++ eight_bytes (mask_of to))) }
{
    push_byte(out, 4)?;
    push_long(out, count)?;
    push_mask(out, to)
}

fn push_lie(out: &mut Vec<u8>, signer: Pid, to: PidSet, statement: &[u8]) -> Result<(), NoMemory>
    ensures { OnOk result (out.new.items ≡ out.old.items ++ 5 ∷ signer ∷ (eight_bytes (mask_of to) ++ text statement.now)) }
{
    push_bytes(out, &[5, signer.get()])?;
    push_mask(out, to)?;
    push_text(out, statement)
}

fn push_event(out: &mut Vec<u8>, event: &ScheduleEvent) -> Result<(), NoMemory>
    ensures { OnOk result (out.new.items ≡ out.old.items ++ event_bytes (views.event event.now)) }
{
    match event {
        ScheduleEvent::Submit { at, payload } => {
            push_bytes(out, &[1, at.get()])?;
            push_text(out, payload)
        }
        ScheduleEvent::Raw { to, from, bytes } => {
            push_bytes(out, &[2, to.get(), from.get()])?;
            push_text(out, bytes)
        }
        ScheduleEvent::Pass { frame, to } => push_pass(out, *frame, *to),
        ScheduleEvent::Drain { count, to } => push_drain(out, *count, *to),
        ScheduleEvent::Lie {
            signer,
            to,
            statement,
        } => push_lie(out, *signer, *to, statement),
        ScheduleEvent::Suspect { at, of } => push_bytes(out, &[6, at.get(), of.get()]),
        ScheduleEvent::Join { at, of } => push_bytes(out, &[7, at.get(), of.get()]),
        ScheduleEvent::Renew { at } => push_bytes(out, &[8, at.get()]),
        ScheduleEvent::Tick { at } => push_bytes(out, &[9, at.get()]),
    }
}

fn push_events(out: &mut Vec<u8>, events: &[ScheduleEvent]) -> Result<(), NoMemory>
    ensures { OnOk result (out.new.items ≡ out.old.items ++ flat_map event_bytes (map views.event events.now)) }
{
    for event in events {
        push_event(out, event)?;
    }
    Ok(())
}
