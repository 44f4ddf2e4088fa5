//! All before the events of a schedule, read without memory.
ghost use Rattle.std.specs.Prelude.{◌≡◌, ◌≤◌, ◌&&◌, not, [], length, map, IfOk};
ghost use Rattle.byte_defs.specs.Reads.{Gives};
ghost use Rattle.byte_defs.specs.Members.{has};
ghost use Rattle.replay_defs.specs.Schedules as schedules;
ghost use Rattle.replay_defs.specs.Reading as plain;
ghost use Rattle.replay_defs.specs.declared.FaultKind.TheVariants as kinds;
ghost use Rattle.schedule_file.specs.Views as views;
ghost use Rattle.schedule_header.specs.Heads.{head_of};
ghost use Rattle.std.specs.Prelude.{vec_capacity};

use crate::keys::{read_key, sixteen};
use arrayvec::ArrayVec;
use replay_defs::{FaultKind, Found, Scheme};
use rp_base::{GroupId, Pid, PidSet};
use schedule_fields::Reader;
use schedule_file::{Header, Listed};
use std::alloc::{AllocError, Global};

/// The most processes of a schedule.
pub const PROCESSES: usize = 64;

/// The most members of a view.
const MEMBERS: u8 = 16;

/// The most messages of a place.
const BATCH: u8 = 16;

/// A header as it is read, in room of a fixed size.
#[derive(Drop)]
pub struct Head {
    pub scheme: Scheme,
    pub batch: u8,
    pub group: GroupId,
    pub processes: ArrayVec<Listed, 64>,
    pub genesis: ArrayVec<Pid, 16>,
}

/// The version, and what it says besides.
#[derive(Clone, Copy)]
struct Setting {
    scheme: Scheme,
    batch: u8,
    group: GroupId,
}

fn version_by(letters: &[u8]) -> Option<u8>
    ensures { result ≡ plain.version_by letters.now }
{
    if letters == b"RPS1".as_slice() {
        Some(1)
    } else if letters == b"RPS2".as_slice() {
        Some(2)
    } else if letters == b"RPS3".as_slice() {
        Some(3)
    } else {
        None
    }
}

fn scheme_by(version: u8, byte: u8) -> Option<Scheme>
    ensures { result ≡ plain.scheme_by version byte }
{
    match byte {
        0 if version != 2 => Some(Scheme::Plain),
        1 if version != 2 => Some(Scheme::Lms),
        2 if version != 1 => Some(Scheme::Hss),
        _ => None,
    }
}

fn read_version(reader: &mut Reader<'_>) -> Result<u8, Found>
    ensures { Gives (λ v. (v, reader.new.rest.now)) result
        (plain.known plain.version_by kinds.Magic (plain.field_at 4) reader.old.rest.now) }
{
    let fault = reader.fault(FaultKind::Magic);
    let letters = reader.bytes(4)?;
    match version_by(letters) {
        Some(version) => Ok(version),
        None => Err(fault),
    }
}

fn read_scheme(version: u8, reader: &mut Reader<'_>) -> Result<Scheme, Found>
    ensures { Gives (λ s. (s, reader.new.rest.now)) result
        (plain.known (plain.scheme_by version) kinds.Scheme plain.byte_at reader.old.rest.now) }
{
    let fault = reader.fault(FaultKind::Scheme);
    let byte = reader.byte()?;
    match scheme_by(version, byte) {
        Some(scheme) => Ok(scheme),
        None => Err(fault),
    }
}

#[tactic(auto, unfolding(replay_defs::specs::Reading::limit_at))]
fn read_limit(version: u8, reader: &mut Reader<'_>) -> Result<u8, Found>
    ensures { Gives (λ b. (b, reader.new.rest.now)) result (plain.limit_at version reader.old.rest.now) }
{
    if version == 3 {
        reader.byte_from(2, BATCH, FaultKind::Field)
    } else {
        Ok(1)
    }
}

#[tactic(auto, unfolding(replay_defs::specs::Reading::setting_at))]
fn read_setting(reader: &mut Reader<'_>) -> Result<Setting, Found>
    ensures { Gives (λ s. ((s.scheme, s.batch, s.group), reader.new.rest.now)) result (plain.setting_at reader.old.rest.now) }
{
    let version = read_version(reader)?;
    let scheme = read_scheme(version, reader)?;
    let batch = read_limit(version, reader)?;
    let group = GroupId(sixteen(reader.bytes(16)?));
    Ok(Setting {
        scheme,
        batch,
        group,
    })
}

#[tactic(auto, unfolding(replay_defs::specs::Reading::listed_at))]
fn read_listed(scheme: Scheme, least: u8, reader: &mut Reader<'_>) -> Result<Listed, Found>
    ensures { Gives (λ l. (views.listed l, reader.new.rest.now)) result (plain.listed_at scheme least reader.old.rest.now) }
{
    let process = reader.process_from(least, FaultKind::Roster)?;
    let role = reader.byte_from(0, 1, FaultKind::Roster)?;
    let key = read_key(scheme, reader)?;
    Ok(Listed {
        process,
        corrupt: role == 1,
        key,
    })
}

fn read_all_listed(
    count: u8,
    scheme: Scheme,
    reader: &mut Reader<'_>,
) -> Result<ArrayVec<Listed, 64>, Found>
    requires { count ≤ 64 }
    ensures { Gives (λ ls. (map views.listed ls.items, reader.new.rest.now)) result
        (plain.all_listed_at count scheme 0 reader.old.rest.now) }
{
    let mut processes = ArrayVec::new();
    let mut least = 0;
    'processes: for _ in 0..count {
        let listed = read_listed(scheme, least, reader)?;
        least = listed.process.get() + 1;
        processes.push(listed);
    }
    Ok(processes)
}

#[tactic(auto, unfolding(replay_defs::specs::Reading::processes_at))]
fn read_processes(scheme: Scheme, reader: &mut Reader<'_>) -> Result<ArrayVec<Listed, 64>, Found>
    ensures { Gives (λ ls. (map views.listed ls.items, reader.new.rest.now)) result (plain.processes_at scheme reader.old.rest.now) }
{
    let count = reader.byte_from(1, PROCESSES as u8, FaultKind::Roster)?;
    read_all_listed(count, scheme, reader)
}

fn is_among(pids: &[Pid], p: Pid) -> bool
    ensures { result ≡ has pids.now p }
{
    pids.iter().any(|q| *q == p)
}

// A member that is listed and none of those before.
#[tactic(auto, unfolding(replay_defs::specs::Reading::byte_that, replay_defs::specs::Reading::process_that))]
fn read_member(listed: PidSet, before: &[Pid], reader: &mut Reader<'_>) -> Result<Pid, Found>
    ensures { Gives (λ p. (p, reader.new.rest.now)) result
        (plain.process_that (λ m. has listed m && not (has before.now m)) kinds.Roster reader.old.rest.now) }
{
    let fault = reader.fault(FaultKind::Roster);
    let n = reader.byte()?;
    match Pid::new(n) {
        Some(p) if listed.contains(p) && !is_among(before, p) => Ok(p),
        _ => Err(fault),
    }
}

fn read_members(
    count: u8,
    listed: PidSet,
    reader: &mut Reader<'_>,
) -> Result<ArrayVec<Pid, 16>, Found>
    requires { count ≤ 16 }
    ensures { Gives (λ ms. (ms.items, reader.new.rest.now)) result (plain.members_at count (has listed) [] reader.old.rest.now) }
{
    let mut members = ArrayVec::new();
    'members: for _ in 0..count {
        let member = read_member(listed, &members, reader)?;
        members.push(member);
    }
    Ok(members)
}

#[tactic(auto, unfolding(replay_defs::specs::Reading::genesis_at))]
fn read_genesis(listed: PidSet, reader: &mut Reader<'_>) -> Result<ArrayVec<Pid, 16>, Found>
    ensures { Gives (λ ms. (ms.items, reader.new.rest.now)) result (plain.genesis_at (has listed) reader.old.rest.now) }
{
    let count = reader.byte_from(1, MEMBERS, FaultKind::Roster)?;
    read_members(count, listed, reader)
}

// The processes that are listed.
fn all_listed(processes: &[Listed]) -> PidSet
    ensures { has result ≡ schedules.is_listed (map views.listed processes.now) }
{
    let mut all = PidSet::new();
    for listed in processes {
        all.insert(listed.process);
    }
    all
}

/// The processes that are correct.
pub fn all_correct(processes: &[Listed]) -> PidSet
    ensures { has result ≡ schedules.is_correct (map views.listed processes.now) }
{
    let mut correct = PidSet::new();
    for listed in processes {
        if !listed.corrupt {
            correct.insert(listed.process);
        }
    }
    correct
}

/// The processes that are corrupt.
pub fn all_corrupt(processes: &[Listed]) -> PidSet
    ensures { has result ≡ schedules.is_corrupt (map views.listed processes.now) }
{
    let mut corrupt = PidSet::new();
    for listed in processes {
        if listed.corrupt {
            corrupt.insert(listed.process);
        }
    }
    corrupt
}

/// A header, and the bytes after it.
#[tactic(auto, unfolding(replay_defs::specs::Reading::header_at))]
pub fn read_head(bytes: &[u8]) -> Result<(Head, &[u8]), Found>
    ensures { Gives (λ x. (head_of x.0, x.1.now)) result (plain.header_at bytes.now) }
{
    let mut reader = Reader { rest: bytes };
    let setting = read_setting(&mut reader)?;
    let processes = read_processes(setting.scheme, &mut reader)?;
    let genesis = read_genesis(all_listed(&processes), &mut reader)?;
    let head = Head {
        scheme: setting.scheme,
        batch: setting.batch,
        group: setting.group,
        processes,
        genesis,
    };
    Ok((head, reader.rest))
}

/// The header, with its processes in this room, which holds them all.
pub fn fill(header: &mut Header, head: Head)
    requires { (header.old.processes.items ≡ []) × (64 ≤ vec_capacity header.old.processes) }
    ensures { views.header header.new ≡ head_of head }
{
    let Head {
        scheme,
        batch,
        group,
        processes,
        genesis,
    } = head;
    header.scheme = scheme;
    header.batch = batch;
    header.group = group;
    header.genesis = genesis;
    if header.processes.extend_from_slice(&processes).is_err() {
        unreachable!();
    }
}

/// A header with room for its processes.
pub fn empty_header(alloc: Global) -> Result<Header, AllocError>
    ensures { IfOk result (λ h. (h.processes.items ≡ []) × (64 ≤ vec_capacity h.processes)) }
{
    let processes = Vec::with_capacity(alloc, PROCESSES)?;
    Ok(Header {
        scheme: Scheme::Plain,
        batch: 1,
        group: GroupId([0; 16]),
        processes,
        genesis: ArrayVec::new(),
    })
}

/// The header that was read.
pub fn header_of(alloc: Global, head: Head) -> Result<Header, AllocError>
    ensures { IfOk result (λ h. views.header h ≡ head_of head) }
{
    let mut header = empty_header(alloc)?;
    fill(&mut header, head);
    Ok(header)
}
