//! What the bytes that wait begin with: a header or an event, nothing that is whole, or a fault.
ghost use Rattle.std.specs.Prelude.{◌≡◌, ◌+◌, ◌-◌, ◌<◌, ◌≤◌, List, length, take, IfOk, IfErr, IsErr, MatchOption, MatchResult};
ghost use Rattle.byte_defs.specs.Reads.{Fails};
ghost use Rattle.replay_defs.specs.Schedules.{Listed, most_bytes};
ghost use Rattle.replay_defs.specs.Reading as plain;
ghost use Rattle.replay_defs.specs.declared.FaultKind.TheVariants as kinds;
ghost use Rattle.replay_defs.specs.Pieces.{IsShort};
ghost use Rattle.schedule_fields.specs.Faults.{found_of};
ghost use Rattle.schedule_events.specs.Seen.{roles};
ghost use Rattle.schedule_pieces.specs.Fronts.{IsFirst, IsNext, Decides, BeginsSo};

use replay_defs::{Fault, FaultKind, Found};
use schedule_events::{Roles, read_event};
use schedule_fields::{ReadError, Reader, SCHEDULE_BYTES, placed, too_long};
use schedule_file::ScheduleEvent;
use schedule_header::{Head, read_head};
use std::alloc::Global;

/// A whole header, and how many bytes it takes.
#[derive(Drop)]
pub struct FirstPart {
    pub head: Head,
    pub size: usize,
}

/// A whole event, and how many bytes it takes.
#[derive(Drop)]
pub struct NextEvent {
    pub event: ScheduleEvent,
    pub size: usize,
}

/// Why no event is given.
#[derive(Clone, Copy)]
pub enum Stop {
    NoMemory,

    /// The input's fault, however it goes on.
    Fault(Fault),
}

/// The header that the bytes begin with, where it is whole.
pub fn first_part(waiting: &[u8]) -> Option<FirstPart>
    ensures { MatchOption result (IsErr (plain.header_at waiting.now)) (λ first. IsFirst waiting.now first) }
{
    match read_head(waiting) {
        Ok((head, rest)) => {
            let size = waiting.len() - rest.len();
            Some(FirstPart { head, size })
        }
        Err(_) => None,
    }
}

/// What was found in bytes that begin with no whole header.
pub fn header_found(waiting: &[u8]) -> Found
    requires { IsErr (plain.header_at waiting.now) }
    ensures found { plain.header_at waiting.now ≡ Err result }

    // A header has 3,432 bytes at most.
    ensures few { result.kind ≡ kinds.Short → length waiting.now < 3432 }
{
    let Err(found) = read_head(waiting) else {
        unreachable!();
    };
    found
}

/// What stops the reading of an input, where `fed` bytes were fed, and read to the last one up to the limit. None where more
/// bytes may follow.
pub fn decide(found: Found, read: usize, fed: usize) -> Option<Fault>
    ensures { Decides found read fed result }
{
    match found.kind {
        FaultKind::Short => past_limit(fed),
        _ => Some(placed(read, found)),
    }
}

// The fault of `fed` bytes, where they pass the limit.
#[tactic(auto, unfolding(replay_defs::specs::Schedules::most_bytes))]
fn past_limit(fed: usize) -> Option<Fault>
    ensures { MatchOption result (fed ≤ most_bytes) (λ fault. (most_bytes < fed) × (fault ≡ plain.too_long)) }
{
    if fed > SCHEDULE_BYTES {
        Some(too_long())
    } else {
        None
    }
}

/// The waiting bytes that lie within the limit, where `taken` bytes came before them.
#[tactic(auto, unfolding(replay_defs::specs::Schedules::most_bytes))]
pub fn within_limit(waiting: &[u8], taken: usize) -> &[u8]
    requires { taken ≤ most_bytes }
    ensures { result.now ≡ take (most_bytes - taken) waiting.now }
{
    let left = SCHEDULE_BYTES - taken;
    if waiting.len() <= left {
        return waiting;
    }
    let (readable, _) = waiting.split_at(left);
    readable
}

fn next_event(
    alloc: Global,
    of: &Roles,
    steps: u32,
    readable: &[u8],
) -> Result<NextEvent, ReadError>
    requires { (ls : List Listed) × (roles of.now ≡ plain.roles_of ls) }
    ensures ok { IfOk result (λ next. IsNext (roles of.now) steps readable.now next) }
    ensures err { IfErr result (λ e. Fails found_of e (plain.event_at (roles of.now) steps readable.now)) }
{
    let mut reader = Reader { rest: readable };
    let event = read_event(alloc, of, steps, &mut reader)?;
    let size = readable.len() - reader.rest.len();
    Ok(NextEvent { event, size })
}

/// What the bytes that wait after a header begin with, where `taken` bytes were read and `steps` steps are left. None where no event
/// is whole yet.
#[tactic(auto, unfolding(replay_defs::specs::Schedules::most_bytes))]
pub fn event_front(
    alloc: Global,
    of: &Roles,
    steps: u32,
    taken: usize,
    waiting: &[u8],
) -> Result<Option<NextEvent>, Stop>
    requires below { taken ≤ most_bytes }
    requires known { (ls : List Listed) × (roles of.now ≡ plain.roles_of ls) }
    ensures { BeginsSo (roles of.now) steps taken waiting.now result }
{
    let readable = within_limit(waiting, taken);
    match next_event(alloc, of, steps, readable) {
        Ok(next) => Ok(Some(next)),
        Err(ReadError::NoMemory) => Err(Stop::NoMemory),
        Err(ReadError::Found(found)) => {
            match decide(found, taken + readable.len(), taken + waiting.len()) {
                Some(fault) => Err(Stop::Fault(fault)),
                None => Ok(None),
            }
        }
    }
}
