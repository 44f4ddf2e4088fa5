ghost use Rattle.std.specs.Prelude.{◌≡◌, ◌++◌, codes, IfOk, IsOk, OnOk};
ghost use Rattle.std.specs.Fmt.{decimal};
ghost use Rattle.story_cli.specs.declared.stops.Stop.TheVariants as stops;
ghost use Rattle.story_cli.specs.Messages as reported;
ghost use Rattle.story_cli.specs.Messages.{line_of, status_of};

use crate::messages::{expected_words, schedule_word};
use replay_defs::Fault;
use rp_base::{Failed, NoMemory};
use std::alloc::{AllocError, AllocFailed, Global};
use story_reading::{Expected, StoryFault};
use text_codec::push_number;

/// Why a run stops before its work is done.
#[derive(Clone, Copy, Debug, PartialEq, Eq)]
pub enum Stop {
    /// No memory is left.
    NoMemory,

    /// The input failed.
    Read,

    /// The output failed.
    Write,

    /// The input is no story.
    Story(StoryFault),

    /// The input is no schedule.
    Schedule(Fault),
}

fn line(alloc: Global, text: &[u8]) -> Result<Vec<u8>, NoMemory>
    ensures { IfOk result (λ line. line.items ≡ text.now) }
{
    Ok(text.to_vec(alloc)?)
}

// What was expected, to the end of its line.
fn push_expected(line: &mut Vec<u8>, x: Expected) -> Result<(), NoMemory>
    ensures { OnOk result (line.new.items ≡ line.old.items ++ (codes ": expected " ++ (reported.expected_words x ++ codes "\n"))) }
{
    line.extend_from_slice(b": expected ")?;
    line.extend_from_slice(expected_words(x))?;
    line.push(b'\n')?;
    Ok(())
}

// What was expected in which line.
fn story_line(alloc: Global, fault: StoryFault) -> Result<Vec<u8>, NoMemory>
    ensures { IfOk result (λ line. line.items ≡ line_of (stops.Story fault)) }
{
    let mut line = line(alloc, b"line ")?;
    push_number(&mut line, fault.line as u64)?;
    push_expected(&mut line, fault.expected)?;
    Ok(line)
}

// A place, to the end of its line.
fn push_place(line: &mut Vec<u8>, place: usize) -> Result<(), NoMemory>
    ensures { OnOk result (line.new.items ≡ line.old.items ++ (codes " " ++ (decimal place ++ codes "\n"))) }
{
    line.push(b' ')?;
    push_number(line, place as u64)?;
    line.push(b'\n')?;
    Ok(())
}

// The schedule's fault, and its place.
fn schedule_line(alloc: Global, fault: Fault) -> Result<Vec<u8>, NoMemory>
    ensures { IfOk result (λ line. line.items ≡ line_of (stops.Schedule fault)) }
{
    let mut line = line(alloc, b"stop 7 ")?;
    line.extend_from_slice(schedule_word(fault.kind))?;
    push_place(&mut line, fault.place)?;
    Ok(line)
}

impl Stop {
    /// The status that the program ends with.
    pub fn status(self) -> u8
        ensures { result ≡ status_of self }
    {
        match self {
            Stop::NoMemory => 1,
            Stop::Read => 3,
            Stop::Write => 4,
            Stop::Story(_) => 5,
            Stop::Schedule(_) => 7,
        }
    }

    /// The line that says so, empty where none is written.
    pub fn line(self, alloc: Global) -> Result<Vec<u8>, NoMemory>
        ensures text { IfOk result (λ line. line.items ≡ line_of self) }
        ensures silent { self ≡ Stop.Write → IsOk result }
    {
        match self {
            Stop::NoMemory | Stop::Write => Ok(Vec::new(alloc)),
            Stop::Read => line(alloc, b"stop 3 read\n"),
            Stop::Story(fault) => story_line(alloc, fault),
            Stop::Schedule(fault) => schedule_line(alloc, fault),
        }
    }
}

impl From<Failed> for Stop {
    ghost from_gives = { λ _ stop. stop ≡ stops.Read };

    fn from(_: Failed) -> Stop {
        Stop::Read
    }
}

impl From<NoMemory> for Stop {
    ghost from_gives = { λ _ stop. stop ≡ stops.NoMemory };

    fn from(_: NoMemory) -> Stop {
        Stop::NoMemory
    }
}

impl From<AllocError> for Stop {
    ghost from_gives = { λ _ stop. stop ≡ stops.NoMemory };

    fn from(_: AllocError) -> Stop {
        Stop::NoMemory
    }
}

impl<T: Drop> From<AllocFailed<T>> for Stop {
    ghost from_gives = { λ _ stop. stop ≡ stops.NoMemory };

    fn from(_: AllocFailed<T>) -> Stop {
        Stop::NoMemory
    }
}
