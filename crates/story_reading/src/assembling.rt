//! The whole text.
ghost use Rattle.std.specs.Prelude.{◌≡◌, IfOk, Ok};
ghost use Rattle.byte_defs.proofs.Fields.{IsBytes};
ghost use Rattle.byte_defs.specs.Reads.{Makes};
ghost use Rattle.replay_defs.specs.Schedules as schedules;
ghost use Rattle.replay_defs.specs.Schedules.{IsSchedule, schedule_bytes};
ghost use Rattle.story_defs.specs.Stories as plain;
ghost use Rattle.story_defs.specs.Texts.{schedule_text};
ghost use Rattle.text_defs.specs.Words.{parts_of};
ghost use Rattle.schedule_fields.specs.Faults.{fault_of as read_fault};
ghost use Rattle.story_reading.specs.Faults.{fault_of};
ghost use Rattle.story_reading.specs.Views.{taken};

use crate::drafts::{Draft, wanted};
use crate::faults::AssembleFault;
use replay_defs::{Fault, FaultKind};
use rp_base::NoMemory;
use schedule_reading::{ScheduleFault, read_schedule};
use std::alloc::Global;
use story_defs::{Expected, Mark, StoryFault};
use story_lines::LineFault;
use text_codec::Parts as Lines;

/// The lines that were taken, up to the first that may not follow or to the end.
#[derive(Drop)]
pub struct Taken {
    pub draft: Draft,

    /// The number of that line, or of the one after the last.
    pub line: usize,

    /// What was expected in that line; None at the end.
    pub stop: Option<Expected>,
}

// The lines of the text.
fn take_lines(alloc: Global, text: &[u8]) -> Result<Taken, NoMemory>
    ensures { IfOk result (λ t. taken t ≡ plain.take_lines 1 plain.no_lines (parts_of text.now)) }
{
    let mut draft = Draft::new(alloc);
    let mut lines = Lines::lines(text);
    let mut number = 1;
    'lines: while let Some(line) = lines.next() {
        let added = match draft.said_by(alloc, line) {
            Ok(added) => added,
            Err(LineFault::Expected(x)) => {
                return Ok(Taken {
                    draft,
                    line: number,
                    stop: Some(x),
                });
            }
            Err(LineFault::NoMemory) => return Err(NoMemory),
        };
        draft.add(number, added)?;
        number += 1;
    }
    Ok(Taken {
        draft,
        line: number,
        stop: None,
    })
}

// The line in whose bytes this place is, if there is one.
fn line_at(place: usize, marks: &[Mark]) -> Option<Mark>
    ensures { result ≡ plain.line_at place marks.now }
{
    let mut behind = place;
    'marks: for mark in marks {
        if behind < mark.size {
            return Some(*mark);
        }
        behind -= mark.size;
    }
    None
}

// What was expected in a line whose bytes have a fault of this kind.
fn expected_by(kind: FaultKind, x: Expected) -> Expected
    ensures { result ≡ plain.expected_by kind x }
{
    match kind {
        FaultKind::TooMany => Expected::Steps,
        FaultKind::TooLong => Expected::Size,
        _ => x,
    }
}

impl Taken {
    // Where the lines stop, or what was expected after the last one.
    fn fault_at_stop(&self) -> StoryFault
        ensures { result ≡ plain.fault_at_stop (taken self.now) }
    {
        match self.stop {
            Some(expected) => StoryFault {
                line: self.line,
                expected,
            },
            None => StoryFault {
                line: self.line.saturating_sub(1),
                expected: wanted(self.draft.stage),
            },
        }
    }

    // The fault of the bytes in their line; where it is in none, the lines stop before the schedule does.
    fn fault_in_line(&self, kind: FaultKind, place: usize) -> StoryFault
        ensures { result ≡ plain.fault_in_line (taken self.now) kind (plain.line_at place (taken self.now).draft.marks) }
    {
        match line_at(place, &self.draft.marks) {
            Some(mark) => StoryFault {
                line: mark.line,
                expected: expected_by(kind, mark.expected),
            },
            None => self.fault_at_stop(),
        }
    }
}

// The fault of the bytes; None where memory ran out.
fn fault_of_bytes(fault: ScheduleFault) -> Option<Fault>
    ensures { result ≡ read_fault fault }
{
    let (kind, place) = match fault {
        ScheduleFault::Short { place } => (FaultKind::Short, place),
        ScheduleFault::Magic { place } => (FaultKind::Magic, place),
        ScheduleFault::Scheme { place } => (FaultKind::Scheme, place),
        ScheduleFault::Roster { place } => (FaultKind::Roster, place),
        ScheduleFault::Key { place } => (FaultKind::Key, place),
        ScheduleFault::Tag { place } => (FaultKind::Tag, place),
        ScheduleFault::Field { place } => (FaultKind::Field, place),
        ScheduleFault::TooLong { place } => (FaultKind::TooLong, place),
        ScheduleFault::TooMany { place } => (FaultKind::TooMany, place),
        ScheduleFault::NoMemory => return None,
    };
    Some(Fault { kind, place })
}

// The bytes of the lines, where they are a schedule and no line stops.
fn judge(alloc: Global, all: &Taken) -> Result<Vec<u8>, AssembleFault>
    ensures found { IfOk result (λ bytes. (s : schedules.Schedule) × IsSchedule s × (bytes.items ≡ schedule_bytes s)) }
    ensures exact { Makes fault_of (λ bytes. bytes.items) result (plain.judgement (taken all.now)) }
{
    let bytes = all.draft.bytes(alloc)?;
    match read_schedule(alloc, &bytes) {
        Ok(_) => {
            if all.stop.is_some() {
                return Err(AssembleFault::Story(all.fault_at_stop()));
            }
            Ok(bytes)
        }
        Err(fault) => match fault_of_bytes(fault) {
            Some(Fault { kind, place }) => {
                Err(AssembleFault::Story(all.fault_in_line(kind, place)))
            }
            None => Err(AssembleFault::NoMemory),
        },
    }
}

#[tactic(auto, unfolding(story_defs::specs::Stories::story_of))]
fn read(alloc: Global, text: &[u8]) -> Result<Vec<u8>, AssembleFault>
    ensures found { IfOk result (λ bytes. (s : schedules.Schedule) × IsSchedule s × (bytes.items ≡ schedule_bytes s)) }
    ensures exact { Makes fault_of (λ bytes. bytes.items) result (plain.story_of text.now) }
{
    let all = take_lines(alloc, text)?;
    judge(alloc, &all)
}

/// The bytes of the schedule that the text spells. docs/FORMATS.md has the form.
///
/// # Errors
/// The first fault of the lines in their order, with its line and what was expected there; [`AssembleFault::NoMemory`] where memory is
/// refused.
pub fn assemble(alloc: Global, text: &[u8]) -> Result<Vec<u8>, AssembleFault>
    // What is assembled is a schedule.
    ensures found { IfOk result (λ bytes. (s : schedules.Schedule) × IsSchedule s × (bytes.items ≡ schedule_bytes s)) }

    // The text of a schedule is assembled to its bytes, unless memory runs out.
    ensures only { (s : schedules.Schedule) → IsSchedule s → IsBytes (schedule_bytes s) → text.now ≡ schedule_text s
        → Makes fault_of (λ bytes. bytes.items) result (Ok (schedule_bytes s)) }

    // A fault is that of the first line that has one.
    ensures exact { Makes fault_of (λ bytes. bytes.items) result (plain.story_of text.now) }
{
    read(alloc, text)
}
