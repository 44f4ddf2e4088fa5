//! A schedule read as its bytes come.
ghost use Rattle.std.specs.Prelude.{◌≡◌, ◌+◌, ◌-◌, ◌≤◌, ◌++◌, List, ℕ, [], Some, None, Err, IsSome, IfOk, MatchOption, length, map};
ghost use Rattle.replay_defs.specs.declared.Fault as faults;
ghost use Rattle.replay_defs.specs.Schedules as schedules;
ghost use Rattle.replay_defs.specs.Schedules.{steps_of};
ghost use Rattle.replay_defs.specs.Reading as plain;
ghost use Rattle.replay_defs.specs.Pieces.{WasFed, GivesNext, readable, most_waiting};
ghost use Rattle.schedule_file.specs.Views as views;
ghost use Rattle.schedule_events.specs.Seen as seen;
ghost use Rattle.schedule_pieces.specs.Readers.{SeesFront, SeesEnd, Ends, IsFault, LeavesRoom, MovesOn, given, plainly};
ghost use Rattle.schedule_pieces.specs.declared.front.Stop.TheVariants as stops;

use crate::ending::fault_at_end;
use crate::front::{FirstPart, NextEvent, Stop, decide, event_front, first_part, header_found};
use crate::window::Window;
use replay_defs::Fault;
use rp_base::NoMemory;
use schedule_events::{Roles, STEPS};
use schedule_fields::{ScheduleFault, placed};
use schedule_file::{Header, Listed, ScheduleEvent};
use schedule_header::{all_correct, all_corrupt, empty_header, fill};
use std::alloc::Global;
use std::marker::Model;
use std::mem;

/// Reads a schedule piece by piece, and gives each event as soon as it is whole. However the input is cut, the events and the fault are
/// those of `read_schedule` on all of it. The room is that of a header and of 196,608 bytes that wait, however long the input is; only
/// the bytes of an event that is given are taken besides that.
pub struct ScheduleReader {
    window: Window,

    /// It has room for its processes, and is filled once it is whole.
    header: Header,
    has_header: bool,

    /// Of the header's processes.
    roles: Roles,

    /// How many bytes the header and the events that were given take.
    taken: usize,

    /// How many steps are left.
    steps: u32,
    fault: Option<Fault>,
}

// Written out, so that whoever drops a value makes one call (docs/CONTRIBUTING.md).
impl Drop for ScheduleReader {
    fn drop(self) {
        let ScheduleReader {
            window,
            header,
            has_header: _,
            roles: _,
            taken: _,
            steps: _,
            fault: _,
        } = self;
        mem::drop(window);
        mem::drop(header);
    }
}

impl Model for ScheduleReader {
    ghost use Rattle.replay_defs.specs.Pieces.{Reading};

    ghost Value = { Reading };

    ghost use Rattle.schedule_pieces.specs.Insides.{reading, IsReader};

    ghost view = { reading };

    ghost invariant = { IsReader };
}

impl ScheduleReader {
    /// A reader that was fed nothing.
    ///
    /// # Errors
    /// [`NoMemory`] where the room is refused.
    pub fn new(alloc: Global) -> Result<ScheduleReader, NoMemory>
        ensures { IfOk result (λ r. WasFed r [] []) }
    {
        let window = Window::new(alloc)?;
        let header = empty_header(alloc)?;
        Ok(ScheduleReader {
            window,
            header,
            has_header: false,
            roles: roles_of(&[]),
            taken: 0,
            steps: STEPS,
            fault: None,
        })
    }

    /// How many of the bytes that were fed belong neither to the header, once it is whole, nor to an event that was given.
    pub fn waiting(&self) -> usize
        ensures value { result ≡ length self.now.waiting }
        ensures few { result ≤ most_waiting }
    {
        self.window.len()
    }

    /// Takes a piece of the input. After a fault nothing changes. It takes no memory.
    pub fn feed(&mut self, piece: &[u8])
        requires { length self.old.waiting + length piece.now ≤ most_waiting }

        // What was given so far stays, and the piece follows what was fed.
        ensures stands { (fed : List ℕ) (es : List schedules.ScheduleEvent) → WasFed self.old fed es
            → WasFed self.new (fed ++ piece.now) es }
        ensures stopped { IsSome self.old.fault → self.new ≡ self.old }
    {
        if self.fault.is_some() {
            return;
        }
        self.window.push(piece);
        if self.has_header {
            return;
        }
        if let Some(FirstPart { head, size }) = first_part(self.window.bytes()) {
            fill(&mut self.header, head);
            self.roles = roles_of(&self.header.processes);
            self.window.skip(size);
            self.taken = size;
            self.has_header = true;
        }
    }

    /// The header, once it is whole. A fault after it does not take it away.
    pub fn header(&self) -> Option<&Header>
        ensures { MatchOption result (self.now.header ≡ None) (λ h. self.now.header ≡ Some (views.header h.now)) }
    {
        if self.has_header {
            Some(&self.header)
        } else {
            None
        }
    }

    /// The next event, where it is whole; None where the bytes end within the header or an event, or after the last one. After None
    /// a piece of 65,536 bytes has room.
    ///
    /// # Errors
    /// The fault of the input, however it goes on, and the same from then on; [`ScheduleFault::NoMemory`] where memory is refused, and
    /// then the same event may be asked for again.
    pub fn next(&mut self) -> Result<Option<ScheduleEvent>, ScheduleFault>
        ensures gives { (fed : List ℕ) (es : List schedules.ScheduleEvent) → WasFed self.old fed es
            → GivesNext fed es self.new (plainly result) }
        ensures room { LeavesRoom self.new result }
        ensures moves { MovesOn self.old self.new result }
        ensures again { (f : faults.Fault) → self.old.fault ≡ Some f → (self.new ≡ self.old) × (plainly result ≡ Err (Some f)) }
    {
        match self.front() {
            Ok(Some(next)) => Ok(Some(self.give(next))),
            Ok(None) => Ok(None),
            Err(Stop::Fault(fault)) => {
                self.stop(fault);
                Err(ScheduleFault::from(fault))
            }
            Err(Stop::NoMemory) => Err(ScheduleFault::NoMemory),
        }
    }

    /// Whether the input may end here: whether the header and events that were fed are a schedule. No memory is taken.
    ///
    /// # Errors
    /// The fault of the bytes that were fed, as a whole input.
    pub fn end(&self) -> Result<(), ScheduleFault>
        ensures ends { (fed : List ℕ) (es : List schedules.ScheduleEvent) → WasFed self.now fed es → Ends self.now fed es result }
        ensures again { (f : faults.Fault) → self.now.fault ≡ Some f → IsFault f result }
    {
        match self.last_fault() {
            Some(fault) => Err(ScheduleFault::from(fault)),
            None => Ok(()),
        }
    }

    // What the bytes that wait begin with.
    fn front(&self) -> Result<Option<NextEvent>, Stop>
        ensures sees { SeesFront self.now result }
        ensures again { (f : faults.Fault) → self.now.fault ≡ Some f → (result ≡ Err (stops.Fault f)) × (self.now.waiting ≡ []) }
    {
        if let Some(fault) = self.fault {
            return Err(Stop::Fault(fault));
        }
        let waiting = self.window.bytes();
        if self.has_header {
            let alloc = *self.header.processes.allocator();
            return event_front(alloc, &self.roles, self.steps, self.taken, waiting);
        }
        match decide(header_found(waiting), waiting.len(), waiting.len()) {
            Some(fault) => Err(Stop::Fault(fault)),
            None => Ok(None),
        }
    }

    // The event, whose bytes wait no longer.
    fn give(&mut self, next: NextEvent) -> ScheduleEvent
        requires has { IsSome self.old.header }
        requires within { next.size ≤ length (readable self.old) }
        ensures event { views.event result ≡ views.event next.event }
        ensures rest { self.new ≡ given next.size (steps_of (views.event next.event)) self.old }
    {
        let NextEvent { event, size } = next;
        self.window.skip(size);
        self.taken += size;
        self.steps = self.steps.saturating_sub(event.steps());
        event
    }

    // Reads no further.
    fn stop(&mut self, fault: Fault)
        ensures { self.new ≡ record self.old { waiting = []; fault = Some fault } }
    {
        self.window.clear();
        self.fault = Some(fault);
    }

    // What is wrong with the input, where it ends here.
    fn last_fault(&self) -> Option<Fault>
        ensures sees { SeesEnd self.now result }
        ensures again { (f : faults.Fault) → self.now.fault ≡ Some f → result ≡ Some f }
    {
        if let Some(fault) = self.fault {
            return Some(fault);
        }
        let waiting = self.window.bytes();
        if self.has_header {
            return fault_at_end(&self.roles, self.steps, self.taken, waiting);
        }
        Some(placed(waiting.len(), header_found(waiting)))
    }
}

fn roles_of(processes: &[Listed]) -> Roles
    ensures { seen.roles result ≡ plain.roles_of (map views.listed processes.now) }
{
    Roles {
        correct: all_correct(processes),
        corrupt: all_corrupt(processes),
    }
}
