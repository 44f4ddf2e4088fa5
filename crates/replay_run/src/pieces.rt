//! A replay piece by piece.
ghost use Rattle.std.specs.Prelude.{◌≡◌, ◌≤◌, ◌<◌, ◌++◌, List, ℕ, [], Ok, Err, IfOk, IfErr, IfSome, length};
ghost use Rattle.std.specs.Option.{option_map};
ghost use Rattle.byte_defs.specs.Reads.{Makes};
ghost use Rattle.replay_defs.specs.Reports.{report_of};
ghost use Rattle.schedule_file.specs.Views.{event};
ghost use Rattle.replay_run.specs.Faults.{fault, fault_in};
ghost use Rattle.replay_run.specs.Reported.{IsReported};
ghost use Rattle.replay_run.specs.declared.run.Run.{Run};
ghost use Rattle.replay_run.specs.Midway.{IsMidway, IsAfter, IsReal, IsMidwayThere, Gives};
ghost use Rattle.replay_run.specs.Fed.{HasFed};

use crate::fault::{ReplayFault, Stop};
use crate::run::{Run, begin, run_event};
use crate::under_way::Replay;
use replay_report::report;
use rp_base::NoMemory;
use schedule_file::ScheduleEvent;
use schedule_pieces::ScheduleReader;
use std::alloc::Global;

/// How many bytes a piece has at most.
pub const PIECE_BYTES: usize = 65_536;

// The next event that is whole, where the input has no fault.
fn next_event(reader: &mut ScheduleReader) -> Result<Option<ScheduleEvent>, NoMemory>
    ensures gives { (run : Run) (fed : List ℕ) → IsMidway reader.old run fed
        → IfOk result (λ next. Gives reader.new run fed (option_map event next)) }
    ensures moves { IfOk result (λ next. IfSome next (λ _. length reader.new.waiting < length reader.old.waiting)) }
{
    match reader.next() {
        Ok(next) => Ok(next),
        Err(fault) => match Stop::from(fault) {
            Stop::Fault(_) => Ok(None),
            Stop::NoMemory => Err(NoMemory),
        },
    }
}

// Runs the events that are whole.
fn run_whole(alloc: Global, reader: &mut ScheduleReader, begun: Run) -> Result<Run, NoMemory>
    requires { IsMidwayThere reader.old begun }
    ensures after { (fed : List ℕ) → IsMidway reader.old begun fed → IfOk result (λ run. IsAfter reader.new run fed) }
    ensures real { IfOk result (IsReal reader.new) }
{
    let mut run = begun;
    'events: while let Some(event) = next_event(reader)? {
        run = run_event(alloc, run, &event)?;
    }
    Ok(run)
}

impl Replay {
    /// A replay that was fed nothing.
    pub fn new(alloc: Global) -> Result<Replay, NoMemory>
        ensures { IfOk result (λ r. HasFed r []) }
    {
        Ok(Replay {
            alloc,
            reader: ScheduleReader::new(alloc)?,
            run: Run::Waits,
        })
    }

    /// Takes a piece of the input, and runs each event that is whole now. After a fault of the bytes nothing changes; after one of the
    /// run the events are read, and not run. Where memory runs out, the replay is given up.
    pub fn feed(self, piece: &[u8]) -> Result<Replay, NoMemory>
        requires { length piece.now ≤ 65536 }

        // The piece follows what was fed.
        ensures { (fed : List ℕ) → HasFed self fed → IfOk result (λ r. HasFed r (fed ++ piece.now)) }
    {
        let Replay {
            alloc,
            mut reader,
            run,
        } = self;
        reader.feed(piece);
        let run = begin(alloc, &reader, run)?;
        let run = run_whole(alloc, &mut reader, run)?;
        Ok(Replay { alloc, reader, run })
    }

    /// The report of the schedule that was fed, long or short (docs/FORMATS.md, «The report»), or why there is none.
    ///
    /// # Errors
    /// `NoMemory` where memory runs out, which says nothing of the bytes.
    pub fn end(self, short: bool) -> Result<Result<Vec<u8>, ReplayFault>, NoMemory>
        // What is written is the report that the definitions give of all that was fed, and nothing else.
        ensures report { (fed : List ℕ) → HasFed self fed → IfOk result (λ r. IfOk r (λ report. report_of short fed ≡ Ok report.items)) }

        // Else they give none, by this fault.
        ensures stops { (fed : List ℕ) → HasFed self fed → IfOk result (λ r. IfErr r (λ f. report_of short fed ≡ Err (fault f))) }

        // A report is of the schedule's own world and family, and of that family the headline holds: where what was handed over of correct
        // processes is their own word, and in each installed view at most f members are not correct, they agree and are sound.
        ensures headline { (fed : List ℕ) → HasFed self fed → IfOk result (λ r. IfOk r (λ report. IsReported short fed report.items)) }
    {
        match self.report(short) {
            Ok(report) => Ok(Ok(report)),
            Err(Stop::Fault(fault)) => Ok(Err(fault)),
            Err(Stop::NoMemory) => Err(NoMemory),
        }
    }

    // The report, or why there is none.
    fn report(&self, short: bool) -> Result<Vec<u8>, Stop>
        ensures exact { (fed : List ℕ) → HasFed self.now fed → Makes fault_in (λ out. out.items) result (report_of short fed) }
        ensures report { (fed : List ℕ) → HasFed self.now fed → IfOk result (λ out. IsReported short fed out.items) }
    {
        if let Err(fault) = self.reader.end() {
            return Err(Stop::from(fault));
        }
        match &self.run {
            Run::Runs(world) => Ok(report(self.alloc, world, short)?),
            Run::Stops(fault) => Err(Stop::Fault(*fault)),
            Run::Waits => unreachable!(),
        }
    }
}
