//! A schedule from a number: four processes with plain keys, the last one corrupt, and a thousand rounds of drawn payloads.
ghost use Rattle.std.specs.Prelude.{◌≡◌, ◌==◌, ◌+◌, ◌<◌, ◌%◌, ◌++◌, ◌∷◌, [], ℕ, map, IfOk, OnOk};
ghost use Rattle.std.specs.List.{repeat, range_with_len};
ghost use Rattle.byte_defs.specs.Fields.{four_bytes};
ghost use Rattle.rp_base.specs.Pids.{mask_of};
ghost use Rattle.replay_defs.specs.Generator.{generated, made_listed, submitted, hostile, hostile_if, renewed_if, round, rounds, all_four};
ghost use Rattle.replay_defs.specs.Schedules as plain;
ghost use Rattle.replay_defs.specs.Schedules.{IsSchedule};
ghost use Rattle.schedule_file.specs.Views as views;
ghost use Rattle.schedule_making.specs.Views.{Appends};

use crate::draws::Draws;
use arrayvec::ArrayVec;
use rp_base::{GroupId, NoMemory, Pid, PidSet};
use schedule_file::{Header, Key, Listed, Schedule, ScheduleEvent, Scheme};
use std::alloc::{AllocError, Global};

/// How many processes take part.
const PROCESSES: u8 = 4;

/// The process that is corrupt.
const CORRUPT: u8 = 3;

/// How many rounds there are.
const ROUNDS: u32 = 1000;

/// How many events: two a round, one more in each tenth, and three more in each fiftieth.
const EVENTS: usize = 2160;

/// How many signatures a key makes.
const SIGNATURES: u32 = 1_000_000;

/// The mask of all the processes.
const ALL: u64 = 15;

/// A large schedule, the same for the same number. Its group id ends in the four bytes of the number; processes 0, 1 and 2 are
/// correct and 3 is corrupt, each with a plain key of 32 bytes of its number, which makes 1,000,000 signatures, and all four are the
/// members of the first view. docs/FORMATS.md has the thousand rounds and their draws.
///
/// # Errors
/// [`NoMemory`] where memory is refused.
pub fn generate(alloc: Global, number: u32) -> Result<Schedule, NoMemory>
    // It is the definition's.
    ensures made { IfOk result (λ s. views.schedule s ≡ generated number) }

    // It is in its ranges, so it may be written.
    ensures fits { IfOk result (λ s. IsSchedule (views.schedule s)) }
{
    Ok(made(alloc, number)?)
}

#[tactic(auto, unfolding(replay_defs::specs::Generator::generated))]
fn made(alloc: Global, number: u32) -> Result<Schedule, AllocError>
    ensures { IfOk result (λ s. views.schedule s ≡ generated number) }
{
    let header = header(alloc, number)?;
    let events = all_rounds(alloc, number)?;
    Ok(Schedule { header, events })
}

#[tactic(auto, unfolding(replay_defs::specs::Generator::generated))]
fn header(alloc: Global, number: u32) -> Result<Header, AllocError>
    ensures { IfOk result (λ h. views.header h ≡ (generated number).header) }
{
    Ok(Header {
        scheme: Scheme::Plain,
        batch: 1,
        group: group(number),
        processes: processes(alloc)?,
        genesis: genesis(),
    })
}

// Twelve bytes 0, and those of the number.
fn group(number: u32) -> GroupId
    ensures { result ≡ repeat 12 (0 ∷ []) ++ four_bytes number }
{
    let [a, b, c, d] = number.to_be_bytes();
    GroupId([0, 0, 0, 0, 0, 0, 0, 0, 0, 0, 0, 0, a, b, c, d])
}

fn processes(alloc: Global) -> Result<Vec<Listed>, AllocError>
    ensures { IfOk result (λ ls. map views.listed ls.items ≡ map made_listed (range_with_len 0 4)) }
{
    let mut all = Vec::with_capacity(alloc, PROCESSES.into())?;
    for p in 0..PROCESSES {
        all.push(listed(p))?;
    }
    Ok(all)
}

fn listed(p: u8) -> Listed
    requires { p < 64 }
    ensures { views.listed result ≡ made_listed p }
{
    Listed {
        process: process(p),
        corrupt: p == CORRUPT,
        key: Key::Plain {
            key: [p; 32],
            total: SIGNATURES,
        },
    }
}

// All of them.
fn genesis() -> ArrayVec<Pid, 16>
    ensures { result.items ≡ range_with_len 0 4 }
{
    let mut all = ArrayVec::new();
    for p in 0..PROCESSES {
        all.push(process(p));
    }
    all
}

fn process(n: u8) -> Pid
    requires { n < 64 }
    ensures { result ≡ n }
{
    match Pid::new(n) {
        Some(p) => p,
        None => unreachable!(),
    }
}

fn everyone() -> PidSet
    ensures { mask_of result ≡ all_four }
{
    PidSet::from_mask(ALL)
}

fn all_rounds(alloc: Global, number: u32) -> Result<Vec<ScheduleEvent>, AllocError>
    ensures { IfOk result (λ es. map views.event es.items ≡ rounds 1000 0 number) }
{
    let mut making = Making {
        alloc,
        draws: Draws {
            state: number.into(),
        },
        events: Vec::with_capacity(alloc, EVENTS)?,
    };
    'rounds: for i in 0..ROUNDS {
        making.push_round(i)?;
    }
    let Making { events, .. } = making;
    Ok(events)
}

/// The events so far, and the draws to come.
#[derive(Drop)]
pub struct Making {
    alloc: Global,
    pub draws: Draws,
    pub events: Vec<ScheduleEvent>,
}

impl Making {
    fn push(&mut self, event: ScheduleEvent) -> Result<(), AllocError>
        ensures { OnOk result ((map views.event self.new.events.items ≡ map views.event self.old.events.items ++ views.event event ∷ [])
            × (self.new.draws.state ≡ self.old.draws.state)) }
    {
        self.events.push(event)?;
        Ok(())
    }

    fn push_drain(&mut self, count: u32) -> Result<(), AllocError>
        ensures { OnOk result ((map views.event self.new.events.items ≡ map views.event self.old.events.items
            ++ plain.Drain count all_four ∷ []) × (self.new.draws.state ≡ self.old.draws.state)) }
    {
        self.push(ScheduleEvent::Drain {
            count,
            to: everyone(),
        })
    }

    // A payload is submitted by the correct processes in turn, and 60 deliveries follow.
    #[tactic(auto, unfolding(replay_defs::specs::Generator::submitted))]
    fn push_submitted(&mut self, i: u32) -> Result<(), AllocError>
        ensures { OnOk result (Appends self.old self.new (submitted i self.old.draws.state)) }
    {
        let count = self.draws.below(64);
        let mut payload = Vec::with_capacity(self.alloc, 64)?;
        self.draws.push_bytes(count, &mut payload)?;
        let at = process((i % 3) as u8);
        self.push(ScheduleEvent::Submit { at, payload })?;
        self.push_drain(60)
    }

    // Bytes that are no frame, which a correct process is handed from process 3.
    #[tactic(auto, unfolding(replay_defs::specs::Generator::hostile))]
    fn push_hostile(&mut self) -> Result<(), AllocError>
        ensures { OnOk result (Appends self.old self.new (hostile self.old.draws.state)) }
    {
        let to = process(self.draws.below(3) as u8);
        let mut bytes = Vec::with_capacity(self.alloc, 8)?;
        bytes.push(0)?;
        self.draws.push_bytes(7, &mut bytes)?;
        let from = process(CORRUPT);
        self.push(ScheduleEvent::Raw { to, from, bytes })
    }

    fn push_hostile_if(&mut self, tenth: bool) -> Result<(), AllocError>
        ensures { OnOk result (Appends self.old self.new (hostile_if tenth self.old.draws.state)) }
    {
        if tenth { self.push_hostile() } else { Ok(()) }
    }

    fn push_renew(&mut self, at: u8) -> Result<(), AllocError>
        requires { at < 64 }
        ensures { OnOk result ((map views.event self.new.events.items ≡ map views.event self.old.events.items ++ plain.Renew at ∷ [])
            × (self.new.draws.state ≡ self.old.draws.state)) }
    {
        self.push(ScheduleEvent::Renew { at: process(at) })
    }

    // The view is renewed.
    fn push_renewed_if(&mut self, fiftieth: bool) -> Result<(), AllocError>
        ensures { OnOk result (Appends self.old self.new (renewed_if fiftieth, self.old.draws.state)) }
    {
        if !fiftieth {
            return Ok(());
        }
        self.push_renew(0)?;
        self.push_renew(1)?;
        self.push_drain(200)
    }

    #[tactic(auto, unfolding(replay_defs::specs::Generator::round))]
    fn push_round(&mut self, i: u32) -> Result<(), AllocError>
        ensures { OnOk result (Appends self.old self.new (round i self.old.draws.state)) }
    {
        self.push_submitted(i)?;
        self.push_hostile_if(i % 10 == 9)?;
        self.push_renewed_if(i % 50 == 49)
    }
}
