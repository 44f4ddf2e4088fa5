//! The run of a schedule (docs/FORMATS.md, «Schedules»), with a count of what is signed and checked. Unlike a replay it leaves out the
//! report's questions, and no fault ends it but a frame that was not sent.
ghost use Rattle.replay_defs.specs.Schedules.{IsSchedule};
ghost use Rattle.schedule_file.specs.Views as views;

use anyhow::{Result, anyhow};
use bench_parts::{Counted, Work};
use replay_cast::{Cast, Core, Event, Liar, Outcome, OwnClaim, Payload, Player, Sending};
use rp_base::{GroupId, NoMemory, Pid, PidSet};
use schedule_file::{Schedule, ScheduleEvent};
use shared_checks::SharedSigner;
use sig_scheme::AnyScheme;
use std::alloc::Global;
use std::collections::VecDeque;
use stmt_codec::read_statement;

/// A correct process.
#[derive(Drop)]
struct Process {
    number: Pid,
    core: Core<SharedSigner>,
}

/// A frame that was sent.
#[derive(Drop)]
struct Sent {
    sender: Pid,
    bytes: Payload,
}

/// A frame that waits, by its number, to be delivered to one process.
#[derive(Clone, Copy)]
struct Delivery {
    frame: usize,
    to: Pid,
}

/// What takes part in a run, and what happened so far.
#[derive(Drop)]
pub(crate) struct Run {
    group: GroupId,
    scheme: Counted<AnyScheme>,
    processes: Vec<Process>,
    liars: Vec<Liar>,
    frames: Vec<Sent>,

    /// The oldest first.
    pending: VecDeque<Delivery>,
    deliveries: u64,

    /// The claims that were signed, lies among them.
    signed: Work,
}

// The processes of these players.
fn processes_of(alloc: Global, players: Vec<Player>) -> Result<Vec<Process>> {
    let mut all = Vec::new(alloc);
    for Player { process, core, .. } in players {
        all.push(Process {
            number: process,
            core,
        })?;
    }
    Ok(all)
}

fn place_of(processes: &[Process], number: Pid) -> Option<usize> {
    processes.iter().position(|p| p.number == number)
}

fn place_of_liar(liars: &[Liar], number: Pid) -> Option<usize> {
    liars.iter().position(|liar| liar.process == number)
}

// The process of this number takes an event. None comes where no correct process has the number.
fn step(
    scheme: &Counted<AnyScheme>,
    processes: &mut [Process],
    at: Pid,
    event: &Event<'_>,
) -> Result<Option<Outcome>> {
    let Some(place) = place_of(processes, at) else {
        return Ok(None);
    };
    let Some(process) = processes.get_mut(place) else {
        return Ok(None);
    };
    match process.core.step(scheme, event) {
        Ok(outcome) => Ok(Some(outcome)),
        Err(NoMemory) => Err(anyhow!("no memory")),
    }
}

// And these claims.
fn and_signed(work: Work, claims: &[OwnClaim]) -> Work {
    let mut work = work;
    for claim in claims {
        work = work.and_signed(claim.statement.bytes());
    }
    work
}

impl Run {
    /// Runs a schedule to its end.
    pub(crate) fn of(alloc: Global, what: &Schedule) -> Result<Run>
        requires { IsSchedule (views.schedule what.now) }
    {
        let Ok(cast) = Cast::new(alloc, &what.header) else {
            return Err(anyhow!("no memory"));
        };
        let mut run = Run::begin(alloc, cast)?;
        for event in &what.events {
            run.event(alloc, event)?;
        }
        Ok(run)
    }

    // A run before its first event.
    fn begin(alloc: Global, cast: Cast) -> Result<Run> {
        let Cast {
            group,
            scheme,
            players,
            liars,
            ..
        } = cast;
        let scheme = *scheme.scheme();
        if scheme != AnyScheme::Plain {
            return Err(anyhow!("blocks are counted of plain keys alone"));
        }
        Ok(Run {
            group,
            scheme: Counted::new(scheme),
            processes: processes_of(alloc, players)?,
            liars,
            frames: Vec::new(alloc),
            pending: VecDeque::new(alloc),
            deliveries: 0,
            signed: Work::none(),
        })
    }

    /// How many frames were sent, each counted once for all that it went to.
    pub(crate) fn frames(&self) -> usize {
        self.frames.len()
    }

    /// How many frames correct processes took that were sent.
    pub(crate) fn deliveries(&self) -> u64 {
        self.deliveries
    }

    /// How many claims were signed, lies among them.
    pub(crate) fn claims(&self) -> u64 {
        self.signed.signatures
    }

    /// How many signatures were checked.
    pub(crate) fn checks(&self) -> u64 {
        self.scheme.checked().signatures
    }

    /// How many blocks of SHA-256 were hashed to sign and to check signatures.
    pub(crate) fn blocks(&self) -> u64 {
        self.signed
            .blocks
            .wrapping_add(self.scheme.checked().blocks)
    }

    fn event(&mut self, alloc: Global, what: &ScheduleEvent) -> Result<()> {
        match what {
            ScheduleEvent::Submit { at, payload } => self.hand(*at, &Event::Submit(payload)),
            ScheduleEvent::Raw { to, from, bytes } => {
                self.hand(*to, &Event::Frame { from: *from, bytes })
            }
            ScheduleEvent::Pass { frame, to } => self.pass(*frame, *to),
            ScheduleEvent::Drain { count, to } => self.drain(*count, *to),
            ScheduleEvent::Lie {
                signer,
                to,
                statement,
            } => self.lie(alloc, *signer, *to, statement),
            ScheduleEvent::Suspect { at, of } => self.hand(*at, &Event::Suspect(*of)),
            ScheduleEvent::Join { at, of } => self.hand(*at, &Event::Join(*of)),
            ScheduleEvent::Renew { at } => self.hand(*at, &Event::Renew),
            ScheduleEvent::Tick { at } => self.hand(*at, &Event::Tick),
        }
    }

    // A process takes an event.
    fn hand(&mut self, at: Pid, event: &Event<'_>) -> Result<()> {
        match step(&self.scheme, &mut self.processes, at, event)? {
            Some(outcome) => self.note(at, outcome),
            None => Ok(()),
        }
    }

    fn pass(&mut self, frame: u32, to: Pid) -> Result<()> {
        if frame as usize >= self.frames.len() {
            return Err(anyhow!("no such frame"));
        }
        self.deliver(frame as usize, to)
    }

    // `count` deliveries are made, the oldest first, or lost where their process is none of these.
    fn drain(&mut self, count: u32, to: PidSet) -> Result<()> {
        for _ in 0..count {
            let Some(next) = self.pending.pop_front() else {
                return Ok(());
            };
            if to.contains(next.to) {
                self.deliver(next.frame, next.to)?;
            }
        }
        Ok(())
    }

    // A process takes the frame of this number, if it was sent.
    fn deliver(&mut self, frame: usize, to: Pid) -> Result<()> {
        let Some(sent) = self.frames.get(frame) else {
            return Ok(());
        };
        let event = Event::Frame {
            from: sent.sender,
            bytes: sent.bytes.bytes(),
        };
        match step(&self.scheme, &mut self.processes, to, &event)? {
            Some(outcome) => {
                self.deliveries = self.deliveries.wrapping_add(1);
                self.note(to, outcome)
            }
            None => Ok(()),
        }
    }

    // A corrupt process signs a statement, and sends it to these; a spent key sends nothing.
    fn lie(&mut self, alloc: Global, signer: Pid, to: PidSet, spelled: &[u8]) -> Result<()> {
        let Ok(statement) = read_statement(spelled) else {
            return Ok(());
        };
        let Some(place) = place_of_liar(&self.liars, signer) else {
            return Ok(());
        };
        let Some(liar) = self.liars.get_mut(place) else {
            return Ok(());
        };
        let Ok(lie) = liar.lie(alloc, &self.group, &statement) else {
            return Err(anyhow!("no memory"));
        };
        let Some(frame) = lie else {
            return Ok(());
        };
        self.signed = self.signed.and_signed(spelled);
        self.send(signer, to, frame)
    }

    // Counts what a process signed, and sends its frames.
    fn note(&mut self, sender: Pid, outcome: Outcome) -> Result<()> {
        let (signed, sends, _notes) = outcome.into_parts();
        self.signed = and_signed(self.signed, &signed);
        self.send_all(sender, sends)
    }

    fn send_all(&mut self, sender: Pid, sends: Vec<Sending>) -> Result<()> {
        for Sending { to, frame } in sends {
            self.send(sender, to, frame)?;
        }
        Ok(())
    }

    // A frame gets the next number, and waits for each correct process that it goes to.
    fn send(&mut self, sender: Pid, to: PidSet, bytes: Payload) -> Result<()> {
        let frame = self.frames.len();
        self.frames.push(Sent { sender, bytes })?;
        for process in &self.processes {
            if to.contains(process.number) {
                self.pending.push_back(Delivery {
                    frame,
                    to: process.number,
                })?;
            }
        }
        Ok(())
    }
}
