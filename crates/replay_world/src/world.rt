//! The world of a schedule: its correct processes, each a real one, and the frames that were sent.
ghost use Rattle.std.specs.Prelude.{◌≡◌, ◌==◌, ◌<◌, ◌+◌, ◌-◌, ◌^◌, ◌++◌, length, map, OnOk, IfOk, IfErr};
ghost use Rattle.std.specs.List.{position_from};
ghost use Rattle.happenings.specs.Events.{event as event_of};
ghost use Rattle.rp_base.specs.Pids.{mask_of};
ghost use Rattle.replay_defs.specs.Worlds as plain;
ghost use Rattle.replay_defs.specs.Worlds.{setting_of};
ghost use Rattle.replay_defs.specs.Schedules as schedules;
ghost use Rattle.replay_defs.specs.Schedules.{IsEvent};
ghost use Rattle.schedule_file.specs.Views as views;
ghost use Rattle.happenings.specs.Reported.{handed as handed_of, WasReported};
ghost use Rattle.reported_defs.specs.Reported as reported_defs;
ghost use Rattle.replay_world.specs.Handing.{bytes_in, Marks};
ghost use Rattle.replay_world.specs.Telling.{ReportsStep, ReportsOf, arrives_or_lost, frame_count, oldest_tells};
ghost use Rattle.replay_world.specs.Stepping.{StepsAt, Refuses, Spends};

use crate::fault::WorldFault;
use crate::traffic::{Delivery, Sent, Traffic};
use happenings::{Handed, Happening, Reported, Seen};
use member_events::{Event, EventFault, EventVerdict, Outcome, Payload, Sending};
use replay_cast::{Liar, Player};
use rp_base::{GroupId, NoMemory, Pid, PidSet, Roster};
use schedule_file::ScheduleEvent;
use shared_checks::SharedScheme;
use std::alloc::Global;
use std::mem;

/// An event that a process refused, by the event's number in the schedule, from 0.
#[derive(Clone, Copy)]
pub struct Refused {
    pub event: u64,
    pub process: Pid,
    pub fault: EventFault,
}

/// The correct processes of a schedule, and what happened between them so far. `Shows` of the specs says which world of the
/// definitions it is. After a fault it is to be given up.
pub struct World {
    pub(crate) group: GroupId,
    pub(crate) scheme: SharedScheme,
    pub(crate) roster: Roster,

    /// The correct processes, by rising numbers.
    pub(crate) players: Vec<Player>,
    pub(crate) liars: Vec<Liar>,
    pub(crate) traffic: Traffic,

    /// The bytes that were handed over as frames, and that no process sent.
    pub(crate) raws: Vec<Payload>,
    pub(crate) refused: Vec<Refused>,

    /// The processes that met a spent key, as often as one did.
    pub(crate) spent: Vec<Pid>,

    /// How many events there were.
    pub(crate) count: u64,
}

// Written out, so that whoever drops a value makes one call (docs/CONTRIBUTING.md).
impl Drop for World {
    fn drop(self) {
        let World {
            group: _,
            scheme,
            roster,
            players,
            liars,
            traffic,
            raws,
            refused,
            spent,
            count: _,
        } = self;
        mem::drop(scheme);
        mem::drop(roster);
        mem::drop(players);
        mem::drop(liars);
        mem::drop(traffic);
        mem::drop(raws);
        mem::drop(refused);
        mem::drop(spent);
    }
}

// The place of a process among the correct ones.
fn place_of(players: &[Player], p: Pid) -> Option<usize>
    ensures { result ≡ position_from (λ q. q.process == p) 0 players.now }
{
    players.iter().position(|q| q.process == p)
}

// The process at a place takes an event.
fn step_at(
    scheme: &SharedScheme,
    players: &mut Vec<Player>,
    i: usize,
    event: &Event<'_>,
) -> Result<Outcome, NoMemory>
    requires { i < length players.old.items }
    ensures { IfOk result (StepsAt scheme.now players.old.items players.new.items i event.now) }
{
    let player = &mut players[i];
    player.step(scheme, event)
}

// Keeps the bytes that an event hands over as a frame.
fn keep_bytes(alloc: Global, raws: &mut Vec<Payload>, event: &Event<'_>) -> Result<(), NoMemory>
    ensures { OnOk result (raws.new.items ≡ raws.old.items ++ bytes_in event.now) }
{
    if let Event::Frame { bytes, .. } = event {
        raws.push(Payload::from_vec(Vec::from_slice(alloc, bytes)?))?;
    }
    Ok(())
}

// A correct process took the frame of this number.
fn mark(frames: &mut Vec<Sent>, i: usize)
    requires { i < length frames.old.items }
    ensures { Marks frames.old.items frames.new.items i }
{
    let frame = &mut frames[i];
    frame.handed = true;
}

// Whether the process is one of these, by their mask.
fn is_addressed(to: PidSet, p: Pid) -> bool
    ensures { result ≡ plain.is_in (mask_of to) p }
{
    to.mask() >> p.get() & 1 == 1
}

// Keeps the refusal, if it was refused.
fn note_refusal(
    all: &mut Vec<Refused>,
    event: u64,
    process: Pid,
    verdict: EventVerdict,
) -> Result<(), NoMemory>
    ensures { OnOk result (Refuses all.old.items event process verdict all.new.items) }
{
    match verdict {
        EventVerdict::Taken => Ok(()),
        EventVerdict::Refused(fault) => Ok(all.push(Refused {
            event,
            process,
            fault,
        })?),
    }
}

// Keeps the process, if it met a spent key.
fn note_spent(all: &mut Vec<Pid>, process: Pid, spent: bool) -> Result<(), NoMemory>
    ensures { OnOk result (Spends all.old.items process spent all.new.items) }
{
    if spent {
        all.push(process)?;
    }
    Ok(())
}

// Reports what came of an event, where somebody asks; and answers what it sends.
fn tell(
    alloc: Global,
    reported: &mut Reported,
    at: Pid,
    handed: Handed,
    first: u64,
    outcome: Outcome,
) -> Result<Vec<Sending>, NoMemory>
    ensures sends { IfOk result (λ sends. sends ≡ outcome.sends) }
    ensures tells { OnOk result (ReportsStep reported.old at handed first outcome reported.new) }
{
    if !reported.is_asked() {
        let (_signed, sends, _notes) = outcome.into_parts();
        return Ok(sends);
    }
    let (seen, sends) = Seen::of(alloc, outcome)?;
    reported.add(Happening::Takes {
        at,
        handed,
        first,
        seen,
    })?;
    Ok(sends)
}

impl World {
    ghost use Rattle.replay_world.specs.Worlds.{Shows, Becomes, Exceeds, Happens, Stops, HappensYet, count_of};
    ghost use Rattle.replay_world.specs.Steps.{Notes, NotesTooMuch, arrives, oldest_arrives};
    ghost use Rattle.std.specs.Prelude.{is_some, slice_get};

    /// Runs one event of the schedule, and reports what happens in it.
    pub fn event(
        &mut self,
        alloc: Global,
        what: &ScheduleEvent,
        reported: &mut Reported,
    ) -> Result<(), WorldFault>
        requires { count_of self.old < 2 ^ 64 - 1 }

        // What the definitions make of a world that this one shows, it shows then.
        ensures happens { OnOk result (Happens self.old self.new (views.event what.now)) }

        // What is reported is what happens in the event of the definitions' world.
        ensures tells { OnOk result ((h : schedules.Header) (v : plain.World) → Shows h self.old v
            → IsEvent h.processes (views.event what.now)
            → WasReported reported.old (reported_defs.tells h v (views.event what.now)) reported.new) }

        // Else their world stops with this fault, or memory ran out.
        ensures stops { IfErr result (Stops self.old (views.event what.now)) }
        ensures count { OnOk result (count_of self.new ≡ count_of self.old + 1) }
    {
        self.happen(alloc, what, reported)?;
        self.count += 1;
        Ok(())
    }

    // What happens in an event, without its being counted.
    fn happen(
        &mut self,
        alloc: Global,
        what: &ScheduleEvent,
        reported: &mut Reported,
    ) -> Result<(), WorldFault>
        ensures tells { OnOk result ((h : schedules.Header) (v : plain.World) → Shows h self.old v
            → IsEvent h.processes (views.event what.now)
            → WasReported reported.old (reported_defs.tells h v (views.event what.now)) reported.new) }
        ensures happens { OnOk result (HappensYet self.old self.new (views.event what.now)) }
        ensures stops { IfErr result (Stops self.old (views.event what.now)) }
        ensures count { OnOk result (count_of self.new ≡ count_of self.old) }
    {
        match what {
            ScheduleEvent::Submit { at, payload } => {
                let event = Event::Submit(payload);
                self.hand(alloc, *at, Handed::Payload, &event, reported)
            }
            ScheduleEvent::Raw { to, from, bytes } => {
                let from = *from;
                let event = Event::Frame { from, bytes };
                self.hand(alloc, *to, Handed::Bytes { from }, &event, reported)
            }
            ScheduleEvent::Pass { frame, to } => self.pass(alloc, *frame, *to, reported),
            ScheduleEvent::Drain { count, to } => self.drain(alloc, *count, *to, reported),
            ScheduleEvent::Lie {
                signer,
                to,
                statement,
            } => self.lie(alloc, *signer, *to, statement, reported),
            ScheduleEvent::Suspect { at, of } => {
                let event = Event::Suspect(*of);
                self.hand(alloc, *at, Handed::Suspects(*of), &event, reported)
            },
            ScheduleEvent::Join { at, of } => {
                self.hand(alloc, *at, Handed::Joins(*of), &Event::Join(*of), reported)
            },
            ScheduleEvent::Renew { at } => {
                self.hand(alloc, *at, Handed::Renews, &Event::Renew, reported)
            },
            ScheduleEvent::Tick { at } => {
                self.hand(alloc, *at, Handed::Ticks, &Event::Tick, reported)
            },
        }
    }

    // A process takes an event.
    fn hand(
        &mut self,
        alloc: Global,
        at: Pid,
        handed: Handed,
        event: &Event<'_>,
        reported: &mut Reported,
    ) -> Result<(), WorldFault>
        ensures tells { OnOk result (ReportsOf (λ h v. reported_defs.takes_in (setting_of h) v at (handed_of handed) (event_of event.now))
            self.old reported.old reported.new) }
        ensures becomes { OnOk result (Becomes (λ h v. plain.hands (setting_of h) v at (event_of event.now)) self.old self.new) }
        ensures exceeds { IfErr result (Exceeds (λ h v. plain.hands (setting_of h) v at (event_of event.now)) self.old) }
        ensures count { OnOk result (count_of self.new ≡ count_of self.old) }
    {
        let Some(i) = place_of(&self.players, at) else {
            return Ok(());
        };
        keep_bytes(alloc, &mut self.raws, event)?;
        let outcome = step_at(&self.scheme, &mut self.players, i, event)?;
        self.note(alloc, at, handed, outcome, reported)
    }

    // A process takes the frame of this number, if it was sent.
    fn deliver(
        &mut self,
        alloc: Global,
        frame: usize,
        to: Pid,
        reported: &mut Reported,
    ) -> Result<(), WorldFault>
        ensures tells { OnOk result (ReportsOf (λ h v. reported_defs.gets_frame (setting_of h) v to frame) self.old reported.old reported.new) }
        ensures becomes { OnOk result (Becomes (λ h v. plain.delivers (setting_of h) v to frame) self.old self.new) }
        ensures exceeds { IfErr result (Exceeds (λ h v. plain.delivers (setting_of h) v to frame) self.old) }
        ensures count { OnOk result (count_of self.new ≡ count_of self.old) }
    {
        let Some(sent) = self.traffic.frames.get(frame) else {
            return Ok(());
        };
        let Some(i) = place_of(&self.players, to) else {
            return Ok(());
        };
        let from = sent.sender;
        let event = Event::Frame {
            from,
            bytes: sent.bytes.bytes(),
        };
        let outcome = step_at(&self.scheme, &mut self.players, i, &event)?;
        mark(&mut self.traffic.frames, frame);
        let handed = Handed::Frame {
            number: frame as u64,
            from,
        };
        self.note(alloc, to, handed, outcome, reported)
    }

    // A process takes a frame that was sent; one that is not sent yet stops the world.
    fn pass(
        &mut self,
        alloc: Global,
        frame: u32,
        to: Pid,
        reported: &mut Reported,
    ) -> Result<(), WorldFault>
        ensures tells { OnOk result (ReportsOf (λ h v. reported_defs.gets_frame (setting_of h) v to frame) self.old reported.old reported.new) }
        ensures happens { OnOk result (HappensYet self.old self.new (schedules.Pass frame to)) }
        ensures stops { IfErr result (Stops self.old (schedules.Pass frame to)) }
        ensures count { OnOk result (count_of self.new ≡ count_of self.old) }
    {
        let sent = self.traffic.frames.len();
        if frame as usize >= sent {
            return Err(WorldFault::NoSuchFrame {
                event: self.count,
                frame,
                sent,
            });
        }
        self.deliver(alloc, frame as usize, to, reported)
    }

    // The frame of a delivery is lost on its way.
    fn lose(&mut self, next: Delivery, reported: &mut Reported) -> Result<(), WorldFault>
        ensures tells { OnOk result (ReportsOf (λ h v. reported_defs.loses v (next.frame, next.to)) self.old reported.old reported.new) }
        ensures same { self.new ≡ self.old }
        ensures memory { IfErr result (λ fault. fault ≡ WorldFault.NoMemory) }
    {
        let Some(sent) = self.traffic.frames.get(next.frame) else {
            return Ok(());
        };
        reported.add(Happening::Loses {
            frame: next.frame as u64,
            from: sent.sender,
            to: next.to,
        })?;
        Ok(())
    }

    // A delivery is made, where its addressee is one of these; else it is lost.
    fn arrive(
        &mut self,
        alloc: Global,
        to: PidSet,
        next: Delivery,
        reported: &mut Reported,
    ) -> Result<(), WorldFault>
        ensures tells { OnOk result (ReportsOf (λ h v. arrives_or_lost (setting_of h) (mask_of to) v (next.frame, next.to))
            self.old reported.old reported.new) }
        ensures becomes { OnOk result (Becomes (λ h v. arrives (setting_of h) (mask_of to) v (next.frame, next.to)) self.old self.new) }
        ensures exceeds { IfErr result (Exceeds (λ h v. arrives (setting_of h) (mask_of to) v (next.frame, next.to)) self.old) }
        ensures count { OnOk result (count_of self.new ≡ count_of self.old) }
    {
        if is_addressed(to, next.to) {
            self.deliver(alloc, next.frame, next.to, reported)
        } else {
            self.lose(next, reported)
        }
    }

    // The oldest delivery is made, or lost. It is false where none waits.
    fn deliver_next(
        &mut self,
        alloc: Global,
        to: PidSet,
        reported: &mut Reported,
    ) -> Result<bool, WorldFault>
        ensures tells { OnOk result (ReportsOf (λ h v. oldest_tells (setting_of h) (mask_of to) v) self.old reported.old reported.new) }
        ensures becomes { OnOk result (Becomes (λ h v. oldest_arrives (setting_of h) (mask_of to) v) self.old self.new) }
        ensures exceeds { IfErr result (Exceeds (λ h v. oldest_arrives (setting_of h) (mask_of to) v) self.old) }
        ensures waits { IfOk result (λ more. (h : schedules.Header) (v : plain.World) → Shows h self.old v
            → more ≡ is_some (slice_get v.pending 0)) }
        ensures count { OnOk result (count_of self.new ≡ count_of self.old) }
    {
        let Some(next) = self.traffic.pending.pop_front() else {
            return Ok(false);
        };
        self.arrive(alloc, to, next, reported)?;
        Ok(true)
    }

    // `count` deliveries are made or lost, or until none waits.
    fn drain(
        &mut self,
        alloc: Global,
        count: u32,
        to: PidSet,
        reported: &mut Reported,
    ) -> Result<(), WorldFault>
        ensures tells { OnOk result (ReportsOf
            (λ h v. reported_defs.drain_tells (setting_of h) (mask_of to) count v) self.old reported.old reported.new) }
        ensures becomes { OnOk result (Becomes (λ h v. plain.drains (setting_of h) (mask_of to) count v) self.old self.new) }
        ensures exceeds { IfErr result (Exceeds (λ h v. plain.drains (setting_of h) (mask_of to) count v) self.old) }
        ensures count { OnOk result (count_of self.new ≡ count_of self.old) }
    {
        let mut left = count;
        'deliveries: while left > 0 {
            if !self.deliver_next(alloc, to, reported)? {
                return Ok(());
            }
            left -= 1;
        }
        Ok(())
    }

    // Keeps what came of an event at a process, and sends its frames.
    fn note(
        &mut self,
        alloc: Global,
        me: Pid,
        handed: Handed,
        outcome: Outcome,
        reported: &mut Reported,
    ) -> Result<(), WorldFault>
        ensures tells { OnOk result (ReportsStep reported.old me handed (frame_count self.old) outcome reported.new) }
        ensures notes { OnOk result (Notes self.old self.new me outcome) }
        ensures too_much { IfErr result (NotesTooMuch self.old me outcome) }
        ensures count { OnOk result (count_of self.new ≡ count_of self.old) }
    {
        note_refusal(&mut self.refused, self.count, me, outcome.verdict)?;
        note_spent(&mut self.spent, me, outcome.spent)?;
        let first = self.traffic.frames.len() as u64;
        let sends = tell(alloc, reported, me, handed, first, outcome)?;
        self.traffic.send_all(&self.players, self.count, me, sends)
    }
}
