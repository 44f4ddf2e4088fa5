//! A world before its first event, and a whole schedule.
ghost use Rattle.std.specs.Prelude.{◌≡◌, IfOk, IfErr};
ghost use Rattle.replay_defs.specs.Schedules as schedules;
ghost use Rattle.replay_defs.specs.Worlds as plain;
ghost use Rattle.schedule_file.specs.Views as views;

use crate::fault::WorldFault;
use crate::traffic::{Sent, Traffic};
use crate::world::{Refused, World};
use happenings::Reported;
use member_events::Payload;
use replay_cast::{Cast, Player};
use rp_base::{GroupId, NoMemory, Pid, Roster};
use schedule_file::{Header, Schedule};
use sig_scheme::AnyScheme;
use std::alloc::Global;
use std::collections::VecDeque;

impl World {
    ghost use Rattle.replay_world.specs.Worlds.{Shows, IsWorldOf, IsEarlyEnd, count_of, players_of, refused_of, spent_of, frames_of, raws_of, group_of, roster_of, scheme_of};

    /// The world before the first event.
    pub fn new(alloc: Global, header: &Header) -> Result<World, NoMemory>
        requires { schedules.IsHeader (views.header header.now) }
        ensures shows { IfOk result (λ w. Shows (views.header header.now) w (plain.start_of (views.header header.now))) }
        ensures count { IfOk result (λ w. count_of w ≡ 0) }
    {
        let Cast {
            group,
            scheme,
            roster,
            players,
            liars,
        } = Cast::new(alloc, header)?;
        Ok(World {
            group,
            scheme,
            roster,
            players,
            liars,
            traffic: Traffic {
                frames: Vec::new(alloc),
                pending: VecDeque::new(alloc),
                bytes: 0,
            },
            raws: Vec::new(alloc),
            refused: Vec::new(alloc),
            spent: Vec::new(alloc),
            count: 0,
        })
    }

    /// Runs a schedule to its end.
    pub fn run(alloc: Global, what: &Schedule) -> Result<World, WorldFault>
        requires { schedules.IsSchedule (views.schedule what.now) }

        // The world is the schedule's own.
        ensures shows { IfOk result (IsWorldOf (views.schedule what.now)) }

        // Else the definitions' world stops with this fault, or memory ran out.
        ensures stops { IfErr result (IsEarlyEnd (views.schedule what.now)) }
    {
        let mut world = World::new(alloc, &what.header)?;
        let mut reported = Reported::Unasked;
        for happening in &what.events {
            world.event(alloc, happening, &mut reported)?;
        }
        Ok(world)
    }

    /// The correct processes, by rising numbers.
    pub fn players(&self) -> &[Player]
        ensures { result.now ≡ players_of self.now }
    {
        self.players.as_slice()
    }

    /// The events that were refused, in order.
    pub fn refused(&self) -> &[Refused]
        ensures { result.now ≡ refused_of self.now }
    {
        self.refused.as_slice()
    }

    /// The processes that met a spent key, as often as one did.
    pub fn spent(&self) -> &[Pid]
        ensures { result.now ≡ spent_of self.now }
    {
        self.spent.as_slice()
    }

    /// The frames that were sent, by their numbers, each with whether a correct process took it.
    pub fn frames(&self) -> &[Sent]
        ensures { result.now ≡ frames_of self.now }
    {
        self.traffic.frames.as_slice()
    }

    /// The bytes that correct processes took as frames, and that no process sent.
    pub fn raws(&self) -> &[Payload]
        ensures { result.now ≡ raws_of self.now }
    {
        self.raws.as_slice()
    }

    /// The name of the group.
    pub fn group(&self) -> &GroupId
        ensures { result.now ≡ group_of self.now }
    {
        &self.group
    }

    /// The public keys of all processes.
    pub fn roster(&self) -> &Roster
        ensures { result.now ≡ roster_of self.now }
    {
        &self.roster
    }

    /// How signatures are checked.
    pub fn scheme(&self) -> &AnyScheme
        ensures { result.now ≡ scheme_of self.now }
    {
        self.scheme.scheme()
    }

    /// How many events there were.
    pub fn count(&self) -> u64
        ensures { result ≡ count_of self.now }
    {
        self.count
    }
}
