//! Lies of corrupt processes.
ghost use Rattle.std.specs.Prelude.{◌≡◌, ◌==◌, ◌<◌, ◌∷◌, [], length, OnOk, IfErr, IfOk};
ghost use Rattle.std.specs.List.{position_from};
ghost use Rattle.message_defs.specs.Spelling.{IsStatement};
ghost use Rattle.rp_base.specs.Pids.{mask_of};
ghost use Rattle.replay_defs.specs.Schedules as schedules;
ghost use Rattle.member_events.specs.Below.{stmt};
ghost use Rattle.happenings.specs.Reported.{WasReported};
ghost use Rattle.trace_defs.specs.Happenings as defs;
ghost use Rattle.reported_defs.specs.Reported as reported_defs;
ghost use Rattle.replay_world.specs.Lying.{LiesAt};
ghost use Rattle.replay_world.specs.Telling.{frame_count};

use crate::fault::WorldFault;
use crate::world::World;
use happenings::{Happening, Reported};
use member_events::{Payload, Statement, read_statement};
use replay_cast::Liar;
use rp_base::{GroupId, NoMemory, Pid, PidSet};
use std::alloc::Global;

// The place of a process among the corrupt ones.
fn place_of(liars: &[Liar], p: Pid) -> Option<usize>
    ensures { result ≡ position_from (λ x. x.process == p) 0 liars.now }
{
    liars.iter().position(|x| x.process == p)
}

// The corrupt process at a place signs a statement.
fn lie_at(
    alloc: Global,
    group: &GroupId,
    liars: &mut Vec<Liar>,
    i: usize,
    statement: &Statement<'_>,
) -> Result<Option<Payload>, NoMemory>
    requires place { i < length liars.old.items }
    requires range { IsStatement (stmt statement.now) }
    ensures { IfOk result (LiesAt group.now (stmt statement.now) liars.old.items liars.new.items i) }
{
    let liar = &mut liars[i];
    liar.lie(alloc, group, statement)
}

impl World {
    ghost use Rattle.replay_defs.specs.Worlds as plain;
    ghost use Rattle.replay_world.specs.Worlds.{Shows, Stops, HappensYet, count_of};

    // Reports a lie, where somebody asks.
    fn tell_lie(
        &self,
        alloc: Global,
        signer: Pid,
        to: PidSet,
        statement: &[u8],
        reported: &mut Reported,
    ) -> Result<(), NoMemory>
        ensures { OnOk result (WasReported reported.old (defs.Lies signer statement.now (frame_count self.now) to ∷ []) reported.new) }
    {
        if !reported.is_asked() {
            return Ok(());
        }
        let statement = Payload::from_vec(Vec::from_slice(alloc, statement)?);
        reported.add(Happening::Lies {
            signer,
            statement,
            frame: self.traffic.frames.len() as u64,
            to,
        })
    }

    /// A corrupt process signs a statement, and sends it to the processes of the mask; one whose key is spent sends nothing.
    pub(crate) fn lie(
        &mut self,
        alloc: Global,
        signer: Pid,
        to: PidSet,
        statement: &[u8],
        reported: &mut Reported,
    ) -> Result<(), WorldFault>
        ensures tells { OnOk result ((h : schedules.Header) (v : plain.World) → Shows h self.old v
            → schedules.IsEvent h.processes (schedules.Lie signer (mask_of to) statement.now)
            → WasReported reported.old (reported_defs.liar_tells h v signer (mask_of to) statement.now) reported.new) }
        ensures happens { OnOk result (HappensYet self.old self.new (schedules.Lie signer (mask_of to) statement.now)) }
        ensures stops { IfErr result (Stops self.old (schedules.Lie signer (mask_of to) statement.now)) }
        ensures count { OnOk result (count_of self.new ≡ count_of self.old) }
    {
        let Some(i) = place_of(&self.liars, signer) else {
            return Ok(());
        };
        let Ok(said) = read_statement(statement) else {
            return Ok(());
        };
        let Some(frame) = lie_at(alloc, &self.group, &mut self.liars, i, &said)? else {
            reported.add(Happening::Silent { signer })?;
            return Ok(());
        };
        let to = PidSet::from_mask(to.mask());
        self.tell_lie(alloc, signer, to, statement, reported)?;
        self.traffic
            .send(&self.players, self.count, signer, to, frame)
    }
}
