//! The report of a world.
ghost use Rattle.std.specs.Prelude.{◌≡◌, ◌++◌, List, ℕ, map, IfOk, OnOk};
ghost use Rattle.std.specs.List.{flat_map};
ghost use Rattle.group_defs.specs.Process.{Setting};
ghost use Rattle.replay_defs.specs.Schedules.{Header};
ghost use Rattle.replay_defs.specs.Worlds as worlds;
ghost use Rattle.replay_defs.specs.Worlds.{family_of};
ghost use Rattle.replay_defs.specs.Reports as plain;
ghost use Rattle.replay_questions.specs.Cast.{Plays, ArePlayers};
ghost use Rattle.replay_questions.specs.Worlds.{refused as refused_in};
ghost use Rattle.replay_questions.specs.Worlds.{Shows};
ghost use Rattle.replay_report.specs.Lines.{middle_lines};

use crate::answers::answers_of;
use crate::process_reports::report_of;
use replay_questions::{Player, Refused, World};
use report_lines::{
    push_answers, push_block, push_head, push_process, push_refused, push_refused_count,
};
use rp_base::{NoMemory, Pid};
use std::alloc::Global;

// The refused steps.
fn push_refusals(out: &mut Vec<u8>, refused: &[Refused]) -> Result<(), NoMemory>
    ensures { OnOk result (out.new.items ≡ out.old.items ++ flat_map plain.refused_line (map refused_in refused.now)) }
{
    for one in refused {
        push_refused(out, one.event, one.process, one.fault)?;
    }
    Ok(())
}

// All lines of a process.
fn push_player(out: &mut Vec<u8>, player: &Player, spent: &[Pid]) -> Result<(), NoMemory>
    ensures { (s : Setting) (c : worlds.Player) → Plays s player.now c
        → OnOk result (out.new.items ≡ out.old.items ++ plain.block spent.now c.now) }
{
    let report = report_of(player);
    let is_spent = spent.contains(&report.account.me);
    push_block(out, &report, is_spent)
}

fn push_players(out: &mut Vec<u8>, players: &[Player], spent: &[Pid]) -> Result<(), NoMemory>
    ensures { (s : Setting) (cs : List worlds.Player) → ArePlayers s players.now cs
        → OnOk result (out.new.items ≡ out.old.items ++ flat_map (λ c. plain.block spent.now c.now) cs) }
{
    for player in players {
        push_player(out, player, spent)?;
    }
    Ok(())
}

// The first line of a process.
fn push_player_short(out: &mut Vec<u8>, player: &Player) -> Result<(), NoMemory>
    ensures { (s : Setting) (c : worlds.Player) → Plays s player.now c
        → OnOk result (out.new.items ≡ out.old.items ++ plain.process_line c.now) }
{
    push_process(out, &report_of(player))
}

fn push_players_short(out: &mut Vec<u8>, players: &[Player]) -> Result<(), NoMemory>
    ensures { (s : Setting) (cs : List worlds.Player) → ArePlayers s players.now cs
        → OnOk result (out.new.items ≡ out.old.items ++ flat_map (λ c. plain.process_line c.now) cs) }
{
    for player in players {
        push_player_short(out, player)?;
    }
    Ok(())
}

// The lines between the head and the answers.
fn push_world(out: &mut Vec<u8>, world: &World, short: bool) -> Result<(), NoMemory>
    ensures { (h : Header) (v : worlds.World) → Shows h world.now v
        → OnOk result (out.new.items ≡ out.old.items ++ middle_lines short v (family_of h v)) }
{
    if short {
        push_refused_count(out, world.refused().len() as u64)?;
        push_players_short(out, world.players())
    } else {
        push_refusals(out, world.refused())?;
        push_players(out, world.players(), world.spent())
    }
}

/// The report of a world, short or long.
pub fn report(alloc: Global, world: &World, short: bool) -> Result<Vec<u8>, NoMemory>
    ensures { (h : Header) (v : worlds.World) → Shows h world.now v
        → IfOk result (λ out. out.items ≡ plain.report_by short v (family_of h v)) }
{
    let answers = answers_of(alloc, world)?;
    let mut out = Vec::new(alloc);
    push_head(&mut out, world.count())?;
    push_world(&mut out, world, short)?;
    push_answers(&mut out, answers)?;
    Ok(out)
}
