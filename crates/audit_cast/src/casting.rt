ghost use Rattle.std.specs.Prelude.{◌≡◌, ◌≤◌, [], List, IfErr, IfOk, OnOk, map};
ghost use Rattle.message_defs.specs.Statements as plain;
ghost use Rattle.kit_defs.specs.Kits.{IsKit};
ghost use Rattle.view_table.specs.Views.{as_view};
ghost use Rattle.audit_defs.specs.Players.{player_by, players_of, setting_of};
ghost use Rattle.audit_defs.specs.Audits.{Known, cast_of};
ghost use Rattle.journal_steps.specs.Views.{source as source_of};
ghost use Rattle.audit_sources.specs.Faults.{IsFaultOf};
ghost use Rattle.audit_walk.specs.Turns.{IsPlayer, begun};
ghost use Rattle.audit_walk.specs.Turns.{IsWalk};
ghost use Rattle.audit_cast.specs.Casts.{Starts, with_any};

use audit_sources::{AuditFault, HostedBy, Kit, Source, first_missing, first_repeated, host_of};
use audit_walk::{Player, Walk};
use kit_file::roster_of;
use rp_base::{NoMemory, Pid, PidSet};
use std::alloc::Global;
use view_table::View;

// The first view of a kit's group.
fn genesis_of(kit: &Kit) -> View
    requires { IsKit kit.now }
    ensures { result ≡ as_view 0 kit.now.genesis }
{
    View::new(0, kit.genesis()).unwrap()
}

// The process as it starts.
fn player_of<'a>(alloc: Global, kit: &Kit, me: Pid, by: HostedBy) -> Result<Player<'a>, NoMemory>
    requires kit { IsKit kit.now }
    requires some { 1 ≤ by.batch_limit }
    requires few { by.batch_limit ≤ 16 }
    ensures { IfOk result (IsPlayer (setting_of kit.now) (begun (setting_of kit.now) me by.batch_limit by.journal)) }
{
    let roster = roster_of(alloc, kit)?;
    let genesis = genesis_of(kit);
    let group = kit.group();
    Player::new(
        alloc,
        group,
        roster,
        genesis,
        me,
        by.batch_limit,
        by.journal,
    )
}

// Adds the process as it starts, where one of the journals hosts it.
fn add_player(
    alloc: Global,
    kit: &Kit,
    sources: &[Source<'_>],
    me: Pid,
    walk: &mut Walk<'_>,
) -> Result<(), NoMemory>
    requires kit { IsKit kit.now }
    ensures { (k : Known) (own : List plain.Claim) → IsWalk (setting_of kit.now) k own walk.old
        → OnOk result (IsWalk (setting_of kit.now)
        (with_any k (player_by (setting_of kit.now) (map source_of sources.now) me)) own walk.new) }
{
    let Some(by) = host_of(sources, me) else {
        return Ok(());
    };
    match player_of(alloc, kit, me, by) {
        Ok(player) => walk.add(player),
        Err(NoMemory) => Err(NoMemory),
    }
}

// All of these processes that one of the journals hosts, as they start.
fn all_players<'a>(
    alloc: Global,
    kit: &Kit,
    sources: &[Source<'_>],
    listed: PidSet,
) -> Result<Walk<'a>, NoMemory>
    requires kit { IsKit kit.now }
    ensures { IfOk result (IsWalk (setting_of kit.now)
        (record { players = players_of (setting_of kit.now) (map source_of sources.now) listed; claims = [] }) []) }
{
    let mut walk = Walk::new(alloc);
    let mut left = listed;
    'listed: while let Some(me) = left.pop_first() {
        add_player(alloc, kit, sources, me, &mut walk)?;
    }
    Ok(walk)
}

/// The listed processes as they start, where each is hosted by exactly one of the journals; no claims came up yet.
///
/// # Errors
/// [`AuditFault::Missing`] of the least listed process that no journal hosts; else [`AuditFault::Repeated`] of the least one that two
/// journals or more host; and [`AuditFault::NoMemory`].
pub fn cast<'a>(
    alloc: Global,
    kit: &Kit,
    sources: &[Source<'_>],
    listed: PidSet,
) -> Result<Walk<'a>, AuditFault>
    requires kit { IsKit kit.now }
    ensures starts { IfOk result (Starts (setting_of kit.now) (cast_of (setting_of kit.now) (map source_of sources.now) listed)) }
    ensures refused { IfErr result (λ fault. IsFaultOf fault (cast_of (setting_of kit.now) (map source_of sources.now) listed)) }
{
    if let Some(p) = first_missing(sources, listed) {
        return Err(AuditFault::Missing(p));
    }
    if let Some(p) = first_repeated(sources, listed) {
        return Err(AuditFault::Repeated(p));
    }
    match all_players(alloc, kit, sources, listed) {
        Ok(walk) => Ok(walk),
        Err(NoMemory) => Err(AuditFault::NoMemory),
    }
}
