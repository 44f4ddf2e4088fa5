//! The correct processes as they are at the end of a run.
ghost use Rattle.std.specs.Prelude.{◌≡◌, ℕ, List, map, IfOk};
ghost use Rattle.byte_defs.specs.Members.{has};
ghost use Rattle.group_defs.specs.Process.{Setting};
ghost use Rattle.group_defs.specs.Accounts.{account_of};
ghost use Rattle.accounts.specs.Views.{account};
ghost use Rattle.replay_defs.specs.Worlds as plain;
ghost use Rattle.replay_questions.specs.Cast.{Plays, ArePlayers, process_of};
ghost use Rattle.report_lines.specs.AsReported.{IsAsReported};

use accounts::{Account, copy_account};
use replay_questions::Player;
use report_lines::ProcessReport;
use rp_base::{NoMemory, PidSet};
use std::alloc::Global;

/// What a report says of the process.
pub(crate) fn report_of(player: &Player) -> ProcessReport<'_>
    ensures { (s : Setting) (c : plain.Player) → Plays s player.now c → IsAsReported result c.now }
{
    let core = &player.core;
    ProcessReport {
        account: core.account(),
        phase: core.phase(),
        signed: core.used(),
        liars: core.liars(),
        halted: core.halted(),
    }
}

/// What each of these processes reports of itself, copied.
pub(crate) fn accounts_of(alloc: Global, players: &[Player]) -> Result<Vec<Account>, NoMemory>
    ensures { (s : Setting) (cs : List plain.Player) → ArePlayers s players.now cs
        → IfOk result (λ all. map account all.items ≡ map (λ c. account_of c.now) cs) }
{
    let mut all = Vec::new(alloc);
    for player in players {
        let account = copy_account(alloc, player.core.account())?;
        all.push(account)?;
    }
    Ok(all)
}

/// The numbers of these processes.
pub(crate) fn numbers_of(players: &[Player]) -> PidSet
    ensures { (p : ℕ) → has result p ≡ has (map process_of players.now) p }
{
    let mut all = PidSet::new();
    for player in players {
        all.insert(player.process);
    }
    all
}
