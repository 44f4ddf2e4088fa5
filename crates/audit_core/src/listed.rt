//! What is reported of each listed process.
ghost use Rattle.std.specs.Prelude.{◌≡◌, List, IfOk, map};
ghost use Rattle.std.specs.List.{AllZip};
ghost use Rattle.group_defs.specs.Process.{Setting};
ghost use Rattle.group_defs.specs.Accounts.{account_of};
ghost use Rattle.rp_base.specs.Rosters.{IsRising};
ghost use Rattle.accounts.specs.Views.{account};
ghost use Rattle.audit_defs.specs.Players as plain;
ghost use Rattle.audit_cast.specs.Turns.{IsPlayer};
ghost use Rattle.audit_core.specs.Found.{grounds_of};

use accounts::{Account, copy_account};
use audit_cast::Player;
use rp_base::{NoMemory, Pid, PidSet};
use std::alloc::Global;

/// What each of the processes reports of itself, copied.
pub(crate) fn accounts_of(alloc: Global, players: &[Player<'_>]) -> Result<Vec<Account>, NoMemory>
    ensures { (s : Setting) (cs : List plain.Player) → AllZip (IsPlayer s) cs players.now
        → IfOk result (λ all. map account all.items ≡ map (λ c. account_of c.now) cs) }
{
    let mut all = Vec::new(alloc);
    for player in players {
        let account = copy_account(alloc, player.account())?;
        all.push(account)?;
    }
    Ok(all)
}

/// For each of the processes, whom the claims handed to it convict. The roster rises, as every `Roster` does.
pub(crate) fn all_grounds(
    alloc: Global,
    players: &[Player<'_>],
) -> Result<Vec<(Pid, PidSet)>, NoMemory>
    ensures { (s : Setting) (cs : List plain.Player) → IsRising s.roster → AllZip (IsPlayer s) cs players.now
        → IfOk result (λ all. all.items ≡ map (grounds_of s) cs) }
{
    let mut all = Vec::new(alloc);
    for player in players {
        all.push((player.me(), player.grounds()))?;
    }
    Ok(all)
}
