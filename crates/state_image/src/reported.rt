//! What a member has decided in its view, and what it tells of itself.
ghost use Rattle.std.specs.Prelude.{◌≡◌, map, Some, IfOk};
ghost use Rattle.group_defs.specs.Process.{Process};
ghost use Rattle.stmt_codec.specs.Views.{report};
ghost use Rattle.member_settling.specs.Below.{IsIn, decision_of};
ghost use Rattle.accounts.specs.Views.{account as account_as};
ghost use Rattle.snapshot_rp.specs.Views.{delivered, perceived};

use accounts::{Account, Delivered, Payload, copy_account};
use member_settling::{Decision, Phase};
use rp_base::{NoMemory, Update, Value};
use std::alloc::Global;
use std::mem;

/// What a process tells of itself, without its number and its views.
#[derive(Drop)]
pub(crate) struct Reported {
    pub(crate) perceived: Vec<(u16, Update)>,
    pub(crate) accepted: Vec<Payload>,
    pub(crate) delivered: Vec<Vec<Delivered>>,
}

/// A copy of it.
pub(crate) fn reported_in(alloc: Global, account: &Account) -> Result<Reported, NoMemory>
    ensures perceived { IfOk result (λ reported. map perceived reported.perceived.items ≡ (account_as account.now).perceived) }
    ensures accepted { IfOk result (λ reported. reported.accepted.items ≡ (account_as account.now).accepted) }
    ensures delivered { IfOk result (λ reported. map (λ ds. map delivered ds.items) reported.delivered.items ≡ (account_as account.now).delivered) }
{
    let mut copy = copy_account(alloc, account)?;
    let perceived = mem::replace(&mut copy.perceived, Vec::new(alloc));
    let accepted = mem::replace(&mut copy.accepted, Vec::new(alloc));
    let delivered = mem::replace(&mut copy.delivered, Vec::new(alloc));
    Ok(Reported {
        perceived,
        accepted,
        delivered,
    })
}

// The rank and the value.
fn parts(decision: Decision) -> Option<(u8, Value)>
    ensures { report result ≡ Some (decision_of decision) }
{
    Some((decision.rank, decision.value))
}

/// The rank and the value that the view is decided by.
pub(crate) fn decision_in(phase: &Phase) -> Option<(u8, Value)>
    ensures { (p : Process) → IsIn phase.now p → p.decision ≡ report result }
{
    match phase {
        Phase::DecidedView(decided) => parts(decided.decision()),
        Phase::HaltedView(halted) => parts(halted.decision()),
        _ => None,
    }
}

/// Whether the process has halted.
pub(crate) fn is_halted(phase: &Phase) -> bool
    ensures { (p : Process) → IsIn phase.now p → p.halted ≡ result }
{
    match phase {
        Phase::HaltedView(_) => true,
        _ => false,
    }
}
