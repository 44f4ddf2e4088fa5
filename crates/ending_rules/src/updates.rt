//! The updates in their order: Remove of process 0 to 63, Add of process 0 to 63, Renew.
ghost use Rattle.std.specs.Prelude.{◌≡◌};
ghost use Rattle.rp_base.specs.Views.{update as update_of};
ghost use Rattle.rule_laws.specs.Perceived.{update_at as plain_at};

use rp_base::{Pid, Update};

/// How many updates there are.
pub(crate) const MOST_UPDATES: u8 = 129;

// The update of this number in their order.
pub(crate) fn update_at(number: u8) -> Update
    ensures { update_of result ≡ plain_at number }
{
    match Pid::new(number) {
        Some(p) => Update::Remove(p),
        None => match Pid::new(number - 64) {
            Some(p) => Update::Add(p),
            None => Update::Renew,
        },
    }
}
