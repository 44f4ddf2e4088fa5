//! Whether the group is sound.
ghost use Rattle.std.specs.Prelude.{◌≡◌, map};
ghost use Rattle.group_defs.specs.Accounts as plain;
ghost use Rattle.accounts.specs.Views.{account};

use crate::acceptance::are_accepted;
use crate::causes::are_caused;
use crate::order::are_in_order;
use crate::places::are_placed;
use accounts::Account;
use rp_base::PidSet;

/// Whether the group is sound. Each view but the first follows from the one before by an update that a member perceived there, and a
/// process that it adds is one of `keyed`, those that the roster has a key of. In each view the numbers of each sender are 0, 1, 2 and so
/// on. What was delivered of each of these processes, over all views, is the first of what it accepted. The places of each view are 0, 1, 2
/// and so on, each with 1 to 16 messages together, and all who have a place have the same messages there.
pub fn sound(accounts: &[Account], keyed: PidSet) -> bool
    ensures { result ≡ plain.sound (map account accounts.now) keyed }
{
    are_caused(accounts, keyed)
        && are_in_order(accounts)
        && are_accepted(accounts)
        && are_placed(accounts)
}
