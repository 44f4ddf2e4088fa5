//! The public keys of a group.
ghost use Rattle.std.specs.Prelude.{◌≡◌, IfOk};

use crate::kit::Kit;
use rp_base::{NoMemory, Roster};
use std::alloc::Global;

/// The public keys of all processes, for one of them to keep.
pub fn roster_of(alloc: Global, kit: &Kit) -> Result<Roster, NoMemory>
    ensures { IfOk result (λ roster. roster ≡ kit.now.keys) }
{
    let listed = kit.roster();
    let mut roster = Roster::new(alloc)?;
    for process in listed.processes().iter() {
        let Some(key) = listed.key(process) else {
            unreachable!();
        };
        roster.add(process, key)?;
    }
    Ok(roster)
}
