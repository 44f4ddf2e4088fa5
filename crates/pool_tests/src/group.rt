ghost use Rattle.std.specs.Prelude.{◌≡◌, ◌<◌};

use rp_base::{GroupId, NoMemory, Pid, Roster};
use std::alloc::Global;

/// The group of the frames.
pub(crate) const GROUP: GroupId = GroupId([7; 16]);

pub(crate) fn pid(n: u8) -> Pid
    requires { n < 64 }
    ensures { result ≡ n }
{
    Pid::new(n).unwrap()
}

/// Processes 0 to 4 have plain keys.
pub(crate) fn roster(alloc: Global) -> Result<Roster, NoMemory> {
    let mut roster = Roster::new(alloc)?;
    roster.add(pid(0), &[10; 32])?;
    roster.add(pid(1), &[11; 32])?;
    roster.add(pid(2), &[12; 32])?;
    roster.add(pid(3), &[13; 32])?;
    roster.add(pid(4), &[14; 32])?;
    Ok(roster)
}
