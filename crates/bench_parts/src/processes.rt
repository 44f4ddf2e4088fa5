ghost use Rattle.std.specs.Prelude.{◌≡◌, ◌<◌, ◌≤◌, IfOk};
ghost use Rattle.bench_parts.specs.Keys.{plain_keys};
ghost use Rattle.bench_parts.specs.Keys as defs;

use rp_base::{NoMemory, Pid, Roster};
use std::alloc::Global;

/// The process of this number.
pub fn process(n: u8) -> Pid
    requires { n < 64 }
    ensures { result ≡ n }
{
    Pid::new(n).unwrap()
}

/// Its plain key: 32 bytes of its number.
pub fn key_of(process: Pid) -> [u8; 32]
    ensures { result ≡ defs.key_of process }
{
    [process.get(); 32]
}

/// The first `count` processes with their keys.
pub fn plain_roster(alloc: Global, count: u8) -> Result<Roster, NoMemory>
    requires { count ≤ 64 }
    ensures { IfOk result (λ roster. roster ≡ plain_keys count) }
{
    let mut roster = Roster::new(alloc)?;
    'processes: for n in 0..count {
        let next = process(n);
        roster.add(next, &key_of(next))?;
    }
    Ok(roster)
}
