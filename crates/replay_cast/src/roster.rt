//! The public keys of all processes, of which each correct one has a roster of its own.
ghost use Rattle.std.specs.Prelude.{◌≡◌, map, IfOk};
ghost use Rattle.sig_scheme.specs.Signers.{public};
ghost use Rattle.rp_base.specs.Rosters.{IsRising};
ghost use Rattle.replay_cast.specs.Keyed.{entry, key_of};

use crate::keyed::Keyed;
use rp_base::{NoMemory, Pid, Roster, Signer};
use std::alloc::Global;

/// A process and its public key.
#[derive(Drop)]
pub struct Entry {
    pub process: Pid,
    pub key: Vec<u8>,
}

/// The public keys of these processes, each with its process.
pub fn entries_of(alloc: Global, all: &[Keyed]) -> Result<Vec<Entry>, NoMemory>
    ensures { IfOk result (λ entries. map entry entries.items ≡ map key_of all.now) }
{
    let mut entries = Vec::new(alloc);
    for one in all {
        let key = Vec::from_slice(alloc, one.signer.public())?;
        entries.push(Entry {
            process: one.process,
            key,
        })?;
    }
    Ok(entries)
}

/// The roster of these processes and public keys.
pub fn roster_of(alloc: Global, entries: &[Entry]) -> Result<Roster, NoMemory>
    requires { IsRising (map entry entries.now) }
    ensures { IfOk result (λ roster. roster ≡ map entry entries.now) }
{
    let mut roster = Roster::new(alloc)?;
    for one in entries {
        roster.add(one.process, one.key.as_slice())?;
    }
    Ok(roster)
}
