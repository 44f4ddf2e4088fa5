ghost use Rattle.std.specs.Prelude.{◌≡◌, [], ◌∷◌, ◌++◌, All, ◌<◌, IfOk, OnOk, OnErr, map, find, option_map, ◌==◌};
ghost use Rattle.std.specs.Option.{option_copied};

use crate::memory::NoMemory;
use crate::pid::Pid;
use crate::pid_set::PidSet;
use std::alloc::Global;
use std::marker::Model;
use std::mem;

/// The most processes that a roster can hold: one for each process number.
const MOST: usize = 64;

/// A process and its public key.
#[derive(Drop)]
struct Listed {
    process: Pid,
    key: Vec<u8>,
}

/// The processes that have a key, with their public keys, by rising process number. Contracts see it as the list of
/// (number, key).
pub struct Roster {
    listed: Vec<Listed>,
}

// Written out, so that whoever drops a value makes one call (docs/CONTRIBUTING.md).
impl Drop for Roster {
    fn drop(self) {
        let Roster { listed } = self;
        mem::drop(listed);
    }
}

impl Model for Roster {
    ghost use Rattle.std.specs.Prelude.{ℕ, List};

    ghost Value = { List (ℕ × List ℕ) };

    ghost use Rattle.rp_base.specs.Rosters.{keys_of, IsRising};

    ghost view = { λ r. keys_of r.listed.items };

    ghost invariant = { λ r. IsRising (keys_of r.listed.items) };
}

impl Roster {
    ghost use Rattle.rp_base.specs.Rosters.{IsRising};

    /// A roster of nobody. Its room is taken at once: `add` takes memory for keys alone.
    pub fn new(alloc: Global) -> Result<Roster, NoMemory>
        ensures { IfOk result (λ roster. roster ≡ []) }
    {
        Ok(Roster {
            listed: Vec::with_capacity(alloc, MOST)?,
        })
    }

    /// Puts the process with its public key after those that are in it.
    pub fn add(&mut self, process: Pid, key: &[u8]) -> Result<(), NoMemory>
        requires { All (λ k. k.0 < process) self.old }
        ensures added { OnOk result (self.new ≡ self.old ++ (process, key.now) ∷ []) }
        ensures same { OnErr result (self.new ≡ self.old) }
    {
        let key = Vec::from_slice(*self.listed.allocator(), key)?;
        self.listed.push(Listed { process, key })?;
        Ok(())
    }

    /// The public key of a process; None exactly where it is not in the roster.
    pub fn key(&self, process: Pid) -> Option<&[u8]>
        ensures { option_copied result ≡ option_map (λ k. k.1) (find (λ k. k.0 == process) self.now) }
    {
        for listed in &self.listed {
            if listed.process == process {
                return Some(listed.key.as_slice());
            }
        }
        None
    }

    /// The processes in the roster.
    pub fn processes(&self) -> PidSet
        ensures value { result ≡ map (λ k. k.0) self.now }
        ensures rising { IsRising self.now }
    {
        let mut all = PidSet::new();
        for listed in &self.listed {
            all.insert(listed.process);
        }
        all
    }
}
