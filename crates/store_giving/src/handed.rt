//! The state keys that were handed to a process.
ghost use Rattle.std.specs.Prelude.{◌≡◌, length};

use rp_base::{NoMemory, Pid};
use sig_scheme::PublicKey;
use std::alloc::Global;

/// How many processes there are at most.
const PROCESSES: usize = 64;

/// By the number of each process, the key that was handed in last, where one was.
#[derive(Drop)]
pub(crate) struct StateKeys {
    keys: Vec<Option<PublicKey>>,
    ghost all: { length keys.items ≡ 64 },
}

impl StateKeys {
    ghost use Rattle.std.specs.Prelude.{ℕ, ◌==◌, IfOk, None, Some, if◌then◌else◌, option_map};
    ghost use Rattle.sig_scheme.specs.Keys.{key_bytes};
    ghost use Rattle.store_giving.specs.Handed.{key_of};

    /// None was handed in yet.
    pub(crate) fn new(alloc: Global) -> Result<StateKeys, NoMemory>
        ensures { IfOk result (λ t. (p : ℕ) → key_of t p ≡ None) }
    {
        let keys = vec![in alloc; None; PROCESSES]?;
        Ok(StateKeys { keys })
    }

    /// Hands in the key of a process, in place of its earlier one.
    pub(crate) fn hand(&mut self, p: Pid, key: PublicKey)
        ensures { (q : ℕ) → key_of self.new q ≡ if p == q then Some (key_bytes key) else key_of self.old q }
    {
        self.keys[p.get() as usize] = Some(key);
    }

    /// The key of a process, where one was handed in.
    pub(crate) fn of(&self, p: Pid) -> Option<&[u8]>
        ensures { option_map (λ k. k.now) result ≡ key_of self.now p }
    {
        match &self.keys[p.get() as usize] {
            Some(key) => Some(key.as_bytes()),
            None => None,
        }
    }
}
