ghost use Rattle.std.specs.Prelude.{◌≡◌, ◌+◌, ◌≤◌, ◌++◌, vec_len, vec_capacity, IfOk, OnOk, OnErr};
ghost use Rattle.store_defs.specs.Stores as stores;
ghost use Rattle.store_defs.specs.Stores.{applied, answer_to, carried_out, answer_bytes, IsStore};
ghost use Rattle.store_records.specs.Finds.{Finds};
ghost use Rattle.store_records.specs.Views.{command as command_of};
ghost use Rattle.kv_service.specs.Pairs.{pairs_of};

use crate::answers::{NO_COMMAND, say};
use crate::commands::{exchange, get, set, take_out};
use crate::pairs::{PairMap, insert};
use crate::state::{append_state, state_length};
use rp_base::NoMemory;
use std::alloc::Global;
use std::collections::BTreeMap;
use std::marker::Model;
use store_records::{Command, Pairs, read_request};

/// A replicated store: at most 4,096 keys of 1 to 64 bytes, each with a value of at most 512. Contracts see it as the list of its pairs by
/// rising keys.
#[derive(Drop)]
pub struct Store {
    pairs: PairMap,
}

impl Model for Store {
    ghost use Rattle.store_defs.specs.Stores as stores;
    ghost use Rattle.kv_service.specs.Pairs.{pairs_of};

    ghost Value = { stores.Store };

    ghost view = { λ s. pairs_of s.pairs };

    ghost invariant = { λ s. stores.IsStore (pairs_of s.pairs) };
}

// Carries the command out. One byte of the answer has room.
#[tactic(auto, using(crate::proofs::Carrying::get_leaves))]
fn carry_out(
    pairs: &mut PairMap,
    alloc: Global,
    command: Command<'_>,
    answer: &mut Vec<u8>,
) -> Result<(), NoMemory>
    requires store { IsStore (pairs_of pairs.old) }
    requires room { vec_len answer.old + 1 ≤ vec_capacity answer.old }
    ensures store { OnOk result (pairs_of pairs.new ≡ (carried_out (command_of command.entry) (pairs_of pairs.old)).1) }
    ensures answer { OnOk result (answer.new.items
        ≡ answer.old.items ++ answer_bytes (carried_out (command_of command.entry) (pairs_of pairs.old)).0) }
    ensures unchanged { OnErr result (pairs_of pairs.new ≡ pairs_of pairs.old) }
    ensures unanswered { OnErr result (answer.new.items ≡ answer.old.items) }
{
    match command {
        Command::Set { key, value } => set(pairs, alloc, key, value, answer),
        Command::Get { key } => get(pairs, key, answer),
        Command::Remove { key } => {
            take_out(pairs, key, answer);
            Ok(())
        }
        Command::Exchange {
            key,
            expected,
            value,
        } => exchange(pairs, key, expected, value, answer),
    }
}

impl Store {
    /// The store without a key.
    pub fn new(alloc: Global) -> Store
        ensures { result ≡ stores.empty }
    {
        Store {
            pairs: BTreeMap::new(alloc),
        }
    }

    /// Carries out a payload, and appends its answer. A payload that is no request changes nothing and answers `03`.
    ///
    /// # Errors
    /// [`NoMemory`] where room for a key, a value or the answer is refused; neither the store nor the answer has changed then.
    pub fn apply(
        &mut self,
        alloc: Global,
        payload: &[u8],
        answer: &mut Vec<u8>,
    ) -> Result<(), NoMemory>
        ensures applied { OnOk result (self.new ≡ (applied self.old payload.now).1) }
        ensures answered { OnOk result (answer.new.items ≡ answer.old.items ++ answer_to self.old payload.now) }
        ensures unchanged { OnErr result (self.new ≡ self.old) }
        ensures unanswered { OnErr result (answer.new.items ≡ answer.old.items) }
        ensures within { IsStore self.old }
    {
        // Read before the first way out, so that what holds of every store is known there.
        let _ = &self.pairs;
        answer.reserve(1)?;
        let Some(command) = read_request(payload) else {
            say(answer, NO_COMMAND);
            return Ok(());
        };
        carry_out(&mut self.pairs, alloc, command, answer)?;
        Ok(())
    }

    /// Appends the state: the number of its keys in two bytes, and its pairs by rising keys.
    ///
    /// # Errors
    /// [`NoMemory`] where room for it is refused; nothing is appended then.
    pub fn state_into(&self, out: &mut Vec<u8>) -> Result<(), NoMemory>
        ensures pushed { OnOk result (out.new.items ≡ out.old.items ++ stores.store_bytes self.now) }
        ensures unchanged { OnErr result (out.new.items ≡ out.old.items) }
        ensures within { IsStore self.now }
    {
        out.reserve(state_length(&self.pairs))?;
        append_state(&self.pairs, out);
        Ok(())
    }

    /// The store whose state the bytes are, all of them. None, exactly where they are no store's.
    ///
    /// # Errors
    /// [`NoMemory`] where room for a key or a value is refused.
    pub fn of_state(alloc: Global, bytes: &[u8]) -> Result<Option<Store>, NoMemory>
        ensures { IfOk result (λ o. Finds (λ s. s) o (stores.store_of bytes.now)) }
    {
        let Some(mut left) = Pairs::of(bytes) else {
            return Ok(None);
        };
        let mut pairs = BTreeMap::new(alloc);
        'pairs: loop {
            match left.next() {
                Ok(Some(pair)) => insert(&mut pairs, alloc, pair.key, pair.value)?,
                Ok(None) => return Ok(Some(Store { pairs })),
                Err(()) => return Ok(None),
            }
        }
    }
}
