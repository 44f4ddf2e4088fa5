//! A store as the bytes of its state.
ghost use Rattle.std.specs.Prelude.{◌≡◌, IsTrue, is_ok};
ghost use Rattle.store_defs.specs.Stores.{store_of};
ghost use Rattle.store_giving.specs.States.{IsSpelled};

use kv_service::Store;
use rp_base::NoMemory;
use std::alloc::Global;

/// The bytes of a store's state, at most 2,371,586.
#[derive(Drop)]
pub(crate) struct Spelling {
    bytes: Vec<u8>,
    ghost spelled: { IsTrue (is_ok (store_of bytes.items)) },
}

// Bytes that are read as a store are the spelling of one.
fn as_spelled(bytes: &[u8]) -> &[u8]
    requires { IsTrue (is_ok (store_of bytes.now)) }
    ensures value { result.now ≡ bytes.now }
    ensures spelled { IsSpelled result.now }
{
    bytes
}

impl Spelling {
    ghost use Rattle.std.specs.Prelude.{IfOk};
    ghost use Rattle.store_defs.specs.Stores.{store_bytes};
    ghost use Rattle.store_giving.specs.Spellings.{bytes_in};

    /// That of a store.
    pub(crate) fn of(alloc: Global, store: &Store) -> Result<Spelling, NoMemory>
        ensures { IfOk result (λ b. bytes_in b ≡ store_bytes store.now) }
    {
        let mut bytes = Vec::new(alloc);
        store.state_into(&mut bytes)?;
        Ok(Spelling { bytes })
    }

    /// The bytes.
    pub(crate) fn bytes(&self) -> &[u8]
        ensures value { result.now ≡ bytes_in self.now }
        ensures spelled { IsSpelled result.now }
    {
        as_spelled(self.bytes.as_slice())
    }
}
