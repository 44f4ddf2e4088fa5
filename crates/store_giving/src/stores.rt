//! A store after what its process delivered.
ghost use Rattle.std.specs.Prelude.{◌≡◌, map, IfOk};
ghost use Rattle.accounts.specs.Views.{delivery};
ghost use Rattle.store_defs.specs.Holding.{payloads_of};
ghost use Rattle.store_defs.specs.Stores.{store_after};

use accounts::Delivered;
use kv_service::Store;
use rp_base::NoMemory;
use std::alloc::Global;

/// The store after the payloads of these messages, one after the other.
///
/// # Errors
/// [`NoMemory`] where room for the store or an answer is refused.
pub fn carried_out(
    mut store: Store,
    alloc: Global,
    delivered: &[Delivered],
) -> Result<Store, NoMemory>
    ensures { IfOk result (λ t. t ≡ store_after store (payloads_of (map delivery delivered.now))) }
{
    let mut answer = Vec::new(alloc);
    'messages: for message in delivered {
        answer.clear();
        store.apply(alloc, message.payload.bytes(), &mut answer)?;
    }
    Ok(store)
}
