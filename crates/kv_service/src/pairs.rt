// The map that holds a store's pairs.
ghost use Rattle.std.specs.Prelude.{◌≡◌, ◌↔◌, IfOk, OnOk, OnErr, IsTrue, if◌then◌else◌, is_some, option_map, []};
ghost use Rattle.std.specs.Option.{option_copied};
ghost use Rattle.byte_defs.specs.Equality.{same_bytes};
ghost use Rattle.store_defs.specs.Stores as stores;
ghost use Rattle.kv_service.specs.Pairs.{pairs_of};

use rp_base::NoMemory;
use std::alloc::Global;
use std::collections::BTreeMap;

/// Keys and their values.
pub(crate) type PairMap = BTreeMap<Vec<u8>, Vec<u8>>;

// These bytes in the place of the old ones, in the same room where they fit.
fn overwrite(old: &mut Vec<u8>, bytes: &[u8]) -> Result<(), NoMemory>
    ensures written { OnOk result (old.new.items ≡ bytes.now) }
    ensures unchanged { OnErr result (old.new.items ≡ old.old.items) }
{
    old.reserve(bytes.len().saturating_sub(old.len()))?;
    old.clear();
    let Ok(()) = old.extend_from_slice(bytes) else {
        unreachable!();
    };
    Ok(())
}

/// Whether they are the same bytes. Both at one lifetime, the only form of the comparison that the borrow checker covers.
pub(crate) fn are_same<'a>(a: &'a [u8], b: &'a [u8]) -> bool
    ensures { result ≡ same_bytes a.now b.now }
{
    a == b
}

/// The value of the key, where there is one.
pub(crate) fn value_of<'a>(pairs: &'a PairMap, key: &[u8]) -> Option<&'a [u8]>
    ensures { option_map (λ x. x.now) result ≡ stores.value_of key.now (pairs_of pairs.now) }
{
    match pairs.get(key) {
        Some(value) => Some(value.as_slice()),
        None => None,
    }
}

/// Gives the key this value, where it has one; answers whether it has.
///
/// # Errors
/// [`NoMemory`] where room for the value is refused; nothing has changed then.
pub(crate) fn replace(pairs: &mut PairMap, key: &[u8], value: &[u8]) -> Result<bool, NoMemory>
    requires { stores.AreRising [] (pairs_of pairs.old) }
    ensures found { IfOk result (λ there. there ≡ is_some (stores.value_of key.now (pairs_of pairs.old))) }
    ensures replaced { IfOk result (λ there. pairs_of pairs.new
        ≡ (if there then stores.with_pair key.now value.now (pairs_of pairs.old) else pairs_of pairs.old)) }
    ensures unchanged { OnErr result (pairs_of pairs.new ≡ pairs_of pairs.old) }
{
    match pairs.get_mut(key) {
        None => Ok(false),
        Some(old) => {
            overwrite(old, value)?;
            Ok(true)
        }
    }
}

/// Gives the key this value; it may have one.
///
/// # Errors
/// [`NoMemory`] where room for the pair is refused; nothing has changed then.
pub(crate) fn insert(
    pairs: &mut PairMap,
    alloc: Global,
    key: &[u8],
    value: &[u8],
) -> Result<(), NoMemory>
    ensures inserted { OnOk result (pairs_of pairs.new ≡ stores.with_pair key.now value.now (pairs_of pairs.old)) }
    ensures unchanged { OnErr result (pairs_of pairs.new ≡ pairs_of pairs.old) }
{
    let key = key.to_vec(alloc)?;
    let value = value.to_vec(alloc)?;
    pairs.insert(key, value)?;
    Ok(())
}

/// Removes the key; answers whether it had a value.
pub(crate) fn remove(pairs: &mut PairMap, key: &[u8]) -> bool
    requires { stores.AreRising [] (pairs_of pairs.old) }
    ensures found { result ≡ is_some (stores.value_of key.now (pairs_of pairs.old)) }
    ensures removed { pairs_of pairs.new ≡ stores.without key.now (pairs_of pairs.old) }
{
    pairs.remove(key).is_some()
}
