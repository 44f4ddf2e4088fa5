// A store as the bytes of its state: the number of its keys in two bytes, and its pairs by rising keys.
ghost use Rattle.std.specs.Prelude.{◌≡◌, ◌+◌, ◌≤◌, ◌++◌, length, vec_len, vec_capacity};
ghost use Rattle.store_defs.specs.Stores.{IsPair, IsStore, pair_bytes, store_bytes};
ghost use Rattle.kv_service.specs.Pairs.{pairs_of};

use crate::answers::append;
use crate::pairs::PairMap;

// The number of keys.
const COUNT_BYTES: usize = 2;

// The lengths of a key and of its value.
const LENGTHS: usize = 3;

// A pair, for which there is room.
fn append_pair(out: &mut Vec<u8>, key: &[u8], value: &[u8])
    requires fits { IsPair (key.now, value.now) }
    requires room { vec_len out.old + (3 + (length key.now + length value.now)) ≤ vec_capacity out.old }
    ensures items { out.new.items ≡ out.old.items ++ pair_bytes (key.now, value.now) }
    ensures capacity { vec_capacity out.old ≤ vec_capacity out.new }
{
    let [high, low] = (value.len() as u16).to_be_bytes();
    append(out, &[key.len() as u8]);
    append(out, key);
    append(out, &[high, low]);
    append(out, value);
}

/// How many bytes the state has: at most 2,371,586.
pub(crate) fn state_length(pairs: &PairMap) -> usize
    requires { IsStore (pairs_of pairs.now) }
    ensures { result ≡ length (store_bytes (pairs_of pairs.now)) }
{
    let mut total = COUNT_BYTES;
    'pairs: for (key, value) in pairs {
        total += LENGTHS + (key.len() + value.len());
    }
    total
}

/// Appends the state, for which there is room.
pub(crate) fn append_state(pairs: &PairMap, out: &mut Vec<u8>)
    requires fits { IsStore (pairs_of pairs.now) }
    requires room { vec_len out.old + length (store_bytes (pairs_of pairs.now)) ≤ vec_capacity out.old }
    ensures { out.new.items ≡ out.old.items ++ store_bytes (pairs_of pairs.now) }
{
    append(out, &(pairs.len() as u16).to_be_bytes());
    'pairs: for (key, value) in pairs {
        append_pair(out, key, value);
    }
}
