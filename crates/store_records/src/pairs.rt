//! A store is spelled as the number of its keys in two bytes, at most 4,096, and its pairs by strictly rising keys, each a key and a value as
//! in a request.
ghost use Rattle.std.specs.Prelude.{◌≡◌, is_ok};
ghost use Rattle.byte_defs.specs.Orders.{numbers_below};
ghost use Rattle.byte_defs.specs.Reads.{Gives};
ghost use Rattle.store_defs.specs.Stores.{store_of};
ghost use Rattle.store_records.specs.Views.{pair};
ghost use Rattle.store_records.specs.Cursors.{pair_in, Begins, NextIs};

use crate::fields::{VALUE_BYTES, key_at, text_within};
use byte_fields::u16_at;

/// A key with its value.
#[derive(Clone, Copy)]
pub struct Pair<'a> {
    /// 1 to 64 bytes.
    pub key: &'a [u8],

    /// At most 512 bytes.
    pub value: &'a [u8],
}

/// The pairs of a store's spelling, which are read one after the other.
#[derive(Clone, Copy)]
pub struct Pairs<'a> {
    left: u16,

    // The key of the pair before, or no bytes.
    before: &'a [u8],
    rest: &'a [u8],
}

const MOST_KEYS: u16 = 4096;

// Both at one lifetime, the only form of the comparison that the borrow checker covers.
fn is_below<'a>(a: &'a [u8], b: &'a [u8]) -> bool
    ensures { result ≡ numbers_below a.now b.now }
{
    a < b
}

// The pair at the front, whose key is above this one, and the bytes after it.
#[tactic(auto, unfolding(crate::specs::Cursors::pair_in))]
fn pair_at<'a>(before: &'a [u8], bytes: &'a [u8]) -> Result<(Pair<'a>, &'a [u8]), ()>
    ensures { Gives (λ x. (pair x.0, x.1.now)) result (pair_in before.now bytes.now) }
{
    let (key, rest) = key_at(bytes)?;
    if !is_below(before, key) {
        return Err(());
    }
    let (value, rest) = text_within(rest, VALUE_BYTES)?;
    Ok((Pair { key, value }, rest))
}

impl<'a> Pairs<'a> {
    /// A cursor before the first pair. None, where the bytes spell no store by their number of keys.
    #[tactic(auto, unfolding(store_defs::specs::Stores::store_of, store_defs::specs::Stores::most_keys, crate::specs::Cursors::pairs_only,))]
    pub fn of(bytes: &'a [u8]) -> Option<Pairs<'a>>
        ensures { Begins result (store_of bytes.now) }
    {
        let (left, rest) = u16_at(bytes, ()).ok()?;
        if left > MOST_KEYS {
            return None;
        }
        Some(Pairs {
            left,
            before: &[],
            rest,
        })
    }

    /// The next pair; none after the last one.
    ///
    /// # Errors
    /// The bytes spell no store.
    pub fn next(&mut self) -> Result<Option<Pair<'a>>, ()>
        ensures { NextIs result self.old self.new }
    {
        if self.left == 0 {
            return if self.rest.is_empty() {
                Ok(None)
            } else {
                Err(())
            };
        }
        let Ok((pair, rest)) = pair_at(self.before, self.rest) else {
            return Err(());
        };
        self.left -= 1;
        self.before = pair.key;
        self.rest = rest;
        Ok(Some(pair))
    }
}

/// Whether the bytes are the spelling of a store, all of them.
pub fn is_store(bytes: &[u8]) -> bool
    ensures { result ≡ is_ok (store_of bytes.now) }
{
    let Some(mut pairs) = Pairs::of(bytes) else {
        return false;
    };
    'pairs: loop {
        match pairs.next() {
            Ok(Some(_)) => {}
            Ok(None) => return true,
            Err(()) => return false,
        }
    }
}
