// Fields of requests and records, read from the front of bytes. There is one fault: that the bytes are none.
ghost use Rattle.std.specs.Prelude.{◌≤◌, IfOk};
ghost use Rattle.byte_defs.specs.Reads.{Gives};
ghost use Rattle.store_defs.specs.Stores as stores;
ghost use Rattle.store_defs.specs.Records as records;

use byte_fields::{bytes_at, u8_at, u16_at};

/// The greatest number of a view or a place.
pub(crate) const LAST_NUMBER: u16 = 1023;

pub(crate) const VALUE_BYTES: u16 = 512;

pub(crate) const LAST_PROCESS: u8 = 63;

pub(crate) const SIGNATURE_BYTES: u16 = 16384;

// 1 to 64 bytes after their length, and the bytes after them.
#[tactic(auto, unfolding(store_defs::specs::Stores::key_at))]
pub(crate) fn key_at(bytes: &[u8]) -> Result<(&[u8], &[u8]), ()>
    ensures { Gives (λ x. (x.0.now, x.1.now)) result (stores.key_at bytes.now) }
{
    let (len, rest) = u8_at(bytes, ())?;
    if len == 0 {
        return Err(());
    }
    if len > 64 {
        return Err(());
    }
    bytes_at(rest, len as usize, ())
}

// At most `most` bytes after their length, and the bytes after them.
#[tactic(auto, unfolding(store_defs::specs::Stores::text_within))]
pub(crate) fn text_within(bytes: &[u8], most: u16) -> Result<(&[u8], &[u8]), ()>
    ensures { Gives (λ x. (x.0.now, x.1.now)) result (stores.text_within most bytes.now) }
{
    let (len, rest) = u16_at(bytes, ())?;
    if len > most {
        return Err(());
    }
    bytes_at(rest, len as usize, ())
}

// A number of one byte, at most this, and the bytes after it.
#[tactic(auto, unfolding(store_defs::specs::Records::small_at))]
pub(crate) fn small_at(bytes: &[u8], most: u8) -> Result<(u8, &[u8]), ()>
    ensures read { Gives (λ x. (x.0, x.1.now)) result (records.small_at most bytes.now) }
    ensures small { IfOk result (λ x. x.0 ≤ most) }
{
    let (n, rest) = u8_at(bytes, ())?;
    if n > most {
        return Err(());
    }
    Ok((n, rest))
}

// A number of two bytes, at most 1,023, and the bytes after it.
#[tactic(auto, unfolding(store_defs::specs::Records::short_at))]
pub(crate) fn short_at(bytes: &[u8]) -> Result<(u16, &[u8]), ()>
    ensures { Gives (λ x. (x.0, x.1.now)) result (records.short_at bytes.now) }
{
    let (n, rest) = u16_at(bytes, ())?;
    if n > LAST_NUMBER {
        return Err(());
    }
    Ok((n, rest))
}
