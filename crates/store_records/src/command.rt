//! A request is a tag of 8 bytes, which the client chooses, and one command:
//!
//! | Command | Bytes |
//! |---|---|
//! | Set | `01` key value |
//! | Get | `02` key |
//! | Remove | `03` key |
//! | Exchange | `04` key value value |
//!
//! A key is a length of one byte, 1 to 64, and that many bytes; a value a length of two bytes, 0 to 512, and that many bytes.
ghost use Rattle.std.specs.Prelude.{Ok, Err};
ghost use Rattle.byte_defs.specs.Reads.{Gives};
ghost use Rattle.store_defs.specs.Stores as plain;
ghost use Rattle.store_records.specs.Views.{command};
ghost use Rattle.store_records.specs.Finds.{Finds};

use crate::fields::{VALUE_BYTES, key_at, text_within};
use byte_fields::{bytes_at, u8_at};

/// What a request asks of the store.
#[derive(Clone, Copy)]
pub enum Command<'a> {
    /// The key is set to the value.
    Set {
        key: &'a [u8],
        value: &'a [u8],
    },

    /// The value of the key.
    Get {
        key: &'a [u8],
    },

    /// The key is removed.
    Remove {
        key: &'a [u8],
    },

    /// The key is set to the value, where its value is the expected one.
    Exchange {
        key: &'a [u8],
        expected: &'a [u8],
        value: &'a [u8],
    },
}

const TAG_BYTES: usize = 8;

#[tactic(auto, unfolding(store_defs::specs::Stores::set_at))]
fn set_at<'a>(key: &'a [u8], bytes: &'a [u8]) -> Result<(Command<'a>, &'a [u8]), ()>
    ensures { Gives (λ x. (command x.0, x.1.now)) result (plain.set_at key.now bytes.now) }
{
    let (value, rest) = text_within(bytes, VALUE_BYTES)?;
    Ok((Command::Set { key, value }, rest))
}

#[tactic(auto, unfolding(store_defs::specs::Stores::exchange_at))]
fn exchange_at<'a>(key: &'a [u8], bytes: &'a [u8]) -> Result<(Command<'a>, &'a [u8]), ()>
    ensures { Gives (λ x. (command x.0, x.1.now)) result (plain.exchange_at key.now bytes.now) }
{
    let (expected, rest) = text_within(bytes, VALUE_BYTES)?;
    let (value, rest) = text_within(rest, VALUE_BYTES)?;
    Ok((
        Command::Exchange {
            key,
            expected,
            value,
        },
        rest,
    ))
}

// The command of this kind and key, and the bytes after it.
#[tactic(auto, unfolding(store_defs::specs::Stores::command_behind))]
fn command_at<'a>(what: u8, key: &'a [u8], bytes: &'a [u8]) -> Result<(Command<'a>, &'a [u8]), ()>
    ensures { Gives (λ x. (command x.0, x.1.now)) result (plain.command_behind what key.now bytes.now) }
{
    match what {
        1 => set_at(key, bytes),
        2 => Ok((Command::Get { key }, bytes)),
        3 => Ok((Command::Remove { key }, bytes)),
        4 => exchange_at(key, bytes),
        _ => Err(()),
    }
}

#[tactic(auto, unfolding(store_defs::specs::Stores::request_of))]
fn request_in(payload: &[u8]) -> Result<Command<'_>, ()>
    ensures { Gives command result (plain.request_of payload.now) }
{
    let (_tag, rest) = bytes_at(payload, TAG_BYTES, ())?;
    let (what, rest) = u8_at(rest, ())?;
    let (key, rest) = key_at(rest)?;
    let (asked, rest) = command_at(what, key, rest)?;
    if !rest.is_empty() {
        return Err(());
    }
    Ok(asked)
}

/// The command of a payload. None, exactly where the payload is no request.
pub fn read_request(payload: &[u8]) -> Option<Command<'_>>
    ensures { Finds command result (plain.request_of payload.now) }
{
    request_in(payload).ok()
}
