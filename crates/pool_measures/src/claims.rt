//! The claims that are heard, place by place. Of a place there are an Order, 16 Places and 16 Keeps of a batch with one message of each
//! of 16 members, and of four of these messages the Inits and 16 Echoes. On each slot the five members that may be corrupt speak
//! first, and each says something else.
ghost use Rattle.std.specs.Prelude.{◌≡◌, ◌<◌, ◌≤◌, length};
ghost use Rattle.message_defs.specs.Spelling.{IsBatch, IsStatement};
ghost use Rattle.stmt_codec.specs.Views.{stmt};

use bench_parts::process;
use stmt_codec::{Batch, Statement};

/// How many members the view has.
pub(crate) const MEMBERS: u8 = 16;

/// How many claims there are of a place.
pub(crate) const CLAIMS: u32 = 101;

/// How many places a view has.
pub(crate) const PLACES: u16 = 1_024;

/// How many bytes a claim's statement and signature have at most.
pub(crate) const CLAIM_BYTES: usize = 1_064;

/// The text that payloads and signatures are pieces of. Payloads begin at different letters where members say different things.
pub(crate) const TEXT: [u8; 48] = *b"0123456789abcdefghijklmnopqrstuvwxyzABCDEFGHIJKL";

/// The members below this one all say the same, and each other one something else.
const HONEST: u8 = 11;

// The member whose turn it is to speak on a slot.
fn speaker(turn: u32) -> u8
    ensures { result < 16 }
{
    15 - (turn % 16) as u8
}

// What the member says, by its number: 0 is what most say.
fn said_by(member: u8) -> u8
    requires { member < 16 }
    ensures { result < 16 }
{
    if member < HONEST { 0 } else { member }
}

/// 32 bytes of the text, from this one on.
pub(crate) fn piece(text: &[u8], start: u8) -> &[u8]
    requires text { length text.now ≡ 48 }
    requires start { start < 16 }
    ensures { length result.now ≡ 32 }
{
    let start = start as usize;
    &text[start..start + 32]
}

// The messages of this number, one of each member, from this member on.
fn batch(first: u8, number: u16) -> Batch
    requires member { first < 16 }
    requires number { number ≤ 1023 }
    ensures { IsBatch result }
{
    let mut batch = Batch::of(process(first), number);
    'members: for more in 1..MEMBERS {
        batch.push(process((first + more) % MEMBERS), number);
    }
    batch
}

/// The sender of one of the four messages of this number that are echoed.
pub(crate) fn sender(number: u16, index: u32) -> u8
    ensures { result < 16 }
{
    (number % 4) as u8 * 4 + (index % 4) as u8
}

/// Who signs the claim of this index, 0 to 100, of a place.
pub(crate) fn signer(number: u16, index: u32) -> u8
    ensures { result < 16 }
{
    match index {
        0..=3 => sender(number, index),
        4 => 0,
        _ => speaker(index.saturating_sub(5)),
    }
}

/// What it says: at most 1,032 bytes.
pub(crate) fn statement(text: &[u8], number: u16, index: u32) -> Statement<'_>
    requires text { length text.now ≡ 48 }
    requires number { number ≤ 1023 }
    ensures { IsStatement (stmt result) }
{
    let said = said_by(signer(number, index));
    let batch = batch(said, number);
    match index {
        0..=3 => Statement::Init {
            view: 0,
            number,
            payload: piece(text, said),
        },
        4 => Statement::Order {
            view: 0,
            place: number,
            batch,
        },
        5..=20 => Statement::Place {
            view: 0,
            place: number,
            batch,
        },
        21..=36 => Statement::Keep {
            view: 0,
            place: number,
            batch,
        },
        _ => Statement::Echo {
            view: 0,
            sender: process(sender(number, index.saturating_sub(37) / 16)),
            number,
            payload: piece(text, said),
        },
    }
}
