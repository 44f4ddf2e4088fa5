//! The loops that are timed.
ghost use Rattle.std.specs.Prelude.{◌≡◌, ◌≤◌, ◌+◌, ◌*◌, length};
ghost use Rattle.group_defs.specs.Certified.{number_of_members};

use crate::claims::{piece, sender, signer, statement};
use crate::summing::Summing;
use bench_parts::process;
use claim_pool::{Message, Own, Place, Pool, Verdict, is_signed};
use rp_base::{GroupId, Roster};
use stmt_codec::{Claim, Slot, spelled_len};

const GROUP: GroupId = GroupId([7; 16]);

/// By what claims are judged.
#[derive(Drop)]
pub(crate) struct Judge {
    pub(crate) scheme: Summing,
    pub(crate) roster: Roster,
    pub(crate) own: Own,
}

// Takes in a claim of a place, for which there is room; whether it is heard.
fn is_heard(pool: &mut Pool, judge: &Judge, text: &[u8], place: u16, index: u32) -> bool
    requires text { length text.now ≡ 48 }
    requires place { place ≤ 1023 }
    requires members { length judge.now.own.counts.items ≡ number_of_members pool.old.pool }
    requires claims { 1 ≤ pool.old.claims_left }
    requires bytes { 1064 ≤ pool.old.bytes_left }
    ensures members { number_of_members pool.new.pool ≡ number_of_members pool.old.pool }
    ensures claims { pool.old.claims_left ≤ pool.new.claims_left + 1 }
    ensures bytes { pool.old.bytes_left ≤ pool.new.bytes_left + 1064 }
{
    let statement = statement(text, place, index);
    let _length = spelled_len(&statement);
    let claim = Claim {
        signer: process(signer(place, index)),
        statement,
        signature: piece(text, 0),
    };
    let verdict = pool.take(&judge.scheme, &judge.roster, &GROUP, &judge.own, &claim);
    verdict == Verdict::Heard
}

/// Takes in `count` claims of a place, for which there is room, and answers how many of them are heard.
pub(crate) fn hear(pool: &mut Pool, judge: &Judge, text: &[u8], place: u16, count: u32) -> u32
    requires text { length text.now ≡ 48 }
    requires place { place ≤ 1023 }
    requires members { length judge.now.own.counts.items ≡ number_of_members pool.old.pool }
    requires claims { count ≤ pool.old.claims_left }
    requires bytes { count * 1064 ≤ pool.old.bytes_left }
{
    let mut heard = 0u32;
    'claims: for index in 0..count {
        if is_heard(pool, judge, text, place, index) {
            heard = heard.wrapping_add(1);
        }
    }
    heard
}

// Makes the same claim, and checks its signature alone.
fn is_valid(judge: &Judge, text: &[u8], place: u16, index: u32) -> bool
    requires text { length text.now ≡ 48 }
    requires place { place ≤ 1023 }
{
    let statement = statement(text, place, index);
    let _length = spelled_len(&statement);
    let claim = Claim {
        signer: process(signer(place, index)),
        statement,
        signature: piece(text, 0),
    };
    is_signed(&judge.scheme, &judge.roster, &GROUP, &claim)
}

/// Makes the same claims, checks their signatures alone, and answers how many are valid.
pub(crate) fn check_all(judge: &Judge, text: &[u8], place: u16, count: u32) -> u32
    requires text { length text.now ≡ 48 }
    requires place { place ≤ 1023 }
{
    let mut valid = 0u32;
    for index in 0..count {
        if is_valid(judge, text, place, index) {
            valid = valid.wrapping_add(1);
        }
    }
    valid
}

// How many of the two are certified: a message of this number, and the place.
fn certificates(pool: &Pool, number: u16, index: u32) -> u32 {
    let message = Slot::Message {
        view: 0,
        sender: process(sender(number, index)),
        number,
    };
    let place = Slot::Place {
        view: 0,
        place: number,
    };
    let messages = u32::from(pool.certificate::<Message>(message).is_some());
    let places = u32::from(pool.certificate::<Place>(place).is_some());
    messages.wrapping_add(places)
}

/// Asks `times` times for two certificates, of a message and of a place below this one, and answers how many there were.
pub(crate) fn certify(pool: &Pool, places: u32, times: u32) -> u32 {
    let mut found = 0u32;
    for n in 0..times {
        let number = n.wrapping_mul(7919) % places.max(1) % 1_024;
        found = found.wrapping_add(certificates(pool, number as u16, n));
    }
    found
}

// How many messages the batch of the place has, if the place is placed.
fn messages_at(pool: &Pool, place: u16) -> u32 {
    match pool.batch_at(place) {
        Some(batch) => batch.len() as u32,
        None => 0,
    }
}

/// Asks `times` times for the placed length, and for the batch of the next of these places, and answers how many messages these have.
pub(crate) fn walk_placed(pool: &Pool, times: u32) -> u32 {
    let mut messages = 0u32;
    let mut place = 0;
    for _ in 0..times {
        if place >= pool.placed_len() {
            place = 0;
        }
        messages = messages.wrapping_add(messages_at(pool, place));
        place = place.wrapping_add(1);
    }
    messages
}
