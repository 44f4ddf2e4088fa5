ghost use Rattle.std.specs.Prelude.{◌≡◌, ◌<◌, ℕ, IsFalse};
ghost use Rattle.message_defs.specs.Limits.{most_places};
ghost use Rattle.pool_laws.specs.Least.{IsLeastFrom, IsLeastBelow};
ghost use Rattle.multicast_rules.specs.Waiting.{is_init_waiting, IsFirstWaiting, is_order_waiting};

use own_place::SignedSlots;
use pool_questions::{Pool, ordered_batch};
use rp_base::Pid;
use stmt_codec::{LAST_NUMBER, Slot};

// Whether the sender's Init of this number is heard, and the own Echo of its message is not signed.
fn is_init_waiting(pool: &Pool, signed: &SignedSlots, sender: Pid, number: u16) -> bool
    ensures { result ≡ is_init_waiting pool.now.pool signed.now sender number }
{
    let view = pool.view().number();
    let message = Slot::Message {
        view,
        sender,
        number,
    };
    pool.first(sender, 1, Slot::Number { view, number })
        .is_some()
        && !signed.has_signed(2, &message)
}

// A number below which none of the sender's Inits waits so: their own Echoes are signed.
fn echoed(pool: &Pool, signed: &SignedSlots, sender: Pid) -> u16
    ensures { (l : ℕ) → l < result → IsFalse (is_init_waiting pool.now.pool signed.now sender l) }
{
    signed.echoed_below(pool.view().number(), sender)
}

// The sender's least heard Init whose own Echo is not signed.
fn first_waiting_init(pool: &Pool, signed: &SignedSlots, sender: Pid) -> Option<u16>
    ensures { IsLeastBelow most_places (is_init_waiting pool.now.pool signed.now sender) result }
{
    'numbers: for number in echoed(pool, signed, sender)..pool.inits_end(sender) {
        if is_init_waiting(pool, signed, sender, number) {
            return Some(number);
        }
    }
    None
}

// The first member in rank order that has such an Init, and its least one.
pub(crate) fn first_waiting(pool: &Pool, signed: &SignedSlots) -> Option<(Pid, u16)>
    ensures { IsFirstWaiting pool.now.pool signed.now result }
{
    let members = pool.view().members();
    'members: for sender in members {
        if let Some(number) = first_waiting_init(pool, signed, *sender) {
            return Some((*sender, number));
        }
    }
    None
}

// Whether the place is at most the placed length, the manager's Order of it is heard, and the own Place is not signed.
fn is_order_waiting(pool: &Pool, signed: &SignedSlots, place: u16) -> bool
    ensures { result ≡ is_order_waiting pool.now.pool signed.now place }
{
    let view = pool.view().number();
    place <= pool.placed_len()
        && ordered_batch(pool, place).is_some()
        && !signed.has_signed(4, &Slot::Place { view, place })
}

// A place below which none waits so: the own Places are signed.
fn answered(pool: &Pool, signed: &SignedSlots) -> u16
    ensures { (k : ℕ) → k < result → IsFalse (is_order_waiting pool.now.pool signed.now k) }
{
    signed.placed_below(pool.view().number())
}

/// The least place from this one on that waits so.
pub(crate) fn first_waiting_order(pool: &Pool, signed: &SignedSlots, from: u16) -> Option<u16>
    ensures { IsLeastFrom from most_places (is_order_waiting pool.now.pool signed.now) result }
{
    let last = pool.placed_len().min(LAST_NUMBER);
    'places: for place in from.max(answered(pool, signed))..last + 1 {
        if is_order_waiting(pool, signed, place) {
            return Some(place);
        }
    }
    None
}
