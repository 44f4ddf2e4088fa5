//! Whether places are delivered whole, with 1 to 16 messages each, and alike by all.
ghost use Rattle.std.specs.Prelude.{◌≡◌, ◌<◌, map, length};
ghost use Rattle.std.specs.List.{list_all, range_with_len};
ghost use Rattle.group_defs.specs.Accounts as plain;
ghost use Rattle.accounts.specs.Views.{account, delivery};
ghost use Rattle.sound_question.specs.Parts as words;

use accounts::{Account, Delivered};
use group_questions::{delivered_in, longest_in, longest_views};

/// The most messages of a batch.
const MOST_MESSAGES: u8 = 16;

// The place of the message.
fn place_of(d: &Delivered) -> u32
    ensures value { result ≡ d.now.place }
    ensures below { result < 65536 }
{
    u32::from(d.place)
}

// Whether the places are 0, 1, 2 and so on, each with 1 to 16 messages that lie together.
fn has_steps(delivered: &[Delivered]) -> bool
    ensures { result ≡ words.steps 0 0 (map delivery delivered.now) }
{
    // how many places there were so far, and how many messages the last of them has
    let mut places = 0u32;
    let mut messages = 0;
    for d in delivered {
        let place = place_of(d);
        if place == places {
            places += 1;
            messages = 1;
        } else if place + 1 == places && messages < MOST_MESSAGES {
            messages += 1;
        } else {
            return false;
        }
    }
    true
}

/// Whether what was delivered in a view is by place: at each place from the first on 1 to 16 messages, one place after the other.
pub fn is_by_place(delivered: &[Delivered]) -> bool
    ensures { result ≡ plain.is_by_place (map delivery delivered.now) }
{
    has_steps(delivered)
}

// Whether two deliveries are of one message at one place, whatever their payloads.
fn is_same_slot(d: &Delivered, e: &Delivered) -> bool
    ensures { result ≡ words.same_slot (delivery d.now) (delivery e.now) }
{
    d.place == e.place && d.sender == e.sender && d.number == e.number
}

// Whether the first list is the front of the other, payloads aside, and the other has no more messages at the last place of the first.
fn is_front(own: &[Delivered], all: &[Delivered]) -> bool
    ensures { result ≡ words.front 0 (map delivery own.now) (map delivery all.now) }
{
    let mut places = 0u32;
    let mut rest = all;
    for d in own {
        match rest.split_first() {
            Some((e, more)) if is_same_slot(d, e) => {
                places = place_of(d) + 1;
                rest = more;
            }
            _ => return false,
        }
    }
    match rest.first() {
        Some(e) => places <= place_of(e),
        None => true,
    }
}

// Whether what each process delivered in the view of this number is by place.
fn all_by_place(accounts: &[Account], x: usize) -> bool
    ensures { result ≡ list_all (λ a. words.steps 0 0 (plain.delivered_in (account a) x)) accounts.now }
{
    accounts.iter().all(|a| has_steps(delivered_in(a, x)))
}

// Whether what each process delivered in the view of this number is a front of this list.
fn are_fronts(accounts: &[Account], x: usize, all: &[Delivered]) -> bool
    ensures { result ≡ list_all (λ a. words.front 0 (plain.delivered_in (account a) x) (map delivery all.now)) accounts.now }
{
    accounts.iter().all(|a| is_front(delivered_in(a, x), all))
}

// Whether the places of the view of this number are delivered whole and alike: each list is by place, and is a front of the longest.
fn are_placed_in(accounts: &[Account], x: usize) -> bool
    ensures { result ≡ plain.are_placed_in (map account accounts.now) x }
{
    all_by_place(accounts, x) && are_fronts(accounts, x, longest_in(accounts, x))
}

/// Whether the places of each view are delivered whole and alike.
pub(crate) fn are_placed(accounts: &[Account]) -> bool
    ensures { result ≡ list_all (plain.are_placed_in (map account accounts.now))
        (range_with_len 0 (length (plain.group_of (map account accounts.now)).views)) }
{
    let views = longest_views(accounts);
    (0..views.len()).all(|x| are_placed_in(accounts, x))
}
