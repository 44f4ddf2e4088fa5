ghost use Rattle.std.specs.Prelude.{◌≡◌, ◌↔◌, ◌-◌, ◌&&◌, ◌==◌, length, map, nat_le, count_by, IsTrue};
ghost use Rattle.std.specs.List.{list_all, sum_by};
ghost use Rattle.snapshot_rp.specs.Views.{delivered as plain};
ghost use Rattle.kept_images.specs.Facts.{AreAccepted, own_delivered};
ghost use Rattle.kept_images.specs.Tests as tests;

use member_events::{Delivered, PAYLOAD_BYTES, Payload};
use rp_base::Pid;

/// How many accepted payloads may be not yet delivered.
const MOST_WAITING: usize = 256;

fn is_short(payload: &Payload) -> bool
    ensures { result ≡ tests.is_short payload.now }
{
    payload.bytes().len() <= PAYLOAD_BYTES
}

fn are_short(accepted: &[Payload]) -> bool
    ensures { result ≡ list_all tests.is_short accepted.now }
{
    accepted.iter().all(|payload| is_short(payload))
}

// How many messages of this process were delivered in a view.
fn count_own(me: Pid, delivered: &[Delivered]) -> usize
    ensures { result ≡ count_by (λ d. d.sender == me) delivered.now }
{
    delivered.iter().filter(|d| d.sender == me).count()
}

// How many of these are left without the own messages that were delivered in these views.
fn left_of(me: Pid, count: usize, lists: &[Vec<Delivered>]) -> usize
    ensures { result ≡ count - sum_by (λ ds. count_by (λ d. d.sender == me) ds.items) lists.now }
{
    let mut left = count;
    for delivered in lists {
        left = left.saturating_sub(count_own(me, delivered));
    }
    left
}

// Whether none is too long, and at most 256 are waiting.
fn are_taken(me: Pid, accepted: &[Payload], lists: &[Vec<Delivered>]) -> bool
    ensures { result ≡ (nat_le (length accepted.now - sum_by (λ ds. count_by (λ d. d.sender == me) ds.items) lists.now) 256
        && list_all tests.is_short accepted.now) }
{
    left_of(me, accepted.len(), lists) <= MOST_WAITING && are_short(accepted)
}

/// Whether no accepted payload is too long, and all but at most 256 of them are delivered, where this is what was delivered in each view.
pub fn are_accepted(me: Pid, accepted: &[Payload], delivered: &[Vec<Delivered>]) -> bool
    ensures { IsTrue result ↔ AreAccepted accepted.now (own_delivered me (map (λ ds. map plain ds.items) delivered.now)) }
{
    are_taken(me, accepted, delivered)
}
