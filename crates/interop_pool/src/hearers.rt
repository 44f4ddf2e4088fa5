//! Who hears: a view, and how much was delivered in it.
ghost use Rattle.std.specs.Prelude.{◌≡◌, ◌<◌, ◌≤◌, ◌↔◌, All, IfSome, IsSome, fold, length, max};
ghost use Rattle.group_defs.specs.Views.{View as Plain};
ghost use Rattle.view_table.specs.Views.{as_view, IsNumberedView};
ghost use Rattle.own_place.specs.Owns.{HasDelivered};
ghost use Rattle.interop_pool.specs.Hearers.{IsHearer, hearer};

use arrayvec::ArrayVec;
use claim_pool::Own;
use own_place::SignedSlots;
use rp_base::{Pid, PidSet};
use std::alloc::Global;
use view_table::View;

/// How many processes have a key.
pub(crate) const KEYED: u8 = 48;

/// The most members of a view.
const MOST_MEMBERS: usize = 16;

// The processes of these numbers; None exactly where one is no process's, or they are more than 16.
fn processes(numbers: &[u8]) -> Option<ArrayVec<Pid, MOST_MEMBERS>>
    ensures value { IfSome result (λ ps. ps.items ≡ numbers.now) }
    ensures exactly { IsSome result ↔ (length numbers.now ≤ 16) × All (λ n. n < 64) numbers.now }
{
    let mut processes = ArrayVec::new();
    if numbers.len() > MOST_MEMBERS {
        return None;
    }
    for number in numbers {
        processes.push(Pid::new(*number)?);
    }
    Some(processes)
}

/// The view of this number and these members; None exactly where they make none, or there is no count for each member.
pub(crate) fn view_of(number: u16, members: &[u8], counts: &[u8]) -> Option<View>
    ensures value { IfSome result (λ v. v ≡ as_view number members.now) }
    ensures exactly { IsSome result ↔ IsHearer number members.now counts.now }
{
    if counts.len() != members.len() {
        return None;
    }
    View::new(number, &processes(members)?)
}

// The counts.
fn counts_of(bytes: &[u8]) -> ArrayVec<u16, MOST_MEMBERS>
    requires { length bytes.now ≤ 16 }
    ensures { result.items ≡ bytes.now }
{
    let mut counts = ArrayVec::new();
    for count in bytes {
        counts.push(u16::from(*count));
    }
    counts
}

// The greatest count.
fn greatest(counts: &[u8]) -> u16
    ensures { result ≡ fold max 0 counts.now }
{
    let mut greatest = 0;
    for count in counts {
        greatest = u16::max(greatest, u16::from(*count));
    }
    greatest
}

/// The place of a process that has delivered messages of each member, as many as `counts` says, each at the place of its number.
pub(crate) fn own(alloc: Global, view: &View, counts: &[u8]) -> Own
    requires { length counts.now ≡ length view.now.members }
    ensures counted { length result.counts.items ≡ length view.now.members }
    ensures delivered { HasDelivered result (hearer view.now counts.now) }
{
    let _members = view.members();
    Own {
        me: Pid::default(),
        position: None,
        keyed: PidSet::new(),
        signed: SignedSlots::new(alloc),
        ended: false,
        rank: 0,
        ready: None,
        ordered: 0,
        orders: ArrayVec::new(),
        delivered: greatest(counts),
        counts: counts_of(counts),
        earlier: 0,
    }
}
