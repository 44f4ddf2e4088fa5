ghost use Rattle.std.specs.Prelude.{◌≡◌, ◌≤◌, length, map, OnOk};
ghost use Rattle.group_defs.specs.Process.{Setting, Pool, Process, earlier as earlier_of, places_in};
ghost use Rattle.group_defs.specs.Certified.{is_ended};
ghost use Rattle.own_place.specs.Owns.{HasDelivered, IsOwnOf};
ghost use Rattle.snapshot_rp.specs.Views.{delivered as plain};
ghost use Rattle.restored_place.specs.Places.{IsOwnSoFar, SignedOnce};

use crate::delivered::counts_of;
use crate::orders::{count_orders, names_in, orders_in};
use crate::said::{greatest_rank, highest_ready, slots_in};
use arrayvec::ArrayVec;
use member_events::Delivered;
use own_place::{Own, SignedSlots};
use rp_base::{NoMemory, Pid, Roster};
use snapshot_rp::KeptClaim;
use std::alloc::Global;
use view_table::View;

/// The own place of process `me` in the view, where it has delivered these messages at `places` places, and `earlier` own messages in the
/// views before; nothing is signed there yet. The messages are at most 16,384.
pub fn place_in(
    alloc: Global,
    roster: &Roster,
    view: &View,
    me: Pid,
    delivered: &[Delivered],
    places: u16,
    earlier: u32,
) -> Own
    requires few { length delivered.now ≤ 16384 }
    requires places { places ≡ places_in (map plain delivered.now) }

    // For each process that has delivered so, whatever else it is.
    ensures delivered { (p : Process) → p.pool.view ≡ view.now → p.delivered ≡ map plain delivered.now → HasDelivered result p }
    ensures members { length result.counts.items ≡ length view.now.members }
    ensures stands { (s : Setting) (p : Process) → s.roster ≡ roster.now → p.pool.view ≡ view.now → p.me ≡ me
        → p.delivered ≡ map plain delivered.now → earlier_of p ≡ earlier → IsOwnSoFar s p result }
{
    Own {
        me,
        position: view.rank_of(me),
        keyed: roster.processes(),
        signed: SignedSlots::new(alloc),
        ended: false,
        rank: 0,
        ready: None,
        ordered: 0,
        orders: ArrayVec::new(),
        delivered: places,
        counts: counts_of(view, delivered),
        earlier,
    }
}

/// Notes in the own place what the process has signed in the view: those of these claims of all views that are of it. `ended` says
/// whether its End is among them.
pub fn note_signed(
    own: &mut Own,
    alloc: Global,
    view: &View,
    signed: &[KeptClaim],
    ended: bool,
) -> Result<(), NoMemory>
    ensures { (s : Setting) (p : Process) → IsOwnSoFar s p own.old → p.pool.view ≡ view.now → p.signed ≡ signed.now → SignedOnce p
        → is_ended p ≡ ended → OnOk result (IsOwnOf s p p.pool own.new) }
{
    let number = view.number();
    let orders = orders_in(alloc, number, signed)?;
    own.signed = slots_in(alloc, number, signed)?;
    own.ended = ended;
    own.rank = greatest_rank(number, signed);
    own.ready = highest_ready(number, signed);
    own.ordered = count_orders(&orders);
    own.orders = names_in(view, &orders);
    Ok(())
}
