//! What the own Orders of a view name.
ghost use Rattle.std.specs.Prelude.{◌≡◌, ◌≤◌, ◌++◌, [], length, map, min, IfOk, OnOk, option_to_list, filter, filter_map, ◌==◌};
ghost use Rattle.std.specs.Option.{option_map};
ghost use Rattle.std.specs.List.{sum_by};
ghost use Rattle.message_defs.specs.Statements as plain;
ghost use Rattle.group_defs.specs.Certified.{named};
ghost use Rattle.member_events.specs.Below.{stmt};
ghost use Rattle.restored_place.specs.Walks.{batch_said, with_orders};

use arrayvec::ArrayVec;
use member_events::{Batch, Statement};
use rp_base::{NoMemory, Pid};
use snapshot_rp::KeptClaim;
use std::alloc::Global;
use view_table::View;

/// What a count of 16 bits holds at most.
const MOST: usize = 65_535;

// The batch of an Order of the view of this number.
fn batch_of(number: u16, statement: &Statement<'_>) -> Option<Batch>
    ensures { result ≡ batch_said number (stmt statement.now) }
{
    match *statement {
        Statement::Order { view, batch, .. } => { if view == number { Some(batch) } else { None } }
        _ => None,
    }
}

// Puts the batch of the claim, where that is an Order of the view of this number, after the others.
fn put(orders: &mut Vec<Batch>, number: u16, kept: &KeptClaim) -> Result<(), NoMemory>
    ensures { OnOk result (orders.new.items ≡ orders.old.items ++ option_to_list (batch_said number kept.now.statement)) }
{
    let claim = kept.claim();
    if let Some(batch) = batch_of(number, &claim.statement) {
        orders.push(batch)?;
    }
    Ok(())
}

/// The batches of the Orders of the view of this number among these claims, in order.
pub(crate) fn orders_in(
    alloc: Global,
    number: u16,
    signed: &[KeptClaim],
) -> Result<Vec<Batch>, NoMemory>
    ensures { IfOk result (λ orders. orders.items ≡ with_orders number [] signed.now) }
{
    let mut orders = Vec::new(alloc);
    for kept in signed {
        put(&mut orders, number, kept)?;
    }
    Ok(orders)
}

/// How many they are, up to 65,535.
pub(crate) fn count_orders(orders: &[Batch]) -> u16
    ensures { result ≡ min (length orders.now) 65535 }
{
    orders.len().min(MOST) as u16
}

// How many messages of the sender the batch names.
fn count_in(batch: &Batch, sender: Pid) -> usize
    ensures { result ≡ named sender batch.now }
{
    batch.messages().iter().filter(|m| m.0 == sender).count()
}

// How many messages of the sender they name, up to 65,535.
fn count_named(orders: &[Batch], sender: Pid) -> u16
    ensures { result ≡ min (sum_by (λ b. named sender b) orders.now) 65535 }
{
    let mut count = 0usize;
    for batch in orders {
        count = count.saturating_add(count_in(batch, sender)).min(MOST);
    }
    count as u16
}

/// For each member of the view, in rank order, how many of its messages they name, up to 65,535.
pub(crate) fn names_in(view: &View, orders: &[Batch]) -> ArrayVec<u16, 16>
    ensures { result.items ≡ map (λ m. min (sum_by (λ b. named m b) orders.now) 65535) view.now.members }
{
    let mut names = ArrayVec::new();
    for member in view.members() {
        names.push(count_named(orders, *member));
    }
    names
}
