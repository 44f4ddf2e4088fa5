//! Copies of what processes report of themselves, so that they lie in a row.
ghost use Rattle.std.specs.Prelude.{◌≡◌, map, IfOk};
ghost use Rattle.accounts.specs.Views.{account, delivery};

use crate::account::Account;
use member_events::{Delivered, Payload};
use rp_base::NoMemory;
use std::alloc::Global;
use view_table::View;

fn copy_payload(alloc: Global, payload: &Payload) -> Result<Payload, NoMemory>
    ensures { IfOk result (λ copy. copy ≡ payload.now) }
{
    Ok(Payload::from_vec(Vec::from_slice(alloc, payload.bytes())?))
}

fn copy_payloads(alloc: Global, payloads: &[Payload]) -> Result<Vec<Payload>, NoMemory>
    ensures { IfOk result (λ copies. copies.items ≡ payloads.now) }
{
    let mut copies = Vec::new(alloc);
    for payload in payloads {
        copies.push(copy_payload(alloc, payload)?)?;
    }
    Ok(copies)
}

fn copy_delivered(alloc: Global, one: &Delivered) -> Result<Delivered, NoMemory>
    ensures { IfOk result (λ copy. delivery copy ≡ delivery one.now) }
{
    Ok(Delivered {
        place: one.place,
        sender: one.sender,
        number: one.number,
        payload: copy_payload(alloc, &one.payload)?,
    })
}

// What was delivered in a view.
fn copy_sequence(alloc: Global, delivered: &[Delivered]) -> Result<Vec<Delivered>, NoMemory>
    ensures { IfOk result (λ copies. map delivery copies.items ≡ map delivery delivered.now) }
{
    let mut copies = Vec::new(alloc);
    for one in delivered {
        copies.push(copy_delivered(alloc, one)?)?;
    }
    Ok(copies)
}

// What was delivered in each view.
fn copy_sequences(alloc: Global, all: &[Vec<Delivered>]) -> Result<Vec<Vec<Delivered>>, NoMemory>
    ensures { IfOk result (λ copies. map (λ ds. map delivery ds.items) copies.items ≡ map (λ ds. map delivery ds.items) all.now) }
{
    let mut copies = Vec::new(alloc);
    for delivered in all {
        copies.push(copy_sequence(alloc, delivered)?)?;
    }
    Ok(copies)
}

fn copy_views(alloc: Global, views: &[View]) -> Result<Vec<View>, NoMemory>
    ensures { IfOk result (λ copies. copies.items ≡ views.now) }
{
    let mut copies = Vec::new(alloc);
    for view in views {
        copies.push(view.clone()?)?;
    }
    Ok(copies)
}

/// A copy of what a process reports of itself.
pub fn copy_account(alloc: Global, reported: &Account) -> Result<Account, NoMemory>
    ensures { IfOk result (λ copy. account copy ≡ account reported.now) }
{
    Ok(Account {
        me: reported.me,
        views: copy_views(alloc, &reported.views)?,
        delivered: copy_sequences(alloc, &reported.delivered)?,
        accepted: copy_payloads(alloc, &reported.accepted)?,
        perceived: Vec::from_slice(alloc, &reported.perceived)?,
    })
}
