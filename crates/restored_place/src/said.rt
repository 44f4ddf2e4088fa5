//! What the own statements of a view say: which slots are signed, the greatest rank, and the Ready of greatest rank.
ghost use Rattle.std.specs.Prelude.{◌≡◌, [], IfOk, OnOk, None};
ghost use Rattle.group_defs.specs.Certified as certified;
ghost use Rattle.member_events.specs.Below.{stmt, report};
ghost use Rattle.own_place.specs.Noting.{ready_after};
ghost use Rattle.restored_place.specs.Walks.{rank_in, greatest, ready_in, readies, with_slot, with_slots};

use member_events::{Statement, slot_of};
use own_place::SignedSlots;
use rp_base::{NoMemory, Value};
use snapshot_rp::KeptClaim;
use std::alloc::Global;

// The rank of a Last, an Ack or a Ready of the view of this number, and 0 of another statement.
fn rank_of(number: u16, statement: &Statement<'_>) -> u8
    ensures { result ≡ rank_in number (stmt statement.now) }
{
    match *statement {
        Statement::Last { view, rank, .. }
        | Statement::Ack { view, rank, .. }
        | Statement::Ready { view, rank, .. } => { if view == number { rank } else { 0 } }
        _ => 0,
    }
}

/// The greatest rank of these, of the view of this number; 0 where there is none.
pub(crate) fn greatest_rank(number: u16, signed: &[KeptClaim]) -> u8
    ensures { result ≡ greatest number 0 signed.now }
{
    let mut most = 0;
    for kept in signed {
        let claim = kept.claim();
        most = most.max(rank_of(number, &claim.statement));
    }
    most
}

// The rank and the value of a Ready of the view of this number.
fn ready_of(number: u16, statement: &Statement<'_>) -> Option<(u8, Value)>
    ensures { report result ≡ ready_in number (stmt statement.now) }
{
    match *statement {
        Statement::Ready { view, rank, value } => {
            if view == number {
                Some((rank, value))
            } else {
                None
            }
        }
        _ => None,
    }
}

// The Ready of greater rank, the first where both have the same.
fn higher(ready: Option<(u8, Value)>, other: Option<(u8, Value)>) -> Option<(u8, Value)>
    ensures { report result ≡ ready_after (report ready) (report other) }
{
    let Some(other) = other else {
        return ready;
    };
    match ready {
        None => Some(other),
        Some(ready) => Some(if ready.0 < other.0 { other } else { ready }),
    }
}

/// The Ready of greatest rank among these, of the view of this number, the first where several have it.
pub(crate) fn highest_ready(number: u16, signed: &[KeptClaim]) -> Option<(u8, Value)>
    ensures { report result ≡ readies number None signed.now }
{
    let mut ready = None;
    for kept in signed {
        let claim = kept.claim();
        ready = higher(ready, ready_of(number, &claim.statement));
    }
    ready
}

// Notes the slot of the statement, where it is of the view of this number and not noted yet.
fn note(slots: &mut SignedSlots, number: u16, statement: &Statement<'_>) -> Result<(), NoMemory>
    ensures { OnOk result (slots.new.slots ≡ with_slot number slots.old.slots (stmt statement.now)) }
{
    let kind = statement.kind();
    let slot = slot_of(statement);
    if statement.view() == number && !slots.has_signed(kind, &slot) {
        slots.reserve(1)?;
        slots.sign(statement);
    }
    Ok(())
}

/// The slots of these claims, of those that are of the view of this number.
pub(crate) fn slots_in(
    alloc: Global,
    number: u16,
    signed: &[KeptClaim],
) -> Result<SignedSlots, NoMemory>
    ensures { IfOk result (λ slots. slots.slots ≡ with_slots number [] signed.now) }
{
    let mut slots = SignedSlots::new(alloc);
    for kept in signed {
        let claim = kept.claim();
        note(&mut slots, number, &claim.statement)?;
    }
    Ok(slots)
}
