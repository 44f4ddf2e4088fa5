//! What goes beside the claims of a Bundle: with an Order the certificates of its messages, with a Suggest the heard claims on which
//! it rests (docs/PROTOCOL.md, «What is sent»).
ghost use Rattle.std.specs.Prelude.{◌≡◌, ◌+◌, ◌≤◌, ◌∷◌, [], length, flat_map, false, true, IfOk, OnOk};
ghost use Rattle.std.specs.List.{AllByRecursion};
ghost use Rattle.message_defs.specs.Spelling.{IsClaim};
ghost use Rattle.group_defs.specs.Process.{Process, places_in};
ghost use Rattle.group_defs.specs.Sending as sending;
ghost use Rattle.group_defs.specs.Sending.{beside_order, beside_suggest};
ghost use Rattle.stmt_codec.specs.Views.{stmt};
ghost use Rattle.sent_claims.specs.Lists.{extended};
ghost use Rattle.sent_claims.specs.Certificates.{all_signed, IsRanged};
ghost use Rattle.sent_claims.specs.Beside.{chosen, statements_at};
ghost use Rattle.sent_claims.specs.Entries.{first_above, places_of, StandFrom};

use crate::certificates::{put_claim, put_messages};
use crate::list::SentClaims;
use crate::order::{Numbers, claim_numbers, is_below};
use claim_lists::ClaimList;
use pool_questions::Pool;
use rp_base::NoMemory;
use std::alloc::Global;
use stmt_codec::Statement;

// A heard claim: the numbers by which it is ordered, and its place in order of hearing.
#[derive(Drop)]
struct Entry {
    numbers: Numbers,
    place: usize,
}

// Puts the claim at this place of the list.
fn put_said(list: &mut SentClaims, said: &ClaimList, place: usize) -> Result<(), NoMemory>
    requires { AllByRecursion IsClaim said.now.claims }
    ensures { OnOk result (list.new ≡ extended false list.old (all_signed (chosen said.now.claims (place ∷ [])))) }
{
    match said.get(place) {
        Some(claim) => put_claim(list, &claim, false),
        None => Ok(()),
    }
}

/// Puts the claims at these places of `said`, counted from 0, after those of the list; of a place that `said` has not, none.
pub fn put_base(list: &mut SentClaims, said: &ClaimList, base: &[usize]) -> Result<(), NoMemory>
    requires { AllByRecursion IsClaim said.now.claims }
    ensures { OnOk result (list.new ≡ extended false list.old (all_signed (chosen said.now.claims base.now))) }
{
    'places: for place in base {
        put_said(list, said, *place)?;
    }
    Ok(())
}

// Puts what goes beside the statement of a process that has delivered `delivered` places, if it is an Order.
fn put_order(
    list: &mut SentClaims,
    pool: &Pool,
    statement: &Statement<'_>,
    delivered: u16,
) -> Result<(), NoMemory>
    requires { IsRanged pool.now.pool }
    ensures { OnOk result ((began : Process) → places_in began.delivered ≡ delivered
        → list.new ≡ extended true list.old (all_signed (beside_order began pool.now.pool (stmt statement.now)))) }
{
    let Statement::Order { place, batch, .. } = *statement else {
        return Ok(());
    };
    if place < delivered {
        return Ok(());
    }
    put_messages(list, pool, &batch, true)
}

// The same of the claim at this place of the list.
fn put_order_at(
    list: &mut SentClaims,
    pool: &Pool,
    said: &ClaimList,
    place: usize,
    delivered: u16,
) -> Result<(), NoMemory>
    requires { IsRanged pool.now.pool }
    ensures { OnOk result ((began : Process) → places_in began.delivered ≡ delivered
        → list.new ≡ extended true list.old
        (all_signed (flat_map (beside_order began pool.now.pool) (statements_at said.now.claims (place ∷ []))))) }
{
    match said.get(place) {
        Some(claim) => put_order(list, pool, &claim.statement, delivered),
        None => Ok(()),
    }
}

/// Puts what goes beside the Orders at these places of `said`, of a process that has delivered `delivered` places of its view: each claim
/// that is not in the list, after the others.
pub fn put_orders(
    list: &mut SentClaims,
    pool: &Pool,
    said: &ClaimList,
    base: &[usize],
    delivered: u16,
) -> Result<(), NoMemory>
    requires { IsRanged pool.now.pool }
    ensures { OnOk result ((began : Process) → places_in began.delivered ≡ delivered
        → list.new ≡ extended true list.old
        (all_signed (flat_map (beside_order began pool.now.pool) (statements_at said.now.claims base.now)))) }
{
    'places: for place in base {
        put_order_at(list, pool, said, *place, delivered)?;
    }
    Ok(())
}

// Whether a Suggest of this cut takes the statement along.
fn is_beside(cut: u16, statement: &Statement<'_>) -> bool
    ensures { result ≡ sending.is_beside cut (stmt statement.now) }
{
    match *statement {
        Statement::Notify { .. } | Statement::End { .. } => true,
        Statement::Last { .. } | Statement::Ack { .. } => true,
        Statement::Place { place, .. } => place as u32 + 1 == cut as u32,
        _ => false,
    }
}

// How many of the entries, which rise, are not above these numbers.
fn place_among(entries: &[Entry], numbers: &[u16]) -> usize
    ensures count { result ≡ first_above numbers.now entries.now }
    ensures within { result ≤ length entries.now }
{
    'entries: for (i, entry) in entries.iter().enumerate() {
        if is_below(numbers, &entry.numbers) {
            return i;
        }
    }
    entries.len()
}

// Puts the heard claim at this place among the entries, which rise, where a Suggest of this cut takes it along.
fn put_entry(entries: &mut Vec<Entry>, pool: &Pool, place: usize, cut: u16) -> Result<(), NoMemory>
    requires { StandFrom cut pool.now.pool.heard (place + 1) entries.old.items }
    ensures { OnOk result (StandFrom cut pool.now.pool.heard place entries.new.items) }
{
    let Some(claim) = pool.claim_at(place) else {
        return Ok(());
    };
    if !is_beside(cut, &claim.statement) {
        return Ok(());
    }
    let numbers = claim_numbers(&claim);
    let at = place_among(entries.as_slice(), &numbers);
    entries.insert(at, Entry { numbers, place })?;
    Ok(())
}

// The heard claims that a Suggest of this cut takes along, by kind, slot and signer.
fn entries_beside(alloc: Global, pool: &Pool, cut: u16) -> Result<Vec<Entry>, NoMemory>
    ensures { IfOk result (λ entries. StandFrom cut pool.now.pool.heard 0 entries.items) }
{
    let mut entries = Vec::new(alloc);
    let mut left = pool.size().0;
    'places: while left > 0 {
        left -= 1;
        put_entry(&mut entries, pool, left, cut)?;
    }
    Ok(entries)
}

// Puts the heard claim at this place, where it is not in the list.
fn put_heard(list: &mut SentClaims, pool: &Pool, place: usize) -> Result<(), NoMemory>
    requires { IsRanged pool.now.pool }
    ensures { OnOk result (list.new ≡ extended true list.old (all_signed (chosen pool.now.pool.heard (place ∷ [])))) }
{
    match pool.claim_at(place) {
        Some(claim) => put_claim(list, &claim, true),
        None => Ok(()),
    }
}

// Puts the heard claims of the entries, each where it is not in the list.
fn put_entries(list: &mut SentClaims, pool: &Pool, entries: &[Entry]) -> Result<(), NoMemory>
    requires { IsRanged pool.now.pool }
    ensures { OnOk result (list.new ≡ extended true list.old (all_signed (chosen pool.now.pool.heard (places_of entries.now)))) }
{
    'entries: for entry in entries {
        put_heard(list, pool, entry.place)?;
    }
    Ok(())
}

// Puts what goes beside the statement, if it is a Suggest.
fn put_suggest(
    alloc: Global,
    list: &mut SentClaims,
    pool: &Pool,
    statement: &Statement<'_>,
) -> Result<(), NoMemory>
    requires { IsRanged pool.now.pool }
    ensures { OnOk result (list.new ≡ extended true list.old (all_signed (beside_suggest pool.now.pool (stmt statement.now)))) }
{
    let Statement::Suggest { value, .. } = *statement else {
        return Ok(());
    };
    let entries = entries_beside(alloc, pool, value.cut)?;
    put_entries(list, pool, &entries)
}

// The same of the claim at this place of the list.
fn put_suggest_at(
    alloc: Global,
    list: &mut SentClaims,
    pool: &Pool,
    said: &ClaimList,
    place: usize,
) -> Result<(), NoMemory>
    requires { IsRanged pool.now.pool }
    ensures { OnOk result (list.new
        ≡ extended true list.old (all_signed (flat_map (beside_suggest pool.now.pool) (statements_at said.now.claims (place ∷ []))))) }
{
    match said.get(place) {
        Some(claim) => put_suggest(alloc, list, pool, &claim.statement),
        None => Ok(()),
    }
}

/// Puts what goes beside the Suggests at these places of `said`: each claim that is not in the list, after the others.
pub fn put_suggests(
    alloc: Global,
    list: &mut SentClaims,
    pool: &Pool,
    said: &ClaimList,
    base: &[usize],
) -> Result<(), NoMemory>
    requires { IsRanged pool.now.pool }
    ensures { OnOk result (list.new
        ≡ extended true list.old (all_signed (flat_map (beside_suggest pool.now.pool) (statements_at said.now.claims base.now)))) }
{
    'places: for place in base {
        put_suggest_at(alloc, list, pool, said, *place)?;
    }
    Ok(())
}
