//! What the process itself signed.
ghost use Rattle.std.specs.Prelude.{◌≡◌, ◌≢◌, ◌↔◌, ◌++◌, ◌∷◌, [], not, true, is_some, All, AllPairs, IfOk, IsTrue};
ghost use Rattle.std.specs.List.{list_all};
ghost use Rattle.message_defs.specs.Statements as plain;
ghost use Rattle.group_defs.specs.Certified.{heard_on};
ghost use Rattle.member_events.specs.Below.{stmt};
ghost use Rattle.own_place.specs.Signed.{has_slot};
ghost use Rattle.own_place.specs.Words.{slot_key};
ghost use Rattle.heard_images.specs.Signed as tests;

use member_events::{Statement, slot_of};
use own_place::SignedSlots;
use pool_questions::Pool;
use rp_base::{NoMemory, Pid};
use snapshot_rp::KeptClaim;
use std::alloc::Global;

// Whether a claim of this process is heard on the statement's slot.
fn is_said(pool: &Pool, me: Pid, statement: &Statement<'_>) -> bool
    ensures { result ≡ is_some (heard_on pool.now.pool me (plain.slot_of (stmt statement.now))) }
{
    let kind = statement.kind();
    let slot = slot_of(statement);
    pool.first(me, kind, slot).is_some()
}

// Whether the claim is of another view, or a claim of this process is heard on its slot.
fn is_heard(pool: &Pool, me: Pid, kept: &KeptClaim) -> bool
    ensures { result ≡ tests.is_heard pool.now.pool me kept.now }
{
    let statement = &kept.claim().statement;
    statement.view() != pool.view().number() || is_said(pool, me, statement)
}

fn each_is_heard(pool: &Pool, me: Pid, signed: &[KeptClaim]) -> bool
    ensures { result ≡ list_all (tests.is_heard pool.now.pool me) signed.now }
{
    signed.iter().all(|kept| is_heard(pool, me, kept))
}

/// Whether a claim of this process is heard on the slot of each of these that is of the pool's view.
pub fn are_heard(pool: &Pool, me: Pid, signed: &[KeptClaim]) -> bool
    ensures { IsTrue result ↔ All (λ c. plain.view_of c.statement ≡ pool.now.pool.view.number
        → IsTrue (is_some (heard_on pool.now.pool me (plain.slot_of c.statement)))) signed.now }
{
    each_is_heard(pool, me, signed)
}

// Notes the statement's slot, and answers whether it was not noted before.
fn note(slots: &mut SignedSlots, statement: &Statement<'_>) -> Result<bool, NoMemory>
    ensures new { IfOk result (λ b. b ≡ not (has_slot slots.old (plain.slot_of (stmt statement.now)))) }
    ensures noted { IfOk result (λ b. b ≡ true
        → slots.new.slots ≡ slots.old.slots ++ slot_key (plain.slot_of (stmt statement.now)) ∷ []) }
{
    let kind = statement.kind();
    let slot = slot_of(statement);
    if slots.has_signed(kind, &slot) {
        return Ok(false);
    }
    slots.reserve(1)?;
    slots.sign(statement);
    Ok(true)
}

// Whether no slot is that of a claim before it.
fn are_others(alloc: Global, signed: &[KeptClaim]) -> Result<bool, NoMemory>
    ensures { IfOk result (λ b. b ≡ tests.are_others [] signed.now) }
{
    let mut slots = SignedSlots::new(alloc);
    for kept in signed {
        let claim = kept.claim();
        let is_new = note(&mut slots, &claim.statement)?;
        if !is_new {
            return Ok(false);
        }
    }
    Ok(true)
}

/// Whether no two of these claims are of one slot, whoever signed them.
pub fn are_once(alloc: Global, signed: &[KeptClaim]) -> Result<bool, NoMemory>
    ensures { IfOk result (λ b. IsTrue b ↔ AllPairs (λ c d. plain.slot_of c.statement ≢ plain.slot_of d.statement) signed.now) }
{
    are_others(alloc, signed)
}
