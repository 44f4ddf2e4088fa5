//! One statement that is signed, put into the state: it is heard, noted and kept, and an End closes the view.
ghost use Rattle.std.specs.Prelude.{◌≡◌, ℕ, ◌++◌, ◌∷◌, [], false, length, OnOk, IsTrue};
ghost use Rattle.message_defs.specs.Spelling.{IsStatement, IsClaim};
ghost use Rattle.message_defs.specs.Statements as plain;
ghost use Rattle.message_defs.specs.Statements.{slot_of};
ghost use Rattle.message_defs.specs.Packing.{signed_of};
ghost use Rattle.group_defs.specs.Process as defs;
ghost use Rattle.group_defs.specs.Due.{may_sign};
ghost use Rattle.group_defs.specs.Values as values;
ghost use Rattle.group_defs.specs.Signing.{Signer, own_claim, signs};
ghost use Rattle.stmt_codec.specs.Views.{stmt, signed, claim as claim_of};
ghost use Rattle.own_place.specs.Owns.{IsOwnOf};
ghost use Rattle.own_place.specs.Signed.{has_slot};
ghost use Rattle.member_state.specs.Below.{IsIn};
ghost use Rattle.member_state.specs.Marks.{Stays};
ghost use Rattle.member_state.specs.States.{IsStateOf, IsReal};
ghost use Rattle.member_signing.specs.Signed.{IsUndecided, IsOwed, IsReadable};

use claim_lists::ClaimList;
use member_state::{Before, Own, Phase, Pool, ProcessState};
use rp_base::NoMemory;
use stmt_codec::{Claim, OwnClaim, Statement, claim_len, read_statement};
use view_table::View;

// The claim in these bytes.
fn read_own(own: &OwnClaim) -> Claim<'_>
    requires { IsReadable own.now }
    ensures range { IsClaim (claim_of result) }
    ensures only { (c : plain.Claim) → IsStatement c.statement → signed own.now ≡ signed_of c → claim_of result ≡ c }
{
    let signer = own.signer;

    // Its clause says that the signer is one that a frame can carry.
    let _number = signer.get();
    let bytes = own.statement.bytes();
    let Ok(statement) = read_statement(bytes) else {
        unreachable!()
    };
    let signature = own.signature.bytes();
    Claim {
        signer,
        statement,
        signature,
    }
}

// Hears the own claim.
fn hear(pool: &mut Pool, claim: &Claim<'_>) -> Result<(), NoMemory>
    requires { IsClaim (claim_of claim.now) }
    ensures heard { (s : defs.Setting) (signer : Signer) (p : defs.Process) → p.pool ≡ pool.old.pool
        → own_claim s signer p (stmt claim.now.statement) ≡ claim_of claim.now
        → OnOk result ((signs s signer p (stmt claim.now.statement)).pool ≡ pool.new.pool) }
    ensures marked { pool.new.marked ≡ pool.old.marked }
{
    pool.reserve(1, claim_len(claim))?;
    pool.hear_own(claim);
    Ok(())
}

// Notes the statement at the own place. Its slot is not signed, and `orders` has an entry for each member.
fn note(own: &mut Own, view: &View, statement: &Statement<'_>) -> Result<(), NoMemory>
    requires range { IsStatement (stmt statement.now) }
    requires members { length own.old.orders.items ≡ length view.now.members }
    requires fresh { has_slot own.old.signed (slot_of (stmt statement.now)) ≡ false }
    ensures noted { (s : defs.Setting) (signer : Signer) (p : defs.Process) (g h : defs.Pool) → IsOwnOf s p g own.old → g.view ≡ view.now
        → IsTrue (may_sign s p (stmt statement.now)) → (signs s signer p (stmt statement.now)).pool ≡ h
        → OnOk result (IsOwnOf s (signs s signer p (stmt statement.now)) h own.new) }
    ensures marked { own.new.signed.marked ≡ own.old.signed.marked }
{
    own.signed.reserve(1)?;
    own.note_signed(view, statement);
    Ok(())
}

// Keeps the claim after those that were signed before.
fn keep(said: &mut ClaimList, claim: &Claim<'_>) -> Result<(), NoMemory>
    requires { IsClaim (claim_of claim.now) }
    ensures kept { OnOk result (said.new.claims ≡ said.old.claims ++ claim_of claim.now ∷ []) }
    ensures marked { said.new.marked ≡ said.old.marked }
{
    said.reserve(1, claim_len(claim))?;
    said.push(claim);
    Ok(())
}

// The length that an End says, and None of another statement.
fn length_said(statement: &Statement<'_>) -> Option<u16>
    ensures { result ≡ values.length_said (stmt statement.now) }
{
    match *statement {
        Statement::End { length, .. } => Some(length),
        _ => None,
    }
}

// The phase after the own End of this length.
fn closed(phase: Phase, length: u16) -> Phase
    requires { IsUndecided phase }
    ensures closes { (s : defs.Setting) (signer : Signer) (p : defs.Process) (x : ℕ) → IsTrue (may_sign s p (plain.End x length))
        → IsIn phase p → IsIn result (signs s signer p (plain.End x length)) }
    ensures undecided { IsUndecided result }
{
    match phase {
        Phase::OpenView(open) => Phase::ClosingView(open.close(length)),
        other => other,
    }
}

// The phase after the statement: an End closes the view. Before its End the view is open.
fn close(phase: &mut Phase, statement: &Statement<'_>)
    requires { IsUndecided phase.old }
    ensures closes { (s : defs.Setting) (signer : Signer) (p : defs.Process) → IsTrue (may_sign s p (stmt statement.now))
        → IsIn phase.old p → IsIn phase.new (signs s signer p (stmt statement.now)) }
    ensures undecided { IsUndecided phase.new }
{
    let Some(length) = length_said(statement) else {
        return;
    };
    *phase = closed(phase.take(), length);
}

/// Puts the own claim into the state of the process that may sign its statement next.
pub fn put(state: &mut ProcessState, own: &OwnClaim) -> Result<(), NoMemory>
    requires owed { IsOwed state.old own.now }
    requires undecided { IsUndecided state.old.phase }
    ensures puts { (s : defs.Setting) (signer : Signer) (p : defs.Process) (st : plain.Statement) → IsTrue (may_sign s p st)
        → signed own.now ≡ signed_of (own_claim s signer p st) → IsStateOf s p state.old
        → OnOk result (IsStateOf s (signs s signer p st) state.new) }
    ensures real { OnOk result (IsReal state.new) }
    ensures undecided { OnOk result (IsUndecided state.new.phase) }
    ensures stays { (b : Before) (was : ProcessState) → Stays b was state.old → Stays b was state.new }
    ensures left { state.new.left ≡ state.old.left }
{
    let claim = read_own(own);
    hear(&mut state.pool, &claim)?;
    note(&mut state.own, state.pool.view(), &claim.statement)?;
    keep(&mut state.said, &claim)?;
    close(&mut state.phase, &claim.statement);
    Ok(())
}
