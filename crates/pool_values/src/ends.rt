ghost use Rattle.std.specs.Prelude.{◌≡◌, None};
ghost use Rattle.message_defs.specs.Spelling.{IsStatement};
ghost use Rattle.message_defs.specs.Statements as plain;
ghost use Rattle.group_defs.specs.Process.{Pool};
ghost use Rattle.group_defs.specs.Certified as defs;
ghost use Rattle.slot_quorums.specs.Statements.{stmt, claim as claim_of};
ghost use Rattle.slot_quorums.specs.Claims.{with_heard};
ghost use Rattle.pool_values.specs.Ends.{AreInitsEnds, init_said};

use slot_quorums::{Claim, Statement};

/// How many processes there are.
pub(crate) const PROCESSES: usize = 64;

// The number of the Init, where the statement is one of this view.
fn init_said(view: u16, statement: &Statement<'_>) -> Option<u16>
    ensures { result ≡ init_said view (stmt statement.now) }
{
    match *statement {
        Statement::Init {
            view: of,
            number,
            ..
        } if of == view => Some(number),
        _ => None,
    }
}

/// Notes the claim, the last that was heard of the view of this number, at its signer.
pub(crate) fn note_init(view: u16, claim: &Claim<'_>, ends: &mut [u16; PROCESSES])
    requires { IsStatement (stmt claim.now.statement) }
    ensures { (h : Pool) → h.view.number ≡ view → defs.claim_on h.heard claim.now.signer (plain.slot_of (stmt claim.now.statement)) ≡ None
        → AreInitsEnds h ends.old → AreInitsEnds (with_heard h (claim_of claim.now)) ends.new }
{
    let signer = claim.signer.get() as usize;
    if let Some(number) = init_said(view, &claim.statement) {
        ends[signer] = ends[signer].max(number + 1);
    }
}
