//! The lines of a process, of journals.
ghost use Rattle.std.specs.Prelude.{◌≡◌, ◌∷◌, [], IfErr, IfOk, Ok};
ghost use Rattle.kit_defs.specs.Kits.{IsKit};
ghost use Rattle.audit_defs.specs.Audits.{Audited, audited};
ghost use Rattle.audit_core.specs.Walks.{IsFaultOf};
ghost use Rattle.proof_defs.specs.Lines.{proofs_text};
ghost use Rattle.proof_lines.specs.Taken.{ChainTakes};

use crate::lines::lines_of_all;
use audit_core::{AuditFault, Kit, Payload, walk_all};
use rp_base::{NoMemory, Pid, PidSet};
use std::alloc::Global;

// This process alone.
fn alone(p: Pid) -> PidSet
    ensures { result ≡ p ∷ [] }
{
    let mut set = PidSet::new();
    set.insert(p);
    set
}

/// A line for each view that the process left, in order, as the journal that hosts it says: of what the kit and these journals are, an
/// audit of this process alone is made.
///
/// # Errors
/// As of `audit`, with this process as the one that is taken as correct.
pub fn lines_in(
    alloc: Global,
    kit: &Kit,
    p: Pid,
    journals: &[Payload],
) -> Result<Vec<u8>, AuditFault>
    requires kit { IsKit kit.now }
    ensures found { IfOk result (λ text. (a : Audited) × (audited kit.now (p ∷ []) journals.now ≡ Ok a)
        × (text.items ≡ proofs_text a) × ChainTakes a) }
    ensures refused { IfErr result (λ fault. IsFaultOf fault (audited kit.now (p ∷ []) journals.now)) }
{
    let walk = match walk_all(alloc, kit, alone(p), journals) {
        Ok(walk) => walk,
        Err(fault) => return Err(fault),
    };
    match lines_of_all(alloc, walk.players()) {
        Ok(text) => Ok(text),
        Err(NoMemory) => Err(AuditFault::NoMemory),
    }
}
