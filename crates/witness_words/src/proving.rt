//! Proofs of views from journals.
ghost use Rattle.std.specs.Prelude.{◌≡◌, ◌⊎◌, ◌∷◌, [], ℕ, IfOk, IsErrOf, codes};
ghost use Rattle.std.specs.Io.KnownBytes.{Keeps};
ghost use Rattle.rp_base.specs.Causes.{Rose};
ghost use Rattle.rp_base.specs.Streams.{WritesLine};
ghost use Rattle.audit_defs.specs.Findings as findings;
ghost use Rattle.audit_defs.specs.Findings.{stop_line};
ghost use Rattle.audit_input.specs.Stops.{fault_line, fault_status};
ghost use Rattle.proof_defs.specs.Lines.{proofs_text};
ghost use Rattle.proof_lines.specs.Taken.{ChainTakes};
ghost use Rattle.witness_words.specs.Running.{Audits, HasFindings, HasNoFindings, Proved, ProvedInPart, Unconvicted, Unread};

use audit_input::{Fault, Stop, finish, read_input};
use proof_lines::lines_in;
use rp_base::{Pid, Sink, Source};
use std::alloc::Global;

// Reads the input to its end, and makes the lines of the process. Nothing is written.
fn prove_all<S: Source>(alloc: Global, p: Pid, input: &mut S) -> Result<Vec<u8>, Stop>
    ensures found { IfOk result (λ text. (a : Audits (p ∷ []) (S.left input.old) (S.left input.new))
        × (text.items ≡ proofs_text a.audited) × ChainTakes a.audited) }
    ensures refused { (fault : Fault) → IsErrOf result (Stop.Input fault)
        → (r : Unread (p ∷ []) (S.left input.old) (S.left input.new))
        × (stop_line r.why ≡ fault_line fault) × (findings.status_of r.why ≡ fault_status fault) }
    ensures read { IsErrOf result Stop.Read → Rose (S.faults input.old) (S.faults input.new) }
    ensures steady { IsErrOf result Stop.Read ⊎ (S.faults input.new ≡ S.faults input.old) }
    ensures no_write { ¬ IsErrOf result Stop.Write }
{
    let seen = read_input(alloc, input)?;
    let text = lines_in(alloc, &seen.kit, p, &seen.journals)?;
    Ok(text)
}

/// The words `proofs P`: reads a kit up to the line `go`, and then journals, of which one hosts the process. It writes a line for each view
/// that the process left, in order, with the proof that shows the view after it, and answers the status that the program ends with. The
/// input is read whole before anything is written.
///
/// | Status | Written | Comes |
/// |---|---|---|
/// | 0 | the lines, or nothing where the process left no view | the input was read to its end |
/// | 1 | nothing | no memory is left |
/// | 3 | `stop 3 read` | only where a read failed |
/// | 4 | a prefix of the lines | only where a write failed |
/// | 7, 8 | the line that `audit` writes | as `audit P` has it (docs/FORMATS.md, «Audit») |
pub fn proofs<S: Source, K: Sink>(alloc: Global, p: Pid, input: &mut S, output: &mut K) -> u8
    // 0: the input was read to its end, and a line for each view that the process left was written, and nothing else; after any kit of the
    // same keys `chain` takes those lines that are not large.
    ensures proved { result ≡ 0 → Proved p (S.left input.old) (S.left input.new) (K.written output.old) (K.written output.new) }
    ensures steady { result ≡ 0 → (S.faults input.new ≡ S.faults input.old) × (K.faults output.new ≡ K.faults output.old) }

    // 1: no memory is left, and nothing was written.
    ensures silent { result ≡ 1 → Keeps (K.written output.old) (K.written output.new) }

    // 3: only where the source failed.
    ensures read { result ≡ 3 → Rose (S.faults input.old) (S.faults input.new) }
    ensures read_line { result ≡ 3 → WritesLine (codes "stop 3 read\n")
        (K.written output.old) (K.written output.new) (K.faults output.old) (K.faults output.new) }

    // 4: only where the sink failed; a prefix of the lines was written and nothing else.
    ensures write { result ≡ 4 → Rose (K.faults output.old) (K.faults output.new) }
    ensures part { result ≡ 4 → ProvedInPart p (S.left input.old) (S.left input.new) (K.written output.old) (K.written output.new) }

    // 4, 7, 8: no read failed.
    ensures whole { (result ≡ 4) ⊎ (result ≡ 7) ⊎ (result ≡ 8) → S.faults input.new ≡ S.faults input.old }

    // 7, 8: an audit of the process finds nothing in what was read, for a reason of this status, and the line that says why was written and
    // nothing else.
    ensures stops { (result ≡ 7) ⊎ (result ≡ 8) → Unconvicted (p ∷ []) result (S.left input.old) (S.left input.new)
        (K.written output.old) (K.written output.new) (K.faults output.old) (K.faults output.new) }

    // An input of which something is found gives 0, and one of which nothing is found the status of the reason, where memory is left and
    // nothing failed.
    ensures completes { HasFindings (p ∷ []) (S.left input.old)
        → ¬ Rose (S.faults input.old) (S.faults input.new) → ¬ Rose (K.faults output.old) (K.faults output.new)
        → (result ≡ 0) ⊎ (result ≡ 1) }
    ensures refuses { (status : ℕ) → HasNoFindings (p ∷ []) status (S.left input.old)
        → ¬ Rose (S.faults input.old) (S.faults input.new)
        → (result ≡ status) ⊎ (result ≡ 1) }
    ensures only { (result ≡ 0) ⊎ (result ≡ 1) ⊎ (result ≡ 3) ⊎ (result ≡ 4) ⊎ (result ≡ 7) ⊎ (result ≡ 8) }
{
    let made = prove_all(alloc, p, input);
    finish(alloc, made, output)
}
