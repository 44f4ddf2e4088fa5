ghost use Rattle.std.specs.Prelude.{◌≡◌, ◌⊎◌, ℕ, IfOk, IsErrOf, codes};
ghost use Rattle.std.specs.Io.KnownBytes.{Keeps};
ghost use Rattle.rp_base.specs.Causes.{Rose};
ghost use Rattle.rp_base.specs.Streams.{WritesLine};
ghost use Rattle.audit_defs.specs.Findings as findings;
ghost use Rattle.audit_defs.specs.Findings.{stop_line};
ghost use Rattle.audit_input.specs.Stops.{fault_line, fault_status};
ghost use Rattle.audit_words.specs.Running.{Audits, Found, FoundInPart, HasFindings, HasNoFindings, Unfound, Unread, line_of_findings};

use audit_core::audit;
use audit_input::{Fault, Stop, finish, read_input};
use rp_base::{PidSet, Sink, Source};
use std::alloc::Global;

// Reads the input to its end, and makes the line of what an audit of it finds, with these processes taken as correct. Nothing is written.
fn audit_all<S: Source>(alloc: Global, listed: PidSet, input: &mut S) -> Result<Vec<u8>, Stop>
    ensures found { IfOk result (λ line. (a : Audits listed (S.left input.old) (S.left input.new)) × (line.items ≡ line_of_findings a)) }
    ensures refused { (fault : Fault) → IsErrOf result (Stop.Input fault)
        → (r : Unread listed (S.left input.old) (S.left input.new))
        × (stop_line r.why ≡ fault_line fault) × (findings.status_of r.why ≡ fault_status fault) }
    ensures read { IsErrOf result Stop.Read → Rose (S.faults input.old) (S.faults input.new) }
    ensures steady { IsErrOf result Stop.Read ⊎ (S.faults input.new ≡ S.faults input.old) }
    ensures no_write { ¬ IsErrOf result Stop.Write }
{
    let seen = read_input(alloc, input)?;
    let found = audit(alloc, &seen.kit, listed, &seen.journals)?;
    let mut line = Vec::new(alloc);
    found.findings_into(alloc, &mut line)?;
    Ok(line)
}

/// The word `audit`: reads a kit up to the line `go`, and then journals, with these processes taken as correct, and all others as corrupt. It
/// writes one line, and answers the status that the program ends with. The input is read whole before anything is written.
///
/// | Status | Written | Comes |
/// |---|---|---|
/// | 0 | the line of the findings | the input was read to its end |
/// | 1 | nothing | no memory is left, and no read failed |
/// | 3 | `stop 3 read` | exactly where a read failed |
/// | 4 | a prefix of the line of the findings | only where a write failed |
/// | 7 | `stop 7 ..` with the number of a line, counted from 1 | the line has this fault |
/// | 7 | `stop 7 unhosted ..` or `stop 7 doubled ..` | no journal hosts this listed process, or two do |
/// | 8 | `stop 8 journal ..` with an index and a place | the journal is refused there |
pub fn run_audit<S: Source, K: Sink>(
    alloc: Global,
    listed: PidSet,
    input: &mut S,
    output: &mut K,
) -> u8
    // 0: the input was read to its end, and the line of what an audit of it finds was written, and nothing else.
    ensures audited { result ≡ 0 → Found listed (S.left input.old) (S.left input.new) (K.written output.old) (K.written output.new) }
    ensures steady { result ≡ 0 → (S.faults input.new ≡ S.faults input.old) × (K.faults output.new ≡ K.faults output.old) }

    // 1: no memory is left, and nothing was written, and no read failed.
    ensures silent { result ≡ 1 → Keeps (K.written output.old) (K.written output.new) }
    ensures unhindered { result ≡ 1 → S.faults input.new ≡ S.faults input.old }

    // 3: only where the source failed; and by the clauses of the other statuses none of them comes where it did.
    ensures read { result ≡ 3 → Rose (S.faults input.old) (S.faults input.new) }
    ensures read_line { result ≡ 3 → WritesLine (codes "stop 3 read\n")
        (K.written output.old) (K.written output.new) (K.faults output.old) (K.faults output.new) }

    // 4: only where the sink failed; a prefix of the line was written and nothing else.
    ensures write { result ≡ 4 → Rose (K.faults output.old) (K.faults output.new) }
    ensures part { result ≡ 4 → FoundInPart listed (S.left input.old) (S.left input.new) (K.written output.old) (K.written output.new) }

    // 4, 7, 8: no read failed.
    ensures whole { (result ≡ 4) ⊎ (result ≡ 7) ⊎ (result ≡ 8) → S.faults input.new ≡ S.faults input.old }

    // 7, 8: what was read has no findings, for a reason of this status, and the line that says why was written and nothing else.
    ensures audit_stops { (result ≡ 7) ⊎ (result ≡ 8) → Unfound listed result (S.left input.old) (S.left input.new)
        (K.written output.old) (K.written output.new) (K.faults output.old) (K.faults output.new) }

    // An input with findings gives 0, and one without them the status of the reason, where memory is left and
    // nothing failed.
    ensures completes { HasFindings listed (S.left input.old)
        → ¬ Rose (S.faults input.old) (S.faults input.new) → ¬ Rose (K.faults output.old) (K.faults output.new)
        → (result ≡ 0) ⊎ (result ≡ 1) }
    ensures refuses { (status : ℕ) → HasNoFindings listed status (S.left input.old)
        → ¬ Rose (S.faults input.old) (S.faults input.new)
        → (result ≡ status) ⊎ (result ≡ 1) }
    ensures only { (result ≡ 0) ⊎ (result ≡ 1) ⊎ (result ≡ 3) ⊎ (result ≡ 4) ⊎ (result ≡ 7) ⊎ (result ≡ 8) }
{
    let made = audit_all(alloc, listed, input);
    finish(alloc, made, output)
}
