//! What a run writes, and the status that it ends with.
ghost use Rattle.std.specs.Prelude.{◌≡◌, ◌≢◌, ◌⊎◌, IsErrOf, IsOkAnd, codes};
ghost use Rattle.std.specs.Io.KnownBytes.{Appends, Keeps};
ghost use Rattle.rp_base.specs.Causes.{Rose};
ghost use Rattle.rp_base.specs.Streams.{AppendsPrefix, WritesLine};
ghost use Rattle.audit_input.specs.Stops.{StopsSo, line_of, status_of};

use crate::stops::{Fault, Stop};
use rp_base::{Sink, write_all};
use std::alloc::Global;

// Writes the lines that a run has made, and answers the status: 0, or 4 where a write failed.
fn write_text<K: Sink>(output: &mut K, text: &[u8]) -> u8
    ensures done { result ≡ 0 → Appends (K.written output.old) (K.written output.new) text.now }
    ensures steady { result ≡ 0 → K.faults output.new ≡ K.faults output.old }
    ensures write { result ≡ 4 → Rose (K.faults output.old) (K.faults output.new) }
    ensures part { result ≡ 4 → AppendsPrefix (K.written output.old) (K.written output.new) text.now }
    ensures only { (result ≡ 0) ⊎ (result ≡ 4) }
{
    match write_all(output, text) {
        Ok(()) => 0,
        Err(_) => Stop::Write.status(),
    }
}

// Writes the line of a stop, and answers its status. A fault meanwhile leaves the status as it is.
fn write_line<K: Sink>(output: &mut K, stop: Stop, line: &[u8]) -> u8
    requires { line.now ≡ line_of stop }
    ensures status { result ≡ status_of stop }
    ensures line { WritesLine (line_of stop)
        (K.written output.old) (K.written output.new) (K.faults output.old) (K.faults output.new) }
{
    let _ = write_all(output, line);
    stop.status()
}

// The same of a fault of the input: 1 where there is no memory for its line.
fn report_fault<K: Sink>(alloc: Global, output: &mut K, fault: Fault) -> u8
    ensures silent { result ≡ 1 → Keeps (K.written output.old) (K.written output.new) }
    ensures status { result ≢ 1 → result ≡ status_of (Stop.Input fault) }
    ensures line { result ≢ 1 → WritesLine (line_of (Stop.Input fault))
        (K.written output.old) (K.written output.new) (K.faults output.old) (K.faults output.new) }
{
    let Ok(line) = fault.line(alloc) else {
        return Stop::NoMemory.status();
    };
    write_line(output, Stop::Input(fault), &line)
}

/// Writes the line that says why a run stops, and answers its status, or 1 where there is no memory for the line. That a read failed takes no
/// memory to say.
pub fn report<K: Sink>(alloc: Global, output: &mut K, stop: Stop) -> u8
    ensures silent { result ≡ 1 → Keeps (K.written output.old) (K.written output.new) }
    ensures status { result ≢ 1 → result ≡ status_of stop }
    ensures read { stop ≡ Stop.Read → result ≡ 3 }
    ensures line { result ≢ 1 → WritesLine (line_of stop)
        (K.written output.old) (K.written output.new) (K.faults output.old) (K.faults output.new) }
{
    match stop {
        Stop::NoMemory => stop.status(),
        Stop::Read => write_line(output, stop, b"stop 3 read\n"),
        Stop::Write => write_line(output, stop, b""),
        Stop::Input(fault) => report_fault(alloc, output, fault),
    }
}

/// Ends a run: writes what it has made, or the line that says why it stops. Answers the status that the program ends with.
pub fn finish<K: Sink>(alloc: Global, made: Result<Vec<u8>, Stop>, output: &mut K) -> u8
    requires { ¬ IsErrOf made Stop.Write }

    // 0: what was made was written, and nothing else.
    ensures done { result ≡ 0 → IsOkAnd made (λ text. Appends (K.written output.old) (K.written output.new) text.items) }
    ensures steady { result ≡ 0 → K.faults output.new ≡ K.faults output.old }

    // 1: nothing was written.
    ensures silent { result ≡ 1 → Keeps (K.written output.old) (K.written output.new) }

    // 3: exactly where a read failed.
    ensures read { result ≡ 3 → IsErrOf made Stop.Read }
    ensures failed { IsErrOf made Stop.Read → result ≡ 3 }
    ensures read_line { result ≡ 3 → WritesLine (codes "stop 3 read\n")
        (K.written output.old) (K.written output.new) (K.faults output.old) (K.faults output.new) }

    // 4: only where the sink failed; a prefix of what was made was written and nothing else.
    ensures write { result ≡ 4 → Rose (K.faults output.old) (K.faults output.new) }
    ensures part { result ≡ 4 → IsOkAnd made (λ text. AppendsPrefix (K.written output.old) (K.written output.new) text.items) }

    // 7, 8: the input has a fault of this status, and the line that says so was written and nothing else.
    ensures stops { (result ≡ 7) ⊎ (result ≡ 8) → StopsSo made result
        (K.written output.old) (K.written output.new) (K.faults output.old) (K.faults output.new) }
    ensures only { (result ≡ 0) ⊎ (result ≡ 1) ⊎ (result ≡ 3) ⊎ (result ≡ 4) ⊎ (result ≡ 7) ⊎ (result ≡ 8) }
{
    match made {
        Ok(text) => write_text(output, &text),
        Err(stop) => report(alloc, output, stop),
    }
}
