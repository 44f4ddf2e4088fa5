//! Each command to its end, with the status that the program ends with and the line that says why it stopped.
ghost use Rattle.std.specs.Prelude.{◌≡◌, ◌⊎◌, codes, IsOk, IsErr, IsSomeAnd};
ghost use Rattle.std.specs.Io.KnownBytes.{Appends, Keeps};
ghost use Rattle.rp_base.specs.Causes.{Rose};
ghost use Rattle.replay_defs.specs.Reports.{report_of};
ghost use Rattle.command_line.specs.Commands.{IsOrder};
ghost use Rattle.command_line.specs.Views.{order};
ghost use Rattle.replay_words.specs.Statuses.{status_of, line_of};
ghost use Rattle.rp_base.specs.Streams.{AppendsPrefix, WritesLine};
ghost use Rattle.replay_words.specs.Answers.{Reported, ReportedInPart, Stopped, kit_of_order, schedule_of_number};

use crate::generating::write_generated;
use crate::keygen::keygen;
use crate::replaying::replay_input;
use crate::stops::Stop;
use command_line::KitOrder;
use rp_base::{Sink, Source, write_all};
use std::alloc::Global;

/// The status of an input that has no report.
const INPUT: u8 = 7;

/// Writes a line, or a prefix of it where a write fails: a fault is no more than that.
fn say<K: Sink>(output: &mut K, line: &[u8])
    ensures { WritesLine line.now (K.written output.old) (K.written output.new) (K.faults output.old) (K.faults output.new) }
{
    let _ = write_all(output, line);
}

/// Writes the line that says why a run stops, and answers its status. A fault meanwhile leaves the status as it is.
pub fn tell<K: Sink>(output: &mut K, stop: Stop) -> u8
    ensures status { result ≡ status_of stop }
    ensures line { WritesLine (line_of stop)
        (K.written output.old) (K.written output.new) (K.faults output.old) (K.faults output.new) }
{
    say(output, stop.line());
    stop.status()
}

/// Writes what a command gives, and answers the status: 0, or 4 where a write failed.
fn give<K: Sink>(output: &mut K, bytes: &[u8]) -> u8
    ensures done { result ≡ 0 → Appends (K.written output.old) (K.written output.new) bytes.now }
    ensures steady { result ≡ 0 → K.faults output.new ≡ K.faults output.old }
    ensures write { result ≡ 4 → Rose (K.faults output.old) (K.faults output.new) }
    ensures part { result ≡ 4 → AppendsPrefix (K.written output.old) (K.written output.new) bytes.now }
    ensures only { (result ≡ 0) ⊎ (result ≡ 4) }
{
    match write_all(output, bytes) {
        Ok(()) => 0,
        Err(_) => 4,
    }
}

/// The commands `replay` and `replay short`. `rampart` says what each status means.
pub fn run_replay<S: Source, K: Sink>(
    alloc: Global,
    short: bool,
    input: &mut S,
    output: &mut K,
) -> u8
    ensures done { result ≡ 0
        → Reported short (S.left input.old) (S.left input.new) (K.written output.old) (K.written output.new) }
    ensures steady { result ≡ 0
        → (S.faults input.new ≡ S.faults input.old) × (K.faults output.new ≡ K.faults output.old) }
    ensures silent { result ≡ 1 → Keeps (K.written output.old) (K.written output.new) }
    ensures read { result ≡ 3 → Rose (S.faults input.old) (S.faults input.new) }
    ensures read_line { result ≡ 3 → WritesLine (codes "stop 3 read\n")
        (K.written output.old) (K.written output.new) (K.faults output.old) (K.faults output.new) }
    ensures write { result ≡ 4 → Rose (K.faults output.old) (K.faults output.new) }
    ensures part { result ≡ 4
        → ReportedInPart short (S.left input.old) (S.left input.new) (K.written output.old) (K.written output.new) }
    ensures whole { (result ≡ 4) ⊎ (result ≡ 7) → S.faults input.new ≡ S.faults input.old }
    ensures input { result ≡ 7 → Stopped (S.left input.old) (S.left input.new)
        (K.written output.old) (K.written output.new) (K.faults output.old) (K.faults output.new) }
    ensures completes { IsSomeAnd (S.left input.old) (λ reported. IsOk (report_of short reported))
        → ¬ Rose (S.faults input.old) (S.faults input.new) → ¬ Rose (K.faults output.old) (K.faults output.new)
        → (result ≡ 0) ⊎ (result ≡ 1) }
    ensures refuses { IsSomeAnd (S.left input.old) (λ reported. IsErr (report_of short reported))
        → ¬ Rose (S.faults input.old) (S.faults input.new)
        → (result ≡ 7) ⊎ (result ≡ 1) }
    ensures only { (result ≡ 0) ⊎ (result ≡ 1) ⊎ (result ≡ 3) ⊎ (result ≡ 4) ⊎ (result ≡ 7) }
{
    match replay_input(alloc, short, input) {
        Ok(Ok(report)) => give(output, &report),
        Ok(Err(line)) => {
            say(output, &line);
            INPUT
        }
        Err(stop) => tell(output, stop),
    }
}

/// The command `gen`. `rampart` says what each status means.
pub fn run_gen<K: Sink>(alloc: Global, number: u32, output: &mut K) -> u8
    ensures made { result ≡ 0 → Appends (K.written output.old) (K.written output.new) (schedule_of_number number) }
    ensures steady { result ≡ 0 → K.faults output.new ≡ K.faults output.old }
    ensures silent { result ≡ 1 → Keeps (K.written output.old) (K.written output.new) }
    ensures write { result ≡ 4 → Rose (K.faults output.old) (K.faults output.new) }
    ensures part { result ≡ 4
        → AppendsPrefix (K.written output.old) (K.written output.new) (schedule_of_number number) }
    ensures makes { ¬ Rose (K.faults output.old) (K.faults output.new) → (result ≡ 0) ⊎ (result ≡ 1) }
    ensures only { (result ≡ 0) ⊎ (result ≡ 1) ⊎ (result ≡ 4) }
{
    match write_generated(alloc, number, output) {
        Ok(()) => 0,
        Err(stop) => tell(output, stop),
    }
}

/// The command `keygen`. `rampart` says what each status means.
pub fn run_keygen<K: Sink>(alloc: Global, ordered: &KitOrder, output: &mut K) -> u8
    requires { IsOrder (order ordered.now) }
    ensures made { result ≡ 0
        → Appends (K.written output.old) (K.written output.new) (kit_of_order (order ordered.now)) }
    ensures steady { result ≡ 0 → K.faults output.new ≡ K.faults output.old }
    ensures silent { result ≡ 1 → Keeps (K.written output.old) (K.written output.new) }
    ensures write { result ≡ 4 → Rose (K.faults output.old) (K.faults output.new) }
    ensures part { result ≡ 4
        → AppendsPrefix (K.written output.old) (K.written output.new) (kit_of_order (order ordered.now)) }
    ensures makes { ¬ Rose (K.faults output.old) (K.faults output.new) → (result ≡ 0) ⊎ (result ≡ 1) }
    ensures only { (result ≡ 0) ⊎ (result ≡ 1) ⊎ (result ≡ 4) }
{
    match keygen(alloc, ordered, output) {
        Ok(()) => 0,
        Err(stop) => tell(output, stop),
    }
}
