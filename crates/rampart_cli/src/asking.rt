//! The word `ask`, from its words on.
ghost use Rattle.std.specs.Prelude.{◌≡◌, ◌⊎◌, ℕ, List, codes};
ghost use Rattle.std.specs.Io.KnownBytes.{Keeps};
ghost use Rattle.rp_base.specs.Causes.{Rose};
ghost use Rattle.rp_base.specs.Streams.{WritesLine};
ghost use Rattle.command_line.specs.Commands.{Ask};
ghost use Rattle.store_asking.specs.Answers as answers;
ghost use Rattle.store_asking.specs.Answers.{Answered, AnsweredInPart, AsksNothing, Refused};
ghost use Rattle.rampart_cli.specs.Top.{Asks};

use command_line::payload_in;
use rp_base::{Sink, Source};
use std::alloc::Global;
use store_asking::ask;

/// Answers what enough members of the view that is read answered to the payload of these words, as `rampart` says.
pub(crate) fn run_ask<S: Source, K: Sink>(
    alloc: Global,
    words: &[String],
    input: &mut S,
    output: &mut K,
) -> u8
    ensures answered { (payload : List ℕ) → Asks words.now (Ask payload) → result ≡ 0
        → Answered payload (S.left input.old) (S.left input.new) (K.written output.old) (K.written output.new) }
    ensures steady { result ≡ 0 → (S.faults input.new ≡ S.faults input.old) × (K.faults output.new ≡ K.faults output.old) }
    ensures silent { result ≡ 1 → Keeps (K.written output.old) (K.written output.new) }
    ensures read { result ≡ 3 → Rose (S.faults input.old) (S.faults input.new) }
    ensures read_line { result ≡ 3 → WritesLine (codes "stop 3 read\n")
        (K.written output.old) (K.written output.new) (K.faults output.old) (K.faults output.new) }
    ensures failed { result ≡ 4 → Rose (K.faults output.old) (K.faults output.new) }
    ensures part { (payload : List ℕ) → Asks words.now (Ask payload) → result ≡ 4
        → AnsweredInPart payload (S.left input.old) (S.left input.new) (K.written output.old) (K.written output.new) }
    ensures stops { result ≡ 7 → Refused (S.left input.old) (S.left input.new)
        (K.written output.old) (K.written output.new) (K.faults output.old) (K.faults output.new) }
    ensures whole { (result ≡ 4) ⊎ (result ≡ 7) → S.faults input.new ≡ S.faults input.old }
    ensures completes { answers.Asks (S.left input.old)
        → ¬ Rose (S.faults input.old) (S.faults input.new) → ¬ Rose (K.faults output.old) (K.faults output.new)
        → (result ≡ 0) ⊎ (result ≡ 1) }
    ensures refuses { AsksNothing (S.left input.old)
        → ¬ Rose (S.faults input.old) (S.faults input.new)
        → (result ≡ 7) ⊎ (result ≡ 1) }
    ensures only { (result ≡ 0) ⊎ (result ≡ 1) ⊎ (result ≡ 3) ⊎ (result ≡ 4) ⊎ (result ≡ 7) }
{
    match payload_in(alloc, words) {
        Ok(payload) => ask(alloc, &payload, input, output),
        Err(_) => 1,
    }
}
