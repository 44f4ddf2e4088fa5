//! Each word to its end.
ghost use Rattle.std.specs.Prelude.{◌≡◌, ◌≢◌, ◌↔◌, ◌⊎◌, ℕ, List, [], ◌∷◌, codes};
ghost use Rattle.std.specs.Io.KnownBytes.{Consumes, Keeps};
ghost use Rattle.rp_base.specs.Causes.{Rose};
ghost use Rattle.rp_base.specs.Streams.{WritesLine};
ghost use Rattle.witness_chain.specs.Running.{AnswerReportsFrom, Answered, HasStatus, InPart, LinesWritten, Refused as RefusedChain, ShownAndSays};
ghost use Rattle.witness_cli.specs.Commands.{AskAny, Asks, Chain, Convict, Judge, Proofs};
ghost use Rattle.witness_words.specs.Running.{Convicted, ConvictedInPart, HasFindings, HasNoFindings, IsRefused, IsTaken, Proved, ProvedInPart, Refused, Takes, Unconvicted};

use crate::commands::{Command, command_of};
use rp_base::{Sink, Source, write_all};
use std::alloc::Global;
use witness_chain::chain;
use witness_words::{convict, judge, proofs};

/// The status where the words are no command.
const WORDS: u8 = 2;

/// The whole program: `words` are those after the program's name, and the answer is the status that it ends with. On standard error,
/// `errors`, it says that the words are none.
pub fn witness<S: Source, K: Sink, E: Sink>(
    alloc: Global,
    words: &[String],
    input: &mut S,
    output: &mut K,
    errors: &mut E,
) -> u8
    // convict, 0: the input was read to its end, and a line of evidence for each whom an audit of it convicts was written, and nothing else;
    // `judge` takes these lines after any kit of the same keys.
    ensures convicted { (listed : List ℕ) → Asks words.now (Convict listed) → result ≡ 0
        → Convicted listed (S.left input.old) (S.left input.new) (K.written output.old) (K.written output.new) }

    // proofs, 0: the input was read to its end, and a line for each view that the process left was written, and nothing else; `chain` takes
    // those lines that are not large after any kit of the same keys.
    ensures proved { (p : ℕ) → Asks words.now (Proofs p) → result ≡ 0
        → Proved p (S.left input.old) (S.left input.new) (K.written output.old) (K.written output.new) }

    // judge, 0: the input was read to its end, all evidence in it is taken, and nothing was written.
    ensures taken { Asks words.now Judge → result ≡ 0 → Takes (S.left input.old) (S.left input.new) }
    ensures mute { Asks words.now Judge → result ≡ 0 → Keeps (K.written output.old) (K.written output.new) }

    // chain, 0: the input was read to its end, each proof in it shows a view, and the lines of the views from the first one on were written, and
    // nothing else.
    ensures chained { Asks words.now Chain → result ≡ 0
        → Answered (S.left input.old) (S.left input.new) (K.written output.old) (K.written output.new) }

    // 0: nothing failed.
    ensures steady { result ≡ 0
        → (S.faults input.new ≡ S.faults input.old) × (K.faults output.new ≡ K.faults output.old) }

    // 1: no memory is left, or judge or chain has read 2^64 - 2 lines; nothing was written, but by chain the lines of views.
    ensures silent { ¬ Asks words.now Chain → result ≡ 1 → Keeps (K.written output.old) (K.written output.new) }
    ensures some { Asks words.now Chain → result ≡ 1
        → LinesWritten (S.left input.old) (S.left input.new) (K.written output.old) (K.written output.new) }

    // 2: exactly where the words are no command; nothing was read, and nothing written but the line that says so, on standard error.
    ensures words { (result ≡ 2) ↔ (¬ AskAny words.now) }
    ensures unread { result ≡ 2 → (input.new ≡ input.old) × (output.new ≡ output.old) }
    ensures words_line { result ≡ 2 → WritesLine (codes "stop 2 words\n")
        (E.written errors.old) (E.written errors.new) (E.faults errors.old) (E.faults errors.new) }
    ensures quiet { result ≢ 2 → errors.new ≡ errors.old }

    // 3: only where the source failed. The line that says so was written and nothing else, but by chain the lines of views before it.
    ensures read { result ≡ 3 → Rose (S.faults input.old) (S.faults input.new) }
    ensures read_line { ¬ Asks words.now Chain → result ≡ 3 → WritesLine (codes "stop 3 read\n")
        (K.written output.old) (K.written output.new) (K.faults output.old) (K.faults output.new) }
    ensures read_behind_views { Asks words.now Chain → result ≡ 3
        → ShownAndSays (codes "stop 3 read\n") (S.left input.old) (S.left input.new)
        (K.written output.old) (K.written output.new) (K.faults output.old) (K.faults output.new) }

    // 4: not by judge, and only where the sink failed; a prefix of the lines was written and nothing else.
    ensures write { result ≡ 4 → Rose (K.faults output.old) (K.faults output.new) }
    ensures part { (listed : List ℕ) → Asks words.now (Convict listed) → result ≡ 4
        → ConvictedInPart listed (S.left input.old) (S.left input.new) (K.written output.old) (K.written output.new) }

    ensures proved_in_part { (p : ℕ) → Asks words.now (Proofs p) → result ≡ 4
        → ProvedInPart p (S.left input.old) (S.left input.new) (K.written output.old) (K.written output.new) }

    ensures part_of_chain { Asks words.now Chain → result ≡ 4
        → InPart (S.left input.old) (S.left input.new) (K.written output.old) (K.written output.new) }

    // convict, 7 and 8: what was read has no findings, for a reason of this status, and the line that says why was written and nothing else.
    ensures stops { (listed : List ℕ) → Asks words.now (Convict listed) → (result ≡ 7) ⊎ (result ≡ 8)
        → Unconvicted listed result (S.left input.old) (S.left input.new)
        (K.written output.old) (K.written output.new) (K.faults output.old) (K.faults output.new) }

    // proofs, 7 and 8: an audit of the process has no findings, and it is as by convict.
    ensures proves_nothing { (p : ℕ) → Asks words.now (Proofs p) → (result ≡ 7) ⊎ (result ≡ 8)
        → Unconvicted (p ∷ []) result (S.left input.old) (S.left input.new)
        (K.written output.old) (K.written output.new) (K.faults output.old) (K.faults output.new) }

    // judge, 7: what was read is not taken, and the line that says why was written and nothing else.
    ensures refused { Asks words.now Judge → result ≡ 7 → Refused (S.left input.old) (S.left input.new)
        (K.written output.old) (K.written output.new) (K.faults output.old) (K.faults output.new) }

    // chain, 7: what was read has a fault, and the lines of the views before the fault were written, and then its own.
    ensures fault { Asks words.now Chain → result ≡ 7 → RefusedChain (S.left input.old) (S.left input.new)
        (K.written output.old) (K.written output.new) (K.faults output.old) (K.faults output.new) }

    // 4, 7, 8: no read failed.
    ensures whole { (result ≡ 4) ⊎ (result ≡ 7) ⊎ (result ≡ 8) → S.faults input.new ≡ S.faults input.old }

    // convict: an input of which something is found gives 0, and one of which nothing is found the status of the reason, where memory is left
    // and nothing failed.
    ensures convicts { (listed : List ℕ) → Asks words.now (Convict listed) → HasFindings listed (S.left input.old)
        → ¬ Rose (S.faults input.old) (S.faults input.new) → ¬ Rose (K.faults output.old) (K.faults output.new)
        → (result ≡ 0) ⊎ (result ≡ 1) }
    ensures convicts_not { (listed : List ℕ) (status : ℕ) → Asks words.now (Convict listed) → HasNoFindings listed status (S.left input.old)
        → ¬ Rose (S.faults input.old) (S.faults input.new)
        → (result ≡ status) ⊎ (result ≡ 1) }

    // proofs: an input in which an audit of the process finds something gives 0, and another one the status of the reason, where memory is
    // left and nothing failed.
    ensures proves { (p : ℕ) → Asks words.now (Proofs p) → HasFindings (p ∷ []) (S.left input.old)
        → ¬ Rose (S.faults input.old) (S.faults input.new) → ¬ Rose (K.faults output.old) (K.faults output.new)
        → (result ≡ 0) ⊎ (result ≡ 1) }
    ensures proves_not { (p status : ℕ) → Asks words.now (Proofs p) → HasNoFindings (p ∷ []) status (S.left input.old)
        → ¬ Rose (S.faults input.old) (S.faults input.new)
        → (result ≡ status) ⊎ (result ≡ 1) }

    // judge: an input of which all is taken gives 0, and another one 7, where memory is left and no read failed.
    ensures takes { Asks words.now Judge → IsTaken (S.left input.old) → ¬ Rose (S.faults input.old) (S.faults input.new)
        → (result ≡ 0) ⊎ (result ≡ 1) }
    ensures takes_not { Asks words.now Judge → IsRefused (S.left input.old) → ¬ Rose (S.faults input.old) (S.faults input.new)
        → (result ≡ 7) ⊎ (result ≡ 1) }

    // chain: an input whose answer has status 0 gives 0, and one whose answer has status 7 gives 7, where memory is left and nothing failed.
    // No status but 0, 1, 3, 4 and 7 comes.
    ensures shows { Asks words.now Chain → HasStatus 0 (S.left input.old)
        → ¬ Rose (S.faults input.old) (S.faults input.new) → ¬ Rose (K.faults output.old) (K.faults output.new)
        → (result ≡ 0) ⊎ (result ≡ 1) }
    ensures breaks { Asks words.now Chain → HasStatus 7 (S.left input.old)
        → ¬ Rose (S.faults input.old) (S.faults input.new) → ¬ Rose (K.faults output.old) (K.faults output.new)
        → (result ≡ 7) ⊎ (result ≡ 1) }
    ensures only_shown { Asks words.now Chain
        → (result ≡ 0) ⊎ (result ≡ 1) ⊎ (result ≡ 3) ⊎ (result ≡ 4) ⊎ (result ≡ 7) }

    // chain, whatever the status: of the answer to what was read, of which all or the beginning was written. Where a kit was read, it is the
    // line of each view of a chain and at most one line more; and these are the views of the group where the first one is, and the proofs quote
    // its correct processes truly.
    ensures views { Asks words.now Chain → (read : List ℕ) → Consumes (S.left input.old) (S.left input.new) read → AnswerReportsFrom read }

    // No other status comes; 8 only by convict and proofs.
    ensures only { (result ≡ 0) ⊎ (result ≡ 1) ⊎ (result ≡ 2) ⊎ (result ≡ 3) ⊎ (result ≡ 4) ⊎ (result ≡ 7) ⊎ (result ≡ 8) }
{
    let Some(command) = command_of(words) else {
        let _ = write_all(errors, b"stop 2 words\n");
        return WORDS;
    };
    match command {
        Command::Convict(listed) => convict(alloc, listed, input, output),
        Command::Proofs(p) => proofs(alloc, p, input, output),
        Command::Judge => judge(alloc, input, output),
        Command::Chain => chain(alloc, input, output),
    }
}
