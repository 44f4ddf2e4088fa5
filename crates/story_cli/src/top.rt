ghost use Rattle.std.specs.Prelude.{◌≡◌, ◌≢◌, ◌↔◌, ◌⊎◌, codes, IsSomeAnd};
ghost use Rattle.std.specs.Io.KnownBytes.{Keeps};
ghost use Rattle.rp_base.specs.Causes.{Rose};
ghost use Rattle.rp_base.specs.Streams.{WritesLine};
ghost use Rattle.story_cli.specs.declared.commands.Command.{Command};
ghost use Rattle.story_cli.specs.Top.{AskAny, Asks, Has, Made, MadeInPart, NoSchedule, NoStory};

use crate::commands::{Command, command_of};
use crate::running::{run, say, tell};
use rp_base::{Sink, Source};
use std::alloc::Global;

/// The status where the words are no command.
const WORDS: u8 = 2;

/// The whole program: `words` are those after the program's name, and the answer is the status that it ends with. What stops it is reported
/// on standard error, `errors`.
pub fn story<S: Source, K: Sink, E: Sink>(
    alloc: Global,
    words: &[String],
    input: &mut S,
    output: &mut K,
    errors: &mut E,
) -> u8
    // 0: the input was read to its end, and what the command makes of it was written, and nothing else: the schedule of the story, the
    // story of the schedule, or what happens in its run.
    ensures done { (command : Command) → Asks words.now command → result ≡ 0
        → Made command (S.left input.old) (S.left input.new) (K.written output.old) (K.written output.new) }

    // 0: nothing failed.
    ensures steady { result ≡ 0
        → (S.faults input.new ≡ S.faults input.old) × (K.faults output.new ≡ K.faults output.old) }

    // 2: exactly where the words are no command; nothing was read.
    ensures words { (result ≡ 2) ↔ (¬ AskAny words.now) }
    ensures unread { result ≡ 2 → input.new ≡ input.old }
    ensures words_line { result ≡ 2 → WritesLine (codes "stop 2 words\n")
        (E.written errors.old) (E.written errors.new) (E.faults errors.old) (E.faults errors.new) }

    // 3: only where the source failed.
    ensures read { result ≡ 3 → Rose (S.faults input.old) (S.faults input.new) }
    ensures read_line { result ≡ 3 → WritesLine (codes "stop 3 read\n")
        (E.written errors.old) (E.written errors.new) (E.faults errors.old) (E.faults errors.new) }

    // 4: only where the sink failed; a prefix was written and nothing else.
    ensures write { result ≡ 4 → Rose (K.faults output.old) (K.faults output.new) }
    ensures part { (command : Command) → Asks words.now command → result ≡ 4
        → MadeInPart command (S.left input.old) (S.left input.new) (K.written output.old) (K.written output.new) }

    // 5: the words are those of a command that takes the input as a story, and it is none; the line says in which of its lines what was
    // expected.
    ensures story { result ≡ 5 → (command : Command) × Asks words.now command × NoStory command (S.left input.old) (S.left input.new)
        (E.written errors.old) (E.written errors.new) (E.faults errors.old) (E.faults errors.new) }

    // 7: the words are those of a command that takes the input as a schedule, and it is none; the line says why.
    ensures schedule { result ≡ 7 → (command : Command) × Asks words.now command × NoSchedule command (S.left input.old) (S.left input.new)
        (E.written errors.old) (E.written errors.new) (E.faults errors.old) (E.faults errors.new) }

    // 4, 5, 7: no read failed.
    ensures whole { (result ≡ 4) ⊎ (result ≡ 5) ⊎ (result ≡ 7) → S.faults input.new ≡ S.faults input.old }

    // 0, 1, 4: nothing is written on standard error.
    ensures quiet { (result ≡ 0) ⊎ (result ≡ 1) ⊎ (result ≡ 4) → Keeps (E.written errors.old) (E.written errors.new) }

    // Where the words are a command, the input has what it needs and nothing failed, 0 comes, or 1 where memory ran out.
    ensures completes { (command : Command) → Asks words.now command → IsSomeAnd (S.left input.old) (Has command)
        → ¬ Rose (S.faults input.old) (S.faults input.new) → ¬ Rose (K.faults output.old) (K.faults output.new)
        → (result ≡ 0) ⊎ (result ≡ 1) }

    // But for 0 and 4 nothing is written. No other status comes.
    ensures untouched { (result ≡ 0) ⊎ (result ≡ 4) ⊎ (output.new ≡ output.old) }
    ensures only { (result ≡ 0) ⊎ (result ≡ 1) ⊎ (result ≡ 2) ⊎ (result ≡ 3) ⊎ (result ≡ 4) ⊎ (result ≡ 5) ⊎ (result ≡ 7) }
{
    let Some(command) = command_of(words) else {
        say(errors, b"stop 2 words\n");
        return WORDS;
    };
    match run(alloc, command, input, output) {
        Ok(()) => 0,
        Err(stop) => tell(alloc, errors, stop),
    }
}
