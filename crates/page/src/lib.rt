//! What a page calls: an input in memory, and room for the answer. Each call is the one that a program makes, over streams in memory, and hands
//! on what it wrote: the top call of `story`, and of `rampart` the call of the word `replay`.
#![tactic(auto)]

mod calls;
mod rooms;
#[cfg(test)]
mod tests;
mod words;

ghost use Rattle.std.specs.Prelude.{◌≡◌, ◌≢◌, ◌<◌, ◌≤◌, ◌↔◌, ◌⊎◌};
ghost use Rattle.story_cli.specs.declared.commands.Command.{Command};
ghost use Rattle.story_cli.specs.Top.{MakesOf};
ghost use Rattle.page.specs.Answers.{Answers, HasNoReport, IsNoSchedule, IsNoStory, IsReport, number_of};

use calls::{run_replay, run_story};
use rooms::put;
use std::alloc::Global;
use words::story_words;

/// The status where no memory is left.
const NO_MEMORY: u8 = 1;

/// The status where the number is no command's.
const NO_COMMAND: u8 = 2;

/// The last number of a command.
const DRAW: u8 = 3;

/// A command of `story` by its number, 0 assemble, 1 text, 2 run, 3 draw: answers the status, puts as much of what was written as fits into
/// the room, and answers how much that is.
#[unsafe(no_mangle)]
pub extern "C" fn page_story(
    alloc: Global,
    command: u8,
    input: &[u8],
    room: &mut [u8],
    count: &mut usize,
) -> u8
    // 0: what the command makes of the input.
    ensures made { (c : Command) → number_of c ≡ command → result ≡ 0 → Answers (MakesOf c input.now) room.new count.new }

    // 1: no memory is left, and nothing was written.
    ensures silent { result ≡ 1 → count.new ≡ 0 }

    // 2: exactly where the number is no command's.
    ensures number { (result ≡ 2) ↔ (3 < command) }

    // 5: the command takes the input as a story, and it is none; 7: it takes the input as a schedule, and it is none. The answer is the
    // program's line. `assemble` takes none as a schedule, and `text` none as a story.
    ensures story { result ≡ 5 → Answers (IsNoStory input.now) room.new count.new }
    ensures assembles { result ≡ 5 → command ≢ 1 }
    ensures schedule { result ≡ 7 → Answers (IsNoSchedule input.now) room.new count.new }
    ensures reads { result ≡ 7 → 1 ≤ command }

    // No other status comes but 3 and 4, where no memory is left.
    ensures only { (result ≡ 0) ⊎ (result ≡ 1) ⊎ (result ≡ 2) ⊎ (result ≡ 3) ⊎ (result ≡ 4) ⊎ (result ≡ 5) ⊎ (result ≡ 7) }
{
    *count = 0;
    if command > DRAW {
        return NO_COMMAND;
    }
    let Ok(words) = story_words(alloc, command) else {
        return NO_MEMORY;
    };
    let Ok(input) = input.to_vec(alloc) else {
        return NO_MEMORY;
    };
    let ran = run_story(alloc, &words, input);
    *count = put(ran.reported.bytes(), room);
    ran.status
}

/// The report of a schedule, long or short: answers the status, puts as much of what was written as fits into the room, and says how much
/// that is.
#[unsafe(no_mangle)]
pub extern "C" fn page_replay(
    alloc: Global,
    short: bool,
    input: &[u8],
    room: &mut [u8],
    count: &mut usize,
) -> u8
    // 0: the report of the input's run, and the headline holds of it.
    ensures made { result ≡ 0 → Answers (IsReport short input.now) room.new count.new }

    // 1: no memory is left, and nothing was written.
    ensures silent { result ≡ 1 → count.new ≡ 0 }

    // 7: the input has no report, and the answer is the program's line.
    ensures none { result ≡ 7 → Answers (HasNoReport input.now) room.new count.new }

    // No other status comes but 3 and 4, where no memory is left.
    ensures only { (result ≡ 0) ⊎ (result ≡ 1) ⊎ (result ≡ 3) ⊎ (result ≡ 4) ⊎ (result ≡ 7) }
{
    *count = 0;
    let Ok(input) = input.to_vec(alloc) else {
        return NO_MEMORY;
    };
    let ran = run_replay(alloc, short, input);
    *count = put(ran.reported.bytes(), room);
    ran.status
}
