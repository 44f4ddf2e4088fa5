ghost use Rattle.std.specs.Prelude.{◌≡◌, ◌≢◌, ◌⊎◌, [], true, false};
ghost use Rattle.rp_base.specs.Mem.{sink_bytes};
ghost use Rattle.story_cli.specs.declared.commands.Command.{Command};
ghost use Rattle.story_cli.specs.Top as story;
ghost use Rattle.story_cli.specs.Top.{MakesOf};
ghost use Rattle.page.specs.Answers.{HasNoReport, IsNoSchedule, IsNoStory, IsReport};

use rp_base::{MemSink, MemSource};
use std::alloc::Global;
use story_cli::story;

/// The status that a program ended with, and what it wrote.
#[derive(Drop)]
pub struct Ran {
    pub status: u8,
    pub reported: MemSink,
}

// What a program wrote that ended with this status.
fn reported_at(status: u8, output: MemSink, errors: MemSink) -> MemSink
    ensures made { status ≡ 0 → result ≡ output }
    ensures reported { status ≢ 0 → result ≡ errors }
{
    if status == 0 { output } else { errors }
}

/// What `story` does at these words and this input.
pub fn run_story(alloc: Global, words: &[String], input: Vec<u8>) -> Ran
    ensures made { (c : Command) → story.Asks words.now c → result.status ≡ 0 → MakesOf c input.items (sink_bytes result.reported) }
    ensures silent { result.status ≡ 1 → sink_bytes result.reported ≡ [] }
    ensures words { result.status ≡ 2 → ¬ story.AskAny words.now }
    ensures story { result.status ≡ 5 → IsNoStory input.items (sink_bytes result.reported) }
    ensures assembles { result.status ≡ 5 → (c : Command) × story.Asks words.now c × (story.takes_as_story c input.items ≡ true) }
    ensures schedule { result.status ≡ 7 → IsNoSchedule input.items (sink_bytes result.reported) }
    ensures reads { result.status ≡ 7 → (c : Command) × story.Asks words.now c × (story.takes_as_story c input.items ≡ false) }
    ensures only { (result.status ≡ 0) ⊎ (result.status ≡ 1) ⊎ (result.status ≡ 2) ⊎ (result.status ≡ 3) ⊎ (result.status ≡ 4)
        ⊎ (result.status ≡ 5) ⊎ (result.status ≡ 7) }
{
    let mut input = MemSource::new(input, Vec::new(alloc));
    let mut output = MemSink::new(alloc, Vec::new(alloc));
    let mut errors = MemSink::new(alloc, Vec::new(alloc));
    let status = story(alloc, words, &mut input, &mut output, &mut errors);
    let reported = reported_at(status, output, errors);
    Ran { status, reported }
}

/// What `rampart` does at this input where it is asked for a report, long or short.
pub fn run_replay(alloc: Global, short: bool, input: Vec<u8>) -> Ran
    ensures made { result.status ≡ 0 → IsReport short input.items (sink_bytes result.reported) }
    ensures silent { result.status ≡ 1 → sink_bytes result.reported ≡ [] }
    ensures none { result.status ≡ 7 → HasNoReport input.items (sink_bytes result.reported) }
    ensures only { (result.status ≡ 0) ⊎ (result.status ≡ 1) ⊎ (result.status ≡ 3) ⊎ (result.status ≡ 4)
        ⊎ (result.status ≡ 7) }
{
    let mut input = MemSource::new(input, Vec::new(alloc));
    let mut reported = MemSink::new(alloc, Vec::new(alloc));
    let status = replay_words::run_replay(alloc, short, &mut input, &mut reported);
    Ran { status, reported }
}
