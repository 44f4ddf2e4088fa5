ghost use Rattle.std.specs.Prelude.{◌≡◌, ◌≤◌, map, string_bytes, IfOk, [], ◌∷◌};
ghost use Rattle.story_cli.specs.declared.commands.Command.{Command};
ghost use Rattle.story_cli.specs.Top as story;
ghost use Rattle.page.specs.Answers.{number_of};

use rp_base::NoMemory;
use std::alloc::Global;

// The word of a command of `story`.
fn word_of(command: u8) -> &'static str
    requires { command ≤ 3 }
    ensures { (c : Command) → number_of c ≡ command → result.now ≡ story.command_word c }
{
    match command {
        0 => "assemble",
        1 => "text",
        2 => "run",
        _ => "draw",
    }
}

// A list of one word.
fn one_word(alloc: Global, word: &str) -> Result<Vec<String>, NoMemory>
    ensures { IfOk result (λ words. map string_bytes words.items ≡ word.now ∷ []) }
{
    let mut words = Vec::new(alloc);
    words.push(String::from_str(alloc, word)?)?;
    Ok(words)
}

/// The words that ask `story` for a command.
pub fn story_words(alloc: Global, command: u8) -> Result<Vec<String>, NoMemory>
    requires { command ≤ 3 }
    ensures { IfOk result (λ words. (c : Command) → number_of c ≡ command → story.Asks words.items c) }
{
    one_word(alloc, word_of(command))
}
