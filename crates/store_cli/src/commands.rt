ghost use Rattle.std.specs.Prelude.{◌≡◌, ◌↔◌, Some, IfSome, true};
ghost use Rattle.store_text_defs.specs.declared.Filter.{Filter};
ghost use Rattle.command_line.specs.Views as views;
ghost use Rattle.store_cli.specs.Commands.{AskSome, Asks, is_question};

use command_line::{Command, read_command};
use store_telling::Filter;

/// The filter that these words ask for; None exactly where they ask for none.
pub(crate) fn filter_of(words: &[String]) -> Option<Filter>
    ensures found { IfSome result (Asks words.now) }
    ensures only { (filter : Filter) → Asks words.now filter → result ≡ Some filter }
{
    let [word] = words else {
        return None;
    };
    if word.as_bytes() == b"assemble".as_slice() {
        Some(Filter::Assemble)
    } else if word.as_bytes() == b"tell".as_slice() {
        Some(Filter::Tell)
    } else {
        None
    }
}

// Whether the command is `ask`.
fn is_ask(command: &Command<'_>) -> bool
    ensures { result ≡ is_question (views.command command.now) }
{
    match command {
        Command::Ask(_) => true,
        Command::Replay { .. } => false,
        Command::Chain => false,
        Command::Gen(_) => false,
        Command::Keygen(_) => false,
        Command::Node(_) => false,
        Command::Resume(_) => false,
        Command::Guard(_) => false,
        Command::Serve(_) => false,
        Command::Audit(_) => false,
    }
}

/// Whether the words ask for what `rampart ask` is to read.
pub(crate) fn asks_question(words: &[String]) -> bool
    ensures { (result ≡ true) ↔ AskSome words.now }
{
    match read_command(words) {
        Some(command) => is_ask(&command),
        None => false,
    }
}
