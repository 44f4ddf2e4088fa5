ghost use Rattle.std.specs.Prelude.{◌≡◌, Some, IfSome};
ghost use Rattle.story_cli.specs.declared.commands.Command.{Command};
ghost use Rattle.story_cli.specs.Top.{Asks};

/// What the words ask for.
#[derive(Clone, Copy, PartialEq, Eq)]
pub enum Command {
    /// The schedule of a story.
    Assemble,

    /// The story of a schedule.
    Text,

    /// What happens in the run of a schedule, which is given as it is or as a story.
    Run,

    /// The picture of such a run.
    Draw,
}

/// The command of these words; None exactly where they are none's.
pub fn command_of(words: &[String]) -> Option<Command>
    ensures found { IfSome result (Asks words.now) }
    ensures only { (command : Command) → Asks words.now command → result ≡ Some command }
{
    let [word] = words else {
        return None;
    };
    if word.as_bytes() == b"assemble".as_slice() {
        Some(Command::Assemble)
    } else if word.as_bytes() == b"text".as_slice() {
        Some(Command::Text)
    } else if word.as_bytes() == b"run".as_slice() {
        Some(Command::Run)
    } else if word.as_bytes() == b"draw".as_slice() {
        Some(Command::Draw)
    } else {
        None
    }
}
