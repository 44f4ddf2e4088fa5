//! What a `main` does: it hands the words of the command line to the program, and ends with its status.
ghost use Rattle.std.specs.Prelude.{◌≡◌, IfOk};
ghost use Rattle.std.specs.Process.{exit_status};

use std::env::{self, Env};
use std::io::{self, ErrorKind};
use std::process::ExitCode;

// The words after the program's name. A word that is not UTF-8 belongs to no command, and neither does an empty list, which
// is given in its place.
fn words<R: Env + AllocGlobal>(rt: &R) -> io::Result<Vec<String>> {
    let mut words = Vec::new(rt.alloc());
    match env::args(rt) {
        Ok(args) => {
            for word in args.skip(1) {
                words.push(word)?;
            }
        }
        Err(e) if e.kind() == ErrorKind::InvalidData => {}
        Err(e) => return Err(e),
    }
    Ok(words)
}

/// Runs the program on the words after the program's name, in their order, and answers the status that it answers. Where a word is
/// not UTF-8 it is run on no words. That the words are those of the command line, the system says, and no clause.
///
/// # Errors
/// No memory for the words: then the program is not run.
pub fn run<R: Env + AllocGlobal, F: FnOnce(Vec<String>) -> u8>(
    rt: &R,
    program: F,
) -> io::Result<ExitCode>
    requires { F.IsAlwaysCallable program }
    ensures { IfOk result (λ code. (words : _) × F.post program words (exit_status code)) }
{
    let words = words(rt)?;
    Ok(ExitCode::from(program(words)))
}
