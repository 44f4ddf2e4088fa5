ghost use Rattle.interop.specs.Runs.{HasRun};

use interop_lines::{Outside, Program};
use rampart_cli::rampart;
use std::alloc::Global;

/// The program about whose runs the lines ask.
pub(crate) struct Rampart;

impl Program for Rampart {
    ghost comes_to = { λ _ words before after status. HasRun words before after status };

    fn run(&self, alloc: Global, words: &[String], outside: &mut Outside) -> u8 {
        rampart(
            alloc,
            words,
            &mut outside.input,
            &mut outside.output,
            &mut outside.disk,
            &mut outside.link,
        )
    }
}
