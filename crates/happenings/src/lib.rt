//! What happens in a run of a schedule, thing by thing, for whoever asks for it.
#![tactic(auto)]

ghost use Rattle.happenings.specs.Reported.{OutcomeIsSeen};

mod reported;
mod seen;
mod stopped;

pub use reported::{Handed, Happening, Reported};
pub use seen::Seen;
pub use stopped::Stopped;

/// What came of an event of the definitions is what is seen of its outcome in the code.
pub fn outcome_is_seen()
    ensures { OutcomeIsSeen }
{}
