//! Laws of what a turn sends, over the definitions alone: to whom, and how long the frames are. So each letter of a turn can be sealed.
#![tactic(auto)]

ghost use Rattle.letter_laws.specs.Letters.{StartIsKeyed, SendsToOthers, FramesAreShort, KeptIsInRange};

/// The roster has keys of the members of a process's view as it starts.
pub fn start_is_keyed()
    ensures { StartIsKeyed }
{}

/// A process sends only to others that the roster has keys of.
pub fn sends_to_others()
    ensures { SendsToOthers }
{}

/// A frame has at most 61,000 bytes.
pub fn frames_are_short()
    ensures { FramesAreShort }
{}

/// What a process keeps is in range, where all that it was handed and has signed is.
pub fn kept_is_in_range()
    ensures { KeptIsInRange }
{}
