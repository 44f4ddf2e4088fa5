//! Rows of evidence, computed by the definitions: each is the contract of a function with an empty body.
#![tactic(auto)]

ghost use Rattle.witness_rows.specs.Rows.{NothingLessIsTaken, TwoEchoesTravel};

/// Two echoes of one message: from the claims to the line, and from the line to what is taken.
pub fn two_echoes_travel()
    ensures { TwoEchoesTravel }
{}

/// Another process, one claim, one claim twice, a signature that is not valid, no Bundle, no frame, no key: nothing of this is taken.
pub fn nothing_less_is_taken()
    ensures { NothingLessIsTaken }
{}
