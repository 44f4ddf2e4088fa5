//! Lines that were read of an input, and any answer that goes by the lines of all of it: a law over the definitions, which is the contract of a
//! function with an empty body.
#![tactic(auto)]

ghost use Rattle.line_laws.specs.Parts.{PartsByLine};

/// The first line of a text is the first of its parts.
pub fn parts_by_line()
    ensures { PartsByLine }
{}
