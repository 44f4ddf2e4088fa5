//! How many bytes a statement has.
#![tactic(auto)]

ghost use Rattle.length_laws.specs.Lengths.{StatementsAreShort};

/// No statement has more than 1,032 bytes.
pub fn statements_are_short()
    ensures { StatementsAreShort }
{}
