//! What serde_json writes of the findings of an audit is their text, byte for byte.
#![tactic(auto)]

ghost use Rattle.findings_laws.specs.Laws.{FindingsAreCompact};

/// What serde_json writes of the value of findings is the object of these findings.
pub fn findings_are_compact()
    ensures { FindingsAreCompact }
{}
