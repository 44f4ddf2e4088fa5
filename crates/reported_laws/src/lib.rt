//! The refusals in a trace are those in the report.
#![tactic(auto)]

ghost use Rattle.reported_laws.specs.Refusals.{RefusalsAreReported};

/// The refusals of a schedule's report are those in its trace, in the same order.
pub fn refusals_are_reported()
    ensures { RefusalsAreReported }
{}
