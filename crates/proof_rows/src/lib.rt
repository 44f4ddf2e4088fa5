//! Rows of proofs from a journal, computed by the definitions: each is the contract of a function with an empty body.
#![tactic(auto)]

ghost use Rattle.proof_rows.specs.Rows.{StartsAreRead, TwoViewsTravel};

/// A process lets another one in, and both renew the view: from the run to the lines, and from the lines to the views.
pub fn two_views_travel()
    ensures { TwoViewsTravel }
{}

/// A chain begins at the view of a line, with its members in any order, and not where a member has no key, is named twice or is none, there are
/// seventeen, or the number is too great; and the line is none after a proof.
pub fn starts_are_read()
    ensures { StartsAreRead }
{}
