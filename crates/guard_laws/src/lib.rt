//! Laws of guards, over the definitions alone: whom they expel, and what ends the views of their group.
#![tactic(auto)]

ghost use Rattle.guard_laws.specs.Guards.{ExpelledIsConvicted, GuardsAreRuns, NoCorrectIsConvicted, NoCorrectIsExpelled, RemovalsAreHandedIn, RunsCanAccuse, ViewsHaveGrounds};

/// A guard adds only what it may.
pub fn guards_are_runs()
    ensures { GuardsAreRuns }
{}

/// Where what was handed over of correct processes is their own word, it convicts none of them.
pub fn no_correct_is_convicted()
    ensures { NoCorrectIsConvicted }
{}

/// Whom a guard expels is convicted by frames that were handed to it.
pub fn expelled_is_convicted()
    ensures { ExpelledIsConvicted }
{}

/// Where what was handed over of correct processes is their own word, no guard expels one of them.
pub fn no_correct_is_expelled()
    ensures { NoCorrectIsExpelled }
{}

/// A guard that asks for the removal of a correct process was asked to from outside.
pub fn removals_are_handed_in()
    ensures { RemovalsAreHandedIn }
{}

/// The views of a group of guards end by what was handed in from outside, or by conviction.
pub fn views_have_grounds()
    ensures { ViewsHaveGrounds }
{}

/// What a process keeps of conflicts can be sent, and to all other members of its view.
pub fn runs_can_accuse()
    ensures { RunsCanAccuse }
{}
