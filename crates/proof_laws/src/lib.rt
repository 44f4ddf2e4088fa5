//! The laws of proofs from a journal, over the definitions alone: each is the contract of a function with an empty body.
#![tactic(auto)]

ghost use Rattle.proof_defs.specs.Laws.{FrameShows, LinesAreAChain};
ghost use Rattle.proof_laws.specs.Starts.{LinesGoOn, StartsReportViews};

/// The frame that is said of a view shows the view that the process installed next.
pub fn frame_shows()
    ensures { FrameShows }
{}

/// `chain` takes the lines of a process, and says the views that it installed.
pub fn lines_are_a_chain()
    ensures { LinesAreAChain }
{}

/// The answer to a chain that may begin at any view is the lines of its views, which are the group's where the first one is.
pub fn starts_report_views()
    ensures { StartsReportViews }
{}

/// Lines of a process from any view on that it installed are a chain that begins there.
pub fn lines_go_on()
    ensures { LinesGoOn }
{}
