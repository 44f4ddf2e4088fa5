//! Runs of a node put together of their parts, what their calls do to link, output and input, and what a stop leaves. Each law is the
//! contract of a function with an empty body.
#![tactic(auto)]

ghost use Rattle.node_traces.specs.Ways.{EachGoesOn};
ghost use Rattle.node_traces.specs.Outside.{DoneInARow};
ghost use Rattle.node_traces.specs.Stops.{PartsLeave};
ghost use Rattle.node_traces.specs.Goes.{PartsGoOn, NothingGoes, OneAnswerGoes};

/// What two lists of calls did one after the other, both together did.
pub fn done_in_a_row()
    ensures { DoneInARow }
{}

/// A node that is given some answers and then others makes the calls of both.
pub fn each_goes_on()
    ensures { EachGoesOn }
{}

/// What a stop leaves in a part of a run, it may leave in the whole.
pub fn parts_leave()
    ensures { PartsLeave }
{}

/// A part of a run, and after it a part from the node that it led to, are one part.
pub fn parts_go_on()
    ensures { PartsGoOn }
{}

/// No answer is a part of a run, which changes nothing.
pub fn nothing_goes()
    ensures { NothingGoes }
{}

/// One answer is a part of a run.
pub fn one_answer_goes()
    ensures { OneAnswerGoes }
{}
