//! The laws of the store, of nodes that serve: each is the contract of a function with an empty body. The service that they speak of is
//! handed on.
#![tactic(auto)]

ghost use Rattle.serve_laws.specs.Laws.{AcceptedAreAnswers, HistoriesServe, RepliesAreAnswers, RepliesAreMade, RepliesOnce, RunsAreServed, RunsTell, StatesAreMade, StatesOnce, StoresHold};

pub use store_service::Servers;

// ---- what a run answers

/// What the service of a run answers is what the servers of its processes write.
pub fn runs_tell()
    ensures { RunsTell }
{}

// ---- runs of correct processes

/// The steps of a process in a run are a run of it that serves, of which the laws of servers speak.
pub fn runs_are_served()
    ensures { RunsAreServed }
{}

/// Each reply of a run is one that its process made, with the leaf whose number is how many messages it delivered before.
pub fn replies_are_made()
    ensures { RepliesAreMade }
{}

/// Each state of a run is one that its process gave.
pub fn states_are_made()
    ensures { StatesAreMade }
{}

// ---- by name

/// Each reply of a run is the answer of the store, at a place of the group's one sequence.
pub fn replies_are_answers()
    ensures { RepliesAreAnswers }
{}

/// A leaf signs one body, in one run or in several.
pub fn replies_once()
    ensures { RepliesOnce }
{}

/// So it is with states, whose leaf is the number of the view.
pub fn states_once()
    ensures { StatesOnce }
{}

/// The store that a server has is the one after the group's whole sequences of the views below, also where it was taken over.
pub fn stores_hold()
    ensures { StoresHold }
{}

/// What a client accepts of the replies of runs is the answer of the store.
pub fn accepted_are_answers()
    ensures { AcceptedAreAnswers }
{}

// ---- of a history

/// All this holds of each history that was answered as by the servers of a store.
pub fn histories_serve()
    ensures { HistoriesServe }
{}
