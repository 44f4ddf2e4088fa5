//! Laws of a node whose service is a guard's: its processes are the guards of the definitions, whatever stops come between its runs. Each is
//! the contract of a function with an empty body. The service that they speak of is handed on.
#![tactic(auto)]

ghost use Rattle.guarding_laws.specs.Laws.{LivesAreGuards, NodesAreGuards, RunsGoOnAsGuards};

pub use guard_service::Guard;

/// A process that was a guard up to a run is one with the turns of the run.
pub fn runs_go_on_as_guards()
    ensures { RunsGoOnAsGuards }
{}

/// The processes of a node that may be stopped and opened again as often as may be are guards from the start of its journal on.
pub fn lives_are_guards()
    ensures { LivesAreGuards }
{}

/// Such processes are a family of guards, which is that of the nodes.
pub fn nodes_are_guards()
    ensures { NodesAreGuards }
{}
