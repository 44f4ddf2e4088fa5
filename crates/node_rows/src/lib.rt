//! Worked rows of a node, computed by the definitions.
#![tactic(auto)]

ghost use Rattle.node_rows.specs.TwoProcesses.{TwoProcesses};
ghost use Rattle.node_rows.specs.FailingCalls.{FailingCalls};
ghost use Rattle.node_rows.specs.TurnStopped.{TurnStopped};
ghost use Rattle.node_rows.specs.Begun.{Begun};
ghost use Rattle.node_rows.specs.ScriptLines.{ScriptLines};

/// What process 0 submits is delivered at both processes of a node; a turn's notes come before the lines of its failed sends.
pub fn two_processes()
    ensures { TwoProcesses }
{}

/// Calls of the outside that fail, and lines that are none.
pub fn failing_calls()
    ensures { FailingCalls }
{}

/// One turn, stopped at each of its calls.
pub fn turn_stopped()
    ensures { TurnStopped }
{}

/// Nodes that begin with a journal, or after a place of it.
pub fn begun_nodes()
    ensures { Begun }
{}

/// Lines of a script: the node's own words, those for its service, and those that are none.
pub fn script_lines()
    ensures { ScriptLines }
{}
