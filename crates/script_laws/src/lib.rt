//! How a node reads its script: which part of a run the answer to a read is, whom a line asks, and which faults of input and output
//! stop a node. Each law is the contract of a function with an empty body.
#![tactic(auto)]

ghost use Rattle.script_laws.specs.Faults.{FaultsStop};
ghost use Rattle.script_laws.specs.Script.{AsksTheOutside, LinesAskHosted, ReadsInOrder};

/// The answer to a read leads a node on or stops it.
pub fn reads_in_order()
    ensures { ReadsInOrder }
{}

/// A node that asks its service for a line stops, where the service has none, and else does what it says.
pub fn asks_the_outside()
    ensures { AsksTheOutside }
{}

/// A line of the script asks nothing of a process that is not hosted, and one for the service is text.
pub fn lines_ask_hosted()
    ensures { LinesAskHosted }
{}

/// A failed read and a failed write stop a node, and nothing else does so for them.
pub fn faults_stop()
    ensures { FaultsStop }
{}
