//! Questions on what a node keeps and gets: what bytes say as a journal, and what a process opens of them as a datagram.
#![tactic(auto)]

ghost use Rattle.interop_node.specs.Journals.{OneSaid};

mod datagrams;
mod journals;
mod questions;

pub use questions::answer_nodes;

/// Of the same bytes as a journal one thing is said.
pub fn one_said()
    ensures { OneSaid }
{}
