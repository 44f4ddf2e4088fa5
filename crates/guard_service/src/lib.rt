//! A guard: the service of a node to which a conviction counts as a suspicion (docs/FORMATS.md, «Nodes»). After a frame it names whom the
//! frame convicts, so that its process asks for their removal, and a line of the script has a process send what convicts another.
#![tactic(auto)]

mod accusing;
mod evidence;
mod guard;
mod packing;
mod ranges;
mod signers;
mod words;

ghost use Rattle.guard_service.specs.Laws.{AccusationsAreWhole};

pub use guard::Guard;

/// Where frames can carry what a process keeps of conflicts, and each member of its view has a key, an accusation goes whole, to all other
/// members.
pub fn accusations_are_whole()
    ensures { AccusationsAreWhole }
{}
