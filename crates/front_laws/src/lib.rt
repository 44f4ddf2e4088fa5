//! A kit at the front of an input: a law over the definitions, which is the contract of a function with an empty body.
#![tactic(auto)]

ghost use Rattle.front_laws.specs.Fronts.{FrontsGoOn};

/// A kit that bytes begin with is the kit of all longer bytes that begin with them.
pub fn fronts_go_on()
    ensures { FrontsGoOn }
{}
