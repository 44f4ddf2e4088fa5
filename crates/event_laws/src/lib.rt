//! Laws of the parts of an event, over the definitions alone: what each part leaves as it is.
#![tactic(auto)]

ghost use Rattle.event_laws.specs.Parts.{TakingInLeaves, SigningLeaves, SettlingLeaves};
ghost use Rattle.event_laws.specs.Slots.{SigningFillsSlots, SlotsAreFew};

/// Taking an event in signs and delivers nothing, and stays in the view.
pub fn taking_in_leaves()
    ensures { TakingInLeaves }
{}

/// Signing puts claims of the current view after those that are signed, and delivers nothing.
pub fn signing_leaves()
    ensures { SigningLeaves }
{}

/// Settling signs nothing, and finds no conflict.
pub fn settling_leaves()
    ensures { SettlingLeaves }
{}

/// What is signed in one event is of the current view, and fills each slot once.
pub fn signing_fills_slots()
    ensures { SigningFillsSlots }
{}

/// A view has at most 20,674 slots, so no event signs more statements.
pub fn slots_are_few()
    ensures { SlotsAreFew }
{}
