//! The laws of conviction, over the definitions alone: each is the contract of a function with an empty body.
#![tactic(auto)]

ghost use Rattle.conviction_defs.specs.Laws.{ConvictedIsConvicts, ConvictionIsTested, ConvictionsStand, EachHasConviction, PairIsFirst};

/// Whether claims convict a process is what the test says.
pub fn conviction_is_tested()
    ensures { ConvictionIsTested }
{}

/// Exactly those are convicted who have two valid claims that conflict.
pub fn convicted_is_convicts()
    ensures { ConvictedIsConvicts }
{}

/// Each that is convicted has one conviction.
pub fn each_has_conviction()
    ensures { EachHasConviction }
{}

/// The pair that is given is the first one: no two claims before its second conflict, and its first is the earliest of the slot.
pub fn pair_is_first()
    ensures { PairIsFirst }
{}

/// More claims convict no fewer.
pub fn convictions_stand()
    ensures { ConvictionsStand }
{}
