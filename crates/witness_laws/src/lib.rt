//! The laws of evidence that travels, over the definitions alone: each is the contract of a function with an empty body.
#![tactic(auto)]

ghost use Rattle.witness_defs.specs.Laws.{EvidenceConvicts, EvidenceSparesCorrect, LinesAreTaken, TakenConvicts};

/// Lines of evidence that convicts are taken.
pub fn lines_are_taken()
    ensures { LinesAreTaken }
{}

/// What `convict` writes, `judge` takes.
pub fn evidence_convicts()
    ensures { EvidenceConvicts }
{}

/// What `judge` takes convicts: two valid claims of the process conflict.
pub fn taken_convicts()
    ensures { TakenConvicts }
{}

/// Who is convicted by what `judge` takes is not correct in any honest family.
pub fn evidence_spares_correct()
    ensures { EvidenceSparesCorrect }
{}
