//! That evidence convicts wherever it is read: a frame of two valid claims that conflict.
#![tactic(auto)]

ghost use Rattle.audit_defs.specs.Laws.{EvidenceConvicts};

/// The frame of a conviction convicts its process.
pub fn evidence_convicts()
    ensures { EvidenceConvicts }
{}
