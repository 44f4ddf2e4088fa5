//! Rows of guards, computed by the definitions. Each is the contract of a function with an empty body.
#![tactic(auto)]

ghost use Rattle.guard_rows.specs.Accusing.{Accusing};
ghost use Rattle.guard_rows.specs.Convicted.{Convicted};
ghost use Rattle.guard_rows.specs.Runs.{Runs};

/// Whom claims convict, and whom they do not: by one claim, forged, of two slots, views, kinds or signers.
pub fn conviction_rows()
    ensures { Convicted }
{}

/// What a guard makes of frames: whom it expels and in which order, and whom it does not.
pub fn guard_runs()
    ensures { Runs }
{}

/// What a guard says and sends when it is to accuse, and whom it expels where a correct process's key is used by others.
pub fn accusing_rows()
    ensures { Accusing }
{}
