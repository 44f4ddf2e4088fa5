//! Rows of chains of views, computed by the definitions. Each is the contract of a function with an empty body.
#![tactic(auto)]

ghost use Rattle.chain_rows.specs.Frames.{Frames};
ghost use Rattle.chain_rows.specs.Premises.{Premises};
ghost use Rattle.chain_rows.specs.Shown.{Shown};
ghost use Rattle.chain_rows.specs.Reported.{Reported};
ghost use Rattle.chain_rows.specs.Whole.{Whole};

/// What claims show, and what they do not: too few, of others, twice, of two ranks, forged, impossible.
pub fn shown_rows()
    ensures { Shown }
{}

/// Bytes that are a proof, and bytes that are none.
pub fn frame_rows()
    ensures { Frames }
{}

/// What the program says of proof lines.
pub fn reported_rows()
    ensures { Reported }
{}

/// The answer to a whole input: a kit, the proof with which a process answers, and the same proof once more.
pub fn whole_row()
    ensures { Whole }
{}

/// No premise of the laws of chains can be dropped.
pub fn premise_rows()
    ensures { Premises }
{}
