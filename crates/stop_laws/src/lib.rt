//! What a stop of a node says: why one stops that ran, and that a node stops neither at a script in its own words nor at a journal whose
//! entries fit. Each law is the contract of a function with an empty body.
#![tactic(auto)]

ghost use Rattle.stop_laws.specs.Binds.{BindsFirst};
ghost use Rattle.stop_laws.specs.Journals.{JournalIsRead};
ghost use Rattle.stop_laws.specs.Scripts.{ScriptIsCarriedOut};
ghost use Rattle.stop_laws.specs.Stops.{StopsOnlySo};

/// A node that ran stops for no kit, no snapshot and no journal, and has no room only where there is none.
pub fn stops_only_so()
    ensures { StopsOnlySo }
{}

/// A script in the node's own words is carried out.
pub fn script_is_carried_out()
    ensures { ScriptIsCarriedOut }
{}

/// A journal whose entries fit is read to its end.
pub fn journal_is_read()
    ensures { JournalIsRead }
{}

/// A node that stops for a port has sent and written nothing.
pub fn binds_first()
    ensures { BindsFirst }
{}
