//! Laws of one process in the midst of an event, over the definitions alone: each is the contract of a function with an empty
//! body. The code of a member keeps what they say from change to change.
#![tactic(auto)]

ghost use Rattle.member_laws.specs.Telling.{HearingKeepsOwn, DeliveredIsCounted, DeliveringCountsOwn, InstallingBeginsOwn};
ghost use Rattle.member_laws.specs.Lawful.{StartIsLawful, HearingIsLawful, SigningIsLawful, AcceptingIsLawful, InstallingIsLawful, DueIsInRange};

pub use own_place::{Own, SignedSlots};

/// A process that starts in a view is lawful.
pub fn start_is_lawful()
    ensures { StartIsLawful }
{}

/// Hearing a claim that a frame can carry keeps a process lawful.
pub fn hearing_is_lawful()
    ensures { HearingIsLawful }
{}

/// Signing what may be signed, in a claim that a frame can carry, keeps a process lawful.
pub fn signing_is_lawful()
    ensures { SigningIsLawful }
{}

/// Accepting a payload that is not too long keeps a process lawful.
pub fn accepting_is_lawful()
    ensures { AcceptingIsLawful }
{}

/// Installing a view keeps a process lawful.
pub fn installing_is_lawful()
    ensures { InstallingIsLawful }
{}

/// Hearing a claim leaves the own place as it is.
pub fn hearing_keeps_own()
    ensures { HearingKeepsOwn }
{}

/// How many of each member's messages were delivered is counted by their list.
pub fn delivered_is_counted()
    ensures { DeliveredIsCounted }
{}

/// With the next place delivered and its messages counted, the own place is that of the process still.
pub fn delivering_counts_own()
    ensures { DeliveringCountsOwn }
{}

/// In the view that is installed, the own place is one in which nothing is signed or delivered.
pub fn installing_begins_own()
    ensures { InstallingBeginsOwn }
{}

/// What a lawful process may sign is in range.
pub fn due_is_in_range()
    ensures { DueIsInRange }
{}
