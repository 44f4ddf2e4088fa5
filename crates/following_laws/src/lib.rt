//! How a server of the store and its process go together: each is the contract of a function with an empty body.
#![tactic(auto)]

ghost use Rattle.following_laws.specs.Laws.{GivesStay, OfferFollows, RepliesStay, TurnOpensPlaces, TurnReplies};
ghost use Rattle.following_laws.specs.Runs.{RunGives, RunHolds, RunReplies, RunsGiveOnce, RunsReplyOnce};

// ---- a turn

/// Each reply that a server writes during a turn is a reply of its process, as the turn leaves it.
pub fn turn_replies()
    ensures { TurnReplies }
{}

/// A turn keeps what that rests on: the places that come next open at position 0.
pub fn turn_opens_places()
    ensures { TurnOpensPlaces }
{}

// ---- more events

/// What a process replies it still replies after more events.
pub fn replies_stay()
    ensures { RepliesStay }
{}

/// What a process gives it still gives after more events.
pub fn gives_stay()
    ensures { GivesStay }
{}

// ---- an offer

/// After `ready` a server follows its process from the state that it took, and after every other answer as before.
pub fn offer_follows()
    ensures { OfferFollows }
{}

// ---- a run

/// Each reply that a server writes in a run is one that its process made.
pub fn run_replies()
    ensures { RunReplies }
{}

/// Each state that a server writes in a run is one that its process made.
pub fn run_gives()
    ensures { RunGives }
{}

/// Replies of a correct process with one leaf have one body, in whatever runs they are written.
pub fn runs_reply_once()
    ensures { RunsReplyOnce }
{}

/// So have states of a correct process for one view.
pub fn runs_give_once()
    ensures { RunsGiveOnce }
{}

/// The store of a server, at each moment of a run, is the store after the group's whole sequences of the views below its own, and after what
/// its process has delivered in its view.
pub fn run_holds()
    ensures { RunHolds }
{}
