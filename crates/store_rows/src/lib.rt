//! Worked rows of the replicated store, computed by the definitions. Each is the contract of a function with an empty body, and its record
//! of the specs has what is computed.
#![tactic(auto)]

ghost use Rattle.store_rows.specs.Asked.{Asked};
ghost use Rattle.store_rows.specs.Commands.{Commands};
ghost use Rattle.store_rows.specs.Places.{Places};
ghost use Rattle.store_rows.specs.ServeTwoRequests.{ServeTwoRequests};
ghost use Rattle.store_rows.specs.StateForJoiner.{StateForJoiner};
ghost use Rattle.store_rows.specs.Transfers.{Transfers};
ghost use Rattle.store_rows.specs.Votes.{Votes};

/// What each command answers, in each of its cases, and what payloads are that are no request; and how the store that they leave is spelled.
pub fn commands()
    ensures { Commands }
{}

/// A process alone in its view serves two requests: its keys, and its signed reply to each.
pub fn serve_two_requests()
    ensures { ServeTwoRequests }
{}

/// A question with both replies, without any, without the reply key, and with a reply of a digit too many.
pub fn ask()
    ensures { Asked }
{}

/// A joiner refuses a state until it has the key, takes it, holds it and replies from then on, and gives none in this view.
pub fn state_for_joiner()
    ensures { StateForJoiner }
{}

/// What a client makes of replies, and what it accepts: neither of f members, nor of one member twice, nor of what is not asked or signed.
pub fn votes()
    ensures { Votes }
{}

/// What a joiner makes of states: who was counted is not counted again, and f + 1 members must give the same.
pub fn transfers()
    ensures { Transfers }
{}

/// Positions in batches, a key that is spent, and a process that was no member of a view.
pub fn places()
    ensures { Places }
{}
