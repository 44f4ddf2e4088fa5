//! Laws of the replicated store, over the definitions alone: each is the contract of a function with an empty body.
#![tactic(auto)]

ghost use Rattle.store_defs.specs.Laws.{SetIsFound, SetLeavesOthers, RemovedIsAbsent, RemoveLeavesOthers, VotesExactly, ReadyIsAttested, StaysStore, StoreIsRead, StoreIsSpelled, JoinersHoldTheStore, ReplyIsAnswer, AcceptedIsAnswer, OneBodyPerLeaf, OneReplyPerLeaf, OneStatePerLeaf, ReplyIsRead, ReplyIsSpelled, StateIsRead, StateIsSpelled, OneAnswer, BeginsFollowing, TurnFollows};

// ---- the map

/// A key that is set has the value.
pub fn set_is_found()
    ensures { SetIsFound }
{}

/// Every other key has what it had.
pub fn set_leaves_others()
    ensures { SetLeavesOthers }
{}

/// A key that is removed has no value.
pub fn removed_is_absent()
    ensures { RemovedIsAbsent }
{}

/// Every other key has what it had.
pub fn remove_leaves_others()
    ensures { RemoveLeavesOthers }
{}

/// A store within its limits stays so, whatever the payload.
pub fn stays_store()
    ensures { StaysStore }
{}

// ---- spellings

/// A store within its limits is read of its spelling.
pub fn store_is_read()
    ensures { StoreIsRead }
{}

/// What is read as a store is its spelling, and within its limits.
pub fn store_is_spelled()
    ensures { StoreIsSpelled }
{}

/// A reply in its ranges is read of its spelling.
pub fn reply_is_read()
    ensures { ReplyIsRead }
{}

/// What is read as a reply is its spelling, and in its ranges.
pub fn reply_is_spelled()
    ensures { ReplyIsSpelled }
{}

/// A state record of a store is read of its spelling.
pub fn state_is_read()
    ensures { StateIsRead }
{}

/// What is read as a state record is its spelling, and of a store.
pub fn state_is_spelled()
    ensures { StateIsSpelled }
{}

// ---- votes

/// What a client accepts is what more than f members vouch for, and the least of it; and it accepts nothing exactly where there is none.
pub fn votes_exactly()
    ensures { VotesExactly }
{}

// ---- transfers

/// A state that is ready is one that more than f members attest.
pub fn ready_is_attested()
    ensures { ReadyIsAttested }
{}

// ---- of a family whose processes serve

/// The state that a correct process takes is the store after the group's whole sequences of the views below its own.
pub fn joiners_hold_the_store()
    ensures { JoinersHoldTheStore }
{}

/// The reply of a correct process is the answer of the store, at a place of the group's one sequence.
pub fn reply_is_answer()
    ensures { ReplyIsAnswer }
{}

/// What a client accepts is the store's answer to its payload, at a place of the group's one sequence.
pub fn accepted_is_answer()
    ensures { AcceptedIsAnswer }
{}

/// A place and position of a view have one payload and one answer.
pub fn one_answer()
    ensures { OneAnswer }
{}

// ---- leaves

/// A process that has the store from one beginning signs one body with a leaf of its reply key, in all its runs.
pub fn one_body_per_leaf()
    ensures { OneBodyPerLeaf }
{}

/// So does each correct process of a family that serves, whatever states it took in which run.
pub fn one_reply_per_leaf()
    ensures { OneReplyPerLeaf }
{}

/// And one body with a leaf of its state key.
pub fn one_state_per_leaf()
    ensures { OneStatePerLeaf }
{}

// ---- servers

/// A server that begins with a process follows it.
pub fn begins_following()
    ensures { BeginsFollowing }
{}

/// Given the notes of a turn, it follows its process.
pub fn turn_follows()
    ensures { TurnFollows }
{}
