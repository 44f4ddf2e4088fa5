//! Laws of the rules, over the definitions alone: each is the contract of a function with an empty body.
#![tactic(auto)]

ghost use Rattle.group_defs.specs.Due.{EachDueIsOffered, LeastIsDue, SomeIsLeast};
ghost use Rattle.group_defs.specs.Laws.{DeputyAdopts, DeputyChooses};
ghost use Rattle.rule_laws.specs.Ending.{AckedIs, AdoptedIs, AnyIsFound, ChooseIs, DecidedIs, DeliverableIs, EndsByMember, FixedLengthIs, FreeInParts, FreeValueIs, LastsByMember, NextCandidate, RemovedBelow};
ghost use Rattle.rule_laws.specs.Least.{EachHasItsPlace, EndedSignsNone, FirstIsLeast, LeastIsFirst, LeastNumber, LeastOfAll, NoneOfAll, OutsiderSignsNone};
ghost use Rattle.rule_laws.specs.Messages.{EchoIsLeast, InitIsLeast};
ghost use Rattle.rule_laws.specs.Perceived.{EndIsLeast, NotifiedIsFound, NotifyIsLeast};
ghost use Rattle.rule_laws.specs.Placing.{BatchBegins, BatchGoesOn, BatchIsFull, CountsOneMore, FollowsBegins, FollowsOn, FollowsWhole, KeepIsLeast, NextByCounts, OrderIsLeast, PlaceIsLeast};
ghost use Rattle.rule_laws.specs.Ranks.{AckIsLeast, LastIsLeast, ReadyIsLeast, RemovedRankIs, SuggestIsLeast};

// ---- the least that is due

/// Nothing is due but what its kind offers.
pub fn each_due_is_offered()
    ensures { EachDueIsOffered }
{}

/// Where something of a kind is due, the kind gives something next.
pub fn some_is_least()
    ensures { SomeIsLeast }
{}

/// What a kind gives next is due, and none of its kind that is due comes before it.
pub fn least_is_due()
    ensures { LeastIsDue }
{}

/// A statement that comes before each other one of its kind that may be signed is the least that is due.
pub fn least_of_all()
    ensures { LeastOfAll }
{}

/// Where none of a kind may be signed, none is due.
pub fn none_of_all()
    ensures { NoneOfAll }
{}

/// One who is no member of its view signs nothing in it.
pub fn outsider_signs_none()
    ensures { OutsiderSignsNone }
{}

/// After the own End no Echo, Order, Place or Keep is due.
pub fn ended_signs_none()
    ensures { EndedSignsNone }
{}

/// Different statements of one kind that may be signed have different places in the order of what is due.
pub fn each_has_its_place()
    ensures { EachHasItsPlace }
{}

/// One that has none of its kind before it that may be signed is the least that is due.
pub fn least_is_first()
    ensures { LeastIsFirst }
{}

/// The first statement of a walk that may be signed is the least that is due.
pub fn first_is_least()
    ensures { FirstIsLeast }
{}

/// Where each number has one statement, the least that is due is that of the least number whose statement may be signed.
pub fn least_number()
    ensures { LeastNumber }
{}

// ---- messages

/// A member's least Init that is due is that of the least number not signed, where that is in the window and has a payload.
pub fn init_is_least()
    ensures { InitIsLeast }
{}

/// A member's least Echo that is due is that of the member of least rank one of whose Inits waits, and of its least such Init.
pub fn echo_is_least()
    ensures { EchoIsLeast }
{}

// ---- places

/// The manager's Order that is due is of the next place and the next batch.
pub fn order_is_least()
    ensures { OrderIsLeast }
{}

/// The next message is that of the least rank whose next message, by its count, is certified.
pub fn next_by_counts()
    ensures { NextByCounts }
{}

/// With one message more, the count of its sender is one more.
pub fn counts_one_more()
    ensures { CountsOneMore }
{}

/// A batch begins with no message.
pub fn batch_begins()
    ensures { BatchBegins }
{}

/// A batch goes on with the next message by counts, and ends where there is none.
pub fn batch_goes_on()
    ensures { BatchGoesOn }
{}

/// A batch ends where no more may come.
pub fn batch_is_full()
    ensures { BatchIsFull }
{}

/// A batch that is to follow, before its first message is looked at.
pub fn follows_begins()
    ensures { FollowsBegins }
{}

/// A message whose number is the count of its sender follows, and with another number the batch does not.
pub fn follows_on()
    ensures { FollowsOn }
{}

/// A batch whose messages all follow does.
pub fn follows_whole()
    ensures { FollowsWhole }
{}

/// A member's least Place that is due is that of the least place not signed whose Order fits.
pub fn place_is_least()
    ensures { PlaceIsLeast }
{}

/// A member's least Keep that is due is that of the least place not signed, where that is placed.
pub fn keep_is_least()
    ensures { KeepIsLeast }
{}

// ---- updates

/// A member's least Notify that is due is that of the least update perceived and possible, and not signed.
pub fn notify_is_least()
    ensures { NotifyIsLeast }
{}

/// A member's End is due where an update is notified by more than f members.
pub fn end_is_least()
    ensures { EndIsLeast }
{}

/// Some update is notified where the least of them is found.
pub fn notified_is_found()
    ensures { NotifiedIsFound }
{}

// ---- ranks

/// A member's least Ready that is due is that of the least rank with a certified Ack, its own or above it, and not signed.
pub fn ready_is_least()
    ensures { ReadyIsLeast }
{}

/// A member's Last is due at the removed rank, where that is above its own.
pub fn last_is_least()
    ensures { LastIsLeast }
{}

/// The removed rank is the least whose member is left, and at most the last one.
pub fn removed_rank_is()
    ensures { RemovedRankIs }
{}

/// A member's Suggest is due where a value is chosen at its rank.
pub fn suggest_is_least()
    ensures { SuggestIsLeast }
{}

/// A member's least Ack that is due is that of the least rank whose suggested value is justified.
pub fn ack_is_least()
    ensures { AckIsLeast }
{}

// ---- values

/// What a deputy chooses is justified, and one that an earlier rank may have decided goes before a free one.
pub fn deputy_adopts()
    ensures { DeputyAdopts }
{}

/// A deputy chooses where something is justified.
pub fn deputy_chooses()
    ensures { DeputyChooses }
{}

/// A value is free where its update and its cut may end the view.
pub fn free_in_parts()
    ensures { FreeInParts }
{}

/// The Ends that are heard are those of the members.
pub fn ends_by_member()
    ensures { EndsByMember }
{}

/// The free value is of the least update and of the least cut that may end the view.
pub fn free_value_is()
    ensures { FreeValueIs }
{}

/// The Lasts that are heard are those of the members.
pub fn lasts_by_member()
    ensures { LastsByMember }
{}

/// An Ack is certified where its value is that of its rank's certified Ack.
pub fn acked_is()
    ensures { AckedIs }
{}

/// The second way at a rank leads to the value of its certified Ack, or to none.
pub fn adopted_is()
    ensures { AdoptedIs }
{}

/// The value of the greatest rank with a second way is chosen, else the free value.
pub fn choose_is()
    ensures { ChooseIs }
{}

/// Some number below n passes where the least of them is found.
pub fn any_is_found()
    ensures { AnyIsFound }
{}

/// Candidates that are looked at one by one lead to the least that passes.
pub fn next_candidate()
    ensures { NextCandidate }
{}

/// Each member of a lower rank is to be removed where the removed rank is not below it.
pub fn removed_below()
    ensures { RemovedBelow }
{}

// ---- settling

/// A view is decided at the least rank that decides.
pub fn decided_is()
    ensures { DecidedIs }
{}

/// The next place may be delivered where it is certified and each of its messages is.
pub fn deliverable_is()
    ensures { DeliverableIs }
{}

/// The fixed length is one more than the last place whose Keep is certified.
pub fn fixed_length_is()
    ensures { FixedLengthIs }
{}
