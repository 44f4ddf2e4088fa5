//! Worked rows of an audit, computed by the definitions. Each is the contract of a function with an empty body.
#![tactic(auto)]

ghost use Rattle.audit_rows.specs.AcrossJournals.{AcrossJournals};
ghost use Rattle.audit_rows.specs.BatchKind.{BatchKind};
ghost use Rattle.audit_rows.specs.BeyondView.{BeyondView};
ghost use Rattle.audit_rows.specs.DeliveredBatch.{DeliveredBatch};
ghost use Rattle.audit_rows.specs.DeliveredInAll.{DeliveredInAll};
ghost use Rattle.audit_rows.specs.DoubledAlone.{DoubledAlone};
ghost use Rattle.audit_rows.specs.DoubledAndMissing.{DoubledAndMissing};
ghost use Rattle.audit_rows.specs.ForgedOwn.{ForgedOwn};
ghost use Rattle.audit_rows.specs.FrameFirst.{FrameFirst};
ghost use Rattle.audit_rows.specs.FreshJournal.{FreshJournal};
ghost use Rattle.audit_rows.specs.LiarListed.{LiarListed};
ghost use Rattle.audit_rows.specs.NoJournal.{NoJournal};
ghost use Rattle.audit_rows.specs.NotHosted.{NotHosted};
ghost use Rattle.audit_rows.specs.NotItsWord.{NotItsWord};
ghost use Rattle.audit_rows.specs.NotValid.{NotValid};
ghost use Rattle.audit_rows.specs.OneJournalAlone.{OneJournalAlone};
ghost use Rattle.audit_rows.specs.OpenGate.{OpenGate};
ghost use Rattle.audit_rows.specs.OtherViews.{OtherViews};
ghost use Rattle.audit_rows.specs.OthersTorn.{OthersTorn};
ghost use Rattle.audit_rows.specs.OwnWord.{OwnWord};
ghost use Rattle.audit_rows.specs.OwnWordLast.{OwnWordLast};
ghost use Rattle.audit_rows.specs.OwnWordUnlisted.{OwnWordUnlisted};
ghost use Rattle.audit_rows.specs.PassedOver.{PassedOver};
ghost use Rattle.audit_rows.specs.RefusedEvent.{RefusedEvent};
ghost use Rattle.audit_rows.specs.SignedLater.{SignedLater};
ghost use Rattle.audit_rows.specs.SpentFalsely.{SpentFalsely};
ghost use Rattle.audit_rows.specs.SpentTruly.{SpentTruly};
ghost use Rattle.audit_rows.specs.ThreeOnOneSlot.{ThreeOnOneSlot};
ghost use Rattle.audit_rows.specs.TooFew.{TooFew};
ghost use Rattle.audit_rows.specs.TooManyCorrupt.{TooManyCorrupt};
ghost use Rattle.audit_rows.specs.TornGate.{TornGate};
ghost use Rattle.audit_rows.specs.TwoConvicted.{TwoConvicted};
ghost use Rattle.audit_rows.specs.TwoEchoes.{TwoEchoes};

/// A fresh journal: nothing happened, and the four answers are yes.
pub fn fresh_journal()
    ensures { FreshJournal }
{}

/// Process 3 echoes two payloads of one message in one frame: it is convicted, and nobody who is listed.
pub fn two_echoes()
    ensures { TwoEchoes }
{}

/// The same with the liar listed: the family is not honest, for it has not signed what was handed over in its name.
pub fn liar_listed()
    ensures { LiarListed }
{}

/// A listed process that no journal hosts.
pub fn no_journal()
    ensures { NoJournal }
{}

/// Two journals host process 1, and none hosts process 3: the missing one is reported, though its number is greater.
pub fn doubled_and_missing()
    ensures { DoubledAndMissing }
{}

/// Two journals host process 1.
pub fn doubled_alone()
    ensures { DoubledAlone }
{}

/// Process 3 sends one payload to process 0 and another to process 1, whose journals are two: only both together convict it.
pub fn across_journals()
    ensures { AcrossJournals }
{}

/// The first of the two journals alone convicts nobody.
pub fn one_journal_alone()
    ensures { OneJournalAlone }
{}

/// The two claims are of a view that nobody has installed, and past every window: no process hears them, and they convict all the same.
pub fn beyond_view()
    ensures { BeyondView }
{}

/// Statements of two views, or of two slots, do not conflict.
pub fn other_views()
    ensures { OtherViews }
{}

/// Two echoes of process 3 that conflict, and of one the signature is not valid: that proves nothing.
pub fn not_valid()
    ensures { NotValid }
{}

/// Of three claims on one slot the first is reported, and the first that conflicts with one before it.
pub fn three_on_one_slot()
    ensures { ThreeOnOneSlot }
{}

/// Process 0 signs its Init and Echo, and process 1 is handed another valid Init of it: its own journal convicts it, and it is not honest.
pub fn own_word()
    ensures { OwnWord }
{}

/// The same journals in the other order: the Init that was handed over comes first.
pub fn own_word_last()
    ensures { OwnWordLast }
{}

/// The same with process 1 alone listed: what process 0 signed is not looked at, since it counts as corrupt.
pub fn own_word_unlisted()
    ensures { OwnWordUnlisted }
{}

/// An Order of one message and one of two, at one place: the kind bytes differ, and the kind does not.
pub fn batch_kind()
    ensures { BatchKind }
{}

/// After the entries come a closed gate that was never written whole, and bytes that mean nothing: they are not read.
pub fn torn_gate()
    ensures { TornGate }
{}

/// An open gate with no whole entry after it.
pub fn open_gate()
    ensures { OpenGate }
{}

/// The journal of a process that is not listed is read too, and refused where a gate breaks.
pub fn others_torn()
    ensures { OthersTorn }
{}

/// An entry of a listed process in a journal that does not host it is refused.
pub fn not_hosted()
    ensures { NotHosted }
{}

/// An entry of a process that is not listed is passed over, though it could not have been written.
pub fn passed_over()
    ensures { PassedOver }
{}

/// A signature is missing in an entry.
pub fn too_few()
    ensures { TooFew }
{}

/// An entry says that a signature was missing, and none was due.
pub fn spent_falsely()
    ensures { SpentFalsely }
{}

/// An entry that says rightly that a further signature was missing: the process signed its Init and no more.
pub fn spent_truly()
    ensures { SpentTruly }
{}

/// A signature of an entry is not valid for its statement.
pub fn forged_own()
    ensures { ForgedOwn }
{}

/// An event that was refused fits where nothing is signed; its frame was handed over all the same.
pub fn refused_event()
    ensures { RefusedEvent }
{}

/// Two of four are listed: the other two count as corrupt, which is more than the view bears.
pub fn too_many_corrupt()
    ensures { TooManyCorrupt }
{}

/// What is reported as delivered are messages, of all views.
pub fn delivered_in_all()
    ensures { DeliveredInAll }
{}

/// Process 0 is handed an Echo in its own name beside the Init, and signs another in the same entry: what was handed over comes first.
pub fn frame_first()
    ensures { FrameFirst }
{}

/// One claim in the name of a listed process that never signed it: nobody is convicted, and the family is not honest.
pub fn not_its_word()
    ensures { NotItsWord }
{}

/// What was handed over in the name of process 1 is in a later journal as its own word: honest looks at the end.
pub fn signed_later()
    ensures { SignedLater }
{}

/// Three messages at one place are three that were delivered.
pub fn delivered_batch()
    ensures { DeliveredBatch }
{}

/// Two are convicted: they are reported by their numbers, whoever lied first.
pub fn two_convicted()
    ensures { TwoConvicted }
{}
