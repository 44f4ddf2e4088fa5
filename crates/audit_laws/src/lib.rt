//! The laws of an audit, over the definitions alone: each is the contract of a function with an empty body.
#![tactic(auto)]

ghost use Rattle.audit_defs.specs.Laws.{AuditIsOfListed, BreakIsMet, EvidenceSparesCorrect, FamilyIsOfEntries, FindingsHeadline, HonestByFirsts, JournalIsWalked, NoneListedIsConvicted, WrittenIsTested};

// ---- of an audit

/// The test of an entry says that it fits, that its signatures are valid, and that there are not too many.
pub fn written_is_tested()
    ensures { WrittenIsTested }
{}

/// An audit speaks of the listed processes and no others, and of the claims that were handed to them or that they signed, and no others.
pub fn audit_is_of_listed()
    ensures { AuditIsOfListed }
{}

/// In an honest family no listed process is convicted.
pub fn none_listed_is_convicted()
    ensures { NoneListedIsConvicted }
{}

/// The first claim of each signer and slot shows whether the family is honest.
pub fn honest_by_firsts()
    ensures { HonestByFirsts }
{}

/// The auditor's headline: findings that are honest and bounded agree and are sound.
pub fn findings_headline()
    ensures { FindingsHeadline }
{}

// ---- of what is read

/// A journal is walked entry by entry to its closed gate, and no further.
pub fn journal_is_walked()
    ensures { JournalIsWalked }
{}

/// A walk breaks at the first open gate without a record.
pub fn break_is_met()
    ensures { BreakIsMet }
{}

/// The turns of each process of the family are its own entries.
pub fn family_is_of_entries()
    ensures { FamilyIsOfEntries }
{}

// ---- of evidence

/// A frame whose valid claims of correct processes are all their own words convicts no correct process.
pub fn evidence_spares_correct()
    ensures { EvidenceSparesCorrect }
{}
