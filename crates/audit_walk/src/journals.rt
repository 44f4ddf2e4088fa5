//! A journal, and all of them.
ghost use Rattle.std.specs.Prelude.{◌≡◌, ◌∷◌, ◌<◌, [], List, Result, IfErr, IfOk, IsTrue, OnOk, false, length, map};
ghost use Rattle.message_defs.specs.Statements as plain;
ghost use Rattle.group_defs.specs.Process.{Setting};
ghost use Rattle.journal_entries.specs.Views.{entry as entry_of};
ghost use Rattle.audit_turns.specs.Judges.{Shares};
ghost use Rattle.audit_defs.specs.Sources.{Step, Takes, steps_in, steps_of};
ghost use Rattle.audit_defs.specs.Audits as audits;
ghost use Rattle.audit_defs.specs.Audits.{Known, goes_through};
ghost use Rattle.journal_steps.specs.Views.{source as source_of, steps_left};
ghost use Rattle.audit_sources.specs.Faults.{IsFaultOf};
ghost use Rattle.audit_turns.specs.Walks.{IsWalk};
ghost use Rattle.audit_walk.specs.Ways.{IsOnWay, Walked};

use audit_sources::{AuditFault, Source, Steps};
use audit_turns::{AbsorbFault, Entry, Judge, Walk};
use rp_base::Scheme;

// Takes the entry at the gate at this place.
fn take_entry<'a, V: Scheme>(
    walk: &mut Walk<'a>,
    judge: &Judge<'_, V>,
    journal: usize,
    place: u64,
    entry: &Entry<'a>,
) -> Result<(), AuditFault>
    ensures goes { (s : Setting) (end : Result Known audits.AuditFault) (left : List Step)
        → Shares s (V.valid judge.now.scheme.now) judge.now.group.now judge.now.roster.now
        → IsOnWay s end (Takes journal place (entry_of entry.now) ∷ left) walk.old → OnOk result (IsOnWay s end left walk.new) }
    ensures refused { (s : Setting) (end : Result Known audits.AuditFault) (left : List Step)
        → Shares s (V.valid judge.now.scheme.now) judge.now.group.now judge.now.roster.now
        → IsOnWay s end (Takes journal place (entry_of entry.now) ∷ left) walk.old → IfErr result (λ fault. IsFaultOf fault end) }
{
    match walk.take(judge, journal, entry) {
        Ok(()) => Ok(()),
        Err(AbsorbFault::Differs) => Err(AuditFault::Entry { journal, place }),
        Err(AbsorbFault::NoMemory) => Err(AuditFault::NoMemory),
    }
}

// Takes what is at the next gate. Answers whether there was something: false where the journal has ended.
fn take_next<'a, V: Scheme>(
    walk: &mut Walk<'a>,
    judge: &Judge<'_, V>,
    journal: usize,
    steps: &mut Steps<'a>,
) -> Result<bool, AuditFault>
    ensures goes { (s : Setting) (end : Result Known audits.AuditFault)
        → Shares s (V.valid judge.now.scheme.now) judge.now.group.now judge.now.roster.now
        → IsOnWay s end (steps_left journal steps.old) walk.old → OnOk result (IsOnWay s end (steps_left journal steps.new) walk.new) }
    ensures fewer { IfOk result (λ more. IsTrue more → length (steps_left journal steps.new) < length (steps_left journal steps.old)) }
    ensures ended { IfOk result (λ more. more ≡ false → steps_left journal steps.new ≡ []) }
    ensures refused { (s : Setting) (end : Result Known audits.AuditFault)
        → Shares s (V.valid judge.now.scheme.now) judge.now.group.now judge.now.roster.now
        → IsOnWay s end (steps_left journal steps.old) walk.old → IfErr result (λ fault. IsFaultOf fault end) }
{
    match steps.next() {
        Ok(Some((place, entry))) => {
            take_entry(walk, judge, journal, place, &entry)?;
            Ok(true)
        }
        Ok(None) => Ok(false),
        Err(place) => Err(AuditFault::Entry { journal, place }),
    }
}

/// Takes the entries of the journal, which has this index, from its first gate to its closed one. What comes after that is not read.
///
/// # Errors
/// [`AuditFault::Entry`] exactly at the first gate where the definitions refuse what is there; and [`AuditFault::NoMemory`].
pub fn walk_journal<'a, V: Scheme>(
    walk: &mut Walk<'a>,
    judge: &Judge<'_, V>,
    journal: usize,
    source: &Source<'a>,
) -> Result<(), AuditFault>
    ensures walked { (s : Setting) (k : Known) (own : List plain.Claim)
        → Shares s (V.valid judge.now.scheme.now) judge.now.group.now judge.now.roster.now → IsWalk s k own walk.old
        → OnOk result (Walked s (goes_through s k (steps_in (journal, source_of source.now))) walk.new) }
    ensures refused { (s : Setting) (k : Known) (own : List plain.Claim)
        → Shares s (V.valid judge.now.scheme.now) judge.now.group.now judge.now.roster.now → IsWalk s k own walk.old
        → IfErr result (λ fault. IsFaultOf fault (goes_through s k (steps_in (journal, source_of source.now)))) }
{
    let mut steps = source.steps();
    'gates: while take_next(walk, judge, journal, &mut steps)? {}
    Ok(())
}

/// Takes the entries of all these journals, of one after the other.
///
/// # Errors
/// Those of [`walk_journal`]: the first refused entry, by the journal's index and the place in it.
pub fn walk_journals<'a, V: Scheme>(
    walk: &mut Walk<'a>,
    judge: &Judge<'_, V>,
    sources: &[Source<'a>],
) -> Result<(), AuditFault>
    ensures walked { (s : Setting) (k : Known) (own : List plain.Claim)
        → Shares s (V.valid judge.now.scheme.now) judge.now.group.now judge.now.roster.now → IsWalk s k own walk.old
        → OnOk result (Walked s (goes_through s k (steps_of (map source_of sources.now))) walk.new) }
    ensures refused { (s : Setting) (k : Known) (own : List plain.Claim)
        → Shares s (V.valid judge.now.scheme.now) judge.now.group.now judge.now.roster.now → IsWalk s k own walk.old
        → IfErr result (λ fault. IsFaultOf fault (goes_through s k (steps_of (map source_of sources.now)))) }
{
    for (journal, source) in sources.iter().enumerate() {
        walk_journal(walk, judge, journal, source)?;
    }
    Ok(())
}
