//! An audit.
ghost use Rattle.std.specs.Prelude.{◌≡◌, List, IfErr, IfOk, Ok, All, Contains, map, true};
ghost use Rattle.kit_defs.specs.Kits.{IsKit};
ghost use Rattle.audit_defs.specs.Sources as plain;
ghost use Rattle.audit_defs.specs.Players.{setting_of};
ghost use Rattle.audit_defs.specs.Audits.{Audited, audited, audited_in, sources_of};
ghost use Rattle.audit_defs.specs.Laws.{FirstGiveLast};
ghost use Rattle.journal_steps.specs.Views.{source as source_of};
ghost use Rattle.audit_sources.specs.Faults.{IsFaultOf};
ghost use Rattle.audit_core.specs.Ends.{Ended, HasCome};
ghost use Rattle.audit_core.specs.Found.{IsFound, listed_in};

use crate::answers::findings_of;
use crate::findings::Findings;
use audit_cast::{
    AuditFault, Judge, Kit, Payload, Source, Walk, cast, read_sources, walk_journals,
};
use rp_base::{NoMemory, PidSet};
use std::alloc::Global;

// The walk over all journals, from the listed processes as they start.
fn walk_of<'a>(
    alloc: Global,
    kit: &Kit,
    correct: PidSet,
    sources: &[Source<'a>],
) -> Result<Walk<'a>, AuditFault>
    requires kit { IsKit kit.now }
    ensures ended { IfOk result (Ended (setting_of kit.now) (map source_of sources.now) correct) }
    ensures refused { IfErr result (λ fault. IsFaultOf fault (audited_in (setting_of kit.now) (map source_of sources.now) correct)) }
{
    let scheme = kit.scheme();
    let group = kit.group();
    let judge = Judge {
        scheme: &scheme,
        roster: kit.roster(),
        group: &group,
    };
    let mut walk = match cast(alloc, kit, sources, correct) {
        Ok(walk) => walk,
        Err(fault) => return Err(fault),
    };
    match walk_journals(&mut walk, &judge, sources) {
        Ok(()) => Ok(walk),
        Err(fault) => Err(fault),
    }
}

/// Walks over the journals of processes of a group, each up to its closed gate: the processes of `correct` start, and each takes its entries.
///
/// # Errors
/// Those of [`audit`].
pub fn walk_all<'a>(
    alloc: Global,
    kit: &Kit,
    correct: PidSet,
    journals: &'a [Payload],
) -> Result<Walk<'a>, AuditFault>
    requires kit { IsKit kit.now }
    ensures ended { IfOk result (λ w. (sources : List plain.Source) × (sources_of kit.now journals.now ≡ Ok sources)
        × Ended (setting_of kit.now) sources correct w) }

    // The processes are as they are at the end of what the audit finds out, in the same order.
    ensures come { IfOk result (λ w. (a : Audited) × (audited kit.now correct journals.now ≡ Ok a) × HasCome a w) }
    ensures refused { IfErr result (λ fault. IsFaultOf fault (audited kit.now correct journals.now)) }
{
    let sources = match read_sources(alloc, kit, journals) {
        Ok(sources) => sources,
        Err(fault) => return Err(fault),
    };
    match walk_of(alloc, kit, correct, &sources) {
        Ok(walk) => Ok(walk),
        Err(fault) => Err(fault),
    }
}

/// Audits the journals of processes of a group: the processes of `correct` are taken as correct, and all others as corrupt. Each journal is
/// read up to its closed gate. What the correct ones' entries say gives a family, which the findings are of; and whom the claims convict
/// that were handed to them or are their own words.
///
/// # Errors
/// [`AuditFault::NoMemory`], else the first of these: an entry at place 0 of the first journal whose header is not of the kit; `Missing` of
/// the least of the processes that no journal hosts; `Repeated` of the least that two journals or more host; the first entry that
/// is refused, by journal and place.
pub fn audit(
    alloc: Global,
    kit: &Kit,
    correct: PidSet,
    journals: &[Payload],
) -> Result<Findings, AuditFault>
    requires kit { IsKit kit.now }
    // What is found is what the definitions find, and where they find nothing there is their fault.
    ensures found { IfOk result (λ f. (a : Audited) × (audited kit.now correct journals.now ≡ Ok a) × IsFound a f) }
    ensures refused { IfErr result (λ fault. IsFaultOf fault (audited kit.now correct journals.now)) }
    ensures listed { IfOk result (λ f. listed_in f ≡ correct) }

    // Findings that are honest and bounded agree and are sound; and where they are honest, no process of `correct` is convicted.
    ensures headline { IfOk result (λ f. FirstGiveLast f.reported) }
    ensures spared { IfOk result (λ f. f.reported.honest ≡ true → All (λ t. ¬ Contains correct t.process) f.reported.convicted) }
{
    let _ = correct.mask(); // for the proof: the numbers of a set rise
    let walk = match walk_all(alloc, kit, correct, journals) {
        Ok(walk) => walk,
        Err(fault) => return Err(fault),
    };
    match findings_of(alloc, kit, correct, &walk) {
        Ok(findings) => Ok(findings),
        Err(NoMemory) => Err(AuditFault::NoMemory),
    }
}
