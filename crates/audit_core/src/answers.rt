//! What is reported at the end of an audit.
ghost use Rattle.std.specs.Prelude.{◌≡◌, ℕ, List, IfOk, Ok, map};
ghost use Rattle.message_defs.specs.Statements.{Claim};
ghost use Rattle.group_defs.specs.Process.{Setting};
ghost use Rattle.conviction_defs.specs.Convictions.{convictions};
ghost use Rattle.rp_base.specs.Rosters.{IsRising};
ghost use Rattle.claim_firsts.specs.Seen.{Saw};
ghost use Rattle.audit_defs.specs.Sources as plain;
ghost use Rattle.audit_defs.specs.Players.{setting_of};
ghost use Rattle.audit_defs.specs.Audits.{sources_of};
ghost use Rattle.audit_defs.specs.Findings as defs;
ghost use Rattle.findings_json.specs.Views.{findings};
ghost use Rattle.audit_core.specs.Ends.{Ended, audited_by};
ghost use Rattle.audit_core.specs.Found.{IsFound, evidence, evidence_of, shown, shown_of};

use crate::convicted::own_convictions;
use crate::findings::Findings;
use crate::listed::{accounts_of, all_grounds};
use audit_cast::{Firsts, Kit, Walk};
use findings_json::Conviction;
use group_questions::{agree, bounded};
use rp_base::{NoMemory, PidSet};
use sound_question::sound;
use std::alloc::Global;

// The convictions by the claims that came up, with claims of their own.
fn convictions_of(alloc: Global, claims: &Firsts<'_>) -> Result<Vec<Conviction>, NoMemory>
    ensures { IfOk result (λ all. (s : Setting) (seen own : List Claim) → IsRising s.roster → Saw s seen own claims.now
        → map shown all.items ≡ map shown_of (convictions s seen)) }
{
    match claims.convictions(alloc) {
        Ok(lent) => own_convictions(alloc, &lent),
        Err(NoMemory) => Err(NoMemory),
    }
}

// What is reported of the walk when it has ended.
fn reported_of(
    alloc: Global,
    kit: &Kit,
    correct: PidSet,
    walk: &Walk<'_>,
) -> Result<findings_json::Findings, NoMemory>
    ensures reported { (journals : List (List ℕ)) (sources : List plain.Source) → sources_of kit.now journals ≡ Ok sources
        → (e : Ended (setting_of kit.now) sources correct walk.now)
        → IfOk result (λ f. findings f ≡ defs.findings_of (audited_by (setting_of kit.now) e.known)) }
    ensures evidence { (journals : List (List ℕ)) (sources : List plain.Source) → sources_of kit.now journals ≡ Ok sources
        → (e : Ended (setting_of kit.now) sources correct walk.now)
        → IfOk result (λ f. map evidence f.convicted.items ≡ map evidence_of (convictions (setting_of kit.now) e.known.claims)) }
{
    let _ = correct.mask(); // for the proof: the numbers of a set rise
    let keyed = kit.roster().processes();
    let accounts = accounts_of(alloc, walk.players())?;
    let convicted = convictions_of(alloc, walk.claims())?;
    let reported = accounts.as_slice();
    Ok(findings_json::Findings {
        agree: agree(reported),
        bounded: bounded(reported, correct),
        honest: walk.claims().is_answered(correct),
        sound: sound(reported, keyed),
        convicted,
        accounts,
    })
}

/// What is reported of the walk when it has ended.
pub(crate) fn findings_of(
    alloc: Global,
    kit: &Kit,
    correct: PidSet,
    walk: &Walk<'_>,
) -> Result<Findings, NoMemory>
    ensures { (journals : List (List ℕ)) (sources : List plain.Source) → sources_of kit.now journals ≡ Ok sources
        → (e : Ended (setting_of kit.now) sources correct walk.now)
        → IfOk result (IsFound (audited_by (setting_of kit.now) e.known)) }
{
    let _ = kit.roster().processes(); // for the proof: the numbers of a roster rise
    let reported = reported_of(alloc, kit, correct, walk)?;
    let grounds = all_grounds(alloc, walk.players())?;
    Ok(Findings::new(reported, grounds))
}
