//! Claims that are heard one after the other.
ghost use Rattle.std.specs.Prelude.{◌≡◌, ◌++◌, length, IfOk, OnOk};
ghost use Rattle.std.specs.List.{flat_map, AllByRecursion};
ghost use Rattle.message_defs.specs.Spelling.{IsClaim};
ghost use Rattle.group_defs.specs.Process.{Process};
ghost use Rattle.group_defs.specs.Certified.{number_of_members};
ghost use Rattle.group_defs.specs.Hearing as defs;
ghost use Rattle.stmt_codec.specs.Views.{claim as claim_of};
ghost use Rattle.stmt_codec.specs.Left.{claims_left};
ghost use Rattle.own_place.specs.Owns.{HasDelivered};
ghost use Rattle.claim_pool.specs.Verdicts.{verdict as verdict_of};
ghost use Rattle.interop_pool.specs.Hearers.{setting_with, verdicts};
ghost use Rattle.interop_pool.specs.Telling as words;

use claim_pool::{Own, Pool, Verdict};
use rp_base::{GroupId, NoMemory, PlainScheme, Roster};
use stmt_codec::{Claim, Claims, claim_len};

/// The group's name.
pub(crate) const GROUP: GroupId = GroupId([0; 16]);

fn verdict_word(verdict: Verdict) -> &'static [u8]
    ensures { result.now ≡ words.verdict_word (verdict_of verdict) }
{
    match verdict {
        Verdict::Old => b" old",
        Verdict::Early => b" early",
        Verdict::Stranger => b" stranger",
        Verdict::OutOfWindow => b" outofwindow",
        Verdict::Known => b" known",
        Verdict::Unsigned => b" unsigned",
        Verdict::Conflict => b" conflict",
        Verdict::Heard => b" heard",
    }
}

// The claim's verdict; where that is Heard, it is heard. `own` has an entry for each member.
fn take(roster: &Roster, own: &Own, pool: &mut Pool, claim: &Claim<'_>) -> Result<Verdict, NoMemory>
    requires range { IsClaim (claim_of claim.now) }
    requires own { length own.now.counts.items ≡ number_of_members pool.old.pool }
    ensures verdict { (p : Process) → HasDelivered own.now p → p.pool ≡ pool.old.pool
        → IfOk result (λ v. verdict_of v ≡ defs.verdict (setting_with roster.now) p (claim_of claim.now)) }
    ensures heard { (p : Process) → HasDelivered own.now p → p.pool ≡ pool.old.pool
        → OnOk result ((defs.hear (setting_with roster.now) p (claim_of claim.now)).pool ≡ pool.new.pool) }
    ensures view { pool.new.pool.view ≡ pool.old.pool.view }
{
    pool.reserve(1, claim_len(&claim))?;
    Ok(pool.take(&PlainScheme, roster, &GROUP, own, claim))
}

/// Writes the verdict on each claim; those whose verdict is Heard are heard. `own` has an entry for each member.
pub(crate) fn take_all(
    out: &mut Vec<u8>,
    roster: &Roster,
    own: &Own,
    pool: &mut Pool,
    claims: Claims<'_>,
) -> Result<(), NoMemory>
    requires range { AllByRecursion IsClaim (claims_left claims) }
    requires own { length own.now.counts.items ≡ number_of_members pool.old.pool }
    ensures verdicts { (p : Process) → HasDelivered own.now p → p.pool ≡ pool.old.pool
        → OnOk result (out.new.items
        ≡ out.old.items ++ flat_map words.verdict_word (verdicts (setting_with roster.now) p (claims_left claims.entry))) }
    ensures heard { (p : Process) → HasDelivered own.now p → p.pool ≡ pool.old.pool
        → OnOk result ((defs.hear_all (setting_with roster.now) p (claims_left claims.entry)).pool ≡ pool.new.pool) }
{
    let mut left = claims;
    'claims: while let Some(claim) = left.next() {
        let verdict = take(roster, own, pool, &claim)?;
        out.extend_from_slice(verdict_word(verdict))?;
    }
    Ok(())
}
