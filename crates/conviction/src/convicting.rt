//! Whom a frame convicts.
ghost use Rattle.std.specs.Prelude.{◌≡◌, ◌+◌, ◌≤◌, ◌<◌, true, false, filter, take, length};
ghost use Rattle.std.specs.List.{AllByRecursion};
ghost use Rattle.message_defs.specs.Claims as frames;
ghost use Rattle.message_defs.specs.Spelling.{IsClaim};
ghost use Rattle.group_defs.specs.Hearing.{is_valid};
ghost use Rattle.frame_codec.specs.Views.{frame_view};
ghost use Rattle.stmt_codec.specs.Left.{claims_left};
ghost use Rattle.stmt_codec.specs.Cursor.{given};
ghost use Rattle.claim_pool.specs.Settings.{as_setting};
ghost use Rattle.conviction_defs.specs.Convictions.{convicted, has_conflict, is_convicted};
ghost use Rattle.conviction.specs.Own.{all_kept, claims_of_signer};
ghost use Rattle.conviction.specs.Slots.{AreQuiet};

use crate::own::Own;
use crate::reading::{claims_said, own_claims};
use crate::slots::{has_other_content, has_slot};
use crate::verifying::slot_convicts;
use frame_codec::FrameView;
use rp_base::{GroupId, Pid, PidSet, Roster, Scheme};
use stmt_codec::Claims;

// Whether two valid claims conflict on the slot of the claim at this place, where it is the first of its slot and others say something
// else there.
fn convicts_at<V: Scheme>(
    scheme: &V,
    roster: &Roster,
    group: &GroupId,
    claims: &[Own<'_>],
    place: usize,
) -> bool
    requires place { place < length claims.now }
    requires range { AllByRecursion IsClaim (all_kept claims.now) }
    ensures some { result ≡ true → has_conflict
        (filter (is_valid (as_setting (V.valid scheme.now) group.now roster.now)) (all_kept claims.now)) ≡ true }
    ensures none { result ≡ false
        → AreQuiet (as_setting (V.valid scheme.now) group.now roster.now) (all_kept claims.now) (all_kept (take place claims.now))
        → AreQuiet (as_setting (V.valid scheme.now) group.now roster.now) (all_kept claims.now)
        (all_kept (take (place + 1) claims.now)) }
{
    let (before, rest) = claims.split_at(place);
    let claim = &claims[place].0;
    if has_slot(before, claim) {
        return false;
    }
    if !has_other_content(rest, claim) {
        return false;
    }
    slot_convicts(scheme, roster, group, rest, claim)
}

// Whether two valid ones of these claims of one process conflict: slot after slot, each at its first claim.
fn any_conflict<V: Scheme>(scheme: &V, roster: &Roster, group: &GroupId, claims: &[Own<'_>]) -> bool
    requires { AllByRecursion IsClaim (all_kept claims.now) }
    ensures { result ≡ has_conflict
        (filter (is_valid (as_setting (V.valid scheme.now) group.now roster.now)) (all_kept claims.now)) }
{
    for place in 0..claims.len() {
        if convicts_at(scheme, roster, group, claims, place) {
            return true;
        }
    }
    false
}

// Whether these claims convict the process.
fn is_convicted_by<V: Scheme>(
    scheme: &V,
    roster: &Roster,
    group: &GroupId,
    claims: Claims<'_>,
    q: Pid,
) -> bool
    requires few { length (claims_of_signer (claims_left claims) q) ≤ 255 }
    requires range { AllByRecursion IsClaim (claims_left claims) }
    ensures { result ≡ is_convicted (as_setting (V.valid scheme.now) group.now roster.now) (claims_left claims.entry) q }
{
    let own = own_claims(claims, q);
    any_conflict(scheme, roster, group, own.as_slice())
}

/// Whether the frame convicts the process: two of its claims are the process's own, valid under its key in the roster, on one slot, and
/// say different things (docs/PROTOCOL.md, «Statements and slots»). A frame with a fault has no claims, and a Want has none. It takes no memory, and
/// verifies each claim at most once: those alone of a slot on which the process says different things.
pub fn convicts<V: Scheme>(
    scheme: &V,
    roster: &Roster,
    group: &GroupId,
    frame: &FrameView<'_>,
    q: Pid,
) -> bool
    ensures { result ≡ is_convicted (as_setting (V.valid scheme.now) group.now roster.now)
        (given (frames.claims_of (frame_view frame.now))) q }
{
    match claims_said(frame) {
        Ok(claims) => is_convicted_by(scheme, roster, group, claims, q),
        Err(_) => false,
    }
}

/// All whom the frame convicts, as `convicts` has it.
pub fn convicted_in<V: Scheme>(
    scheme: &V,
    roster: &Roster,
    group: &GroupId,
    frame: &FrameView<'_>,
) -> PidSet
    ensures { result ≡ convicted (as_setting (V.valid scheme.now) group.now roster.now)
        (given (frames.claims_of (frame_view frame.now))) }
{
    let mut found = PidSet::new();
    let Ok(claims) = claims_said(frame) else {
        return found;
    };
    for q in roster.processes().iter() {
        if is_convicted_by(scheme, roster, group, claims, q) {
            found.insert(q);
        }
    }
    found
}
