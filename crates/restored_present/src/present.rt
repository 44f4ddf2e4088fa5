//! The view in which an image's process is.
ghost use Rattle.std.specs.Prelude.{◌≡◌, ◌≢◌, ◌↔◌, ◌<◌, ◌≤◌, ◌++◌, ◌∷◌, [], ℕ, Some, length, map, is_some, All, AllPairs, IfOk, IfSome, IsTrue, IsFalse};
ghost use Rattle.group_defs.specs.Views.{is_member};
ghost use Rattle.group_defs.specs.Process.{Setting, Process, keyed, places_in};
ghost use Rattle.group_defs.specs.Accounts.{IsByPlace};
ghost use Rattle.image_defs.specs.Images.{process_of, view_behind as behind};
ghost use Rattle.image_defs.specs.Kept.{AreHeard};
ghost use Rattle.group_defs.specs.Certified.{is_ended};
ghost use Rattle.own_place.specs.Owns.{HasDelivered};
ghost use Rattle.restored_left.specs.Facts.{IsDecidedSo, IsHaltedSo, Shares, SignedOnce, AreByPlace, IsInView, IsOwnSoFar, heard_in};
ghost use Rattle.restored_left.specs.Members.{IsIn};
ghost use Rattle.snapshot_defs.specs.Ranges.{IsImage};
ghost use Rattle.snapshot_defs.specs.declared.Version.TheVariants.{Two};
ghost use Rattle.snapshot_rp.specs.Views.{delivered as delivered_as, image as image_as};
ghost use Rattle.member_events.specs.Below.{report};
ghost use Rattle.restored_present.specs.Parts.{HasPresent, IsPresentSo, IsSaid, IsShown};

use member_events::Delivered;
use restored_left::{
    Judge, Own, Phase, Pool, are_heard, are_once, are_paid, are_placed, copied, count_places,
    hear_list, is_halted_so, note_signed, own_delivered, own_end, phase_of, place_in,
};
use rp_base::{NoMemory, Pid, Scheme};
use snapshot_rp::{Image, KeptClaim};
use std::alloc::Global;
use view_table::View;

/// What a process keeps of its view: its own place, what it heard, and its phase.
#[derive(Drop)]
pub struct Present {
    pub own: Own,
    pub pool: Pool,
    pub phase: Phase,
}

// Whether the process is a member, or has delivered nothing.
fn may_deliver(view: &View, me: Pid, delivered: &[Delivered]) -> bool
    ensures { IsTrue result ↔ (IsFalse (is_member view.now me) → map delivered_as delivered.now ≡ []) }
{
    view.is_member(me) || delivered.is_empty()
}

// Whether all of these hold.
fn hold(inside: bool, placed: bool, paid: bool) -> bool
    ensures { IsTrue result ↔ (IsTrue inside × IsTrue placed × IsTrue paid) }
{
    inside && placed && paid
}

// Whether the pool shows what was delivered in its view, at so many places, and only a member delivered.
fn is_shown(pool: &Pool, me: Pid, delivered: &[Delivered], places: u16) -> bool
    requires by { IsByPlace (map delivered_as delivered.now) }
    requires places { places ≡ places_in (map delivered_as delivered.now) }
    ensures { IsTrue result ↔ IsShown pool.now.pool me (map delivered_as delivered.now) }
{
    let inside = may_deliver(pool.view(), me, delivered);
    let placed = are_placed(pool, delivered, places);
    let paid = are_paid(pool, delivered);
    hold(inside, placed, paid)
}

// Whether both hold.
fn both(once: bool, heard: bool) -> bool
    ensures { IsTrue result ↔ (IsTrue once × IsTrue heard) }
{
    once && heard
}

// Whether no slot is signed twice, and what is signed in the pool's view is heard there.
fn is_said(alloc: Global, pool: &Pool, me: Pid, signed: &[KeptClaim]) -> Result<bool, NoMemory>
    ensures { IfOk result (λ b. IsTrue b ↔ IsSaid pool.now.pool me signed.now) }
{
    let once = are_once(alloc, signed)?;
    let heard = are_heard(pool, me, signed);
    Ok(both(once, heard))
}

// The phase of the process; None exactly where what it has decided is not so, or it should have halted, or not have.
fn phase_in<V: Scheme>(
    judge: &Judge<'_, V>,
    pool: &Pool,
    image: &Image,
    ended: Option<u16>,
    places: u16,
) -> Option<Phase>
    ensures is { (p : Process) → IsInView p pool.now.pool image.now.me ended places (report image.now.decision)
        → IfSome result (λ phase. IsIn phase p) }
    ensures exact { IsTrue (is_some result) ↔ (IsDecidedSo pool.now.pool (map (λ k. k.0) judge.now.roster.now) image.now.me places
        (report image.now.decision) × IsHaltedSo image.now.halted places (report image.now.decision)) }
{
    if !is_halted_so(image.halted, u32::from(places), image.decision) {
        return None;
    }
    let keyed = judge.roster.processes();
    phase_of(pool, keyed, image.me, ended, places, image.decision)
}

// The pool again, where it shows what was delivered and signed in its view; None exactly where it does not.
fn shown(
    alloc: Global,
    pool: Pool,
    me: Pid,
    delivered: &[Delivered],
    places: u16,
    signed: &[KeptClaim],
) -> Result<Option<Pool>, NoMemory>
    requires by { IsByPlace (map delivered_as delivered.now) }
    requires places { places ≡ places_in (map delivered_as delivered.now) }
    ensures same { IfOk result (λ r. IfSome r (λ again. again ≡ pool)) }
    ensures exact { IfOk result (λ r. IsTrue (is_some r) ↔ (IsShown pool.pool me (map delivered_as delivered.now)
        × IsSaid pool.pool me signed.now)) }
{
    let shown = is_shown(&pool, me, delivered, places);
    let said = is_said(alloc, &pool, me, signed)?;
    if both(shown, said) {
        Ok(Some(pool))
    } else {
        Ok(None)
    }
}

// The pool of the view, in which the process has its own place; None exactly where what was heard, delivered and signed there is not kept.
fn pool_in<V: Scheme>(
    alloc: Global,
    judge: &Judge<'_, V>,
    own: &Own,
    view: &View,
    image: &Image,
    delivered: &[Delivered],
) -> Result<Option<Pool>, NoMemory>
    requires members { length own.now.counts.items ≡ length view.now.members }
    requires by { IsByPlace (map delivered_as delivered.now) }
    requires places { own.now.delivered ≡ places_in (map delivered_as delivered.now) }
    ensures heard { IfOk result (λ r. IfSome r (λ pool. pool.pool ≡ heard_in view.now image.now.heard.items)) }
    ensures exact { (s : Setting) (p : Process) → Shares s (V.valid judge.now.scheme.now) judge.now.group.now judge.now.roster.now
        → HasDelivered own.now p → p.pool ≡ heard_in view.now image.now.heard.items
        → IfOk result (λ r. IsTrue (is_some r) ↔ (AreHeard s p × IsShown p.pool image.now.me (map delivered_as delivered.now)
        × IsSaid p.pool image.now.me image.now.signed.items)) }
{
    match hear_list(alloc, judge, own, copied(view), &image.heard)? {
        Some(pool) => shown(
            alloc,
            pool,
            image.me,
            delivered,
            own.delivered,
            &image.signed,
        ),
        None => Ok(None),
    }
}

// The own place with what was signed, the pool and the phase together.
fn whole(
    alloc: Global,
    view: &View,
    own: Own,
    pool: Pool,
    phase: Phase,
    signed: &[KeptClaim],
    ended: bool,
) -> Result<Present, NoMemory>
    ensures { (s : Setting) (p : Process) → IsOwnSoFar s p own → p.pool.view ≡ view.now → p.signed ≡ signed.now → SignedOnce p
        → is_ended p ≡ ended → p.pool ≡ pool.pool → IsIn phase p
        → IfOk result (λ now. HasPresent s p now.own now.pool.pool now.phase) }
{
    let mut own = own;
    note_signed(&mut own, alloc, view, signed, ended)?;
    Ok(Present { own, pool, phase })
}

// The same, where the process is in a phase with this pool.
fn phased<V: Scheme>(
    alloc: Global,
    judge: &Judge<'_, V>,
    view: &View,
    image: &Image,
    own: Own,
    pool: Pool,
) -> Result<Option<Present>, NoMemory>
    requires spelled { IsImage Two (image_as image.now) }
    ensures exact { (s : Setting) (p : Process) → Shares s (V.valid judge.now.scheme.now) judge.now.group.now judge.now.roster.now
        → IsOwnSoFar s p own → p.me ≡ image.now.me → p.pool ≡ pool.pool → p.decision ≡ report image.now.decision → p.halted ≡ image.now.halted
        → IfOk result (λ r. IsTrue (is_some r) ↔ (IsDecidedSo p.pool (keyed s) p.me (places_in p.delivered) p.decision
        × IsHaltedSo p.halted (places_in p.delivered) p.decision)) }
    ensures is { (s : Setting) (p : Process) → Shares s (V.valid judge.now.scheme.now) judge.now.group.now judge.now.roster.now
        → IsOwnSoFar s p own → p.me ≡ image.now.me → p.pool ≡ pool.pool → pool.pool.view ≡ view.now → p.signed ≡ image.now.signed.items → SignedOnce p
        → p.decision ≡ report image.now.decision → p.halted ≡ image.now.halted
        → IfOk result (λ r. IfSome r (λ now. HasPresent s p now.own now.pool.pool now.phase)) }
{
    let ended = own_end(view.number(), &image.signed);
    match phase_in(judge, &pool, image, ended, own.delivered) {
        Some(phase) => {
            let present = whole(
                alloc,
                view,
                own,
                pool,
                phase,
                &image.signed,
                ended.is_some(),
            )?;
            Ok(Some(present))
        }
        None => Ok(None),
    }
}

/// What the image's process keeps of its view, where it has delivered this, and `earlier` is what it delivered in the views before. None
/// exactly where what it has heard, delivered, signed or decided in the view is not kept.
pub fn present_in<V: Scheme>(
    alloc: Global,
    judge: &Judge<'_, V>,
    view: &View,
    image: &Image,
    delivered: &[Delivered],
    earlier: &[Vec<Delivered>],
) -> Result<Option<Present>, NoMemory>
    requires spelled { IsImage Two (image_as image.now) }
    requires placed { AreByPlace (image_as image.now).delivered }
    requires parts { (image_as image.now).delivered ≡ map (λ ds. map delivered_as ds.items) earlier.now ++ map delivered_as delivered.now ∷ [] }
    ensures exact { (s : Setting) → Shares s (V.valid judge.now.scheme.now) judge.now.group.now judge.now.roster.now
        → view.now ≡ behind s.genesis (image_as image.now).left
        → IfOk result (λ r. IsTrue (is_some r) ↔ IsPresentSo s (process_of s 1 (image_as image.now))) }
    ensures is { (s : Setting) (batch_limit : ℕ) → Shares s (V.valid judge.now.scheme.now) judge.now.group.now judge.now.roster.now
        → view.now ≡ behind s.genesis (image_as image.now).left
        → IsPresentSo s (process_of s 1 (image_as image.now))
        → All (λ c. c.signer ≡ (image_as image.now).me) (image_as image.now).signed
        → IfOk result (λ r. IfSome r (λ now. HasPresent s (process_of s batch_limit (image_as image.now)) now.own now.pool.pool now.phase)) }
{
    let places = count_places(delivered) as u16;
    let before = own_delivered(image.me, earlier);
    let own = place_in(
        alloc,
        judge.roster,
        view,
        image.me,
        delivered,
        places,
        before,
    );
    match pool_in(alloc, judge, &own, view, image, delivered)? {
        Some(pool) => phased(alloc, judge, view, image, own, pool),
        None => Ok(None),
    }
}
