//! The state of a process that begins again.
ghost use Rattle.std.specs.Prelude.{◌≡◌, ◌≢◌, ◌↔◌, ◌≤◌, ℕ, None, is_some, All, AllPairs, IfOk, IfSome, IsTrue};
ghost use Rattle.group_defs.specs.Process.{Setting, Process};
ghost use Rattle.group_defs.specs.Accounts.{account_of as account_as};
ghost use Rattle.image_defs.specs.Images.{process_of, view_behind as behind};
ghost use Rattle.image_defs.specs.Kept.{IsKept};
ghost use Rattle.snapshot_defs.specs.Ranges.{IsImage};
ghost use Rattle.snapshot_defs.specs.declared.Version.TheVariants.{Two};
ghost use Rattle.snapshot_rp.specs.Views.{image as image_as};
ghost use Rattle.restored_present.specs.Members.{IsStateOf, account, claims_of as all_of};
ghost use Rattle.restored_present.specs.Left.{HasPast, Shares, AreByPlace};
ghost use Rattle.view_table.specs.Views.{IsNumberedView};
ghost use Rattle.member_restoring.specs.Judged.{Judges};
ghost use Rattle.restored_present.specs.Parts.{HasPresent, IsPresentSo};
ghost use Rattle.member_restoring.specs.Parts.{HasParts, IsOf};

use restored_present::{
    Account, Judge, Left, Present, ProcessState, SaidBefore, are_by_place, asked_in, claims_of,
    conflicts_of, installed, is_reported, left_in, present_in, said_in,
};
use rp_base::{NoMemory, Scheme};
use snapshot_rp::{Image, KeptClaim};
use std::alloc::Global;
use std::mem;
use view_table::View;

// All that was signed, as what was said before: each claim is in it, those of the current view too.
fn said_before(alloc: Global, signed: &[KeptClaim]) -> Result<Vec<SaidBefore>, NoMemory>
    ensures { IfOk result (λ lists. all_of lists.items ≡ signed.now) }
{
    let claims = claims_of(alloc, signed)?;
    let mut lists = Vec::new(alloc);
    lists.push(SaidBefore { claims, from: 0 })?;
    Ok(lists)
}

// What the image's process reports of itself, with these views. It is taken out of the image.
fn account_of(alloc: Global, image: &mut Image, views: Vec<View>) -> Account
    ensures { (p : Process) → IsOf (image_as image.old) views.items p → account_as p ≡ account result }
{
    let delivered = mem::replace(&mut image.delivered, Vec::new(alloc));
    let accepted = mem::replace(&mut image.accepted, Vec::new(alloc));
    let perceived = mem::replace(&mut image.perceived, Vec::new(alloc));
    Account {
        me: image.me,
        views,
        delivered,
        accepted,
        perceived,
    }
}

// The state of the image's process, of these parts.
fn whole(
    alloc: Global,
    image: Image,
    views: Vec<View>,
    left: Left,
    present: Present,
    batch_limit: u8,
) -> Result<ProcessState, NoMemory>
    ensures parts { (s : Setting) (p : Process) → HasPresent s p present.own present.pool.pool present.phase
        → HasPast s (image_as image) left.archive → IsOf (image_as image) views.items p → p.batch_limit ≡ batch_limit
        → p.pool.view.number ≡ left.view.number → AllPairs (λ a b. a.1.signer ≢ b.1.signer) (image_as image).conflicts
        → IfOk result (HasParts s (image_as image) p) }
    ensures here { IfOk result (λ st. st.left ≡ None) }
    ensures view { IsNumberedView left.view }
{
    let Left { archive, view } = left;
    let Present { own, pool, phase } = present;
    let said = said_in(alloc, view.number(), &image.signed)?;
    let said_from = said.len();
    let said_before = said_before(alloc, &image.signed)?;
    let conflicts = conflicts_of(alloc, &image.conflicts)?;
    let perceived = asked_in(view.number(), &image.perceived);
    let mut image = image;
    let account = account_of(alloc, &mut image, views);
    Ok(ProcessState {
        batch_limit,
        own,
        pool,
        phase,
        perceived,
        said,
        said_from,
        said_before,
        conflicts,
        archive,
        account,
        left: None,
    })
}

// What the image's process keeps of its view, which comes after those that were left.
fn present_after<V: Scheme>(
    alloc: Global,
    judge: &Judge<'_, V>,
    view: &View,
    image: &Image,
) -> Result<Option<Present>, NoMemory>
    requires spelled { IsImage Two (image_as image.now) }
    requires placed { AreByPlace (image_as image.now).delivered }
    ensures exact { (s : Setting) → Shares s (V.valid judge.now.scheme.now) judge.now.group.now judge.now.roster.now
        → view.now ≡ behind s.genesis (image_as image.now).left
        → IfOk result (λ r. IsTrue (is_some r) ↔ IsPresentSo s (process_of s 1 (image_as image.now))) }
    ensures is { (s : Setting) (batch_limit : ℕ) → Shares s (V.valid judge.now.scheme.now) judge.now.group.now judge.now.roster.now
        → view.now ≡ behind s.genesis (image_as image.now).left
        → IsPresentSo s (process_of s 1 (image_as image.now))
        → All (λ c. c.signer ≡ (image_as image.now).me) (image_as image.now).signed
        → IfOk result (λ r. IfSome r (λ now. HasPresent s (process_of s batch_limit (image_as image.now)) now.own now.pool.pool now.phase)) }
{
    match image.delivered.split_last() {
        Some((delivered, earlier)) => {
            present_in(alloc, judge, view, image, delivered.as_slice(), earlier)
        }
        None => Ok(None),
    }
}

/// The state of the image's process; None exactly where the image is not kept.
pub fn state_of<V: Scheme>(
    alloc: Global,
    judge: &Judge<'_, V>,
    genesis: View,
    image: Image,
    batch_limit: u8,
) -> Result<Option<ProcessState>, NoMemory>
    requires spelled { IsImage Two (image_as image) }
    requires number { genesis.number ≡ 0 }
    requires some { 1 ≤ batch_limit }
    requires few { batch_limit ≤ 16 }
    ensures exact { (s : Setting) → Judges s (V.valid judge.now.scheme.now) judge.now.group.now judge.now.roster.now genesis
        → IfOk result (λ r. IsTrue (is_some r) ↔ IsKept s (image_as image)) }
    ensures is { (s : Setting) → Judges s (V.valid judge.now.scheme.now) judge.now.group.now judge.now.roster.now genesis
        → IfOk result (λ r. IfSome r (IsStateOf s (process_of s batch_limit (image_as image)))) }
    ensures here { IfOk result (λ r. IfSome r (λ st. st.left ≡ None)) }
{
    let first = genesis.number();
    prove!(first == 0);
    if !are_by_place(&image.delivered) {
        return Ok(None);
    }
    let Some(left) = left_in(alloc, judge, &genesis, &image)? else {
        return Ok(None);
    };
    if !is_reported(judge, &left.view, &image) {
        return Ok(None);
    }
    let Some(present) = present_after(alloc, judge, &left.view, &image)? else {
        return Ok(None);
    };
    let Some(views) = installed(alloc, genesis, &image.left)? else {
        return Ok(None);
    };
    let state = whole(alloc, image, views, left, present, batch_limit)?;
    Ok(Some(state))
}
