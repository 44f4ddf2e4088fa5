//! The views that an image's process left.
ghost use Rattle.std.specs.Prelude.{◌≡◌, ◌↔◌, ◌++◌, ◌∷◌, [], Some, map, length, is_some, All, IfOk, IfSome, IsTrue};
ghost use Rattle.message_defs.specs.Spelling.{IsClaim};
ghost use Rattle.group_defs.specs.Process.{Setting, Process};
ghost use Rattle.image_defs.specs.Images.{view_behind as behind};
ghost use Rattle.image_defs.specs.Kept.{AreHeard, AreLeft, IsLeft};
ghost use Rattle.snapshot_defs.specs.Ranges.{IsImage};
ghost use Rattle.snapshot_defs.specs.declared.Version.TheVariants.{Two};
ghost use Rattle.snapshot_rp.specs.Views.{delivered as plain, image as image_as, left_view};
ghost use Rattle.claim_hearing.specs.Hearing.{Shares};
ghost use Rattle.kept_images.specs.Facts.{AreByPlace};
ghost use Rattle.restored_past.specs.Parts.{heard_in};
ghost use Rattle.member_state.specs.Parts.{all_signed, IsRanged};
ghost use Rattle.restored_past.specs.Keeping.{KeepsOne};
ghost use Rattle.rp_base.specs.Views.{value as value_of};
ghost use Rattle.member_state.specs.Bounds.{AreFew};
ghost use Rattle.restored_left.specs.Judged.{Judges};
ghost use Rattle.restored_left.specs.Parts.{Commits, HasPast, IsLeftSo, IsLastSo};

use kept_images::{count_places, view_behind};
use member_events::Delivered;
use restored_past::{Archive, Judge, Past, Pool, hear_list, keep_last, past_before};
use restored_place::place_in;
use rp_base::{NoMemory, Pid, Scheme};
use snapshot_rp::{Image, KeptClaim, LeftView};
use std::alloc::Global;
use view_table::View;

/// What is kept of the views that were left, and the current view.
#[derive(Drop)]
pub struct Left {
    pub archive: Archive,
    pub view: View,
}

/// A copy, which takes no memory.
pub fn copied(view: &View) -> View
    ensures { result ≡ view.now }
{
    let Ok(copy) = view.clone() else {
        unreachable!()
    };
    copy
}

// The pool of the view that was left last, in which the process had delivered so; None exactly where these claims are no heard list of it.
fn heard_before<V: Scheme>(
    alloc: Global,
    judge: &Judge<'_, V>,
    view: &View,
    me: Pid,
    delivered: &[Delivered],
    previous: &[KeptClaim],
) -> Result<Option<Pool>, NoMemory>
    requires few { AreFew (map plain delivered.now) }
    ensures heard { IfOk result (λ r. IfSome r (λ pool. pool.pool ≡ heard_in view.now previous.now)) }
    ensures exact { (s : Setting) (p : Process) → Shares s (V.valid judge.now.scheme.now) judge.now.group.now judge.now.roster.now
        → p.pool ≡ heard_in view.now previous.now → p.delivered ≡ map plain delivered.now
        → IfOk result (λ r. IsTrue (is_some r) ↔ AreHeard s p) }
{
    let places = count_places(delivered) as u16;
    let own = place_in(alloc, judge.roster, view, me, delivered, places, 0);
    hear_list(alloc, judge, &own, copied(view), previous)
}

// What was delivered in the view that was left last: the last list but one.
fn delivered_before(lists: &[Vec<Delivered>]) -> &[Delivered]
    ensures before { (rest : _) (ds last : _) → map (λ ds. map plain ds.items) lists.now ≡ rest ++ ds ∷ last ∷ [] → map plain result.now ≡ ds }
    ensures few { AreByPlace (map (λ ds. map plain ds.items) lists.now) → AreFew (map plain result.now) }
{
    match lists.split_last() {
        Some((_, before)) => match before.last() {
            Some(delivered) => delivered.as_slice(),
            None => &[],
        },
        None => &[],
    }
}

// The archive with the view that was left last, with this pool; None exactly where that was not left by the certificate that the pool gives.
fn with_last(
    alloc: Global,
    archive: Archive,
    pool: Pool,
    last: &LeftView,
) -> Result<Option<Archive>, NoMemory>
    requires range { IsRanged pool.pool }
    requires order { pool.pool.view.number ≡ length archive.commits }
    ensures exact { (s : Setting) → IsLeft s pool.pool.view (left_view last.now)
        → IfOk result (λ r. IsTrue (is_some r) ↔ Commits pool.pool (left_view last.now)) }
    ensures kept { IfOk result (λ r. IfSome r (λ new. KeepsOne archive new pool.pool last.now.rank (value_of last.now.value))) }
{
    let mut archive = archive;
    let is_last = keep_last(alloc, &mut archive, pool, last)?;
    if is_last { Ok(Some(archive)) } else { Ok(None) }
}

// The archive with the view that was left last; None exactly where that was not left as the image says.
fn archive_after<V: Scheme>(
    alloc: Global,
    judge: &Judge<'_, V>,
    image: &Image,
    last: &LeftView,
    past: Past,
) -> Result<Option<Archive>, NoMemory>
    requires spelled { IsImage Two (image_as image.now) }
    requires placed { AreByPlace (image_as image.now).delivered }
    requires order { past.view.number ≡ length past.archive.commits }
    ensures exact { (s : Setting) (xs : _) → Shares s (V.valid judge.now.scheme.now) judge.now.group.now judge.now.roster.now
        → (image_as image.now).left ≡ xs ++ left_view last.now ∷ [] → past.view ≡ behind s.genesis xs → IsLeft s past.view (left_view last.now)
        → IfOk result (λ r. IsTrue (is_some r) ↔ IsLastSo s (image_as image.now)) }
    ensures past { (s : Setting) (xs : _) → (image_as image.now).left ≡ xs ++ left_view last.now ∷ [] → past.view ≡ behind s.genesis xs
        → IsLeft s past.view (left_view last.now) → past.archive.commits ≡ map (λ l. all_signed l.commit) xs
        → IfOk result (λ r. IfSome r (HasPast s (image_as image.now))) }
{
    let Past { archive, view } = past;
    let delivered = delivered_before(&image.delivered);
    match heard_before(alloc, judge, &view, image.me, delivered, &image.previous)? {
        Some(pool) => with_last(alloc, archive, pool, last),
        None => Ok(None),
    }
}

// What is kept of the views that were left; None exactly where the last one was not left as the image says.
fn archive_of<V: Scheme>(
    alloc: Global,
    judge: &Judge<'_, V>,
    genesis: View,
    image: &Image,
    last: &LeftView,
    earlier: &[LeftView],
) -> Result<Option<Archive>, NoMemory>
    requires spelled { IsImage Two (image_as image.now) }
    requires placed { AreByPlace (image_as image.now).delivered }
    requires number { genesis.number ≡ 0 }
    requires parts { (image_as image.now).left ≡ map left_view earlier.now ++ left_view last.now ∷ [] }
    ensures exact { (s : Setting) → Judges s (V.valid judge.now.scheme.now) judge.now.group.now judge.now.roster.now genesis
        → AreLeft s genesis (image_as image.now).left → IfOk result (λ r. IsTrue (is_some r) ↔ IsLastSo s (image_as image.now)) }
    ensures past { (s : Setting) → Judges s (V.valid judge.now.scheme.now) judge.now.group.now judge.now.roster.now genesis
        → AreLeft s genesis (image_as image.now).left → IfOk result (λ r. IfSome r (HasPast s (image_as image.now))) }
{
    match past_before(alloc, genesis, earlier)? {
        Some(past) => archive_after(alloc, judge, image, last, past),
        None => Ok(None),
    }
}

// What is kept where no view was left: nothing, as long as nothing was heard in a view before.
fn nothing_left(alloc: Global, previous: &[KeptClaim]) -> Result<Option<Archive>, NoMemory>
    ensures exact { IfOk result (λ r. IsTrue (is_some r) ↔ (previous.now ≡ [])) }
    ensures past { (s : Setting) (i : _) → i.left ≡ [] → IfOk result (λ r. IfSome r (HasPast s i)) }
{
    if previous.is_empty() {
        Ok(Some(Archive::new(alloc)?))
    } else {
        Ok(None)
    }
}

// What is kept of the views that were left, where each of them was left by its commit certificate; None exactly where the last one was not
// left as the image says.
fn archive_in<V: Scheme>(
    alloc: Global,
    judge: &Judge<'_, V>,
    genesis: View,
    image: &Image,
) -> Result<Option<Archive>, NoMemory>
    requires spelled { IsImage Two (image_as image.now) }
    requires placed { AreByPlace (image_as image.now).delivered }
    requires number { genesis.number ≡ 0 }
    ensures exact { (s : Setting) → Judges s (V.valid judge.now.scheme.now) judge.now.group.now judge.now.roster.now genesis
        → AreLeft s genesis (image_as image.now).left → IfOk result (λ r. IsTrue (is_some r) ↔ IsLeftSo s (image_as image.now)) }
    ensures past { (s : Setting) → Judges s (V.valid judge.now.scheme.now) judge.now.group.now judge.now.roster.now genesis
        → AreLeft s genesis (image_as image.now).left → IfOk result (λ r. IfSome r (HasPast s (image_as image.now))) }
{
    match image.left.split_last() {
        Some((last, earlier)) => archive_of(alloc, judge, genesis, image, last, earlier),
        None => nothing_left(alloc, &image.previous),
    }
}

// Both, where there is an archive.
fn with_view(archive: Option<Archive>, view: View) -> Result<Option<Left>, NoMemory>
    ensures some { IfOk result (λ r. is_some r ≡ is_some archive) }
    ensures view { IfOk result (λ r. IfSome r (λ l. l.view ≡ view)) }
    ensures archive { IfOk result (λ r. IfSome r (λ l. archive ≡ Some l.archive)) }
{
    match archive {
        Some(archive) => Ok(Some(Left { archive, view })),
        None => Ok(None),
    }
}

/// What is kept of the views that the image says were left, and the view after them; None exactly where they were not left so.
pub fn left_in<V: Scheme>(
    alloc: Global,
    judge: &Judge<'_, V>,
    genesis: &View,
    image: &Image,
) -> Result<Option<Left>, NoMemory>
    requires spelled { IsImage Two (image_as image.now) }
    requires placed { AreByPlace (image_as image.now).delivered }
    requires number { genesis.now.number ≡ 0 }
    ensures exact { (s : Setting) → Judges s (V.valid judge.now.scheme.now) judge.now.group.now judge.now.roster.now genesis.now
        → IfOk result (λ r. IsTrue (is_some r) ↔ IsLeftSo s (image_as image.now)) }
    ensures past { (s : Setting) → Judges s (V.valid judge.now.scheme.now) judge.now.group.now judge.now.roster.now genesis.now
        → IfOk result (λ r. IfSome r (λ l. (l.view ≡ behind genesis.now (image_as image.now).left)
        × HasPast s (image_as image.now) l.archive)) }
{
    match view_behind(
        judge.scheme,
        judge.roster,
        judge.group,
        copied(genesis),
        &image.left,
    ) {
        Some(view) => with_view(archive_in(alloc, judge, copied(genesis), image)?, view),
        None => Ok(None),
    }
}
