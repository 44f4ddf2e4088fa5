//! An image as the bytes of a snapshot have it (docs/FORMATS.md, «Images»).
ghost use Rattle.std.specs.Prelude.{◌≡◌, ◌+◌, Ok, IfOk, length, map};
ghost use Rattle.byte_defs.specs.Reads.{Gives, Makes};
ghost use Rattle.image_defs.specs.Images as images;
ghost use Rattle.snapshot_defs.specs.Reading as plain;
ghost use Rattle.snapshot_defs.specs.Spelling.{spelled};
ghost use Rattle.snapshot_defs.specs.Ranges.{IsImage};
ghost use Rattle.snapshot_defs.specs.declared.Version.TheVariants.{Two};
ghost use Rattle.member_events.specs.Below.{report};
ghost use Rattle.snapshot_rp.specs.Faults.{fault_of, left_of};
ghost use Rattle.snapshot_rp.specs.Parts.{reported, claimed, settled};
ghost use Rattle.snapshot_rp.specs.Views.{left_view, perceived, image};

use crate::claim::KeptClaim;
use crate::cursor::Cursor;
use crate::entries::{Reading, entries, list};
use crate::fault::{ReadError, SnapshotFault};
use crate::image::{Image, LeftView};
use crate::parts::{LAST_RANK, claims};
use crate::rising::rises;
use member_events::{Delivered, LAST_NUMBER, Payload};
use rp_base::{Pid, Update, Value};
use snapshot_defs::Version;
use std::alloc::Global;

const PROCESSES: u8 = 64;

#[derive(Drop)]
struct Reported {
    me: Pid,
    left: Vec<LeftView>,
    perceived: Vec<(u16, Update)>,
    accepted: Vec<Payload>,
}

#[derive(Drop)]
struct Claimed {
    signed: Vec<KeptClaim>,
    previous: Vec<KeptClaim>,
    heard: Vec<KeptClaim>,
    conflicts: Vec<(KeptClaim, KeptClaim)>,
}

#[derive(Drop)]
struct Settled {
    delivered: Vec<Vec<Delivered>>,
    decision: Option<(u8, Value)>,
    halted: bool,
}

fn left_views(reading: Reading, cursor: &mut Cursor<'_>) -> Result<Vec<LeftView>, ReadError>
    ensures { Makes left_of (λ ls. (map left_view ls.items, cursor.new.rest.now)) result (plain.all_left_at cursor.old.rest.now) }
{
    let count = cursor.short_to(LAST_NUMBER)?;
    entries(reading, cursor, usize::from(count))
}

fn perceived_pairs(
    reading: Reading,
    cursor: &mut Cursor<'_>,
) -> Result<Vec<(u16, Update)>, ReadError>
    ensures { Makes left_of (λ es. (map perceived es.items, cursor.new.rest.now)) result (plain.all_perceived_at cursor.old.rest.now) }
{
    let fault = cursor.rest.len();
    let pairs = list(reading, cursor)?;
    if rises(pairs.as_slice()) {
        Ok(pairs)
    } else {
        Err(ReadError::Fault(fault))
    }
}

fn conflicts(
    reading: Reading,
    cursor: &mut Cursor<'_>,
) -> Result<Vec<(KeptClaim, KeptClaim)>, ReadError>
    ensures { Makes left_of (λ es. (es.items, cursor.new.rest.now)) result (plain.all_conflicts_at cursor.old.rest.now) }
{
    let fault = cursor.rest.len();
    let count = cursor.byte_to(PROCESSES)?;
    let pairs = entries(reading, cursor, usize::from(count))?;
    if rises(pairs.as_slice()) {
        Ok(pairs)
    } else {
        Err(ReadError::Fault(fault))
    }
}

// The own number, the views that were left, the perceived pairs and the accepted payloads.
#[tactic(auto, unfolding(snapshot_defs::specs::Reading::reported_at))]
fn read_reported(reading: Reading, cursor: &mut Cursor<'_>) -> Result<Reported, ReadError>
    ensures { Makes left_of (λ t. (reported t, cursor.new.rest.now)) result (plain.reported_at cursor.old.rest.now) }
{
    let me = cursor.process()?;
    let left = left_views(reading, cursor)?;
    let perceived = perceived_pairs(reading, cursor)?;
    let accepted = list(reading, cursor)?;
    Ok(Reported {
        me,
        left,
        perceived,
        accepted,
    })
}

// The signed claims, those that were heard before, those that are heard, and the conflicts.
#[tactic(auto, unfolding(snapshot_defs::specs::Reading::claimed_at))]
fn read_claimed(reading: Reading, cursor: &mut Cursor<'_>) -> Result<Claimed, ReadError>
    ensures { Makes left_of (λ c. (claimed c, cursor.new.rest.now)) result (plain.claimed_at cursor.old.rest.now) }
{
    let signed = claims(reading, cursor)?;
    let previous = claims(reading, cursor)?;
    let heard = claims(reading, cursor)?;
    let conflicts = conflicts(reading, cursor)?;
    Ok(Claimed {
        signed,
        previous,
        heard,
        conflicts,
    })
}

#[tactic(auto, unfolding(snapshot_defs::specs::Reading::decision_at))]
fn decision(cursor: &mut Cursor<'_>) -> Result<Option<(u8, Value)>, usize>
    ensures { Gives (λ d. (report d, cursor.new.rest.now)) result (plain.decision_at cursor.old.rest.now) }
{
    let tag = cursor.byte_to(1)?;
    if tag == 0 {
        return Ok(None);
    }
    let rank = cursor.byte_to(LAST_RANK)?;
    let value = cursor.value()?;
    Ok(Some((rank, value)))
}

#[tactic(auto, unfolding(snapshot_defs::specs::Reading::halted_at))]
fn halted(cursor: &mut Cursor<'_>) -> Result<bool, usize>
    ensures { Gives (λ h. (h, cursor.new.rest.now)) result (plain.halted_at cursor.old.rest.now) }
{
    let tag = cursor.byte_to(1)?;
    Ok(tag == 1)
}

// What was delivered in `views` views, the decision, and whether the process has halted.
#[tactic(auto, unfolding(snapshot_defs::specs::Reading::settled_at))]
fn read_settled(
    reading: Reading,
    cursor: &mut Cursor<'_>,
    views: usize,
) -> Result<Settled, ReadError>
    ensures { Makes left_of (λ s. (settled s, cursor.new.rest.now)) result (plain.settled_at reading.version views cursor.old.rest.now) }
{
    let delivered = entries(reading, cursor, views)?;
    let decision = decision(cursor)?;
    let halted = halted(cursor)?;
    Ok(Settled {
        delivered,
        decision,
        halted,
    })
}

#[tactic(auto, unfolding(snapshot_defs::specs::Reading::image_at))]
fn read_image(reading: Reading, cursor: &mut Cursor<'_>) -> Result<Image, ReadError>
    ensures { Makes left_of (λ i. (image i, cursor.new.rest.now)) result (plain.image_at reading.version cursor.old.rest.now) }
{
    let reported = read_reported(reading, cursor)?;
    let claimed = read_claimed(reading, cursor)?;
    let settled = read_settled(reading, cursor, reported.left.len() + 1)?;
    Ok(Image {
        me: reported.me,
        left: reported.left,
        perceived: reported.perceived,
        accepted: reported.accepted,
        signed: claimed.signed,
        previous: claimed.previous,
        heard: claimed.heard,
        conflicts: claimed.conflicts,
        delivered: settled.delivered,
        decision: settled.decision,
        halted: settled.halted,
    })
}

#[tactic(auto, unfolding(snapshot_defs::specs::Reading::whole_at))]
fn read_whole(reading: Reading, bytes: &[u8]) -> Result<Image, ReadError>
    ensures { Makes left_of image result (plain.whole_at reading.version bytes.now) }
{
    let mut cursor = Cursor { rest: bytes };
    let image = read_image(reading, &mut cursor)?;
    if !cursor.rest.is_empty() {
        return Err(ReadError::Fault(cursor.rest.len()));
    }
    Ok(image)
}

#[tactic(auto, unfolding(snapshot_defs::specs::Reading::image_in))]
fn read_placed(alloc: Global, version: Version, bytes: &[u8]) -> Result<Image, SnapshotFault>
    ensures { Makes fault_of image result (plain.image_in version bytes.now) }
{
    match read_whole(Reading { alloc, version }, bytes) {
        Ok(image) => Ok(image),
        Err(ReadError::Fault(left)) => Err(SnapshotFault::Image(bytes.len().saturating_sub(left))),
        Err(ReadError::NoMemory) => Err(SnapshotFault::NoMemory),
    }
}

/// The image that the bytes spell in this version, all of them. Room is taken for what was read, and for no length that is claimed.
///
/// # Errors
/// [`SnapshotFault::Image`] exactly where they spell none: at the first field that the bytes end in or that is out of its range, at the
/// beginning of the perceived pairs or the conflicts where these don't rise, or after the image where bytes are left.
/// [`SnapshotFault::NoMemory`] where room is refused.
pub fn read_snapshot(alloc: Global, version: Version, bytes: &[u8]) -> Result<Image, SnapshotFault>
    // What is read is in its ranges, and spelled so.
    ensures found { IfOk result (λ i. IsImage version (image i) × (bytes.now ≡ spelled version (image i))) }

    // It can be written, which is in version 2.
    ensures writable { IfOk result (λ i. IsImage Two (image i)) }

    // What is in its ranges and spelled so is read.
    ensures only { (i : images.Image) → IsImage version i → bytes.now ≡ spelled version i → Makes fault_of image result (Ok i) }

    // Which image, or which fault, it is.
    ensures exact { Makes fault_of image result (plain.image_in version bytes.now) }
{
    read_placed(alloc, version, bytes)
}
