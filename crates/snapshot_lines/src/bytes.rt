//! What the bytes of a snapshot say.
ghost use Rattle.std.specs.Prelude.{◌≡◌, All, IfOk, map};
ghost use Rattle.byte_defs.specs.Reads.{Gives, Makes};
ghost use Rattle.snapshot_defs.specs.Reading.{image_in};
ghost use Rattle.snapshot_defs.specs.Ranges.{IsImage};
ghost use Rattle.snapshot_defs.specs.declared.Version.TheVariants.{Two};
ghost use Rattle.snapshot_rp.specs.Views.{image as image_as};
ghost use Rattle.resume_laws.specs.Said as plain;
ghost use Rattle.snapshot_lines.specs.Views.{ArePartsOf, left_of, part_as, said_as};

use crate::cursor::Cursor;
use crate::fault::ReadError;
use rp_base::{Pid, PidSet};
use snapshot_rp::{Image, SnapshotFault, Version, read_snapshot};
use std::alloc::Global;

/// What a snapshot has of one process.
#[derive(Drop)]
pub struct Part {
    /// The process.
    pub process: Pid,

    /// How many entries it has in the journal before the place.
    pub entries: u64,

    /// The process, as it is after them.
    pub image: Image,
}

/// What a snapshot says of the processes that it is read for.
#[derive(Drop)]
pub struct SnapSaid {
    /// The version of its images.
    pub version: Version,

    /// The header of its journal, without the magic.
    pub header: [u8; 56],

    /// The place of the journal at which a node goes on.
    pub place: u64,

    /// SHA-256 of the journal's bytes before it.
    pub digest: [u8; 32],

    /// A part for each process, by rising number.
    pub parts: Vec<Part>,
}

// The version of a snapshot with these letters, else this fault.
fn version_by(magic: &[u8], fault: usize) -> Result<Version, usize>
    ensures { Gives (λ v. v) result (plain.or_fault fault (plain.version_of magic.now)) }
{
    if magic == b"RPN1".as_slice() {
        Ok(Version::One)
    } else if magic == b"RPN2".as_slice() {
        Ok(Version::Two)
    } else {
        Err(fault)
    }
}

// The image that all of the bytes spell.
fn image_of(alloc: Global, version: Version, bytes: &[u8]) -> Result<Image, ReadError>
    ensures read { Makes left_of image_as result (image_in version bytes.now) }
    ensures writable { IfOk result (λ i. IsImage Two (image_as i)) }
{
    match read_snapshot(alloc, version, bytes) {
        Ok(image) => Ok(image),
        Err(SnapshotFault::Image(place)) => Err(ReadError::Fault(place)),
        Err(SnapshotFault::NoMemory) => Err(ReadError::NoMemory),
    }
}

// The part of this process.
#[tactic(auto, unfolding(resume_laws::specs::Said::part_at))]
fn read_part(
    alloc: Global,
    version: Version,
    process: Pid,
    cursor: &mut Cursor<'_>,
) -> Result<Part, ReadError>
    ensures read { Makes left_of (λ part. (part_as part, cursor.new.rest.now)) result (plain.part_at version process cursor.old.rest.now) }
    ensures process { IfOk result (λ part. part.process ≡ process) }
    ensures writable { IfOk result (λ part. IsImage Two (image_as part.image)) }
{
    let entries = cursor.wide()?;
    let len = cursor.long()?;
    let field = cursor.bytes(len as usize)?;
    let image = image_of(alloc, version, field)?;
    Ok(Part {
        process,
        entries,
        image,
    })
}

// The parts of these processes, by rising number. Room is taken for what was read, and for no length that is claimed.
fn read_parts(
    alloc: Global,
    version: Version,
    hosted: PidSet,
    cursor: &mut Cursor<'_>,
) -> Result<Vec<Part>, ReadError>
    ensures read { Makes left_of (λ parts. (map part_as parts.items, cursor.new.rest.now)) result
        (plain.parts_at version hosted cursor.old.rest.now) }
    ensures parts { IfOk result (λ parts. ArePartsOf hosted (map part_as parts.items)) }
{
    let mut all = Vec::new(alloc);
    'hosted: for process in hosted.iter() {
        match read_part(alloc, version, process, cursor) {
            Ok(part) => all.push(part)?,
            Err(fault) => return Err(fault),
        }
    }
    Ok(all)
}

/// What all of the bytes say of these processes.
#[tactic(auto, unfolding(resume_laws::specs::Said::snapshot_in))]
pub(crate) fn said_by(alloc: Global, hosted: PidSet, bytes: &[u8]) -> Result<SnapSaid, ReadError>
    ensures read { Makes left_of said_as result (plain.snapshot_in hosted bytes.now) }
    ensures parts { IfOk result (λ said. ArePartsOf hosted (said_as said).parts) }
{
    let mut cursor = Cursor { rest: bytes };
    let magic = cursor.bytes(4)?;
    let version = version_by(magic, bytes.len())?;
    let header = cursor.field::<56>()?;
    let place = cursor.wide()?;
    let digest = cursor.field::<32>()?;
    let parts = read_parts(alloc, version, hosted, &mut cursor)?;
    if !cursor.rest.is_empty() {
        return Err(ReadError::Fault(cursor.rest.len()));
    }
    Ok(SnapSaid {
        version,
        header,
        place,
        digest,
        parts,
    })
}
