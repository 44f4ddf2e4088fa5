//! A journal begins with
//!
//! | Field | Bytes |
//! |---|---|
//! | the letters `RPJ1` or `RPJ2` | 4 |
//! | group | 16 |
//! | hosted processes, bit p for process p | 8 |
//! | digest of the kit | 32 |
ghost use Rattle.std.specs.Prelude.{◌≡◌, ◌≢◌, ◌++◌, ◌∷◌, [], length, IfSome, IfNone};
ghost use Rattle.journal_defs.specs.Journals.{magic, header_bytes, behind_magic, closed_gate};
ghost use Rattle.journal_defs.specs.declared.Version.TheVariants.{Two};
ghost use Rattle.std.specs.Int.{w64, to_be_bytes};
ghost use Rattle.rp_base.specs.Pids.{mask_of};
ghost use Rattle.journal_rp.specs.Headers.{header, of_kind};

use journal_defs::Version;
use rp_base::{GroupId, PidSet};

pub(crate) const HEADER_BYTES: usize = 60;

/// The bytes of a journal without entries: its header and a closed gate.
pub(crate) const FRESH_BYTES: usize = 61;

/// Whose journal it is: the header after its magic.
#[derive(Clone, Copy)]
pub struct Header {
    /// The group.
    pub group: GroupId,

    /// The processes that the journal hosts.
    pub hosted: PidSet,

    /// SHA-256 of the public part of their kit.
    pub digest: [u8; 32],
}

fn letters(version: Version) -> &'static [u8; 4]
    ensures { result.now ≡ magic version }
{
    match version {
        Version::One => b"RPJ1",
        Version::Two => b"RPJ2",
    }
}

// The header with this magic, over all of `out`.
fn put_header(version: Version, of: &Header, out: &mut [u8])
    requires { length out.old ≡ 60 }
    ensures { out.new ≡ header_bytes version (header of.now) }
{
    let (front, rest) = out.split_at_mut(4);
    front.copy_from_slice(letters(version));
    put_behind_magic(of, rest);
}

fn put_behind_magic(of: &Header, out: &mut [u8])
    requires { length out.old ≡ 56 }
    ensures { out.new ≡ behind_magic (header of.now) }
{
    let (group, rest) = out.split_at_mut(16);
    group.copy_from_slice(of.group.bytes());
    let (hosted, rest) = rest.split_at_mut(8);
    hosted.copy_from_slice(&mask_bytes(of.hosted));
    rest.copy_from_slice(&of.digest);
}

fn mask_bytes(set: PidSet) -> [u8; 8]
    ensures { result ≡ to_be_bytes w64 (mask_of set) }
{
    set.mask().to_be_bytes()
}

/// The header with this magic.
pub(crate) fn header_with(version: Version, of: &Header) -> [u8; HEADER_BYTES]
    ensures value { result ≡ header_bytes version (header of.now) }
    ensures length { length result ≡ 60 }
{
    let mut out = [0; HEADER_BYTES];
    put_header(version, of, &mut out);
    out
}

/// A journal without entries: the header of a new journal, and a closed gate.
pub(crate) fn fresh_with(of: &Header) -> [u8; FRESH_BYTES]
    ensures value { result ≡ header_bytes Two (header of.now) ++ closed_gate ∷ [] }
    ensures length { length result ≡ 61 }
{
    let mut out = [0; FRESH_BYTES];
    let (front, _) = out.split_at_mut(HEADER_BYTES);
    put_header(Version::Two, of, front);
    out
}

/// Which of the two headers these bytes are. None, exactly where they are neither.
pub(crate) fn version_of(found: &[u8], one: &[u8], two: &[u8]) -> Option<Version>
    ensures which { IfSome result (λ v. found.now ≡ of_kind v one.now two.now) }
    ensures none { IfNone result ((found.now ≢ one.now) × (found.now ≢ two.now)) }
{
    if found == two {
        return Some(Version::Two);
    }
    if found == one {
        return Some(Version::One);
    }
    None
}
