//! A journal begins with
//!
//! | Field | From byte | Bytes |
//! |---|---|---|
//! | the letters `RPJ1` or `RPJ2` | 0 | 4 |
//! | group | 4 | 16 |
//! | hosted processes, bit p for process p | 20 | 8 |
//! | digest of the kit | 28 | 32 |
ghost use Rattle.std.specs.Prelude.{◌≡◌, ◌+◌, ◌≤◌, ◌&&◌, length, map, take, drop};
ghost use Rattle.byte_defs.specs.Equality.{same_bytes};
ghost use Rattle.std.specs.List.{list_all};
ghost use Rattle.byte_defs.specs.Members.{has};
ghost use Rattle.audit_defs.specs.Sources.{version_of, hosted_of};

use journal_defs::Version;
use rp_base::{GroupId, PidSet, Roster};

const LETTERS: usize = 4;

const GROUP: usize = 4;

const HOSTED: usize = 20;

const DIGEST: usize = 28;

// `count` bytes from this place on.
fn field(journal: &[u8], at: usize, count: usize) -> &[u8]
    requires { at + count ≤ length journal.now }
    ensures bytes { result.now ≡ take count (drop at journal.now) }
    ensures length { length result.now ≡ count }
{
    let (_, behind) = journal.split_at(at);
    let (field, _) = behind.split_at(count);
    field
}

/// The kind that the letters name; None where they name none.
pub(crate) fn version_in(journal: &[u8]) -> Option<Version>
    requires { 60 ≤ length journal.now }
    ensures { result ≡ version_of journal.now }
{
    let (letters, _) = journal.split_at(LETTERS);
    if letters == b"RPJ1".as_slice() {
        return Some(Version::One);
    }
    if letters == b"RPJ2".as_slice() {
        return Some(Version::Two);
    }
    None
}

/// The processes that the journal hosts.
pub(crate) fn hosted_in(journal: &[u8]) -> PidSet
    requires { 60 ≤ length journal.now }
    ensures { result ≡ hosted_of journal.now }
{
    let f = field(journal, HOSTED, 8);
    PidSet::from_mask(u64::from_be_bytes([f[0], f[1], f[2], f[3], f[4], f[5], f[6], f[7]]))
}

// Each process of the set is in the other one.
fn is_within(set: PidSet, other: PidSet) -> bool
    ensures { result ≡ list_all (has other) set }
{
    let mut rest = set;
    'rest: while let Some(p) = rest.pop_first() {
        if !other.contains(p) {
            return false;
        }
    }
    true
}

/// The group and the digest are these, and each hosted process is in the roster.
pub(crate) fn is_of(group: &GroupId, roster: &Roster, digest: &[u8; 32], journal: &[u8]) -> bool
    requires { 60 ≤ length journal.now }
    ensures { result ≡ (same_bytes (take 16 (drop 4 journal.now)) group.now
        && list_all (has (map (λ k. k.0) roster.now)) (hosted_of journal.now)
        && same_bytes (take 32 (drop 28 journal.now)) digest.now) }
{
    field(journal, GROUP, 16) == group.bytes().as_slice()
        && is_within(hosted_in(journal), roster.processes())
        && field(journal, DIGEST, 32) == digest.as_slice()
}
