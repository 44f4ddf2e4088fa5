//! Pieces of a disk's bytes, read. Nothing on the disk changes, and no crash leaves anything new.
ghost use Rattle.std.specs.Prelude.{◌≡◌, ◌+◌, ◌^◌, ◌<◌, ◌≤◌, ◌∷◌, [], length, OnOk, IfOk, IfSome};
ghost use Rattle.rp_base.specs.Causes.{HasCause};
ghost use Rattle.byte_defs.specs.Fields.{four_bytes};
ghost use Rattle.journal_disk.specs.Disks.{BeginsAt, HasLength, OnlyReads};

use rp_base::{Disk, Failed};

/// How many bytes there are.
pub fn length_of<D: Disk>(disk: &mut D) -> Result<u64, Failed>
    ensures value { IfOk result (λ n. HasLength (D.seen disk.old) n) }
    ensures disk { OnlyReads D.seen D.may_leave D.moment D.left_since disk.old disk.new }
    ensures cause { HasCause (D.faults disk.old) (D.faults disk.new) result }
{
    disk.len()
}

/// Fills the buffer with the bytes from this place on.
pub fn fill_from<D: Disk>(disk: &mut D, at: u64, into: &mut [u8]) -> Result<(), Failed>
    requires { IfSome (D.seen disk.old) (λ file. at + length into.old ≤ length file) }
    ensures bytes { OnOk result (IfSome (D.seen disk.old) (λ file. BeginsAt file at into.new)) }
    ensures disk { OnlyReads D.seen D.may_leave D.moment D.left_since disk.old disk.new }
    ensures cause { HasCause (D.faults disk.old) (D.faults disk.new) result }
{
    disk.read_at(at, into)
}

/// The byte at this place.
pub fn byte_at<D: Disk>(disk: &mut D, at: u64) -> Result<u8, Failed>
    requires { IfSome (D.seen disk.old) (λ file. at + 1 ≤ length file) }
    ensures value { IfOk result (λ b. IfSome (D.seen disk.old) (λ file. BeginsAt file at (b ∷ []))) }
    ensures disk { OnlyReads D.seen D.may_leave D.moment D.left_since disk.old disk.new }
    ensures cause { HasCause (D.faults disk.old) (D.faults disk.new) result }
{
    let mut found = [0; 1];
    fill_from(disk, at, &mut found)?;
    let [byte] = found;
    Ok(byte)
}

/// The number of four bytes at this place.
pub fn long_at<D: Disk>(disk: &mut D, at: u64) -> Result<u32, Failed>
    requires { IfSome (D.seen disk.old) (λ file. at + 4 ≤ length file) }
    ensures value { IfOk result (λ n. IfSome (D.seen disk.old) (λ file. BeginsAt file at (four_bytes n))) }
    ensures below { IfOk result (λ n. n < 2 ^ 32) }
    ensures disk { OnlyReads D.seen D.may_leave D.moment D.left_since disk.old disk.new }
    ensures cause { HasCause (D.faults disk.old) (D.faults disk.new) result }
{
    let mut found = [0; 4];
    fill_from(disk, at, &mut found)?;
    Ok(long_of(&found))
}

// The number that is spelled so.
fn long_of(found: &[u8]) -> u32
    requires { length found.now ≡ 4 }
    ensures { four_bytes result ≡ found.now }
{
    u32::from_be_bytes([found[0], found[1], found[2], found[3]])
}
