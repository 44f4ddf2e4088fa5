ghost use Rattle.std.specs.Prelude.{◌≡◌, ◌+◌, ◌≤◌, ◌++◌, List, ℕ, length, take, drop, OnOk, IfOk, IfSome};
ghost use Rattle.sha2.specs.Sha256.{sha256};
ghost use Rattle.sha2.specs.Hashers.{Holds256};
ghost use Rattle.rp_base.specs.Causes.{HasCause};
ghost use Rattle.journal_disk.specs.Disks.{OnlyReads};

use crate::pieces::fill_from;
use rp_base::{Disk, Failed};
use sha2::{Digest, Sha256};

const CHUNK_BYTES: u64 = 4096;

/// SHA-256 of the bytes before this place.
pub fn digest_before<D: Disk>(disk: &mut D, end: u64) -> Result<[u8; 32], Failed>
    requires { IfSome (D.seen disk.old) (λ file. end ≤ length file) }
    ensures value { IfOk result (λ digest. IfSome (D.seen disk.old) (λ file. digest ≡ sha256 (take end file))) }
    ensures disk { OnlyReads D.seen D.may_leave D.moment D.left_since disk.old disk.new }
    ensures cause { HasCause (D.faults disk.old) (D.faults disk.new) result }
{
    let mut hasher = Sha256::new();
    let mut at = 0;
    'chunks: while at < end {
        let n = (end - at).min(CHUNK_BYTES);
        hash_chunk(disk, &mut hasher, at, n)?;
        at += n;
    }
    Ok(hasher.finalize())
}

// Goes on with a hash by the `n` bytes from this place on.
fn hash_chunk<D: Disk>(disk: &mut D, hasher: &mut Sha256, at: u64, n: u64) -> Result<(), Failed>
    requires within { IfSome (D.seen disk.old) (λ file. at + n ≤ length file) }
    requires short { n ≤ 4096 }
    ensures hashed { OnOk result (IfSome (D.seen disk.old)
        (λ file. (m : List ℕ) → Holds256 hasher.old m → Holds256 hasher.new (m ++ take n (drop at file)))) }
    ensures disk { OnlyReads D.seen D.may_leave D.moment D.left_since disk.old disk.new }
    ensures cause { HasCause (D.faults disk.old) (D.faults disk.new) result }
{
    let mut chunk = [0; CHUNK_BYTES as usize];
    let (front, _) = chunk.split_at_mut(n as usize);
    fill_from(disk, at, front)?;
    hasher.update(&*front);
    Ok(())
}
