ghost use Rattle.std.specs.Prelude.{◌≡◌, ◌≢◌, ◌+◌, ◌≤◌, [], ◌∷◌, ◌++◌, length, Some, IfOk, OnOk, OnErr, IsErr, IsTrue, is_err};
ghost use Rattle.rp_base.specs.Causes.{HasCause};
ghost use Rattle.rp_base.specs.Disks.{Reads, Writes, Torn, Follows, SameImages, NoNewImage, Only, Elapses};
ghost use Rattle.rp_devices.specs.Calls.{is_to_fail, one_more, fresh};
ghost use Rattle.rp_devices.specs.Held.{opened, after, put};

use crate::bytes::{put_over, take_from};
use crate::calls::{Calls, no_calls};
use crate::change::{Change, Left};
use crate::images::remains_of;
use rp_base::{Disk, Failed, NoMemory};
use std::alloc::{AllocError, Global};
use std::mem;

/// A disk in memory, which remembers each change. A call fails if its number is in a list, the first being
/// number 0, if it finds no memory, and from the call on at which the disk is stopped. A write at which it stops may
/// be torn; any other call that fails changes nothing.
pub struct MemDisk {
    alloc: Global,
    bytes: Vec<u8>,
    first: Vec<u8>,
    log: Vec<Change>,
    calls: Calls,
    ghost remembered: { bytes.items ≡ (after (opened first.items) log.items).file },
}

// Written out, so that whoever drops a disk makes one call: a derived drop is proved anew, down to the last field, wherever a value is
// dropped.
impl Drop for MemDisk {
    fn drop(self) {
        let MemDisk {
            alloc: _,
            bytes,
            first,
            log,
            calls,
        } = self;
        mem::drop(bytes);
        mem::drop(first);
        mem::drop(log);
        mem::drop(calls);
    }
}

impl MemDisk {
    ghost use Rattle.rp_devices.specs.Disks.{first_bytes, log_of, disk_calls, disk_bytes, held};
    ghost use Rattle.rp_devices.specs.Held.{IsImage, left_of};

    /// A disk with these bytes, all of which are kept, and the numbers of the calls that are to fail.
    pub fn new(alloc: Global, bytes: Vec<u8>, failing: Vec<u64>) -> Result<MemDisk, NoMemory>
        ensures first { IfOk result (λ disk. first_bytes disk ≡ bytes.items) }
        ensures log { IfOk result (λ disk. log_of disk ≡ []) }
        ensures calls { IfOk result (λ disk. disk_calls disk ≡ fresh failing) }
    {
        let first = bytes.to_vec(alloc)?;
        Ok(MemDisk {
            alloc,
            bytes,
            first,
            log: Vec::new(alloc),
            calls: no_calls(failing),
        })
    }

    /// Stops the disk at the call of this number: it and each later one fails.
    pub fn stop_at(&mut self, call: u64)
        ensures calls { disk_calls self.new ≡ record (disk_calls self.old) { stop = call } }
        ensures first { first_bytes self.new ≡ first_bytes self.old }
        ensures log { log_of self.new ≡ log_of self.old }
    {
        self.calls.stop = call;
    }

    /// How many calls were made.
    pub fn calls(&self) -> u64
        ensures { result ≡ (disk_calls self.now).made }
    {
        self.calls.made
    }

    /// What a read gives.
    pub fn bytes(&self) -> &[u8]
        ensures bytes { result.now ≡ disk_bytes self.now }
        ensures held { result.now ≡ (held self.now).file }
    {
        self.bytes.as_slice()
    }

    /// What a crash now leaves, of the writes since the last sync that much.
    pub fn image(&self, left: Left) -> Result<Vec<u8>, NoMemory>
        ensures which { IfOk result (λ image. image.items ≡ left_of left (held self.now)) }
        ensures image { IfOk result (λ image. IsImage (held self.now) image.items) }
    {
        self.left(left)
    }

    fn left(&self, left: Left) -> Result<Vec<u8>, NoMemory>
        ensures { IfOk result (λ image. image.items ≡ left_of left (held self.now)) }
    {
        let byte = match left {
            Left::All => return Ok(self.bytes.to_vec(self.alloc)?),
            Left::Nothing => None,
            Left::Each(byte) => Some(byte),
        };
        Ok(remains_of(self.alloc, &self.first, &self.log, byte)?)
    }

    /// What was changed, in order.
    pub fn log(&self) -> &[Change]
        ensures { result.now ≡ log_of self.now }
    {
        self.log.as_slice()
    }
}

impl MemDisk {
    ghost use Rattle.rp_devices.specs.Disks.{first_bytes, log_of, disk_calls, disk_bytes, held, IsWritten};
    ghost use Rattle.rp_devices.specs.declared.change.Change.TheVariants.{Synced};

    // Remembers a write and makes it. Where there is no memory, nothing has changed.
    fn write(&mut self, at: u64, piece: &[u8]) -> Result<(), AllocError>
        requires { at ≤ length (disk_bytes self.old) }
        ensures ok { OnOk result (IsWritten self.old self.new at piece.now) }
        ensures err { OnErr result ((log_of self.new ≡ log_of self.old) × (disk_bytes self.new ≡ disk_bytes self.old)) }
        ensures first { first_bytes self.new ≡ first_bytes self.old }
        ensures calls { disk_calls self.new ≡ disk_calls self.old }
    {
        let change = Change::Wrote {
            at,
            piece: piece.to_vec(self.alloc)?,
        };
        self.log.push(change)?;
        match put_over(&mut self.bytes, at as usize, piece) {
            Ok(()) => Ok(()),
            Err(refused) => {
                let _ = self.log.pop();
                Err(refused)
            }
        }
    }

    // Remembers a sync. Where there is no memory, nothing has changed.
    fn keep(&mut self) -> Result<(), AllocError>
        ensures ok { OnOk result (log_of self.new ≡ log_of self.old ++ Synced ∷ []) }
        ensures err { OnErr result (log_of self.new ≡ log_of self.old) }
        ensures bytes { disk_bytes self.new ≡ disk_bytes self.old }
        ensures first { first_bytes self.new ≡ first_bytes self.old }
        ensures calls { disk_calls self.new ≡ disk_calls self.old }
    {
        match self.log.push(Change::Synced) {
            Ok(()) => Ok(()),
            Err(refused) => Err(AllocError::from(refused)),
        }
    }
}

impl Disk for MemDisk {
    ghost use Rattle.rp_devices.specs.Disks.{first_bytes, log_of, disk_calls, disk_bytes, held};
    ghost use Rattle.rp_devices.specs.Held.{IsImage, LeftSince, counts_now, only_now};
    ghost use Rattle.std.proofs.Common.{inl};

    ghost seen = { λ d. Some (disk_bytes d) };

    ghost may_leave = { λ d. IsImage (held d) };

    ghost moment = { λ d. length (log_of d) };

    ghost left_since = { λ d. LeftSince (first_bytes d) (log_of d) };

    ghost faults = { λ d. (disk_calls d).faults };

    ghost reads_image = { λ d. inl d.remembered };

    ghost counts_now = { λ d t c le now. counts_now (first_bytes d) (log_of d) t c le now };

    ghost only_now = { λ d c left. only_now (first_bytes d) (log_of d) c left };

    fn len(&mut self) -> Result<u64, Failed>
        ensures value { IfOk result (λ n. n ≡ length (disk_bytes self.old)) }
        ensures seen { Some (disk_bytes self.new) ≡ Some (disk_bytes self.old) }
        ensures crash { SameImages (IsImage (held self.old)) (IsImage (held self.new)) }
        ensures time { Elapses (length (log_of self.old)) (length (log_of self.new)) (LeftSince (first_bytes self.old) (log_of self.old))
            (LeftSince (first_bytes self.new) (log_of self.new)) (IsImage (held self.new)) }
        ensures cause { HasCause (disk_calls self.old).faults (disk_calls self.new).faults result }
        ensures fails { is_err result ≡ is_to_fail (disk_calls self.old) }
        ensures made { (disk_calls self.new).made ≡ one_more (disk_calls self.old).made }
    {
        if self.calls.next_fails() {
            return Err(Failed);
        }
        Ok(self.bytes.len() as u64)
    }

    fn read_at(&mut self, at: u64, into: &mut [u8]) -> Result<(), Failed>
        requires { at + length into.old ≤ length (disk_bytes self.old) }
        ensures bytes { OnOk result (Reads (Some (disk_bytes self.old)) at into.new) }
        ensures seen { Some (disk_bytes self.new) ≡ Some (disk_bytes self.old) }
        ensures crash { SameImages (IsImage (held self.old)) (IsImage (held self.new)) }
        ensures time { Elapses (length (log_of self.old)) (length (log_of self.new)) (LeftSince (first_bytes self.old) (log_of self.old))
            (LeftSince (first_bytes self.new) (log_of self.new)) (IsImage (held self.new)) }
        ensures cause { HasCause (disk_calls self.old).faults (disk_calls self.new).faults result }
        ensures fails { is_err result ≡ is_to_fail (disk_calls self.old) }
        ensures made { (disk_calls self.new).made ≡ one_more (disk_calls self.old).made }
    {
        if self.calls.next_fails() {
            return Err(Failed);
        }
        take_from(&self.bytes, at as usize, into);
        Ok(())
    }

    fn write_at(&mut self, at: u64, piece: &[u8]) -> Result<(), Failed>
        requires { at ≤ length (disk_bytes self.old) }
        ensures written { OnOk result (Writes (Some (disk_bytes self.old)) (Some (disk_bytes self.new)) at piece.now) }
        ensures crash { Follows (Torn at (length piece.now)) (IsImage (held self.old)) (IsImage (held self.new)) }
        ensures time { Elapses (length (log_of self.old)) (length (log_of self.new)) (LeftSince (first_bytes self.old) (log_of self.old))
            (LeftSince (first_bytes self.new) (log_of self.new)) (IsImage (held self.new)) }
        ensures cause { HasCause (disk_calls self.old).faults (disk_calls self.new).faults result }
        ensures fails { IsTrue (is_to_fail (disk_calls self.old)) → IsErr result }

        // A call that is to fail changes nothing, but for the one at which the disk is stopped.
        ensures idle { IsTrue (is_to_fail (disk_calls self.old)) → (disk_calls self.old).made ≢ (disk_calls self.old).stop
            → (log_of self.new ≡ log_of self.old) × (disk_bytes self.new ≡ disk_bytes self.old) }
        ensures made { (disk_calls self.new).made ≡ one_more (disk_calls self.old).made }
    {
        let stops = self.calls.made == self.calls.stop;
        let fails = self.calls.next_fails();
        if fails && !stops {
            return Err(Failed);
        }
        match self.write(at, piece) {
            Ok(()) if fails => Err(Failed),
            Ok(()) => Ok(()),
            Err(_) => {
                self.calls.fault();
                Err(Failed)
            }
        }
    }

    fn sync(&mut self) -> Result<(), Failed>
        ensures durable { OnOk result (Only (disk_bytes self.old) (IsImage (held self.new))) }
        ensures seen { Some (disk_bytes self.new) ≡ Some (disk_bytes self.old) }
        ensures crash { NoNewImage (IsImage (held self.old)) (IsImage (held self.new)) }
        ensures time { Elapses (length (log_of self.old)) (length (log_of self.new)) (LeftSince (first_bytes self.old) (log_of self.old))
            (LeftSince (first_bytes self.new) (log_of self.new)) (IsImage (held self.new)) }
        ensures cause { HasCause (disk_calls self.old).faults (disk_calls self.new).faults result }
        ensures fails { IsTrue (is_to_fail (disk_calls self.old)) → IsErr result }
        ensures idle { IsTrue (is_to_fail (disk_calls self.old)) → log_of self.new ≡ log_of self.old }
        ensures made { (disk_calls self.new).made ≡ one_more (disk_calls self.old).made }
    {
        if self.calls.next_fails() {
            return Err(Failed);
        }
        match self.keep() {
            Ok(()) => Ok(()),
            Err(_) => {
                self.calls.fault();
                Err(Failed)
            }
        }
    }
}
