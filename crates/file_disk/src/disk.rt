ghost use Rattle.std.specs.Prelude.{◌≡◌, ◌≤◌, true, false, length, IfOk, IfSome, OnOk, OnErr};
ghost use Rattle.rp_base.specs.Causes.{HasCause, Rose};

use crate::named_file::NamedFile;
use rp_base::{Disk, Failed};
use std::rt::Files;

/// One file of the system's as a disk.
///
/// The first call opens the file, or makes it where nothing is at the path, and syncs it and its folder. A path that
/// names anything but a file, a link too, is not opened. A read or a write that the system cuts short is gone on with,
/// and a call that a signal interrupts is made again; every other error counts as one fault. After an opening or a sync
/// that failed each later call fails: the system may have let go of what was written, and a later sync would not show it.
///
/// It doesn't say what it holds, so no clause says which bytes a read gives or a crash may leave.
#[derive(Drop)]
pub struct FileDisk<'a, R: Files> {
    file: NamedFile<'a, R>,
    faults: u64,
}

impl<'a, R: Files> FileDisk<'a, R> {
    ghost use Rattle.file_disk.specs.Disks.{disk_faults, disk_is_open, disk_is_lost};

    /// Nothing is opened yet.
    pub fn new(rt: &'a R, path: &'a str) -> FileDisk<'a, R>
        ensures faults { disk_faults result ≡ 0 }
        ensures unopened { disk_is_open result ≡ false }
        ensures usable { disk_is_lost result ≡ false }
    {
        FileDisk {
            file: NamedFile::new(rt, path),
            faults: 0,
        }
    }
}

// One fault more.
fn fault(faults: &mut u64) -> Failed
    ensures rose { Rose faults.old faults.new }
    ensures later { faults.old ≤ faults.new }
{
    *faults = faults.saturating_add(1);
    Failed
}

impl<'a, R: Files> Disk for FileDisk<'a, R> {
    ghost use Rattle.rp_base.specs.Disks.{Reads, Writes, Torn, Follows, SameImages, NoNewImage, Only, Elapses};
    ghost use Rattle.file_disk.specs.Disks.{disk_faults, disk_is_open, disk_is_lost, StaysLostDisk, untold, any_bytes, any_since};

    ghost seen = { λ d. untold };

    ghost may_leave = { λ d. any_bytes };

    ghost moment = { λ d. 0 };

    ghost left_since = { λ d. any_since };

    ghost faults = { disk_faults };

    ghost reads_image = { λ d. tt };

    ghost counts_now = { λ d t c le now. now };

    ghost only_now = { λ d c left. left };

    #[tactic(auto, using(crate::proofs::Untold::same_images, crate::proofs::Untold::elapses))]
    fn len(&mut self) -> Result<u64, Failed>
        ensures open { OnOk result (disk_is_open self.new ≡ true) }
        ensures lost { StaysLostDisk self.old self.new result }
        ensures value { IfOk result (λ n. IfSome untold (λ bytes. n ≡ length bytes)) }
        ensures crash { SameImages any_bytes any_bytes }
        ensures time { Elapses 0 0 any_since any_since any_bytes }
        ensures cause { HasCause (disk_faults self.old) (disk_faults self.new) result }
    {
        match self.file.len() {
            Ok(n) => Ok(n),
            Err(_) => Err(fault(&mut self.faults)),
        }
    }

    #[tactic(auto, using(crate::proofs::Untold::same_images, crate::proofs::Untold::elapses))]
    fn read_at(&mut self, at: u64, into: &mut [u8]) -> Result<(), Failed>
        ensures open { OnOk result (disk_is_open self.new ≡ true) }
        ensures lost { StaysLostDisk self.old self.new result }
        ensures bytes { OnOk result (Reads untold at into.new) }
        ensures crash { SameImages any_bytes any_bytes }
        ensures time { Elapses 0 0 any_since any_since any_bytes }
        ensures cause { HasCause (disk_faults self.old) (disk_faults self.new) result }
    {
        match self.file.read_at(at, into) {
            Ok(()) => Ok(()),
            Err(_) => Err(fault(&mut self.faults)),
        }
    }

    #[tactic(auto, using(crate::proofs::Untold::torn_from_any, crate::proofs::Untold::elapses))]
    fn write_at(&mut self, at: u64, piece: &[u8]) -> Result<(), Failed>
        ensures open { OnOk result (disk_is_open self.new ≡ true) }
        ensures lost { StaysLostDisk self.old self.new result }
        ensures crash { Follows (Torn at (length piece.now)) any_bytes any_bytes }
        ensures written { OnOk result (Writes untold untold at piece.now) }
        ensures time { Elapses 0 0 any_since any_since any_bytes }
        ensures cause { HasCause (disk_faults self.old) (disk_faults self.new) result }
    {
        match self.file.write_at(at, piece) {
            Ok(()) => Ok(()),
            Err(_) => Err(fault(&mut self.faults)),
        }
    }

    #[tactic(auto, using(crate::proofs::Untold::no_new_image, crate::proofs::Untold::elapses))]
    fn sync(&mut self) -> Result<(), Failed>
        ensures open { OnOk result (disk_is_open self.new ≡ true) }
        ensures fails { OnErr result (disk_is_lost self.new ≡ true) }
        ensures lost { StaysLostDisk self.old self.new result }
        ensures durable { OnOk result (IfSome untold (λ bytes. Only bytes any_bytes)) }
        ensures crash { NoNewImage any_bytes any_bytes }
        ensures time { Elapses 0 0 any_since any_since any_bytes }
        ensures cause { HasCause (disk_faults self.old) (disk_faults self.new) result }
    {
        match self.file.sync() {
            Ok(()) => Ok(()),
            Err(_) => Err(fault(&mut self.faults)),
        }
    }
}
