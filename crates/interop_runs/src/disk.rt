ghost use Rattle.std.specs.Prelude.{◌≡◌, ◌+◌, ◌≤◌, true, length, IfOk, IfSome, IsErr, IsTrue, OnOk};
ghost use Rattle.rp_base.specs.Causes.{HasCause};
ghost use Rattle.rp_base.specs.Disks.{Elapses, Follows, NoNewImage, Only, Reads, SameImages, Torn, Writes};
ghost use Rattle.interop_runs.specs.Calls.{is_nth, is_to_fail};
ghost use Rattle.interop_runs.specs.Devices.{IsFreshDisk};

use crate::calls::{Calls, Kind, Nth, no_calls};
use crate::numbers::numbers_of;
use rp_base::{Disk, Failed};
use std::alloc::{AllocError, Global};

/// A disk whose calls fail by their kind and number, and which is cut off at one write, after it is made, or at one sync, before anything
/// is synced: that call and each later one fails. A call that fails by its number, or after the disk was cut off, changes nothing.
#[derive(Drop)]
pub struct FailingDisk<D> {
    pub(crate) inner: D,
    lens: Calls,
    reads: Calls,
    writes: Calls,
    syncs: Calls,
    cut: Option<Nth>,
    pub(crate) is_cut: bool,
    faults: u64,
}

impl<D: Drop> FailingDisk<D> {
    /// A disk before its first call. Of its calls these are to fail, and at one it is cut off.
    pub(crate) fn new(
        alloc: Global,
        inner: D,
        failing: &[Nth],
        cut: Option<Nth>,
    ) -> Result<FailingDisk<D>, AllocError>
        ensures within { IfOk result (λ disk. disk.inner ≡ inner) }
        ensures fresh { IfOk result (λ disk. IsFreshDisk failing.now cut disk) }
    {
        Ok(FailingDisk {
            lens: no_calls(numbers_of(alloc, failing, Kind::Len)?),
            reads: no_calls(numbers_of(alloc, failing, Kind::Read)?),
            writes: no_calls(numbers_of(alloc, failing, Kind::Write)?),
            syncs: no_calls(numbers_of(alloc, failing, Kind::Sync)?),
            inner,
            cut,
            is_cut: false,
            faults: 0,
        })
    }
}

impl<D> FailingDisk<D> {
    // A call that fails, and does nothing.
    fn fail<T: Drop>(&mut self) -> Result<T, Failed>
        ensures fails { IsErr result }
        ensures cause { HasCause self.old.faults self.new.faults result }
        ensures inner { self.new.inner ≡ self.old.inner }
    {
        self.faults = self.faults.saturating_add(1);
        Err(Failed)
    }

    // What the disk within answered.
    fn answered<T: Drop>(&mut self, answer: Result<T, Failed>) -> Result<T, Failed>
        ensures same { result ≡ answer }
        ensures cause { HasCause self.old.faults self.new.faults result }
        ensures inner { self.new.inner ≡ self.old.inner }
    {
        if answer.is_err() {
            self.faults = self.faults.saturating_add(1);
        }
        answer
    }

    // Whether it is cut off at call number `made` of this kind, the one that was made last.
    fn is_cut_at(&self, kind: Kind, made: u64) -> bool
        ensures { result ≡ is_nth self.now.cut kind made }
    {
        match self.cut {
            Some(nth) => nth.kind.number() == kind.number() && u64::from(nth.number) == made,
            None => false,
        }
    }
}

impl<D: Disk> Disk for FailingDisk<D> {
    ghost seen = { λ d. D.seen d.inner };

    ghost may_leave = { λ d. D.may_leave d.inner };

    ghost moment = { λ d. D.moment d.inner };

    ghost left_since = { λ d. D.left_since d.inner };

    ghost faults = { λ d. d.faults };

    ghost reads_image = { λ d. D.reads_image d.inner };

    ghost counts_now = { λ d t c le now. D.counts_now d.inner t c le now };

    ghost only_now = { λ d c left. D.only_now d.inner c left };

    fn len(&mut self) -> Result<u64, Failed> {
        if self.lens.next_fails(self.is_cut) {
            return self.fail();
        }
        let answer = self.inner.len();
        self.answered(answer)
    }

    fn read_at(&mut self, at: u64, into: &mut [u8]) -> Result<(), Failed> {
        if self.reads.next_fails(self.is_cut) {
            return self.fail();
        }
        let answer = self.inner.read_at(at, into);
        self.answered(answer)
    }

    fn write_at(&mut self, at: u64, piece: &[u8]) -> Result<(), Failed> {
        if self.writes.next_fails(self.is_cut) {
            return self.fail();
        }
        let answer = self.inner.write_at(at, piece);
        if self.is_cut_at(Kind::Write, self.writes.made) {
            self.is_cut = true;
            return self.fail();
        }
        self.answered(answer)
    }

    fn sync(&mut self) -> Result<(), Failed> {
        if self.syncs.next_fails(self.is_cut) {
            return self.fail();
        }
        if self.is_cut_at(Kind::Sync, self.syncs.made) {
            self.is_cut = true;
            return self.fail();
        }
        let answer = self.inner.sync();
        self.answered(answer)
    }
}
