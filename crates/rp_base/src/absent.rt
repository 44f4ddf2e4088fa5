ghost use Rattle.std.specs.Prelude.{◌≡◌, IsErr};
ghost use Rattle.rp_base.specs.Absent.{disk_faults, link_faults};
ghost use Rattle.rp_base.specs.Causes.{HasCause};

use crate::disk::Disk;
use crate::failed::Failed;
use crate::link::{Got, Link};

/// A disk that isn't there: each call answers `Failed`, and its count rises.
#[derive(Default, Drop)]
pub struct NoDisk {
    faults: u64,
}

impl NoDisk {
    /// A disk with no fault yet.
    pub fn new() -> NoDisk
        ensures { disk_faults result ≡ 0 }
    {
        NoDisk { faults: 0 }
    }

    fn fail<T: Drop>(&mut self) -> Result<T, Failed>
        ensures fails { IsErr result }
        ensures cause { HasCause (disk_faults self.old) (disk_faults self.new) result }
    {
        self.faults = self.faults.saturating_add(1);
        Err(Failed)
    }
}

impl Disk for NoDisk {
    ghost use Rattle.std.specs.Prelude.{None};

    ghost seen = { λ d. None };

    ghost may_leave = { λ d c. ⊥ };

    ghost moment = { λ d. 0 };

    ghost left_since = { λ d t c. ⊥ };

    ghost faults = { disk_faults };

    ghost reads_image = { λ d. tt };

    ghost counts_now = { λ d t c le now. now };

    ghost only_now = { λ d c left. left };

    fn len(&mut self) -> Result<u64, Failed>
        ensures fails { IsErr result }
        ensures cause { HasCause (disk_faults self.old) (disk_faults self.new) result }
    {
        self.fail()
    }

    fn read_at(&mut self, _at: u64, _into: &mut [u8]) -> Result<(), Failed>
        ensures fails { IsErr result }
        ensures cause { HasCause (disk_faults self.old) (disk_faults self.new) result }
    {
        self.fail()
    }

    fn write_at(&mut self, _at: u64, _piece: &[u8]) -> Result<(), Failed>
        ensures fails { IsErr result }
        ensures cause { HasCause (disk_faults self.old) (disk_faults self.new) result }
    {
        self.fail()
    }

    fn sync(&mut self) -> Result<(), Failed>
        ensures fails { IsErr result }
        ensures cause { HasCause (disk_faults self.old) (disk_faults self.new) result }
    {
        self.fail()
    }
}

/// A link that isn't there: each call answers `Failed`, and its count rises.
#[derive(Default, Drop)]
pub struct NoLink {
    faults: u64,
}

impl NoLink {
    /// A link with no fault yet.
    pub fn new() -> NoLink
        ensures { link_faults result ≡ 0 }
    {
        NoLink { faults: 0 }
    }

    fn fail<T: Drop>(&mut self) -> Result<T, Failed>
        ensures fails { IsErr result }
        ensures cause { HasCause (link_faults self.old) (link_faults self.new) result }
    {
        self.faults = self.faults.saturating_add(1);
        Err(Failed)
    }
}

impl Link for NoLink {
    ghost use Rattle.std.specs.Prelude.{None};

    ghost sent = { λ l. None };

    ghost coming = { λ l. None };

    ghost faults = { link_faults };

    fn bind(&mut self, _port: u16) -> Result<(), Failed>
        ensures fails { IsErr result }
        ensures cause { HasCause (link_faults self.old) (link_faults self.new) result }
    {
        self.fail()
    }

    fn send(&mut self, _port: u16, _bytes: &[u8]) -> Result<(), Failed>
        ensures fails { IsErr result }
        ensures cause { HasCause (link_faults self.old) (link_faults self.new) result }
    {
        self.fail()
    }

    fn recv(&mut self, _port: u16, _into: &mut [u8]) -> Result<Got, Failed>
        ensures fails { IsErr result }
        ensures cause { HasCause (link_faults self.old) (link_faults self.new) result }
    {
        self.fail()
    }
}
