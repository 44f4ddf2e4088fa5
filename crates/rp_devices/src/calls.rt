ghost use Rattle.std.specs.Prelude.{◌≡◌, ◌≤◌};
ghost use Rattle.rp_devices.specs.Calls.{is_to_fail, called, faulted, fresh};

/// The calls of a device: how many were made, which are to fail (the first call is number 0), from which on all do, and
/// how many have failed.
#[derive(Drop)]
pub(crate) struct Calls {
    pub(crate) made: u64,
    failing: Vec<u64>,
    pub(crate) stop: u64,
    faults: u64,
}

/// No call yet.
pub(crate) fn no_calls(failing: Vec<u64>) -> Calls
    ensures { result ≡ fresh failing }
{
    Calls {
        made: 0,
        failing,
        stop: u64::MAX,
        faults: 0,
    }
}

impl Calls {
    /// Counts a call, and says whether it is to fail. If it is, that is a fault.
    pub(crate) fn next_fails(&mut self) -> bool
        ensures value { result ≡ is_to_fail self.old }
        ensures after { self.new ≡ called self.old }
        ensures later { self.old.faults ≤ self.new.faults }
    {
        let fails = self.stop <= self.made || self.failing.contains(&self.made);
        self.made = self.made.saturating_add(1);
        if fails {
            self.fault();
        }
        fails
    }

    /// Counts a fault.
    pub(crate) fn fault(&mut self)
        ensures after { self.new ≡ faulted self.old }
        ensures later { self.old.faults ≤ self.new.faults }
    {
        self.faults = self.faults.saturating_add(1);
    }
}
