ghost use Rattle.std.specs.Prelude.{◌≡◌, IfOk, IsErr};
ghost use Rattle.rp_base.specs.Causes.{HasCause};
ghost use Rattle.interop_runs.specs.Devices.{IsFreshLink};

use crate::calls::{Calls, Kind, Nth, no_calls};
use crate::numbers::numbers_of;
use rp_base::{Failed, Got, Link};
use std::alloc::{AllocError, Global};

/// A link whose calls fail by their kind and number. A call that fails so sends and takes nothing.
#[derive(Drop)]
pub struct FailingLink<L> {
    pub(crate) inner: L,
    binds: Calls,
    sends: Calls,
    receives: Calls,
    faults: u64,
}

impl<L: Drop> FailingLink<L> {
    /// A link before its first call. Of its calls these are to fail.
    pub(crate) fn new(
        alloc: Global,
        inner: L,
        failing: &[Nth],
    ) -> Result<FailingLink<L>, AllocError>
        ensures within { IfOk result (λ link. link.inner ≡ inner) }
        ensures fresh { IfOk result (λ link. IsFreshLink failing.now link) }
    {
        Ok(FailingLink {
            binds: no_calls(numbers_of(alloc, failing, Kind::Bind)?),
            sends: no_calls(numbers_of(alloc, failing, Kind::Send)?),
            receives: no_calls(numbers_of(alloc, failing, Kind::Recv)?),
            inner,
            faults: 0,
        })
    }
}

impl<L> FailingLink<L> {
    // A call that fails, and does nothing.
    fn fail<T: Drop>(&mut self) -> Result<T, Failed>
        ensures fails { IsErr result }
        ensures cause { HasCause self.old.faults self.new.faults result }
        ensures inner { self.new.inner ≡ self.old.inner }
    {
        self.faults = self.faults.saturating_add(1);
        Err(Failed)
    }

    // What the link within answered.
    fn answered<T: Drop>(&mut self, answer: Result<T, Failed>) -> Result<T, Failed>
        ensures same { result ≡ answer }
        ensures cause { HasCause self.old.faults self.new.faults result }
        ensures inner { self.new.inner ≡ self.old.inner }
    {
        if answer.is_err() {
            self.faults = self.faults.saturating_add(1);
        }
        answer
    }
}

impl<L: Link> Link for FailingLink<L> {
    ghost sent = { λ l. L.sent l.inner };

    ghost coming = { λ l. L.coming l.inner };

    ghost faults = { λ l. l.faults };

    fn bind(&mut self, port: u16) -> Result<(), Failed> {
        if self.binds.next_fails(false) {
            return self.fail();
        }
        let answer = self.inner.bind(port);
        self.answered(answer)
    }

    fn send(&mut self, port: u16, bytes: &[u8]) -> Result<(), Failed> {
        if self.sends.next_fails(false) {
            return self.fail();
        }
        let answer = self.inner.send(port, bytes);
        self.answered(answer)
    }

    fn recv(&mut self, port: u16, into: &mut [u8]) -> Result<Got, Failed> {
        if self.receives.next_fails(false) {
            return self.fail();
        }
        let answer = self.inner.recv(port, into);
        self.answered(answer)
    }
}
