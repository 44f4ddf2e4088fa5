ghost use Rattle.rp_base.specs.Causes.{HasCause};
ghost use Rattle.std.specs.Prelude.{◌≡◌, ◌++◌, ◌∷◌, [], Some, map, OnOk, OnErr, IfOk, IfSome, IfNone, IsErr, IsTrue, ℕ, is_err};
ghost use Rattle.rp_devices.specs.Calls.{fresh, is_to_fail, one_more};
ghost use Rattle.rp_devices.specs.Links.{all_of, on_port, ported, TakesFirst};

use crate::calls::{Calls, no_calls};
use rp_base::{Failed, Got, Link};
use std::alloc::{AllocError, Global};
use std::mem;

/// A datagram, and the port that it was sent to.
#[derive(Drop)]
pub struct Datagram {
    pub port: u16,
    pub bytes: Vec<u8>,
}

/// A link in memory: what is sent comes on the port that it was sent to. A call fails if its number is in a
/// list, the first being number 0, or if it finds no memory. A call that fails sends and takes nothing.
pub struct MemLink {
    alloc: Global,
    sent: Vec<Datagram>,
    coming: Vec<Datagram>,
    calls: Calls,
}

// Written out, so that whoever drops a link makes one call: a derived drop is proved anew, down to the last field, wherever a value is
// dropped.
impl Drop for MemLink {
    fn drop(self) {
        let MemLink {
            alloc: _,
            sent,
            coming,
            calls,
        } = self;
        mem::drop(sent);
        mem::drop(coming);
        mem::drop(calls);
    }
}

// One more datagram, with a copy of the bytes.
fn push(alloc: Global, to: &mut Vec<Datagram>, port: u16, bytes: &[u8]) -> Result<(), AllocError>
    ensures ok { OnOk result (all_of to.new ≡ all_of to.old ++ (port, bytes.now) ∷ []) }
    ensures err { OnErr result (all_of to.new ≡ all_of to.old) }
{
    let bytes = bytes.to_vec(alloc)?;
    to.push(Datagram { port, bytes })?;
    Ok(())
}

// The datagram that came first on a port.
fn take_first(from: &mut Vec<Datagram>, port: u16) -> Option<Datagram>
    ensures found { IfSome result (λ d. TakesFirst (all_of from.old) (all_of from.new) port d.bytes.items) }
    ensures none { IfNone result ((on_port (all_of from.old) port ≡ []) × (all_of from.new ≡ all_of from.old)) }
{
    for at in 0..from.len() {
        if from[at].port == port {
            return Some(from.remove(at));
        }
    }
    None
}

impl MemLink {
    ghost use Rattle.rp_devices.specs.Links.{link_sent, link_coming, link_calls};

    /// A link on which nothing was sent and nothing is coming, with the numbers of the calls that are to fail.
    pub fn new(alloc: Global, failing: Vec<u64>) -> MemLink
        ensures sent { link_sent result ≡ [] }
        ensures coming { (port : ℕ) → link_coming result port ≡ [] }
        ensures calls { link_calls result ≡ fresh failing }
    {
        MemLink {
            alloc,
            sent: Vec::new(alloc),
            coming: Vec::new(alloc),
            calls: no_calls(failing),
        }
    }

    /// What was sent, in order.
    pub fn sent(&self) -> &[Datagram]
        ensures { map ported result.now ≡ link_sent self.now }
    {
        self.sent.as_slice()
    }
}

impl Link for MemLink {
    ghost use Rattle.rp_base.specs.Links.{Sends, Receives, IsWithin};
    ghost use Rattle.rp_devices.specs.Links.{link_sent, link_coming, link_calls};

    ghost sent = { λ l. Some (link_sent l) };

    ghost coming = { λ l. Some (link_coming l) };

    ghost faults = { λ l. (link_calls l).faults };

    fn bind(&mut self, _port: u16) -> Result<(), Failed>
        ensures sent { Some (link_sent self.new) ≡ Some (link_sent self.old) }
        ensures coming { Some (link_coming self.new) ≡ Some (link_coming self.old) }
        ensures cause { HasCause (link_calls self.old).faults (link_calls self.new).faults result }
        ensures fails { is_err result ≡ is_to_fail (link_calls self.old) }
        ensures made { (link_calls self.new).made ≡ one_more (link_calls self.old).made }
    {
        if self.calls.next_fails() {
            return Err(Failed);
        }
        Ok(())
    }

    fn send(&mut self, port: u16, bytes: &[u8]) -> Result<(), Failed>
        ensures ok { OnOk result (Sends (Some (link_sent self.old)) (Some (link_sent self.new)) (Some (link_coming self.old))
            (Some (link_coming self.new)) port bytes.now) }
        ensures err { OnErr result ((Some (link_sent self.new) ≡ Some (link_sent self.old))
            × (Some (link_coming self.new) ≡ Some (link_coming self.old))) }
        ensures comes { OnOk result (all_of self.new.coming ≡ all_of self.old.coming ++ (port, bytes.now) ∷ []) }
        ensures cause { HasCause (link_calls self.old).faults (link_calls self.new).faults result }
        ensures fails { IsTrue (is_to_fail (link_calls self.old)) → IsErr result }
        ensures made { (link_calls self.new).made ≡ one_more (link_calls self.old).made }
    {
        if self.calls.next_fails() {
            return Err(Failed);
        }
        match self.deliver(port, bytes) {
            Ok(()) => Ok(()),
            Err(_) => {
                self.calls.fault();
                Err(Failed)
            }
        }
    }

    fn recv(&mut self, port: u16, into: &mut [u8]) -> Result<Got, Failed>
        ensures bound { IfOk result (λ got. IsWithin got into.new) }
        ensures got { IfOk result (λ got. Receives (Some (link_coming self.old)) (Some (link_coming self.new)) port got into.new) }
        ensures sent { Some (link_sent self.new) ≡ Some (link_sent self.old) }
        ensures err { OnErr result (Some (link_coming self.new) ≡ Some (link_coming self.old)) }
        ensures cause { HasCause (link_calls self.old).faults (link_calls self.new).faults result }
        ensures fails { is_err result ≡ is_to_fail (link_calls self.old) }
        ensures made { (link_calls self.new).made ≡ one_more (link_calls self.old).made }
    {
        if self.calls.next_fails() {
            return Err(Failed);
        }
        let Some(datagram) = take_first(&mut self.coming, port) else {
            return Ok(Got::Nothing);
        };
        let n = into.len().min(datagram.bytes.len());
        into[..n].copy_from_slice(&datagram.bytes[..n]);
        Ok(Got::Datagram(n))
    }
}

impl MemLink {
    ghost use Rattle.rp_devices.specs.Links.{link_calls};

    // Sends a datagram, which then comes on its port. Where there is no memory, nothing has changed.
    fn deliver(&mut self, port: u16, bytes: &[u8]) -> Result<(), AllocError>
        ensures ok { OnOk result ((all_of self.new.sent ≡ all_of self.old.sent ++ (port, bytes.now) ∷ [])
            × (all_of self.new.coming ≡ all_of self.old.coming ++ (port, bytes.now) ∷ [])) }
        ensures err { OnErr result ((all_of self.new.sent ≡ all_of self.old.sent) × (all_of self.new.coming ≡ all_of self.old.coming)) }
        ensures calls { link_calls self.new ≡ link_calls self.old }
    {
        push(self.alloc, &mut self.sent, port, bytes)?;
        match push(self.alloc, &mut self.coming, port, bytes) {
            Ok(()) => Ok(()),
            Err(refused) => {
                let _ = self.sent.pop();
                Err(refused)
            }
        }
    }
}
