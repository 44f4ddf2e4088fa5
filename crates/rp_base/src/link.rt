ghost use Rattle.std.specs.Prelude.{◌≡◌, ℕ, List, OnOk, OnErr, IfOk};
ghost use Rattle.std.specs.declared.option.Option.{Option};
ghost use Rattle.rp_base.specs.Causes.{HasCause};

use crate::failed::Failed;

/// What a receive gave.
#[derive(Clone, Copy, PartialEq, Eq)]
pub enum Got {
    /// No datagram is coming on the port.
    Nothing,

    /// A datagram of this many bytes, at the front of the buffer.
    Datagram(usize),
}

/// Datagrams to and from ports.
pub trait Link {
    ghost use Rattle.rp_base.specs.Links.{Sends, Receives, IsWithin};

    /// Ports and datagrams that were sent, in order; None where the link doesn't say.
    ghost sent: { Self → Option (List (ℕ × List ℕ)) };

    /// The datagrams that are coming on each port; None where the link doesn't say.
    ghost coming: { Self → Option (ℕ → List (List ℕ)) };

    /// How often it has failed.
    ghost faults: { Self → ℕ };

    /// Opens a port, on which datagrams can then be received.
    fn bind(&mut self, port: u16) -> Result<(), Failed>
        ensures sent { sent self.new ≡ sent self.old }
        ensures coming { coming self.new ≡ coming self.old }
        ensures cause { HasCause (faults self.old) (faults self.new) result };

    /// Sends a datagram to a port. Those that are coming stay, and more may come after them. A call that answers
    /// `Failed` sends nothing.
    fn send(&mut self, port: u16, bytes: &[u8]) -> Result<(), Failed>
        ensures ok { OnOk result (Sends (sent self.old) (sent self.new) (coming self.old) (coming self.new) port bytes.now) }
        ensures err { OnErr result ((sent self.new ≡ sent self.old) × (coming self.new ≡ coming self.old)) }
        ensures cause { HasCause (faults self.old) (faults self.new) result };

    /// Takes the first datagram that is coming on a port, and answers `Nothing` exactly where none is. One that is
    /// longer than `into` is cut to its length. A call that answers `Failed` takes nothing.
    fn recv(&mut self, port: u16, into: &mut [u8]) -> Result<Got, Failed>
        ensures bound { IfOk result (λ got. IsWithin got into.new) }
        ensures got { IfOk result (λ got. Receives (coming self.old) (coming self.new) port got into.new) }
        ensures sent { sent self.new ≡ sent self.old }
        ensures err { OnErr result (coming self.new ≡ coming self.old) }
        ensures cause { HasCause (faults self.old) (faults self.new) result };
}
