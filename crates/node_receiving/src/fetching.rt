//! A datagram that comes.
ghost use Rattle.std.specs.Prelude.{◌≡◌, length, IfOk};
ghost use Rattle.rp_base.specs.Links.{IsWithin};
ghost use Rattle.node_defs.specs.Nodes.{ReceivesOn};
ghost use Rattle.node_traces.specs.Outside.{LinkStep};
ghost use Rattle.node_traces.specs.Seen.{link_seen};
ghost use Rattle.node_receiving.specs.Receiving.{answer_of};

use rp_base::{Failed, Got, Link};

/// The first datagram that is coming on the port, at the front of the room: its first 61,440 bytes.
///
/// # Errors
/// [`Failed`] where the link fails; nothing is taken then.
pub(crate) fn fetch<L: Link>(port: u16, link: &mut L, coming: &mut [u8]) -> Result<Got, Failed>
    requires room { length coming.old ≡ 61440 }
    ensures step { LinkStep (link_seen L.sent L.coming L.faults link.old) (ReceivesOn port, answer_of result coming.new)
        (link_seen L.sent L.coming L.faults link.new) }
    ensures within { IfOk result (λ got. IsWithin got coming.new) }
{
    link.recv(port, coming)
}
