ghost use Rattle.std.specs.Prelude.{◌≡◌, [], length, Some, IfOk, IsErr, IsTrue};
ghost use Rattle.std.specs.Io.{WritesAtMost};
ghost use Rattle.std.specs.Io.KnownBytes.{WriteAppends};
ghost use Rattle.rp_base.specs.Causes.{HasCause};
ghost use Rattle.rp_base.specs.Calls.{is_to_fail, one_more};

use crate::calls::{Calls, fault, next_fails, no_calls};
use crate::failed::Failed;
use crate::streams::Sink;
use std::alloc::Global;

/// A sink that keeps what is written. A call fails if its number is in a list, the first being number 0,
/// or if there is no memory for its piece. Each other call takes its whole piece.
#[derive(Drop)]
pub struct MemSink {
    bytes: Vec<u8>,
    calls: Calls,
}

impl MemSink {
    ghost use Rattle.rp_base.specs.Mem.{sink_bytes, sink_calls};

    /// A sink to which nothing was written, with the numbers of the calls that are to fail.
    pub fn new(alloc: Global, failing: Vec<u64>) -> MemSink
        ensures bytes { sink_bytes result ≡ [] }
        ensures calls { sink_calls result ≡ record { made = 0; failing = failing; faults = 0 } }
    {
        MemSink {
            bytes: Vec::new(alloc),
            calls: no_calls(failing),
        }
    }

    /// What was written.
    pub fn bytes(&self) -> &[u8]
        ensures { result.now ≡ sink_bytes self.now }
    {
        self.bytes.as_slice()
    }
}

impl Sink for MemSink {
    ghost use Rattle.rp_base.specs.Mem.{sink_bytes, sink_calls};

    ghost written = { λ s. Some (sink_bytes s) };

    ghost faults = { λ s. (sink_calls s).faults };

    fn write(&mut self, piece: &[u8]) -> Result<usize, Failed>
        ensures bound { WritesAtMost result piece.now }
        ensures bytes { WriteAppends (Some (sink_bytes self.old)) (Some (sink_bytes self.new)) result piece.now }
        ensures cause { HasCause (sink_calls self.old).faults (sink_calls self.new).faults result }

        // It fails where the list says, and else takes the whole piece.
        ensures fails { IsTrue (is_to_fail (sink_calls self.old)) → IsErr result }
        ensures made { (sink_calls self.new).made ≡ one_more (sink_calls self.old).made }
        ensures failing { (sink_calls self.new).failing ≡ (sink_calls self.old).failing }
        ensures whole { IfOk result (λ n. n ≡ length piece.now) }
    {
        if next_fails(&mut self.calls) {
            return Err(Failed);
        }
        if self.bytes.extend_from_slice(piece).is_err() {
            fault(&mut self.calls);
            return Err(Failed);
        }
        Ok(piece.len())
    }
}
