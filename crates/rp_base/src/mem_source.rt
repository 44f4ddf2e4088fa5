ghost use Rattle.std.specs.Prelude.{◌≡◌, ◌≤◌, length, min, Some, IfOk, is_err};
ghost use Rattle.std.specs.Io.{ReadsAtMost};
ghost use Rattle.std.specs.Io.KnownBytes.{ReadConsumes};
ghost use Rattle.rp_base.specs.Causes.{HasCause};
ghost use Rattle.rp_base.specs.Calls.{is_to_fail, called};

use crate::calls::{Calls, next_fails, no_calls};
use crate::failed::Failed;
use crate::streams::Source;

/// A source over bytes in memory. A call fails if its number is in a list, the first being number 0. It
/// gives what it can at each other call.
#[derive(Drop)]
pub struct MemSource {
    bytes: Vec<u8>,
    at: usize,
    calls: Calls,
    ghost within: { at ≤ length bytes.items },
}

impl MemSource {
    ghost use Rattle.rp_base.specs.Mem.{source_left, source_calls};

    /// A source of these bytes, with the numbers of the calls that are to fail.
    pub fn new(bytes: Vec<u8>, failing: Vec<u64>) -> MemSource
        ensures left { source_left result ≡ bytes.items }
        ensures calls { source_calls result ≡ record { made = 0; failing = failing; faults = 0 } }
    {
        MemSource {
            bytes,
            at: 0,
            calls: no_calls(failing),
        }
    }
}

impl Source for MemSource {
    ghost use Rattle.rp_base.specs.Mem.{source_left, source_calls};

    ghost left = { λ s. Some (source_left s) };

    ghost faults = { λ s. (source_calls s).faults };

    fn read(&mut self, into: &mut [u8]) -> Result<usize, Failed>
        ensures bound { ReadsAtMost result into.new }
        ensures bytes { ReadConsumes (Some (source_left self.old)) (Some (source_left self.new)) result into.new }
        ensures cause { HasCause (source_calls self.old).faults (source_calls self.new).faults result }

        // It fails exactly where the list says, and else gives what it can.
        ensures fails { is_err result ≡ is_to_fail (source_calls self.old) }
        ensures calls { source_calls self.new ≡ called (source_calls self.old) }
        ensures full { IfOk result (λ n. n ≡ min (length into.old) (length (source_left self.old))) }
    {
        if next_fails(&mut self.calls) {
            return Err(Failed);
        }
        let n = into.len().min(self.bytes.len() - self.at);
        into[..n].copy_from_slice(&self.bytes[self.at..self.at + n]);
        self.at += n;
        Ok(n)
    }
}
