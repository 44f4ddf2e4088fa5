ghost use Rattle.std.specs.Prelude.{◌≡◌, ℕ, List, length};
ghost use Rattle.std.specs.declared.option.Option.{Option};
ghost use Rattle.std.specs.Io.{ReadsAtMost, WritesAtMost};
ghost use Rattle.std.specs.Io.KnownBytes.{ReadConsumes, WriteAppends};
ghost use Rattle.rp_base.specs.Causes.{HasCause};

use crate::failed::Failed;

/// Where bytes come from.
pub trait Source {
    /// The bytes that are left; None where the source doesn't say.
    ghost left: { Self → Option (List ℕ) };

    /// How often it has failed.
    ghost faults: { Self → ℕ };

    /// Reads up to `into.len()` bytes, and answers how many. 0 into a buffer that is not empty is the end. A call
    /// that answers `Failed` takes none of the bytes that are left.
    fn read(&mut self, into: &mut [u8]) -> Result<usize, Failed>
        ensures bound { ReadsAtMost result into.new }
        ensures bytes { ReadConsumes (left self.old) (left self.new) result into.new }
        ensures cause { HasCause (faults self.old) (faults self.new) result };
}

/// Where bytes go.
pub trait Sink {
    /// The bytes that were written; None where the sink doesn't say.
    ghost written: { Self → Option (List ℕ) };

    /// How often it has failed.
    ghost faults: { Self → ℕ };

    /// Writes the first bytes of a piece, and answers how many: at least one, unless the piece is empty. A sink that
    /// can take none of a piece answers `Failed`. A call that answers `Failed` writes none.
    fn write(&mut self, piece: &[u8]) -> Result<usize, Failed>
        ensures bound { WritesAtMost result piece.now }
        ensures bytes { WriteAppends (written self.old) (written self.new) result piece.now }
        ensures takes { result ≡ Ok 0 → length piece.now ≡ 0 }
        ensures cause { HasCause (faults self.old) (faults self.new) result };
}
