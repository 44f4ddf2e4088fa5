//! Fields of a snapshot, one after another. A fault says how many bytes are left where it is.
ghost use Rattle.std.specs.Prelude.{◌≡◌};
ghost use Rattle.std.specs.Int.{w32, w64};
ghost use Rattle.byte_defs.specs.Reads.{Gives};
ghost use Rattle.snapshot_defs.specs.Steps as steps;

use byte_fields::{bytes_at, u32_at, u64_at};

/// What is left of a snapshot's bytes. A cursor that failed is not read from again.
#[derive(Drop)]
pub(crate) struct Cursor<'a> {
    pub(crate) rest: &'a [u8],
}

impl<'a> Cursor<'a> {
    /// A number of four bytes.
    pub(crate) fn long(&mut self) -> Result<u32, usize>
        ensures { Gives (λ x. (x, self.new.rest.now)) result (steps.wide_at w32 self.old.rest.now) }
    {
        let (value, rest) = u32_at(self.rest, self.rest.len())?;
        self.rest = rest;
        Ok(value)
    }

    /// A number of eight bytes.
    pub(crate) fn wide(&mut self) -> Result<u64, usize>
        ensures { Gives (λ x. (x, self.new.rest.now)) result (steps.wide_at w64 self.old.rest.now) }
    {
        let (value, rest) = u64_at(self.rest, self.rest.len())?;
        self.rest = rest;
        Ok(value)
    }

    /// So many bytes.
    pub(crate) fn bytes(&mut self, count: usize) -> Result<&'a [u8], usize>
        ensures { Gives (λ x. (x.now, self.new.rest.now)) result (steps.field_at count self.old.rest.now) }
    {
        let (bytes, rest) = bytes_at(self.rest, count, self.rest.len())?;
        self.rest = rest;
        Ok(bytes)
    }

    /// A field of N bytes.
    pub(crate) fn field<const N: usize>(&mut self) -> Result<[u8; N], usize>
        ensures { Gives (λ x. (x, self.new.rest.now)) result (steps.field_at N self.old.rest.now) }
    {
        let (bytes, rest) = bytes_at(self.rest, N, self.rest.len())?;
        let mut out = [0; N];
        out.copy_from_slice(bytes);
        self.rest = rest;
        Ok(out)
    }
}
