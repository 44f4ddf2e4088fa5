ghost use Rattle.std.specs.Prelude.{◌≡◌, ◌≤◌, ◌+◌, ℕ, List, length, OnOk, IfOk, IfSome};
ghost use Rattle.std.specs.declared.option.Option.{Option};
ghost use Rattle.rp_base.specs.Causes.{HasCause};
ghost use Rattle.rp_base.specs.Disks.{Reads, Writes, Torn, Follows, SameImages, NoNewImage, Only, Elapses};

use crate::failed::Failed;

/// A file whose bytes a crash may tear.
///
/// An image is what a crash at this moment may leave. Between two syncs each range that was written, and the part
/// past the old end, may hold any bytes in an image; other bytes stay. After a sync that succeeds there is one image,
/// which is what a read gives.
pub trait Disk {
    /// What a read gives; None where the disk doesn't say.
    ghost seen: { Self → Option (List ℕ) };

    /// What a crash at this moment may leave.
    ghost may_leave: { Self → List ℕ → Type 0 };

    /// The moment, as a number that doesn't fall.
    ghost moment: { Self → ℕ };

    /// What a crash at some moment from that one on, up to this one, might have left.
    ghost left_since: { Self → ℕ → List ℕ → Type 0 };

    /// How often it has failed.
    ghost faults: { Self → ℕ };

    /// A disk as it reads is one of its images.
    ghost reads_image: { (disk : Self) → IfSome (seen disk) (may_leave disk) };

    /// What a crash may leave now is among what it might have left since each moment up to now.
    ghost counts_now: { (disk : Self) (t : ℕ) (c : List ℕ) → t ≤ moment disk → may_leave disk c → left_since disk t c };

    /// From this moment on nothing counts but what a crash may leave now.
    ghost only_now: { (disk : Self) (c : List ℕ) → left_since disk (moment disk) c → may_leave disk c };

    /// The number of bytes. It changes no image, also where it answers `Failed`.
    fn len(&mut self) -> Result<u64, Failed>
        ensures value { IfOk result (λ n. IfSome (seen self.old) (λ bytes. n ≡ length bytes)) }
        ensures seen { seen self.new ≡ seen self.old }
        ensures crash { SameImages (may_leave self.old) (may_leave self.new) }
        ensures time { Elapses (moment self.old) (moment self.new) (left_since self.old) (left_since self.new) (may_leave self.new) }
        ensures cause { HasCause (faults self.old) (faults self.new) result };

    /// Fills `into` with the bytes from `at` on; they lie within the length. It changes no image, also where it
    /// answers `Failed`.
    fn read_at(&mut self, at: u64, into: &mut [u8]) -> Result<(), Failed>
        requires { IfSome (seen self.old) (λ bytes. at + length into.old ≤ length bytes) }
        ensures bytes { OnOk result (Reads (seen self.old) at into.new) }
        ensures seen { seen self.new ≡ seen self.old }
        ensures crash { SameImages (may_leave self.old) (may_leave self.new) }
        ensures time { Elapses (moment self.old) (moment self.new) (left_since self.old) (left_since self.new) (may_leave self.new) }
        ensures cause { HasCause (faults self.old) (faults self.new) result };

    /// Writes a piece over the bytes from `at` on, which is at most the length, and past the end where it is longer.
    /// Until the next sync that succeeds a crash may tear it. Where it answers `Failed`, only images are left that a
    /// crash within this write might leave.
    fn write_at(&mut self, at: u64, piece: &[u8]) -> Result<(), Failed>
        requires { IfSome (seen self.old) (λ bytes. at ≤ length bytes) }
        ensures written { OnOk result (Writes (seen self.old) (seen self.new) at piece.now) }
        ensures crash { Follows (Torn at (length piece.now)) (may_leave self.old) (may_leave self.new) }
        ensures time { Elapses (moment self.old) (moment self.new) (left_since self.old) (left_since self.new) (may_leave self.new) }
        ensures cause { HasCause (faults self.old) (faults self.new) result };

    /// Makes what was written last: where it succeeds, a crash leaves what a read gives. Where it answers `Failed`,
    /// only images are left that were there before it.
    fn sync(&mut self) -> Result<(), Failed>
        ensures durable { OnOk result (IfSome (seen self.old) (λ bytes. Only bytes (may_leave self.new))) }
        ensures seen { seen self.new ≡ seen self.old }
        ensures crash { NoNewImage (may_leave self.old) (may_leave self.new) }
        ensures time { Elapses (moment self.old) (moment self.new) (left_since self.old) (left_since self.new) (may_leave self.new) }
        ensures cause { HasCause (faults self.old) (faults self.new) result };
}
