//! The signatures that a journal's entry keeps, in place of those that a key makes.
ghost use Rattle.std.specs.Prelude.{◌≡◌, ◌+◌, ◌-◌, ◌≤◌, length, drop};
ghost use Rattle.member_events.specs.Kept.{signatures_left};

use member_events::{EntrySignatures, SIGNATURE_BYTES};
use rp_base::{Signer, Spent, Tally};

/// A signer without a key. It hands out the signatures of an entry in their order, whatever is to be signed, and does not ask
/// whether they are valid for that.
#[derive(Drop)]
pub(crate) struct Journalled<'a> {
    // How many the process made before the entry.
    before: u32,
    all: EntrySignatures<'a>,

    // Those that are not handed out yet.
    left: EntrySignatures<'a>,
    used: u32,
    total: u32,
    ghost since: { before ≤ used },
    ghost within: { used ≤ total },
    ghost whole: { total ≡ before + length (signatures_left all) },
    ghost rest: { signatures_left left ≡ drop (used - before) (signatures_left all) },
}

impl<'a> Journalled<'a> {
    ghost use Rattle.member_core.specs.Journalled.{HandsOut, used_of};

    /// The signatures of an entry. The process made `before` others before them, and has made `total` with them.
    pub(crate) fn new(signatures: EntrySignatures<'a>, before: u32, total: u32) -> Journalled<'a>
        requires { total ≡ before + length (signatures_left signatures) }
        ensures hands { HandsOut result (signatures_left signatures.entry) }
        ensures used { used_of result ≡ before }
    {
        Journalled {
            before,
            all: signatures,
            left: signatures,
            used: before,
            total,
        }
    }
}

impl Tally for Journalled<'_> {
    ghost use Rattle.member_core.specs.Journalled.{handed_out};

    ghost used = { λ j. j.used };

    ghost total = { λ j. j.total };

    ghost same_key = { λ j k. handed_out k ≡ handed_out j };

    fn used(&self) -> u32 {
        self.used
    }

    fn total(&self) -> u32 {
        self.total
    }

    fn skip_to(&mut self, to: u32) {
        'skipped: while self.used < to {
            let _skipped = self.left.next();
            self.used += 1;
        }
    }
}

impl Signer for Journalled<'_> {
    ghost use Rattle.std.specs.Prelude.{[], true};
    ghost use Rattle.member_core.specs.Journalled.{handed_out, keeps_all};

    ghost public = { λ j. [] };

    ghost sig_len = { λ j. 16384 };

    ghost signature = { handed_out };

    ghost admits = { λ j key body sig. true };

    ghost keeps = { λ j k same. keeps_all j k same };

    fn public(&self) -> &[u8] {
        &[]
    }

    fn sig_len(&self) -> usize {
        SIGNATURE_BYTES as usize
    }

    fn sign(&mut self, _body: &[u8], out: &mut [u8]) -> Result<usize, Spent> {
        if self.used == self.total {
            return Err(Spent);
        }
        let Some(signature) = self.left.next() else {
            unreachable!()
        };
        let len = signature.len();
        out[..len].copy_from_slice(signature);
        self.used += 1;
        Ok(len)
    }
}
