//! A frame while it is written.
ghost use Rattle.std.specs.Prelude.{◌≡◌, ◌≤◌, ◌∷◌, [], length, IfOk, true, if◌then◌else◌};
ghost use Rattle.message_defs.specs.Frames.{Want, frame_bytes};
ghost use Rattle.message_defs.specs.Packing.{group_of, add, fits};
ghost use Rattle.sent_claims.specs.Lists.{lent_claim, IsShort};
ghost use Rattle.reliable_mcast.specs.Packed.{frame_as, kind_number};

use frame_codec::{BUNDLE, FRAME_BYTES, FrameWriter, PROOF, write_want};
use rp_base::NoMemory;
use sent_claims::Lent;
use std::alloc::Global;
use stmt_codec::Payload;

/// How a list of claims is sent.
#[derive(Clone, Copy, PartialEq, Eq)]
pub enum FrameKind {
    /// To the other members: what the process signed.
    Bundle,

    /// In answer to a Want: what the process holds.
    Proof,
}

/// A frame that is written claim by claim. It takes its room once, and keeps it from frame to frame.
#[derive(Drop)]
pub(crate) struct Sheet {
    writer: FrameWriter,
    ghost kind: { writer.kind ≡ 1 },
    ghost limit: { writer.room ≡ 61000 },
}

// Adds the claim to the frame, where it has room for it. A frame without groups has.
fn add_claim(writer: &mut FrameWriter, claim: &Lent<'_>) -> bool
    requires short { IsShort (lent_claim claim.now) }
    requires limit { writer.old.room ≡ 61000 }
    ensures kind { writer.new.kind ≡ writer.old.kind }
    ensures limit { writer.new.room ≡ 61000 }
    ensures fits { result ≡ fits 61000 (add writer.old.groups (lent_claim claim.now)) }
    ensures groups { writer.new.groups ≡ (if result then add writer.old.groups (lent_claim claim.now) else writer.old.groups) }
    ensures first { length writer.old.groups ≡ 0 → result ≡ true }
{
    writer.add(claim.statement, claim.signer.get(), claim.signature)
}

/// A Want for this view and this place.
pub(crate) fn want_frame(alloc: Global, view: u16, place: u16) -> Result<Payload, NoMemory>
    ensures { IfOk result (λ f. f ≡ frame_bytes (Want view place)) }
{
    let bytes = Vec::from_slice(alloc, &write_want(view, place))?;
    Ok(Payload::from_vec(bytes))
}

// The number of the kind, as it is in the frame.
fn number_of(kind: FrameKind) -> u8
    ensures { result ≡ kind_number kind }
{
    match kind {
        FrameKind::Bundle => BUNDLE,
        FrameKind::Proof => PROOF,
    }
}

impl Sheet {
    /// A frame without claims.
    pub fn new(alloc: Global) -> Result<Sheet, NoMemory>
        ensures { IfOk result (λ s. s.writer.groups ≡ []) }
    {
        let writer = FrameWriter::new(alloc, BUNDLE, FRAME_BYTES)?;
        Ok(Sheet { writer })
    }

    /// Begins a frame of this claim, in place of the one before.
    pub fn begin(&mut self, claim: &Lent<'_>)
        requires { IsShort (lent_claim claim.now) }
        ensures { self.new.writer.groups ≡ group_of (lent_claim claim.now) ∷ [] }
    {
        self.writer.restart(BUNDLE);
        if !add_claim(&mut self.writer, claim) {
            unreachable!();
        }
    }

    /// Adds the claim, where there is room for it.
    pub fn add(&mut self, claim: &Lent<'_>) -> bool
        requires { IsShort (lent_claim claim.now) }
        ensures fits { result ≡ fits 61000 (add self.old.writer.groups (lent_claim claim.now)) }
        ensures groups { self.new.writer.groups
            ≡ (if result then add self.old.writer.groups (lent_claim claim.now) else self.old.writer.groups) }
    {
        add_claim(&mut self.writer, claim)
    }

    /// The frame's bytes, where it has a claim.
    pub fn to_frame(&self, alloc: Global, kind: FrameKind) -> Result<Payload, NoMemory>
        requires { 1 ≤ length self.now.writer.groups }
        ensures { IfOk result (λ f. f ≡ frame_as kind self.now.writer.groups) }
    {
        let mut bytes = Vec::from_slice(alloc, self.writer.frame())?;
        bytes[1] = number_of(kind);
        Ok(Payload::from_vec(bytes))
    }
}
