//! Lists of claims as frames: a list is filled claim by claim, closed, and handed out frame by frame.
ghost use Rattle.std.specs.Prelude.{◌≡◌, ◌≤◌, ◌++◌, ◌∷◌, [], length, map, flat_map, false, IsOk, OnOk, IfOk, MatchOption};
ghost use Rattle.std.specs.List.{AllByRecursion, range_with_len};
ghost use Rattle.message_defs.specs.Frames.{Want, frame_bytes};
ghost use Rattle.message_defs.specs.Packing.{pack_from};
ghost use Rattle.message_defs.specs.Spelling.{IsClaim};
ghost use Rattle.group_defs.specs.Process.{Process, places_in};
ghost use Rattle.group_defs.specs.Sending.{Bundle, frames_of, place_certificates, with_what_goes_beside};
ghost use Rattle.sent_claims.specs.Lists.{extended, lent_claim, IsShort};
ghost use Rattle.sent_claims.specs.Certificates.{all_signed, IsRanged};
ghost use Rattle.sent_claims.specs.Beside.{chosen};
ghost use Rattle.reliable_mcast.specs.Packed.{Fills, frame_as, frames_as};

use crate::sheet::{FrameKind, Sheet, want_frame};
use rp_base::NoMemory;
use sent_claims::{
    ClaimList, Lent, Pool, SentClaims, put_base, put_orders, put_places, put_suggests,
};
use std::alloc::Global;
use std::collections::VecDeque;
use std::marker::Model;
use std::mem;
use stmt_codec::Payload;

/// Frames, packed from lists of claims. Contracts see the frames that are not handed out yet, and the claims of the list that is
/// being packed. List and sheet keep their memory from one to the next.
pub struct Frames {
    alloc: Global,
    list: SentClaims,
    sheet: Sheet,
    done: VecDeque<Payload>,
}

// Written out, so that whoever drops a value makes one call (docs/CONTRIBUTING.md).
impl Drop for Frames {
    fn drop(self) {
        let Frames {
            alloc: _,
            list,
            sheet,
            done,
        } = self;
        mem::drop(list);
        mem::drop(sheet);
        mem::drop(done);
    }
}

impl Model for Frames {
    ghost use Rattle.reliable_mcast.specs.Packed.{Packing};

    ghost Value = { Packing };

    ghost view = { λ f. record { frames = f.done.items; claims = f.list } };
}

// Puts the frame after those that are done.
fn put_frame(done: &mut VecDeque<Payload>, frame: Payload) -> Result<(), NoMemory>
    ensures { OnOk result (done.new.items ≡ done.old.items ++ frame ∷ []) }
{
    done.push_back(frame)?;
    Ok(())
}

// Puts the claims of the other list after the others.
fn put_all(list: &mut SentClaims, other: &SentClaims) -> Result<(), NoMemory>
    ensures list { OnOk result (list.new ≡ extended false list.old other.now) }
    ensures none { other.now ≡ [] → IsOk result }
{
    'claims: for place in 0..other.len() {
        list.put(&other.at(place), false)?;
    }
    Ok(())
}

// Packs one more claim: into the sheet, or after its end on a new one.
fn pack_claim(
    alloc: Global,
    sheet: &mut Sheet,
    done: &mut VecDeque<Payload>,
    kind: FrameKind,
    claim: &Lent<'_>,
) -> Result<(), NoMemory>
    requires short { IsShort (lent_claim claim.now) }
    requires begun { 1 ≤ length sheet.old.writer.groups }
    ensures packs { OnOk result ((cs : _)
        → done.new.items ++ map (frame_as kind) (pack_from sheet.new.writer.groups cs) ≡ done.old.items
        ++ map (frame_as kind) (pack_from sheet.old.writer.groups (lent_claim claim.now ∷ cs))) }
    ensures begun { OnOk result (1 ≤ length sheet.new.writer.groups) }
{
    if sheet.add(claim) {
        return Ok(());
    }
    put_frame(done, sheet.to_frame(alloc, kind)?)?;
    sheet.begin(claim);
    Ok(())
}

// Packs the claims of the list after the frames that are done.
fn pack(
    alloc: Global,
    list: &SentClaims,
    sheet: &mut Sheet,
    done: &mut VecDeque<Payload>,
    kind: FrameKind,
) -> Result<(), NoMemory>
    ensures frames { OnOk result (done.new.items ≡ done.old.items ++ frames_as kind list.now) }
    ensures none { list.now ≡ [] → IsOk result }
{
    if list.len() == 0 {
        return Ok(());
    }
    sheet.begin(&list.at(0));
    'claims: for place in 1..list.len() {
        pack_claim(alloc, sheet, done, kind, &list.at(place))?;
    }
    put_frame(done, sheet.to_frame(alloc, kind)?)
}

impl Frames {
    /// No frames.
    pub fn new(alloc: Global) -> Result<Frames, NoMemory>
        ensures frames { IfOk result (λ f. f.frames ≡ []) }
        ensures claims { IfOk result (λ f. f.claims ≡ []) }
    {
        Ok(Frames {
            alloc,
            list: SentClaims::new(alloc),
            sheet: Sheet::new(alloc)?,
            done: VecDeque::new(alloc),
        })
    }

    /// Puts the claims of the other list after the others.
    pub(crate) fn put_list(&mut self, other: &SentClaims) -> Result<(), NoMemory>
        ensures list { OnOk result (Fills self.old self.new (extended false self.old.claims other.now)) }
        ensures none { other.now ≡ [] → IsOk result }
    {
        put_all(&mut self.list, other)
    }

    /// Puts the certificates of eight places, from this one on.
    pub(crate) fn put_places(&mut self, pool: &Pool, place: u16) -> Result<(), NoMemory>
        requires range { IsRanged pool.now.pool }
        requires place { place ≤ 1024 }
        ensures list { OnOk result (Fills self.old self.new
            (extended false self.old.claims (all_signed (flat_map (place_certificates pool.now.pool) (range_with_len place 8))))) }
        ensures none { all_signed (flat_map (place_certificates pool.now.pool) (range_with_len place 8)) ≡ [] → IsOk result }
    {
        put_places(&mut self.list, pool, place)
    }

    /// Packs the list into frames of this kind, after those that are not handed out yet, and begins a new list. An empty list takes no
    /// memory.
    pub(crate) fn close(&mut self, kind: FrameKind) -> Result<(), NoMemory>
        ensures frames { OnOk result (self.new.frames ≡ self.old.frames ++ frames_as kind self.old.claims) }
        ensures claims { OnOk result (self.new.claims ≡ []) }
        ensures none { self.old.claims ≡ [] → IsOk result }
    {
        pack(
            self.alloc,
            &self.list,
            &mut self.sheet,
            &mut self.done,
            kind,
        )?;
        self.list.clear();
        Ok(())
    }

    /// Packs the Bundle of the claims at these places of `said`, with what goes beside them, after the frames that are not handed
    /// out yet. The process has delivered `delivered` places.
    pub fn resend(
        &mut self,
        pool: &Pool,
        said: &ClaimList,
        base: &[usize],
        delivered: u16,
    ) -> Result<(), NoMemory>
        requires range { IsRanged pool.now.pool }
        requires said { AllByRecursion IsClaim said.now.claims }
        requires empty { self.old.claims ≡ [] }

        // For each process that has delivered `delivered` places.
        ensures bundle { OnOk result ((began : Process) → places_in began.delivered ≡ delivered
            → self.new.frames ≡ self.old.frames
            ++ frames_of (Bundle (with_what_goes_beside began pool.now.pool (chosen said.now.claims base.now)))) }
        ensures empty { OnOk result (self.new.claims ≡ []) }
    {
        put_base(&mut self.list, said, base)?;
        put_orders(&mut self.list, pool, said, base, delivered)?;
        put_suggests(self.alloc, &mut self.list, pool, said, base)?;
        self.close(FrameKind::Bundle)
    }

    /// Puts a Want after the frames that are not handed out yet: the sender asks for what it lacks, from this view and this
    /// place on.
    pub fn want(&mut self, view: u16, place: u16) -> Result<(), NoMemory>
        ensures frames { OnOk result (self.new.frames ≡ self.old.frames ++ frame_bytes (Want view place) ∷ []) }
        ensures claims { OnOk result (self.new.claims ≡ self.old.claims) }
    {
        put_frame(&mut self.done, want_frame(self.alloc, view, place)?)
    }

    /// Forgets all claims and frames. It takes no memory.
    pub fn clear(&mut self)
        ensures frames { self.new.frames ≡ [] }
        ensures claims { self.new.claims ≡ [] }
    {
        self.list.clear();
        self.done.clear();
    }

    /// Takes the first of the frames that are not handed out yet; None exactly where none is left.
    pub fn next_frame(&mut self) -> Option<Payload>
        ensures first { MatchOption result ((self.old.frames ≡ []) × (self.new.frames ≡ []))
            (λ frame. self.old.frames ≡ frame ∷ self.new.frames) }
        ensures claims { self.new.claims ≡ self.old.claims }
    {
        self.done.pop_front()
    }
}
