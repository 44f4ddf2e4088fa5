//! Frames written claim by claim, each claim into the last group where it can join. The bytes are those of a frame as
//! `split_frame` reads it, and grow at their end:
//!
//! | Place | Bytes |
//! |---|---|
//! | 0, 1, 2 | version, kind, number of groups |
//! | from 3 | whole groups, one after another |
//! | `statement_at - 2` | the last group: its statement's length, |
//! | `statement_at` | its statement, |
//! | `count_at` | the number of its signatures, and they to the end |
ghost use Rattle.std.specs.Prelude.{◌≡◌, ◌≢◌, ◌+◌, ◌≤◌, ◌<◌, ◌&&◌, ◌++◌, ◌∷◌, [], Ok, IfOk, IsTrue, None, nat_lt, length, vec_len, vec_capacity, slice_index, slice_range, slice_set, if◌then◌else◌};
ghost use Rattle.byte_defs.specs.Choices.{is_some_and};
ghost use Rattle.byte_defs.specs.Equality.{same_bytes};
ghost use Rattle.message_defs.specs.Frames.{signature_bytes, group_bytes, frame_bytes, frame_of, IsFrame};
ghost use Rattle.message_defs.specs.Packing.{signed, group_of, fits};
ghost use Rattle.message_defs.specs.Packing as packing;
ghost use Rattle.message_defs.specs.Frames as plain;
ghost use Rattle.byte_defs.specs.Fields as fields;
ghost use Rattle.frame_codec.specs.Drafts.{drafted, IsWithin};

use crate::layout::{FRAME_GROUPS, GROUP_HEAD, GROUP_SIGNATURES, SIGNATURE_HEAD, VERSION, WANT};
use rp_base::NoMemory;
use std::alloc::Global;
use std::marker::Model;

/// Where the last group of a frame is, and who signed last.
#[derive(Clone, Copy)]
struct Last {
    statement_at: usize,
    count_at: usize,
    signer: u8,
}

/// A frame of claims while it is written. It takes its room once, and `add` takes no memory.
#[derive(Drop)]
pub struct FrameWriter {
    kind: u8,
    room: usize,
    bytes: Vec<u8>,
    last: Option<Last>,
}

impl Model for FrameWriter {
    ghost use Rattle.std.specs.Prelude.{vec_capacity};
    ghost use Rattle.frame_codec.specs.Drafts.{Draft, groups_in, Holds};

    ghost Value = { Draft };

    ghost view = { λ w. record { kind = w.kind; room = w.room; groups = groups_in w.bytes.items } };

    ghost invariant = { λ w. Holds w.kind w.room (vec_capacity w.bytes) w.bytes.items w.last (groups_in w.bytes.items) };
}

impl FrameWriter {
    /// A frame of this kind (1 Bundle, 2 Proof) without groups, which may take up to `room` bytes.
    pub fn new(alloc: Global, kind: u8, room: usize) -> Result<FrameWriter, NoMemory>
        requires kinds { (1 ≤ kind) × (kind ≤ 2) }
        requires rooms { (3 ≤ room) × (room ≤ 61000) }
        ensures { IfOk result (λ w. w ≡ record { kind = kind; room = room; groups = [] }) }
    {
        let mut bytes = Vec::with_capacity(alloc, room)?;
        put(&mut bytes, &[VERSION, kind, 0]);
        Ok(FrameWriter {
            kind,
            room,
            bytes,
            last: None,
        })
    }

    /// Begins a frame of this kind anew, without groups, in the room of the one before. It takes no memory.
    pub fn restart(&mut self, kind: u8)
        requires kinds { (1 ≤ kind) × (kind ≤ 2) }
        ensures { self.new ≡ record { kind = kind; room = self.old.room; groups = [] } }
    {
        self.bytes.clear();
        put(&mut self.bytes, &[VERSION, kind, 0]);
        self.kind = kind;
        self.last = None;
    }

    /// Adds a claim: to the last group where the statements are equal, the signer is above the last one and the group
    /// has fewer than 16 signatures, else as a group of its own. It is false exactly where the frame would then pass
    /// its room or 255 groups, and then nothing changes.
    pub fn add(&mut self, statement: &[u8], signer: u8, signature: &[u8]) -> bool
        requires statement { length statement.now < 65536 }
        requires signature { length signature.now ≤ 16384 }
        ensures fits { let groups = packing.add self.old.groups (signed statement.now signer signature.now) in
            result ≡ fits self.old.room groups }
        ensures added { let groups = packing.add self.old.groups (signed statement.now signer signature.now) in
            self.new ≡ (if result then record self.old { groups = groups } else self.old) }
    {
        let left = self.room - self.bytes.len();
        match joined(&self.bytes, self.last, statement, signer) {
            Some(last) => {
                if left < SIGNATURE_HEAD + signature.len() {
                    return false;
                }
                join(&mut self.bytes, last.count_at, signer, signature);
                self.last = Some(Last { signer, ..last });
            }
            None => {
                if self.bytes[2] == FRAME_GROUPS
                    || left < GROUP_HEAD + statement.len() + SIGNATURE_HEAD + signature.len()
                {
                    return false;
                }
                let statement_at = self.bytes.len() + 2;
                begin(&mut self.bytes, statement, signer, signature);
                self.last = Some(Last {
                    statement_at,
                    count_at: statement_at + statement.len(),
                    signer,
                });
            }
        }
        true
    }

    /// The frame's bytes, which `split_frame` reads as the groups that were added.
    pub fn frame(&self) -> &[u8]
        requires { self.now.groups ≢ [] }
        ensures frame { IsFrame (drafted self.now) }
        ensures spelled { result.now ≡ frame_bytes (drafted self.now) }
        ensures again { frame_of result.now ≡ Ok (drafted self.now) }
    {
        &self.bytes
    }
}

// The last group, where a claim joins it.
fn joined(bytes: &[u8], last: Option<Last>, statement: &[u8], signer: u8) -> Option<Last>
    requires { IsWithin bytes.now last }
    ensures { result ≡ (if is_some_and last
        (λ l. same_bytes (slice_range bytes.now l.statement_at l.count_at) statement.now && nat_lt (slice_index bytes.now l.count_at) 16
        && nat_lt l.signer signer) then last else None) }
{
    let last = last?;
    let same = &bytes[last.statement_at..last.count_at] == statement;
    if same && bytes[last.count_at] < GROUP_SIGNATURES && last.signer < signer {
        Some(last)
    } else {
        None
    }
}

// One more signature of the last group.
fn join(bytes: &mut Vec<u8>, count_at: usize, signer: u8, signature: &[u8])
    requires counted { count_at < vec_len bytes.old }
    requires few { slice_index bytes.old.items count_at < 255 }
    requires signature { length signature.now < 65536 }
    requires room { vec_len bytes.old + (3 + length signature.now) ≤ vec_capacity bytes.old }
    ensures items { bytes.new.items ≡ slice_set bytes.old.items count_at (slice_index bytes.old.items count_at + 1)
        ++ signature_bytes (signer, signature.now) }
    ensures capacity { vec_capacity bytes.old ≤ vec_capacity bytes.new }
{
    bytes[count_at] += 1;
    put(bytes, &[signer]);
    put_text(bytes, signature);
}

// One more group, of one signature.
fn begin(bytes: &mut Vec<u8>, statement: &[u8], signer: u8, signature: &[u8])
    requires counted { 2 < vec_len bytes.old }
    requires few { slice_index bytes.old.items 2 < 255 }
    requires statement { length statement.now < 65536 }
    requires signature { length signature.now < 65536 }
    requires room { vec_len bytes.old + (6 + length statement.now + length signature.now) ≤ vec_capacity bytes.old }
    ensures items { bytes.new.items ≡ slice_set bytes.old.items 2 (slice_index bytes.old.items 2 + 1)
        ++ group_bytes (group_of (signed statement.now signer signature.now)) }
    ensures capacity { vec_capacity bytes.old ≤ vec_capacity bytes.new }
{
    bytes[2] += 1;
    put_text(bytes, statement);
    put(bytes, &[1, signer]);
    put_text(bytes, signature);
}

// Two bytes of length, and that many bytes.
fn put_text(bytes: &mut Vec<u8>, text: &[u8])
    requires text { length text.now < 65536 }
    requires room { vec_len bytes.old + (2 + length text.now) ≤ vec_capacity bytes.old }
    ensures items { bytes.new.items ≡ bytes.old.items ++ fields.text text.now }
    ensures capacity { vec_capacity bytes.old ≤ vec_capacity bytes.new }
{
    put(bytes, &(text.len() as u16).to_be_bytes());
    put(bytes, text);
}

// Bytes for which there is room.
fn put(bytes: &mut Vec<u8>, piece: &[u8])
    requires { vec_len bytes.old + length piece.now ≤ vec_capacity bytes.old }
    ensures items { bytes.new.items ≡ bytes.old.items ++ piece.now }
    ensures capacity { vec_capacity bytes.old ≤ vec_capacity bytes.new }
{
    let Ok(()) = bytes.extend_from_slice(piece) else {
        unreachable!();
    };
}

/// A Want: the sender asks for what it lacks, from this view and this place on.
pub fn write_want(view: u16, place: u16) -> [u8; 6]
    ensures spelled { result ≡ frame_bytes (plain.Want view place) }
    ensures again { frame_of result ≡ Ok (plain.Want view place) }
{
    let [view_high, view_low] = view.to_be_bytes();
    let [place_high, place_low] = place.to_be_bytes();
    [VERSION, WANT, view_high, view_low, place_high, place_low]
}
