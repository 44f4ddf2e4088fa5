//! The entries of an image's lists.
ghost use Rattle.byte_defs.specs.Reads.{Gives, Makes};
ghost use Rattle.message_defs.specs.Limits.{most_payload_bytes};
ghost use Rattle.snapshot_defs.specs.Steps.{text_to};
ghost use Rattle.snapshot_defs.specs.Reading as plain;
ghost use Rattle.snapshot_rp.specs.Faults.{left_of};

use crate::claim::{KeptClaim, push_claim, read_claim};
use crate::cursor::Cursor;
use crate::entries::{Entry, Reading, list, push_list};
use crate::fault::ReadError;
use crate::image::LeftView;
use crate::pushing::{push_short, push_text, push_update, push_value};
use member_events::{Delivered, LAST_NUMBER, PAYLOAD_BYTES, Payload};
use rp_base::{NoMemory, Update};
use snapshot_defs::Version;
use std::alloc::Global;

pub(crate) const LAST_RANK: u8 = 15;

impl Entry for KeptClaim {
    ghost use Rattle.message_defs.specs.Statements.{Claim};
    ghost use Rattle.snapshot_defs.specs.Reading.{claim_at};
    ghost use Rattle.image_defs.specs.Spelling.{claim_bytes};

    ghost Plain = { Claim };

    ghost plain = { λ c. c };

    ghost step = { λ v k bytes. claim_at bytes };

    ghost spell = { claim_bytes };

    fn read(
        reading: Reading,
        cursor: &mut Cursor<'_>,
        _position: usize,
    ) -> Result<KeptClaim, ReadError> {
        read_claim(reading.alloc, cursor)
    }

    fn append_to(&self, out: &mut Vec<u8>) -> Result<(), NoMemory> {
        push_claim(out, self)
    }
}

impl Entry for (KeptClaim, KeptClaim) {
    ghost use Rattle.message_defs.specs.Statements.{Claim};
    ghost use Rattle.snapshot_defs.specs.Reading.{conflict_at};
    ghost use Rattle.image_defs.specs.Spelling.{conflict_bytes};

    ghost Plain = { Claim × Claim };

    ghost plain = { λ e. e };

    ghost step = { λ v k bytes. conflict_at bytes };

    ghost spell = { conflict_bytes };

    #[tactic(auto, unfolding(snapshot_defs::specs::Reading::conflict_at))]
    fn read(
        reading: Reading,
        cursor: &mut Cursor<'_>,
        _position: usize,
    ) -> Result<(KeptClaim, KeptClaim), ReadError> {
        let heard = read_claim(reading.alloc, cursor)?;
        let other = read_claim(reading.alloc, cursor)?;
        Ok((heard, other))
    }

    fn append_to(&self, out: &mut Vec<u8>) -> Result<(), NoMemory> {
        push_claim(out, &self.0)?;
        push_claim(out, &self.1)
    }
}

impl Entry for LeftView {
    ghost use Rattle.image_defs.specs.Images as images;
    ghost use Rattle.snapshot_defs.specs.Reading.{left_at};
    ghost use Rattle.snapshot_rp.specs.Views.{left_view};
    ghost use Rattle.image_defs.specs.Spelling.{left_bytes};

    ghost Plain = { images.LeftView };

    ghost plain = { left_view };

    ghost step = { λ v k bytes. left_at bytes };

    ghost spell = { left_bytes };

    #[tactic(auto, unfolding(snapshot_defs::specs::Reading::left_at))]
    fn read(
        reading: Reading,
        cursor: &mut Cursor<'_>,
        _position: usize,
    ) -> Result<LeftView, ReadError> {
        let rank = cursor.byte_to(LAST_RANK)?;
        let value = cursor.value()?;
        let commit = claims(reading, cursor)?;
        Ok(LeftView {
            rank,
            value,
            commit,
        })
    }

    fn append_to(&self, out: &mut Vec<u8>) -> Result<(), NoMemory> {
        out.push(self.rank)?;
        push_value(out, self.value)?;
        push_list(out, self.commit.as_slice())
    }
}

impl Entry for (u16, Update) {
    ghost use Rattle.std.specs.Prelude.{ℕ};
    ghost use Rattle.message_defs.specs.Updates as updates;
    ghost use Rattle.snapshot_defs.specs.Reading.{perceived_at};
    ghost use Rattle.snapshot_rp.specs.Views.{perceived};
    ghost use Rattle.image_defs.specs.Spelling.{perceived_bytes};

    ghost Plain = { ℕ × updates.Update };

    ghost plain = { perceived };

    ghost step = { λ v k bytes. perceived_at bytes };

    ghost spell = { perceived_bytes };

    #[tactic(auto, unfolding(snapshot_defs::specs::Reading::perceived_at))]
    fn read(
        _reading: Reading,
        cursor: &mut Cursor<'_>,
        _position: usize,
    ) -> Result<(u16, Update), ReadError> {
        let view = cursor.short_to(LAST_NUMBER)?;
        let update = cursor.update()?;
        Ok((view, update))
    }

    fn append_to(&self, out: &mut Vec<u8>) -> Result<(), NoMemory> {
        push_short(out, self.0)?;
        push_update(out, self.1)
    }
}

impl Entry for Payload {
    ghost use Rattle.std.specs.Prelude.{ℕ, List};
    ghost use Rattle.message_defs.specs.Limits.{most_payload_bytes};
    ghost use Rattle.snapshot_defs.specs.Steps.{text_to};
    ghost use Rattle.byte_defs.specs.Fields.{text};

    ghost Plain = { List ℕ };

    ghost plain = { λ p. p };

    ghost step = { λ v k bytes. text_to most_payload_bytes bytes };

    ghost spell = { text };

    fn read(
        reading: Reading,
        cursor: &mut Cursor<'_>,
        _position: usize,
    ) -> Result<Payload, ReadError> {
        payload(reading.alloc, cursor)
    }

    fn append_to(&self, out: &mut Vec<u8>) -> Result<(), NoMemory> {
        push_text(out, self.bytes())
    }
}

impl Entry for Delivered {
    ghost use Rattle.group_defs.specs.Process as processes;
    ghost use Rattle.snapshot_defs.specs.Reading.{delivered_at};
    ghost use Rattle.snapshot_rp.specs.Views.{delivered};
    ghost use Rattle.image_defs.specs.Spelling.{delivered_bytes};

    ghost Plain = { processes.Delivered };

    ghost plain = { delivered };

    ghost step = { λ v k bytes. delivered_at v k bytes };

    ghost spell = { delivered_bytes };

    #[tactic(auto, unfolding(snapshot_defs::specs::Reading::delivered_at, snapshot_defs::specs::Reading::message_at))]
    fn read(
        reading: Reading,
        cursor: &mut Cursor<'_>,
        position: usize,
    ) -> Result<Delivered, ReadError> {
        let place = place(reading.version, cursor, position)?;
        let sender = cursor.process()?;
        let number = cursor.short_to(LAST_NUMBER)?;
        let payload = payload(reading.alloc, cursor)?;
        Ok(Delivered {
            place,
            sender,
            number,
            payload,
        })
    }

    fn append_to(&self, out: &mut Vec<u8>) -> Result<(), NoMemory> {
        push_short(out, self.place)?;
        out.push(self.sender.get())?;
        push_short(out, self.number)?;
        push_text(out, self.payload.bytes())
    }
}

impl Entry for Vec<Delivered> {
    ghost use Rattle.std.specs.Prelude.{List, map};
    ghost use Rattle.group_defs.specs.Process as processes;
    ghost use Rattle.snapshot_defs.specs.Reading.{view_at};
    ghost use Rattle.snapshot_rp.specs.Views.{delivered};
    ghost use Rattle.image_defs.specs.Spelling.{list_bytes, delivered_bytes};

    ghost Plain = { List processes.Delivered };

    ghost plain = { λ ds. map delivered ds.items };

    ghost step = { λ v k bytes. view_at v bytes };

    ghost spell = { list_bytes delivered_bytes };

    #[tactic(auto, unfolding(snapshot_defs::specs::Reading::view_at))]
    fn read(
        reading: Reading,
        cursor: &mut Cursor<'_>,
        _position: usize,
    ) -> Result<Vec<Delivered>, ReadError> {
        list(reading, cursor)
    }

    fn append_to(&self, out: &mut Vec<u8>) -> Result<(), NoMemory> {
        push_list(out, self.as_slice())
    }
}

/// A list of claims.
pub(crate) fn claims(reading: Reading, cursor: &mut Cursor<'_>) -> Result<Vec<KeptClaim>, ReadError>
    ensures { Makes left_of (λ cs. (cs.items, cursor.new.rest.now)) result (plain.claims_at cursor.old.rest.now) }
{
    list(reading, cursor)
}

fn payload(alloc: Global, cursor: &mut Cursor<'_>) -> Result<Payload, ReadError>
    ensures { Makes left_of (λ p. (p, cursor.new.rest.now)) result (text_to most_payload_bytes cursor.old.rest.now) }
{
    let bytes = cursor.text_to(PAYLOAD_BYTES as u16)?;
    Ok(Payload::from_vec(bytes.to_vec(alloc)?))
}

// The place of the message at this position of its list.
#[tactic(auto, unfolding(snapshot_defs::specs::Reading::place_at))]
fn place(version: Version, cursor: &mut Cursor<'_>, position: usize) -> Result<u16, usize>
    ensures { Gives (λ x. (x, cursor.new.rest.now)) result (plain.place_at version position cursor.old.rest.now) }
{
    match version {
        Version::One if position > LAST_NUMBER as usize => Err(cursor.rest.len()),
        Version::One => Ok(position as u16),
        Version::Two => cursor.short_to(LAST_NUMBER),
    }
}
