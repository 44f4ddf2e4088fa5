//! The keys of a schedule.
ghost use Rattle.std.specs.Prelude.{◌≡◌, length, map};
ghost use Rattle.byte_defs.specs.Reads.{Gives};
ghost use Rattle.signature_defs.specs.Hss.{height_in_range, length_in_range};
ghost use Rattle.replay_defs.specs.Keys.{ots_for};
ghost use Rattle.replay_defs.specs.Reading as plain;
ghost use Rattle.replay_defs.specs.declared.FaultKind.TheVariants as kinds;
ghost use Rattle.schedule_file.specs.Views as views;

use lms_ots::ots_type_of;
use replay_defs::{FaultKind, Found, Scheme};
use schedule_fields::Reader;
use schedule_file::Key;
use signature_defs::OtsType;

/// The most levels of trees.
const LEVELS: u8 = 3;

/// The parameters of trees.
#[derive(Clone, Copy)]
struct Tree {
    height: u8,
    ots: OtsType,
    id: [u8; 16],
    seed: [u8; 32],
}

pub fn sixteen(bytes: &[u8]) -> [u8; 16]
    requires { length bytes.now ≡ 16 }
    ensures { result ≡ bytes.now }
{
    let mut copy = [0; 16];
    copy.copy_from_slice(bytes);
    copy
}

fn thirty_two(bytes: &[u8]) -> [u8; 32]
    requires { length bytes.now ≡ 32 }
    ensures { result ≡ bytes.now }
{
    let mut copy = [0; 32];
    copy.copy_from_slice(bytes);
    copy
}

// Trees in `levels` levels may have this height.
fn has_height(levels: u8, typecode: u8) -> bool
    ensures { result ≡ height_in_range levels typecode }
{
    match typecode {
        5 | 6 => true,
        7 => levels <= 2,
        _ => false,
    }
}

// Trees in `levels` levels may have this one-time type.
fn has_length(levels: u8, ots: OtsType) -> bool
    ensures { result ≡ length_in_range levels ots }
{
    match ots {
        OtsType::W1 => levels <= 1,
        OtsType::W2 | OtsType::W4 | OtsType::W8 => true,
    }
}

fn ots_for(levels: u8, typecode: u8) -> Option<OtsType>
    ensures { result ≡ ots_for levels typecode }
{
    let ots = ots_type_of(typecode.into())?;
    if has_length(levels, ots) {
        Some(ots)
    } else {
        None
    }
}

#[tactic(auto, unfolding(replay_defs::specs::Reading::byte_that))]
fn read_height(levels: u8, reader: &mut Reader<'_>) -> Result<u8, Found>
    ensures { Gives (λ h. (h, reader.new.rest.now)) result (plain.byte_that (height_in_range levels) kinds.Key reader.old.rest.now) }
{
    let fault = reader.fault(FaultKind::Key);
    let typecode = reader.byte()?;
    if !has_height(levels, typecode) {
        return Err(fault);
    }
    Ok(typecode)
}

#[tactic(auto, unfolding(replay_defs::specs::Reading::ots_at))]
fn read_ots(levels: u8, reader: &mut Reader<'_>) -> Result<OtsType, Found>
    ensures { Gives (λ ots. (ots, reader.new.rest.now)) result (plain.ots_at levels reader.old.rest.now) }
{
    let fault = reader.fault(FaultKind::Key);
    let typecode = reader.byte()?;
    match ots_for(levels, typecode) {
        Some(ots) => Ok(ots),
        None => Err(fault),
    }
}

#[tactic(auto, unfolding(replay_defs::specs::Reading::tree_at))]
fn read_tree(levels: u8, reader: &mut Reader<'_>) -> Result<Tree, Found>
    ensures { Gives (λ t. ((t.height, t.ots, t.id, t.seed), reader.new.rest.now)) result (plain.tree_at levels reader.old.rest.now) }
{
    let height = read_height(levels, reader)?;
    let ots = read_ots(levels, reader)?;
    let id = sixteen(reader.bytes(16)?);
    let seed = thirty_two(reader.bytes(32)?);
    Ok(Tree {
        height,
        ots,
        id,
        seed,
    })
}

#[tactic(auto, unfolding(replay_defs::specs::Reading::plain_at))]
fn read_plain(reader: &mut Reader<'_>) -> Result<Key, Found>
    ensures { Gives (λ k. (views.key k, reader.new.rest.now)) result (plain.plain_at reader.old.rest.now) }
{
    let key = thirty_two(reader.bytes(32)?);
    let total = reader.long()?;
    Ok(Key::Plain { key, total })
}

#[tactic(auto, unfolding(replay_defs::specs::Reading::lms_at))]
fn read_lms(reader: &mut Reader<'_>) -> Result<Key, Found>
    ensures { Gives (λ k. (views.key k, reader.new.rest.now)) result (plain.lms_at reader.old.rest.now) }
{
    let Tree {
        height,
        ots,
        id,
        seed,
    } = read_tree(1, reader)?;
    Ok(Key::Lms {
        height,
        ots,
        id,
        seed,
    })
}

#[tactic(auto, unfolding(replay_defs::specs::Reading::hss_at))]
fn read_hss(reader: &mut Reader<'_>) -> Result<Key, Found>
    ensures { Gives (λ k. (views.key k, reader.new.rest.now)) result (plain.hss_at reader.old.rest.now) }
{
    let levels = reader.byte_from(1, LEVELS, FaultKind::Key)?;
    let Tree {
        height,
        ots,
        id,
        seed,
    } = read_tree(levels, reader)?;
    Ok(Key::Hss {
        levels,
        height,
        ots,
        id,
        seed,
    })
}

/// A key of the scheme.
#[tactic(auto, unfolding(replay_defs::specs::Reading::key_at))]
pub fn read_key(scheme: Scheme, reader: &mut Reader<'_>) -> Result<Key, Found>
    ensures { Gives (λ k. (views.key k, reader.new.rest.now)) result (plain.key_at scheme reader.old.rest.now) }
{
    match scheme {
        Scheme::Plain => read_plain(reader),
        Scheme::Lms => read_lms(reader),
        Scheme::Hss => read_hss(reader),
    }
}
