ghost use Rattle.std.specs.Prelude.{◌≡◌, option_map, option_and_then};
ghost use Rattle.signature_defs.specs.LmOts.{ots_type_of};
ghost use Rattle.text_defs.specs.Words.{number_within};
ghost use Rattle.command_line.specs.Reading.{plain_by, tree_by, lms_by, hss_by, plan_of, order_of};
ghost use Rattle.command_line.specs.Views as views;

use kit_defs::{KeyPlan, OtsType};
use lms_ots::ots_type_of;
use sig_scheme::levels_are_built;
use std::fmt;
use text_codec::{bytes, number};

/// What a new kit is to be like. Its `Debug` does not show the seed.
#[derive(Clone, Copy, PartialEq, Eq)]
pub struct KitOrder {
    /// How many of the processes are members of the first view, 1 to 16.
    pub members: u8,

    /// How many processes there are, from the members to 64.
    pub roster: u8,

    /// Which keys each process gets: a plain one and how often it signs, a tree whose height has the typecode 5, 6 or 7, or
    /// levels of such trees that are built.
    pub keys: KeyPlan,

    /// The 32 bytes that all keys come from.
    pub seed: [u8; 32],
}

impl fmt::Debug for KitOrder {
    fn fmt<W: fmt::Write>(&self, f: &mut fmt::Formatter<W>) -> fmt::Result {
        f.debug_struct("KitOrder")
            .field("members", &self.members)
            .field("roster", &self.roster)
            .field("keys", &self.keys)
            .finish_non_exhaustive()
    }
}

fn plain(total: &[u8]) -> Option<KeyPlan>
    ensures { result ≡ plain_by total.now }
{
    Some(KeyPlan::Plain(number(total, 0, u32::MAX)?))
}

fn parameter_set(word: &[u8]) -> Option<OtsType>
    ensures { result ≡ option_and_then ots_type_of (number_within 1 4 word.now) }
{
    ots_type_of(number(word, 1, 4)?)
}

// The typecodes of a tree: `H:W`.
fn tree(typecodes: &[u8]) -> Option<(u32, OtsType)>
    ensures { result ≡ tree_by typecodes.now }
{
    if typecodes.len() != 3 || typecodes[1] != b':' {
        return None;
    }
    let height = number(&typecodes[..1], 5, 7)?;
    let set = parameter_set(&typecodes[2..])?;
    Some((height, set))
}

fn lms(typecodes: &[u8]) -> Option<KeyPlan>
    ensures { result ≡ lms_by typecodes.now }
{
    let (height, set) = tree(typecodes)?;
    Some(KeyPlan::Lms(height, set))
}

fn hss(word: &[u8]) -> Option<KeyPlan>
    ensures { result ≡ hss_by word.now }
{
    if word.len() != 5 || word[1] != b':' {
        return None;
    }
    let levels = number(&word[..1], 1, 3)?;
    let (height, set) = tree(&word[2..])?;
    if levels_are_built(levels, height, set) {
        Some(KeyPlan::Hss(levels, height, set))
    } else {
        None
    }
}

/// Which keys the word plans: `plain:T`, `lms:H:W` or `hss:L:H:W` by the typecodes of RFC 8554.
fn plan(word: &[u8]) -> Option<KeyPlan>
    ensures { result ≡ plan_of word.now }
{
    if let Some(total) = word.strip_prefix(b"plain:") {
        return plain(total);
    }
    if let Some(typecodes) = word.strip_prefix(b"lms:") {
        return lms(typecodes);
    }
    hss(word.strip_prefix(b"hss:")?)
}

/// The order of these words; None exactly where one of them is no such number, plan or seed.
pub fn read_order(members: &[u8], roster: &[u8], keys: &[u8], seed: &[u8]) -> Option<KitOrder>
    ensures { option_map views.order result ≡ order_of members.now roster.now keys.now seed.now }
{
    let members = number(members, 1, 16)?;
    let roster = number(roster, members, 64)?;
    let keys = plan(keys)?;
    let seed = bytes(seed)?;
    Some(KitOrder {
        members: members as u8,
        roster: roster as u8,
        keys,
        seed,
    })
}
