//! The line of the view at which a chain begins.
ghost use Rattle.std.specs.Prelude.{◌≡◌, Some};
ghost use Rattle.std.specs.List.{list_all};
ghost use Rattle.byte_defs.specs.Members.{has};
ghost use Rattle.text_codec.specs.Views.{parts_left};
ghost use Rattle.chain_text_defs.specs.Chains.{setting_of};
ghost use Rattle.proof_defs.specs.Starts as plain;
ghost use Rattle.witness_chain.specs.Starting.{start_next};

use chain_words::{Kit, Next};
use rp_base::{Pid, PidSet};
use text_codec::Parts as Words;
use view_table::View;
use view_words::view_by;

// Whether each of these processes has a key.
fn are_keyed(keyed: PidSet, members: &[Pid]) -> bool
    ensures { result ≡ list_all (has keyed) members.now }
{
    members.iter().all(|m| keyed.contains(*m))
}

// The view, where each of its members has a key in the kit.
fn if_keyed(kit: &Kit, view: View) -> Option<View>
    ensures { result ≡ plain.if_keyed (setting_of kit.now) (Some view) }
{
    if are_keyed(kit.roster().processes(), view.members()) {
        Some(view)
    } else {
        None
    }
}

// The view that the words of a line say, where each of its members has a key in the kit.
fn start_by(kit: &Kit, mut words: Words<'_>) -> Option<View>
    ensures { result ≡ plain.start_by (setting_of kit.now) (parts_left words.entry) }
{
    let word = words.next()?;
    if word != b"view".as_slice() {
        return None;
    }
    if_keyed(kit, view_by(words)?)
}

// The view of a line, which is given without its line feed.
#[tactic(auto, unfolding(proof_defs::specs::Starts::start_in))]
fn start_in(kit: &Kit, line: &[u8]) -> Option<View>
    ensures { result ≡ plain.start_in (setting_of kit.now) line.now }
{
    start_by(kit, Words::words(line))
}

/// The view at which a chain begins, by what comes next of the input: None exactly where that is no line of a view of members with a key in the
/// kit. The line is given without its line feed.
pub(crate) fn start_of(kit: &Kit, next: Next, line: &[u8]) -> Option<View>
    ensures { result ≡ start_next (setting_of kit.now) next line.now }
{
    match next {
        Next::Line => start_in(kit, line),
        Next::Broken => None,
        Next::End => None,
    }
}
