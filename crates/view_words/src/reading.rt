//! The words of a view, as they are read.
ghost use Rattle.std.specs.Prelude.{◌≡◌, ◌==◌, IfSome, option_map, AllPairs, ◌≢◌, ◌≤◌, length};
ghost use Rattle.std.specs.List.{list_any};
ghost use Rattle.text_codec.specs.Views.{parts_left};
ghost use Rattle.store_defs.specs.Asking as plain;
ghost use Rattle.view_words.specs.Members.{members_within};

use arrayvec::ArrayVec;
use rp_base::Pid;
use text_codec::{Parts as Words, number, process};
use view_table::View;

/// The greatest number of a view.
const LAST_NUMBER: u32 = 1023;

/// The most members of a view.
const MOST_MEMBERS: usize = 16;

fn is_among(pids: &[Pid], p: Pid) -> bool
    ensures { result ≡ list_any (λ q. q == p) pids.now }
{
    pids.iter().any(|q| *q == p)
}

// The numbers of 1 to 16 processes, each different from those before.
fn members_in(mut words: Words<'_>) -> Option<ArrayVec<Pid, MOST_MEMBERS>>
    ensures members { option_map (λ ms. ms.items) result ≡ members_within (parts_left words.entry) }
    ensures distinct { IfSome result (λ ms. AllPairs (λ m n. m ≢ n) ms.items) }
    ensures some { IfSome result (λ ms. (1 ≤ length ms.items) × (length ms.items ≤ 16)) }
{
    let mut members = ArrayVec::new();
    'members: while let Some(word) = words.next() {
        let member = process(word)?;
        if is_among(&members, member) || members.is_full() {
            return None;
        }
        members.push(member);
    }
    if members.is_empty() {
        None
    } else {
        Some(members)
    }
}

// The view of this number, with the members that the words name.
#[tactic(auto, using(crate::proofs::Members::numbered, crate::proofs::Members::unnumbered, crate::proofs::Members::view_is))]
fn numbered_view(word: &[u8], words: Words<'_>) -> Option<View>
    ensures { result ≡ plain.view_of_words word.now (parts_left words.entry) }
{
    let number = number(word, 0, LAST_NUMBER)?;
    let members = members_in(words)?;
    View::new(number as u16, &members)
}

/// The view that the words after `view` say: its number, 0 to 1,023, a colon, and 1 to 16 different processes in rank order. None exactly where
/// they say none.
pub fn view_by(mut words: Words<'_>) -> Option<View>
    ensures { result ≡ plain.view_by (parts_left words.entry) }
{
    let number = words.next()?;
    let colon = words.next()?;
    if colon != b":".as_slice() {
        return None;
    }
    numbered_view(number, words)
}
