//! What a store says: its view, and each key with its value.
ghost use Rattle.std.specs.Prelude.{◌≡◌, ◌++◌, ◌∷◌, [], true, is_ok, OnOk};
ghost use Rattle.store_records.specs.Cursors.{pairs_left};
ghost use Rattle.store_records.specs.Views.{pair as pair_of, state_record as state_of};
ghost use Rattle.store_text_defs.specs.Meanings.{pair_tokens, state_lines, store_head};
ghost use Rattle.store_telling.specs.Pieces.{pairs_reported, reported_text};

use crate::reported::tell_line;
use rp_base::NoMemory;
use store_records::{Pair, Pairs, StateRecord, is_store};
use story_writing::Token;

// A key with its value.
fn tell_pair(out: &mut Vec<u8>, pair: Pair<'_>) -> Result<(), NoMemory>
    ensures { OnOk result (out.new.items ≡ out.old.items ++ reported_text (pair_tokens (pair_of pair.entry) ∷ [])) }
{
    tell_line(
        out,
        &[
            Token::Bytes(pair.key),
            Token::Word(b"is"),
            Token::Bytes(pair.value),
        ],
    )
}

// The view that a store is of.
fn tell_head(out: &mut Vec<u8>, view: u16) -> Result<(), NoMemory>
    ensures { OnOk result (out.new.items ≡ out.old.items ++ reported_text (store_head view ∷ [])) }
{
    tell_line(
        out,
        &[
            Token::Word(b"the"),
            Token::Word(b"store"),
            Token::Word(b"of"),
            Token::Word(b"view"),
            Token::Number(view.into()),
        ],
    )
}

// The pairs that are left of a store's spelling.
fn tell_pairs(out: &mut Vec<u8>, mut pairs: Pairs<'_>) -> Result<(), NoMemory>
    requires { is_ok (pairs_left pairs) ≡ true }
    ensures { OnOk result (out.new.items ≡ out.old.items ++ reported_text (pairs_reported (pairs_left pairs.entry))) }
{
    'pairs: loop {
        match pairs.next() {
            Ok(Some(pair)) => tell_pair(out, pair)?,
            Ok(None) => return Ok(()),
            Err(()) => unreachable!(),
        }
    }
}

/// Appends the lines that a state record says: none where its state is no store's spelling.
pub(crate) fn tell_state(out: &mut Vec<u8>, given: &StateRecord<'_>) -> Result<(), NoMemory>
    ensures { OnOk result (out.new.items ≡ out.old.items ++ reported_text (state_lines (state_of given.now))) }
{
    let Some(pairs) = Pairs::of(given.state) else {
        return Ok(());
    };
    if !is_store(given.state) {
        return Ok(());
    }
    tell_head(out, given.view)?;
    tell_pairs(out, pairs)
}
