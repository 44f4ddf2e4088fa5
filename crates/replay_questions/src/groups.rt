//! Whether all claims of a frame are their signers' words, found by the bytes of its statements, none of which is read.
ghost use Rattle.std.specs.Prelude.{◌≡◌, ℕ, Bool, IsTrue};
ghost use Rattle.std.specs.List.{list_all, AllByRecursion};
ghost use Rattle.message_defs.specs.Claims.{claims_of_group, claims_of_groups};
ghost use Rattle.frame_codec.specs.Views.{signatures_left, groups_left};
ghost use Rattle.stmt_codec.specs.Cursor.{given};
ghost use Rattle.replay_world.specs.Handing.{claims_of};
ghost use Rattle.replay_questions.specs.Words.{is_word, group_of, IsWord};

use crate::words::is_word_of_all;
use frame_codec::{FrameView, Groups, Signatures, split_frame};
use replay_world::Player;

// Whether each of these signers is none of the players, or said the statement with these bytes.
fn are_signers_words(players: &[Player], statement: &[u8], signatures: Signatures<'_>) -> bool
    ensures { result ≡ list_all (λ s. is_word players.now s.0 statement.now) (signatures_left signatures.entry) }
{
    let mut left = signatures;
    'signatures: while let Some((signer, _)) = left.next() {
        if !is_word_of_all(players, signer, statement) {
            return false;
        }
    }
    true
}

// Where it is true, each claim of the group with this statement and these signatures is its signer's word.
fn is_group_of_words(players: &[Player], statement: &[u8], signatures: Signatures<'_>) -> bool
    ensures { IsTrue result → (carries : ℕ → Bool) → AllByRecursion (IsWord players.now)
        (given (claims_of_group carries (group_of statement.now (signatures_left signatures.entry)))) }
{
    are_signers_words(players, statement, signatures)
}

// Where it is true, each claim of these groups is its signer's word.
fn are_groups_of_words(players: &[Player], groups: Groups<'_>) -> bool
    ensures { IsTrue result → (carries : ℕ → Bool)
        → AllByRecursion (IsWord players.now) (given (claims_of_groups carries (groups_left groups.entry))) }
{
    let mut left = groups;
    'groups: while let Some(group) = left.next() {
        if !is_group_of_words(players, group.statement, group.signatures) {
            return false;
        }
    }
    true
}

/// Where it is true, each claim of the bytes, as a frame, is its signer's word. A frame that is refused, or a Want, has no claims.
pub(crate) fn is_frame_of_words(players: &[Player], bytes: &[u8]) -> bool
    ensures { IsTrue result → AllByRecursion (IsWord players.now) (claims_of bytes.now) }
{
    let frame = match split_frame(bytes) {
        Ok(frame) => frame,
        Err(_) => return true,
    };
    match frame {
        FrameView::Bundle(groups) => are_groups_of_words(players, groups),
        FrameView::Proof(groups) => are_groups_of_words(players, groups),
        FrameView::Want { .. } => true,
    }
}
