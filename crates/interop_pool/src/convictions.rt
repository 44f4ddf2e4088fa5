//! Whom the claims of a frame convict.
ghost use Rattle.std.specs.Prelude.{◌≡◌, ◌++◌, ℕ, List, [], ◌∷◌, codes, IfOk, IsErrOf};
ghost use Rattle.std.specs.List.{flat_map};
ghost use Rattle.message_defs.specs.Claims as claims;
ghost use Rattle.frame_codec.specs.Views.{frame_view};
ghost use Rattle.stmt_codec.specs.Cursor.{given};
ghost use Rattle.conviction_defs.specs.Convictions.{convicted};
ghost use Rattle.interop_pool.specs.Hearers.{setting};
ghost use Rattle.interop_pool.specs.Questions.{Answers, claims_in, convicted_words};
ghost use Rattle.interop_pool.specs.Telling.{signer_word};

use crate::hearers::KEYED;
use crate::hearing::GROUP;
use crate::telling::push_signers;
use bench_parts::plain_roster;
use conviction::convicted_in;
use frame_codec::{FrameView, split_frame};
use interop_frames::fault_word;
use interop_words::{LineFault, read_bytes};
use rp_base::{NoMemory, PlainScheme};
use std::alloc::Global;
use stmt_codec::claims_of;

// `convicted` and each whom the claims of the frame convict, by rising number.
fn words_of(alloc: Global, frame: &FrameView<'_>) -> Result<Vec<u8>, NoMemory>
    ensures { IfOk result (λ reported. reported.items
        ≡ codes "convicted" ++ flat_map signer_word (convicted setting (given (claims.claims_of (frame_view frame.now))))) }
{
    let roster = plain_roster(alloc, KEYED)?;
    let mut reported = b"convicted".to_vec(alloc)?;
    push_signers(
        &mut reported,
        convicted_in(&PlainScheme, &roster, &GROUP, frame),
    )?;
    Ok(reported)
}

// Whom the claims of the frame convict, or the word of its first fault.
fn answer_convicted(alloc: Global, bytes: &[u8]) -> Result<Vec<u8>, NoMemory>
    ensures { IfOk result (λ reported. reported.items ≡ convicted_words (claims_in bytes.now)) }
{
    let frame = match split_frame(bytes) {
        Ok(frame) => frame,
        Err(fault) => return Ok(fault_word(fault).to_vec(alloc)?),
    };
    match claims_of(&frame) {
        Ok(_) => words_of(alloc, &frame),
        Err(fault) => Ok(fault_word(fault).to_vec(alloc)?),
    }
}

/// The answer to `convicted WORD`: whom the claims of the frame that the word spells convict, or the word of the frame's first
/// fault.
pub(crate) fn answer_on_convicted(alloc: Global, word: &[u8]) -> Result<Vec<u8>, LineFault>
    ensures answers { IfOk result (λ reported. Answers (codes "convicted" ∷ word.now ∷ []) reported.items) }
    ensures no_question { IsErrOf result LineFault.NoQuestion
        → (reported : List ℕ) → ¬ Answers (codes "convicted" ∷ word.now ∷ []) reported }
{
    let bytes = read_bytes(alloc, word)?;
    Ok(answer_convicted(alloc, &bytes)?)
}
