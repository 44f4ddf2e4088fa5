ghost use Rattle.std.specs.Prelude.{◌≡◌, ◌≤◌, ℕ, List, [], ◌∷◌, length, map, codes, IfOk, IsErrOf};
ghost use Rattle.std.specs.List.{AllByRecursion};
ghost use Rattle.byte_defs.specs.Reads.{Gives};
ghost use Rattle.message_defs.specs.Spelling.{IsClaim};
ghost use Rattle.group_defs.specs.Process.{Process};
ghost use Rattle.group_defs.specs.Certified.{number_of_members};
ghost use Rattle.stmt_codec.specs.Left.{claims_left};
ghost use Rattle.bench_parts.specs.Keys.{plain_keys};
ghost use Rattle.claim_index.specs.Kept.{empty_pool};
ghost use Rattle.own_place.specs.Owns.{HasDelivered};
ghost use Rattle.interop_pool.specs.Hearers.{hearer};
ghost use Rattle.interop_pool.specs.Telling as words;
ghost use Rattle.interop_pool.specs.Questions as plain;
ghost use Rattle.interop_pool.specs.Questions.{Answers, SaysOfPool, said};

use crate::convictions::answer_on_convicted;
use crate::hearers::{KEYED, own, view_of};
use crate::hearing::take_all;
use crate::telling::{push_claims, push_totals};
use bench_parts::plain_roster;
use claim_pool::{Own, Pool};
use frame_codec::{FrameFault, split_frame};
use interop_frames::fault_word;
use interop_words::{LineFault, read_bytes, read_number};
use rp_base::{NoMemory, Roster};
use std::alloc::Global;
use stmt_codec::{Claims, claims_of};
use view_table::View;

/// The number of the last view.
const LAST_NUMBER: u32 = 1_023;

// `pool`, the verdict on each claim, what is heard then of the view, and of each claim's slot.
fn heard_words(
    alloc: Global,
    roster: &Roster,
    own: &Own,
    pool: &mut Pool,
    claims: Claims<'_>,
) -> Result<Vec<u8>, NoMemory>
    requires keys { roster.now ≡ plain_keys 48 }
    requires counted { length own.now.counts.items ≡ number_of_members pool.old.pool }
    requires range { AllByRecursion IsClaim (claims_left claims) }
    ensures { (p : Process) → HasDelivered own.now p → p.pool ≡ pool.old.pool
        → IfOk result (λ reported. reported.items ≡ words.heard_words p (claims_left claims.entry)) }
{
    let mut reported = b"pool".to_vec(alloc)?;
    take_all(&mut reported, roster, own, pool, claims)?;
    push_totals(&mut reported, pool)?;
    push_claims(&mut reported, pool, claims)?;
    Ok(reported)
}

// The same, where nothing is heard of the view yet.
fn words_in(
    alloc: Global,
    roster: &Roster,
    own: &Own,
    view: View,
    claims: Claims<'_>,
) -> Result<Vec<u8>, NoMemory>
    requires keys { roster.now ≡ plain_keys 48 }
    requires counted { length own.now.counts.items ≡ length view.members }
    requires range { AllByRecursion IsClaim (claims_left claims) }
    ensures { (p : Process) → HasDelivered own.now p → p.pool ≡ empty_pool view
        → IfOk result (λ reported. reported.items ≡ words.heard_words p (claims_left claims.entry)) }
{
    let mut pool = Pool::new(alloc, view)?;
    heard_words(alloc, roster, own, &mut pool, claims)
}

// The same, of a process that has delivered messages of each member, as many as `counts` says.
fn pool_words(
    alloc: Global,
    view: View,
    counts: &[u8],
    claims: Claims<'_>,
) -> Result<Vec<u8>, NoMemory>
    requires counted { length counts.now ≡ length view.members }
    requires range { AllByRecursion IsClaim (claims_left claims) }
    ensures { IfOk result (λ reported. reported.items ≡ words.heard_words (hearer view counts.now) (claims_left claims.entry)) }
{
    let roster = plain_roster(alloc, KEYED)?;
    let own = own(alloc, &view, counts);
    words_in(alloc, &roster, &own, view, claims)
}

// The claims of a frame's bytes, or the first fault.
fn claims_in(bytes: &[u8]) -> Result<Claims<'_>, FrameFault>
    ensures exact { Gives claims_left result (plain.claims_in bytes.now) }
    ensures range { IfOk result (λ cs. AllByRecursion IsClaim (claims_left cs)) }
{
    let frame = split_frame(bytes)?;
    claims_of(&frame)
}

// What is heard of the frame in the view, or the word of its fault.
fn answer_in(alloc: Global, view: View, counts: &[u8], frame: &[u8]) -> Result<Vec<u8>, NoMemory>
    requires { length counts.now ≡ length view.members }
    ensures { IfOk result (λ reported. reported.items ≡ said view counts.now (plain.claims_in frame.now)) }
{
    match claims_in(frame) {
        Ok(claims) => pool_words(alloc, view, counts, claims),
        Err(fault) => Ok(fault_word(fault).to_vec(alloc)?),
    }
}

/// What a process that has delivered `counts` of each member's messages hears of the frame in the view of this number and these members:
/// `pool`, the verdict on each claim, and what is heard then; or the word of the frame's fault. `noview`, where number and members make no
/// view, or there is no count for each member.
fn answer_pool(
    alloc: Global,
    number: u16,
    members: &[u8],
    counts: &[u8],
    frame: &[u8],
) -> Result<Vec<u8>, NoMemory>
    ensures { IfOk result (λ reported. SaysOfPool number members.now counts.now frame.now reported.items) }
{
    match view_of(number, members, counts) {
        Some(view) => answer_in(alloc, view, counts, frame),
        None => Ok(b"noview".to_vec(alloc)?),
    }
}

// The answer to a question that begins with `pool`, by the four words after it.
fn answer_on_pool(
    alloc: Global,
    number: &[u8],
    members: &[u8],
    counts: &[u8],
    frame: &[u8],
) -> Result<Vec<u8>, LineFault>
    ensures answers { IfOk result
        (λ reported. Answers (codes "pool" ∷ number.now ∷ members.now ∷ counts.now ∷ frame.now ∷ []) reported.items) }
    ensures no_question { IsErrOf result LineFault.NoQuestion
        → (reported : List ℕ) → ¬ Answers (codes "pool" ∷ number.now ∷ members.now ∷ counts.now ∷ frame.now ∷ []) reported }
{
    let number = read_number(number, 0, LAST_NUMBER)?;
    let members = read_bytes(alloc, members)?;
    let counts = read_bytes(alloc, counts)?;
    let frame = read_bytes(alloc, frame)?;
    Ok(answer_pool(alloc, number as u16, &members, &counts, &frame)?)
}

/// The answer to a question on a pool or on convictions, by the words of a line.
pub fn answer_pools(alloc: Global, words: &[&[u8]]) -> Result<Vec<u8>, LineFault>
    ensures answers { IfOk result (λ reported. Answers (map (λ word. word.now) words.now) reported.items) }
    ensures no_question { IsErrOf result LineFault.NoQuestion
        → (reported : List ℕ) → ¬ Answers (map (λ word. word.now) words.now) reported }
{
    match words {
        [verb, number, members, counts, frame] if *verb == b"pool".as_slice() => {
            answer_on_pool(alloc, number, members, counts, frame)
        }
        [verb, frame] if *verb == b"convicted".as_slice() => answer_on_convicted(alloc, frame),
        _ => Err(LineFault::NoQuestion),
    }
}
