ghost use Rattle.std.specs.Prelude.{◌≡◌, ◌++◌, ℕ, List, [], ◌∷◌, map, codes, IfOk, OnOk, IsErrOf};
ghost use Rattle.std.specs.List.{flat_map, AllByRecursion};
ghost use Rattle.std.specs.Fmt.{decimal};
ghost use Rattle.message_defs.specs.Spelling.{IsClaim, IsStatement, spelling};
ghost use Rattle.frame_codec.specs.Views.{frame_view};
ghost use Rattle.message_defs.specs.Claims as claims;
ghost use Rattle.stmt_codec.specs.Views.{claim, stmt};
ghost use Rattle.stmt_codec.specs.Left.{claims_left};
ghost use Rattle.text_defs.specs.Words.{bytes_word};
ghost use Rattle.interop_frames.specs.Frames.{Answers, claim_words, fault_word, frame_answer, said, statement_answer};

use frame_codec::{FrameFault, FrameView, split_frame};
use interop_words::{LineFault, read_bytes};
use rp_base::NoMemory;
use std::alloc::Global;
use stmt_codec::{
    Claim, Claims, STATEMENT_BYTES, Statement, claims_of, read_statement, spell_into,
};
use text_codec::{push_byte_list, push_number};

/// The word of the fault.
pub fn fault_word(fault: FrameFault) -> &'static [u8]
    ensures { result.now ≡ fault_word fault }
{
    match fault {
        FrameFault::Short => b"short",
        FrameFault::Version => b"version",
        FrameFault::Kind => b"kind",
        FrameFault::Count => b"count",
        FrameFault::Length => b"length",
        FrameFault::Unordered => b"unordered",
        FrameFault::Trailing => b"trailing",
        FrameFault::Statement => b"statement",
        FrameFault::Range => b"range",
        FrameFault::Misplaced => b"misplaced",
    }
}

// The statement, spelled from its value.
fn push_statement(out: &mut Vec<u8>, st: &Statement<'_>) -> Result<(), NoMemory>
    requires { IsStatement (stmt st.now) }
    ensures { OnOk result (out.new.items ≡ out.old.items ++ bytes_word (spelling (stmt st.now))) }
{
    let mut spelled = [0u8; STATEMENT_BYTES];
    let len = spell_into(st, &mut spelled);
    push_byte_list(out, &spelled[..len])
}

fn push_claim(out: &mut Vec<u8>, one: &Claim<'_>) -> Result<(), NoMemory>
    requires { IsClaim (claim one.now) }
    ensures { OnOk result (out.new.items ≡ out.old.items ++ claim_words (claim one.now)) }
{
    out.extend_from_slice(b" ")?;
    push_number(out, one.signer.get().into())?;
    out.extend_from_slice(b" ")?;
    push_statement(out, &one.statement)?;
    out.extend_from_slice(b" ")?;
    push_byte_list(out, one.signature)
}

fn push_claims(out: &mut Vec<u8>, claims: Claims<'_>) -> Result<(), NoMemory>
    requires { AllByRecursion IsClaim (claims_left claims) }
    ensures { OnOk result (out.new.items ≡ out.old.items ++ flat_map claim_words (claims_left claims.entry)) }
{
    let mut left = claims;
    'claims: while let Some(one) = left.next() {
        push_claim(out, &one)?;
    }
    Ok(())
}

// The word, and the claims.
fn with_claims(alloc: Global, word: &[u8], claims: Claims<'_>) -> Result<Vec<u8>, NoMemory>
    requires { AllByRecursion IsClaim (claims_left claims) }
    ensures { IfOk result (λ reported. reported.items ≡ word.now ++ flat_map claim_words (claims_left claims.entry)) }
{
    let mut reported = word.to_vec(alloc)?;
    push_claims(&mut reported, claims)?;
    Ok(reported)
}

fn want_words(alloc: Global, view: u16, place: u16) -> Result<Vec<u8>, NoMemory>
    ensures { IfOk result (λ reported. reported.items ≡ codes "want " ++ (decimal view ++ (codes " " ++ decimal place))) }
{
    let mut reported = b"want ".to_vec(alloc)?;
    push_number(&mut reported, view.into())?;
    reported.extend_from_slice(b" ")?;
    push_number(&mut reported, place.into())?;
    Ok(reported)
}

// What a frame says whose groups can be read.
fn frame_words(alloc: Global, frame: &FrameView<'_>) -> Result<Vec<u8>, NoMemory>
    ensures { IfOk result (λ reported. reported.items ≡ said (frame_view frame.now) (claims.claims_of (frame_view frame.now))) }
{
    let claims = match claims_of(frame) {
        Ok(claims) => claims,
        Err(fault) => return Ok(fault_word(fault).to_vec(alloc)?),
    };
    match *frame {
        FrameView::Bundle(_) => with_claims(alloc, b"bundle", claims),
        FrameView::Proof(_) => with_claims(alloc, b"proof", claims),
        FrameView::Want { view, place } => want_words(alloc, view, place),
    }
}

/// What the bytes say as a frame: the word of their first fault (docs/FORMATS.md, «Frames»), or `bundle` or `proof` and
/// for each claim ` SIGNER STATEMENT SIGNATURE`, or `want VIEW PLACE`.
fn answer_frame(alloc: Global, bytes: &[u8]) -> Result<Vec<u8>, NoMemory>
    ensures { IfOk result (λ reported. reported.items ≡ frame_answer bytes.now) }
{
    match split_frame(bytes) {
        Ok(frame) => frame_words(alloc, &frame),
        Err(fault) => Ok(fault_word(fault).to_vec(alloc)?),
    }
}

fn ok_words(alloc: Global, st: &Statement<'_>) -> Result<Vec<u8>, NoMemory>
    requires { IsStatement (stmt st.now) }
    ensures { IfOk result (λ reported. reported.items ≡ codes "ok " ++ bytes_word (spelling (stmt st.now))) }
{
    let mut reported = b"ok ".to_vec(alloc)?;
    push_statement(&mut reported, st)?;
    Ok(reported)
}

/// What the bytes say as a statement: the word of their fault (docs/FORMATS.md, «Statements»), or `ok` and the statement
/// spelled from what was read.
fn answer_statement(alloc: Global, bytes: &[u8]) -> Result<Vec<u8>, NoMemory>
    ensures { IfOk result (λ reported. reported.items ≡ statement_answer bytes.now) }
{
    match read_statement(bytes) {
        Ok(st) => ok_words(alloc, &st),
        Err(fault) => Ok(fault_word(fault).to_vec(alloc)?),
    }
}

// The answer to `frame WORD`.
fn answer_on_frame(alloc: Global, word: &[u8]) -> Result<Vec<u8>, LineFault>
    ensures answers { IfOk result (λ reported. Answers (codes "frame" ∷ word.now ∷ []) reported.items) }
    ensures no_question { IsErrOf result LineFault.NoQuestion
        → (reported : List ℕ) → ¬ Answers (codes "frame" ∷ word.now ∷ []) reported }
{
    let bytes = read_bytes(alloc, word)?;
    Ok(answer_frame(alloc, &bytes)?)
}

// The answer to `statement WORD`.
fn answer_on_statement(alloc: Global, word: &[u8]) -> Result<Vec<u8>, LineFault>
    ensures answers { IfOk result (λ reported. Answers (codes "statement" ∷ word.now ∷ []) reported.items) }
    ensures no_question { IsErrOf result LineFault.NoQuestion
        → (reported : List ℕ) → ¬ Answers (codes "statement" ∷ word.now ∷ []) reported }
{
    let bytes = read_bytes(alloc, word)?;
    Ok(answer_statement(alloc, &bytes)?)
}

/// The answer to a question on a frame or a statement, by the words of a line.
pub fn answer_frames(alloc: Global, words: &[&[u8]]) -> Result<Vec<u8>, LineFault>
    ensures answers { IfOk result (λ reported. Answers (map (λ word. word.now) words.now) reported.items) }
    ensures no_question { IsErrOf result LineFault.NoQuestion
        → (reported : List ℕ) → ¬ Answers (map (λ word. word.now) words.now) reported }
{
    match words {
        [verb, bytes] if *verb == b"frame".as_slice() => answer_on_frame(alloc, bytes),
        [verb, bytes] if *verb == b"statement".as_slice() => answer_on_statement(alloc, bytes),
        _ => Err(LineFault::NoQuestion),
    }
}
