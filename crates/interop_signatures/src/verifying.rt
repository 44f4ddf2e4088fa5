//! Whether a signature is valid.
ghost use Rattle.std.specs.Prelude.{◌≡◌, ◌≢◌, ℕ, List, [], ◌∷◌, map, IfOk, IsErrOf, codes, if◌then◌else◌};
ghost use Rattle.interop_signatures.specs.declared.verifying.Scheme.{Scheme};
ghost use Rattle.interop_signatures.specs.Schemes as plain;
ghost use Rattle.interop_signatures.specs.Schemes.{scheme_word};
ghost use Rattle.interop_signatures.specs.Signatures.{Answers};

use interop_words::{LineFault, read_bytes};
use lms_hss::hss_verify;
use lms_tree::lms_verify;
use std::alloc::Global;

/// Whose signatures are asked about.
#[derive(Clone, Copy)]
pub(crate) enum Scheme {
    /// Those of one tree.
    Lms,

    /// Those of trees in levels.
    Hss,
}

/// The scheme that the word names.
fn read_scheme(word: &[u8]) -> Result<Scheme, LineFault>
    ensures read { IfOk result (λ scheme. word.now ≡ scheme_word scheme) }
    ensures none { IsErrOf result LineFault.NoQuestion → (scheme : Scheme) → word.now ≢ scheme_word scheme }
{
    if word == b"lms".as_slice() {
        Ok(Scheme::Lms)
    } else if word == b"hss".as_slice() {
        Ok(Scheme::Hss)
    } else {
        Err(LineFault::NoQuestion)
    }
}

fn is_valid(scheme: Scheme, key: &[u8], body: &[u8], sig: &[u8]) -> bool
    ensures { result ≡ plain.is_valid scheme key.now body.now sig.now }
{
    match scheme {
        Scheme::Lms => lms_verify(key, body, sig),
        Scheme::Hss => hss_verify(key, body, sig),
    }
}

/// How a verdict is written.
fn verdict(valid: bool) -> &'static [u8]
    ensures { result.now ≡ (if valid then codes "true" else codes "false") }
{
    if valid { b"true" } else { b"false" }
}

fn answer_verify(
    alloc: Global,
    scheme: &[u8],
    key: &[u8],
    body: &[u8],
    sig: &[u8],
) -> Result<Vec<u8>, LineFault>
    ensures answers { IfOk result (λ reported.
        Answers (codes "verify" ∷ scheme.now ∷ key.now ∷ body.now ∷ sig.now ∷ []) reported.items) }
    ensures no_question { IsErrOf result LineFault.NoQuestion
        → (reported : List ℕ) → ¬ Answers (codes "verify" ∷ scheme.now ∷ key.now ∷ body.now ∷ sig.now ∷ []) reported }
{
    let scheme = read_scheme(scheme)?;
    let key = read_bytes(alloc, key)?;
    let body = read_bytes(alloc, body)?;
    let sig = read_bytes(alloc, sig)?;
    let valid = is_valid(scheme, &key, &body, &sig);
    Ok(verdict(valid).to_vec(alloc)?)
}

/// The answer to a question that begins with `verify`, by the words after it.
pub(crate) fn verify(alloc: Global, words: &[&[u8]]) -> Result<Vec<u8>, LineFault>
    ensures answers { IfOk result (λ reported. Answers (codes "verify" ∷ map (λ word. word.now) words.now) reported.items) }
    ensures no_question { IsErrOf result LineFault.NoQuestion
        → (reported : List ℕ) → ¬ Answers (codes "verify" ∷ map (λ word. word.now) words.now) reported }
{
    if words.len() == 4 {
        answer_verify(alloc, words[0], words[1], words[2], words[3])
    } else {
        Err(LineFault::NoQuestion)
    }
}
