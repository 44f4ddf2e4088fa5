//! A key of trees in levels that is made, and what it signs.
ghost use Rattle.std.specs.Prelude.{◌≡◌, ◌<◌, ℕ, List, [], ◌∷◌, map, IfOk, IsErrOf, codes};
ghost use Rattle.lms_hss.specs.Key.{public_of, signature_of, total_of};
ghost use Rattle.interop_signatures.specs.Levels as plain;
ghost use Rattle.interop_signatures.specs.Levels.{IsMade, LevelsAskedBy, level_signed};
ghost use Rattle.interop_signatures.specs.Signatures.{Answers};
ghost use Rattle.interop_signatures.specs.Views.{IsLevelsReady, level_signing};

use crate::words::{key_and_signature, read_ots};
use interop_words::{LineFault, read_array, read_bytes, read_number};
use lms_hss::{HssKey, KeyFault, OtsType};
use rp_base::{NoMemory, Signer, Spent, Tally};
use std::alloc::{AllocError, Global};

/// A key of trees in levels, the number of a signature, and what is signed.
#[derive(Drop)]
pub(crate) struct LevelSigning {
    levels: u32,
    typecode: u32,
    ots: OtsType,
    id: [u8; 16],
    seed: [u8; 32],
    number: u32,
    body: Vec<u8>,
}

fn read_signing(
    alloc: Global,
    levels: &[u8],
    typecode: &[u8],
    ots: &[u8],
    id: &[u8],
    seed: &[u8],
    number: &[u8],
    body: &[u8],
) -> Result<LevelSigning, LineFault>
    ensures read { IfOk result (λ asked.
        LevelsAskedBy levels.now typecode.now ots.now id.now seed.now number.now body.now (level_signing asked)) }
    ensures none { IsErrOf result LineFault.NoQuestion
        → (asked : plain.LevelSigning) → ¬ LevelsAskedBy levels.now typecode.now ots.now id.now seed.now number.now body.now asked }
{
    Ok(LevelSigning {
        levels: read_number(levels, 1, 3)?,
        typecode: read_number(typecode, 5, 7)?,
        ots: read_ots(ots)?,
        id: read_array(id)?,
        seed: read_array(seed)?,
        number: read_number(number, 0, u32::MAX)?,
        body: read_bytes(alloc, body)?,
    })
}

/// The asked key, whose next signature is that of the asked number. `NoQuestion` comes exactly where no such key is made,
/// or it has no signature of that number.
fn key_at(alloc: Global, asked: &LevelSigning) -> Result<HssKey, LineFault>
    ensures ready { IfOk result (IsLevelsReady (level_signing asked.now)) }
    ensures none { IsErrOf result LineFault.NoQuestion → ¬ IsMade (level_signing asked.now) }
{
    let mut key = match HssKey::make(
        alloc,
        asked.levels,
        asked.typecode,
        asked.ots,
        asked.id,
        asked.seed,
    ) {
        Ok(key) => key,
        Err(KeyFault::NoMemory) => return Err(LineFault::NoMemory),
        Err(_) => return Err(LineFault::NoQuestion),
    };
    if asked.number >= key.total() {
        return Err(LineFault::NoQuestion);
    }
    key.skip_to(asked.number);
    Ok(key)
}

/// The next signature of a key that is not spent.
fn next_signature(alloc: Global, key: &mut HssKey, body: &[u8]) -> Result<Vec<u8>, AllocError>
    requires { key.old.used < total_of key.old }
    ensures made { IfOk result (λ sig. sig.items ≡ signature_of key.old key.old.used body.now) }
    ensures key { public_of key.new ≡ public_of key.old }
{
    let mut sig = vec![in alloc; 0u8; key.sig_len()]?;
    match key.sign(body, &mut sig) {
        Ok(length) => {
            sig.truncate(length);
            Ok(sig)
        }
        Err(Spent) => unreachable!(),
    }
}

/// The public key, and the next signature on the asked body.
fn sign_next(alloc: Global, key: &mut HssKey, asked: &LevelSigning) -> Result<Vec<u8>, NoMemory>
    requires { IsLevelsReady (level_signing asked.now) key.old }
    ensures { IfOk result (λ reported. reported.items ≡ level_signed (level_signing asked.now)) }
{
    let sig = next_signature(alloc, key, &asked.body)?;
    key_and_signature(alloc, key.public(), &sig)
}

fn make_and_sign(alloc: Global, asked: &LevelSigning) -> Result<Vec<u8>, LineFault>
    ensures made { IfOk result (λ reported. IsMade (level_signing asked.now) × (reported.items ≡ level_signed (level_signing asked.now))) }
    ensures none { IsErrOf result LineFault.NoQuestion → ¬ IsMade (level_signing asked.now) }
{
    let mut key = key_at(alloc, asked)?;
    Ok(sign_next(alloc, &mut key, asked)?)
}

fn answer_levels(
    alloc: Global,
    levels: &[u8],
    typecode: &[u8],
    ots: &[u8],
    id: &[u8],
    seed: &[u8],
    number: &[u8],
    body: &[u8],
) -> Result<Vec<u8>, LineFault>
    ensures answers { IfOk result (λ reported. Answers
        (codes "hss" ∷ levels.now ∷ typecode.now ∷ ots.now ∷ id.now ∷ seed.now ∷ number.now ∷ body.now ∷ []) reported.items) }
    ensures no_question { IsErrOf result LineFault.NoQuestion → (reported : List ℕ) → ¬ Answers
        (codes "hss" ∷ levels.now ∷ typecode.now ∷ ots.now ∷ id.now ∷ seed.now ∷ number.now ∷ body.now ∷ []) reported }
{
    let asked = read_signing(alloc, levels, typecode, ots, id, seed, number, body)?;
    make_and_sign(alloc, &asked)
}

/// The answer to a question that begins with `hss`, by the words after it.
pub(crate) fn sign_by_levels(alloc: Global, words: &[&[u8]]) -> Result<Vec<u8>, LineFault>
    ensures answers { IfOk result (λ reported. Answers (codes "hss" ∷ map (λ word. word.now) words.now) reported.items) }
    ensures no_question { IsErrOf result LineFault.NoQuestion
        → (reported : List ℕ) → ¬ Answers (codes "hss" ∷ map (λ word. word.now) words.now) reported }
{
    if words.len() == 7 {
        answer_levels(
            alloc, words[0], words[1], words[2], words[3], words[4], words[5], words[6],
        )
    } else {
        Err(LineFault::NoQuestion)
    }
}
