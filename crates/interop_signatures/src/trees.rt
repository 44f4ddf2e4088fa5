//! A tree that is made, and what one of its leaves signs.
ghost use Rattle.std.specs.Prelude.{◌≡◌, ◌≢◌, ℕ, ◌^◌, ◌<◌, ◌≤◌, List, [], ◌∷◌, map, IfOk, IsErrOf, codes};
ghost use Rattle.std.specs.Fmt.{decimal};
ghost use Rattle.lms_tree.specs.Key.{public_of, signature_of};
ghost use Rattle.interop_signatures.specs.Trees as plain;
ghost use Rattle.interop_signatures.specs.Trees.{IsTreeSigning, TreeAskedBy, tree_signed};
ghost use Rattle.interop_signatures.specs.Signatures.{Answers};
ghost use Rattle.interop_signatures.specs.Views.{IsTreeReady, tree_signing};

use crate::words::{key_and_signature, read_ots};
use interop_words::{LineFault, read_array, read_bytes, read_number};
use lms_tree::{KeyFault, LmsKey, OtsType, lms_height_of};
use rp_base::{NoMemory, Signer, Spent, Tally};
use std::alloc::{AllocError, Global};

/// A tree, the leaf that signs, and what is signed.
#[derive(Drop)]
pub(crate) struct TreeSigning {
    typecode: u32,
    height: usize,
    ots: OtsType,
    id: [u8; 16],
    seed: [u8; 32],
    leaf: u32,
    body: Vec<u8>,
}

/// The leaf of a tree of this height whose number the word spells.
fn read_leaf(word: &[u8], height: usize) -> Result<u32, LineFault>
    requires { height ≤ 15 }
    ensures read { IfOk result (λ leaf. (leaf < 2 ^ height) × (word.now ≡ decimal leaf)) }
    ensures none { IsErrOf result LineFault.NoQuestion → (leaf : ℕ) → leaf < 2 ^ height → word.now ≢ decimal leaf }
{
    read_number(word, 0, (1 << height) - 1)
}

fn read_signing(
    alloc: Global,
    typecode: &[u8],
    ots: &[u8],
    id: &[u8],
    seed: &[u8],
    leaf: &[u8],
    body: &[u8],
) -> Result<TreeSigning, LineFault>
    ensures read { IfOk result (λ asked. TreeAskedBy typecode.now ots.now id.now seed.now leaf.now body.now (tree_signing asked)) }
    ensures none { IsErrOf result LineFault.NoQuestion
        → (asked : plain.TreeSigning) → ¬ TreeAskedBy typecode.now ots.now id.now seed.now leaf.now body.now asked }
{
    let typecode = read_number(typecode, 5, 7)?;
    let Some(height) = lms_height_of(typecode) else {
        unreachable!();
    };
    Ok(TreeSigning {
        typecode,
        height,
        ots: read_ots(ots)?,
        id: read_array(id)?,
        seed: read_array(seed)?,
        leaf: read_leaf(leaf, height)?,
        body: read_bytes(alloc, body)?,
    })
}

/// The tree's key, whose next signature is the asked leaf's.
fn key_at(alloc: Global, asked: &TreeSigning) -> Result<LmsKey, AllocError>
    requires { IsTreeSigning (tree_signing asked.now) }
    ensures { IfOk result (IsTreeReady (tree_signing asked.now)) }
{
    match LmsKey::make(alloc, asked.typecode, asked.ots, asked.id, asked.seed) {
        Ok(mut key) => {
            key.skip_to(asked.leaf);
            Ok(key)
        }
        Err(KeyFault::NoMemory) => Err(AllocError),
        Err(KeyFault::TooTall) => unreachable!(),
    }
}

/// The next signature of a key that is not spent.
fn next_signature(alloc: Global, key: &mut LmsKey, body: &[u8]) -> Result<Vec<u8>, AllocError>
    requires { key.old.used < 2 ^ key.old.tree.height }
    ensures made { IfOk result (λ sig. sig.items ≡ signature_of key.old key.old.used body.now) }
    ensures key { public_of key.new ≡ public_of key.old }
{
    let mut sig = vec![in alloc; 0u8; key.sig_len()]?;
    match key.sign(body, &mut sig) {
        Ok(length) => {
            sig.truncate(length);
            Ok(sig)
        }
        Err(Spent) => unreachable!(),
    }
}

/// The tree's public key, and the leaf's signature on the body.
fn make_and_sign(alloc: Global, asked: &TreeSigning) -> Result<Vec<u8>, NoMemory>
    requires { IsTreeSigning (tree_signing asked.now) }
    ensures { IfOk result (λ reported. reported.items ≡ tree_signed (tree_signing asked.now)) }
{
    let mut key = key_at(alloc, asked)?;
    let sig = next_signature(alloc, &mut key, &asked.body)?;
    key_and_signature(alloc, key.public(), &sig)
}

fn answer_tree(
    alloc: Global,
    typecode: &[u8],
    ots: &[u8],
    id: &[u8],
    seed: &[u8],
    leaf: &[u8],
    body: &[u8],
) -> Result<Vec<u8>, LineFault>
    ensures answers { IfOk result (λ reported.
        Answers (codes "lms" ∷ typecode.now ∷ ots.now ∷ id.now ∷ seed.now ∷ leaf.now ∷ body.now ∷ []) reported.items) }
    ensures no_question { IsErrOf result LineFault.NoQuestion → (reported : List ℕ)
        → ¬ Answers (codes "lms" ∷ typecode.now ∷ ots.now ∷ id.now ∷ seed.now ∷ leaf.now ∷ body.now ∷ []) reported }
{
    let asked = read_signing(alloc, typecode, ots, id, seed, leaf, body)?;
    Ok(make_and_sign(alloc, &asked)?)
}

/// The answer to a question that begins with `lms`, by the words after it.
pub(crate) fn sign_by_tree(alloc: Global, words: &[&[u8]]) -> Result<Vec<u8>, LineFault>
    ensures answers { IfOk result (λ reported. Answers (codes "lms" ∷ map (λ word. word.now) words.now) reported.items) }
    ensures no_question { IsErrOf result LineFault.NoQuestion
        → (reported : List ℕ) → ¬ Answers (codes "lms" ∷ map (λ word. word.now) words.now) reported }
{
    if words.len() == 6 {
        answer_tree(
            alloc, words[0], words[1], words[2], words[3], words[4], words[5],
        )
    } else {
        Err(LineFault::NoQuestion)
    }
}
