//! What members sign. They share one LMS tree with W4, of which one leaf signs what each of them says in a view: nothing is kept secret here,
//! and a signature takes as long to verify.
ghost use Rattle.std.specs.Prelude.{◌≡◌, ◌<◌};
ghost use Rattle.message_defs.specs.Spelling.{IsStatement};
ghost use Rattle.stmt_codec.specs.Views.{stmt};

use anyhow::{Result, anyhow};
use bench_parts::process;
use lms_tree::{LmsScheme, LmsTree, OtsType};
use rp_base::{GroupId, NoMemory, Pid, Roster, Scheme};
use std::alloc::Global;
use stmt_codec::{Statement, body_into};

pub(crate) const GROUP: GroupId = GroupId([7; 16]);

/// How many members sign: a quorum of 16.
pub(crate) const SIGNERS: u8 = 11;

/// The most bytes that `body_into` asks for.
const BODY_BYTES: usize = 1_100;

/// What a member signed: the body and the signature.
#[derive(Drop)]
pub(crate) struct Signed {
    pub(crate) signer: Pid,
    body: Vec<u8>,
    pub(crate) signature: Vec<u8>,
}

/// The tree of this typecode of its height.
pub(crate) fn tree(alloc: Global, height: u32) -> Result<LmsTree> {
    match LmsTree::make(alloc, height, OtsType::W4, [7; 16], [9; 32]) {
        Ok(tree) => Ok(tree),
        Err(_) => Err(anyhow!("no tree")),
    }
}

// The leaf signs the body.
fn sign(tree: &LmsTree, leaf: u32, body: &[u8], out: &mut [u8]) -> Result<()> {
    if leaf >= tree.leaves() || out.len() != tree.sig_len() {
        return Err(anyhow!("no leaf"));
    }
    tree.sign_into(leaf, body, out);
    Ok(())
}

// What the process says, signed by the leaf.
fn signed_by(
    alloc: Global,
    tree: &LmsTree,
    leaf: u32,
    signer: Pid,
    statement: &Statement<'_>,
) -> Result<Signed>
    requires { IsStatement (stmt statement.now) }
{
    let mut text = [0; BODY_BYTES];
    let len = body_into(&GROUP, signer, statement, &mut text);
    let body = Vec::from_slice(alloc, &text[..len])?;
    let mut signature = vec![in alloc; 0u8; tree.sig_len()]?;
    sign(tree, leaf, &body, &mut signature)?;
    Ok(Signed {
        signer,
        body,
        signature,
    })
}

/// What each signer says, signed by the leaf.
pub(crate) fn sign_all(
    alloc: Global,
    tree: &LmsTree,
    leaf: u32,
    statement: &Statement<'_>,
) -> Result<Vec<Signed>>
    requires { IsStatement (stmt statement.now) }
{
    let mut all = Vec::new(alloc);
    for number in 0..SIGNERS {
        all.push(signed_by(alloc, tree, leaf, process(number), statement)?)?;
    }
    Ok(all)
}

/// How many of them are valid. Nothing is done but to verify them.
pub(crate) fn count_valid(key: &[u8], all: &[Signed]) -> u8 {
    let mut valid = 0u8;
    for one in all {
        if LmsScheme.verify(key, &one.body, &one.signature) {
            valid = valid.wrapping_add(1);
        }
    }
    valid
}

/// The signers, each with this public key.
pub(crate) fn roster(alloc: Global, key: &[u8]) -> Result<Roster, NoMemory> {
    let mut roster = Roster::new(alloc)?;
    'processes: for number in 0..SIGNERS {
        let next = process(number);
        roster.add(next, key)?;
    }
    Ok(roster)
}
