//! Proofs of views, one after another, beside the bare verification of their signatures.
ghost use Rattle.std.specs.Prelude.{◌≤◌};
ghost use Rattle.message_defs.specs.Spelling.{IsStatement};
ghost use Rattle.stmt_codec.specs.Views.{stmt};

use crate::signing::{GROUP, SIGNERS, Signed, count_valid, roster, sign_all, tree};
use anyhow::{Result, anyhow};
use bench_parts::{process, seconds};
use chain_check::Chain;
use lms_tree::{LmsScheme, LmsTree};
use rp_base::{Pid, Roster, Update, Value};
use std::alloc::Global;
use std::time::CpuClock;
use stmt_codec::{STATEMENT_BYTES, Statement, spell_into};
use view_table::View;

/// How many members the view has.
const MEMBERS: u8 = 16;

/// The seconds of taking proofs, and of verifying their signatures alone.
#[derive(Clone, Copy)]
pub(crate) struct Spent {
    pub(crate) advance: f64,
    pub(crate) bare: f64,
}

/// A proof, and what its members signed.
#[derive(Drop)]
struct Proof {
    frame: Vec<u8>,
    signed: Vec<Signed>,
}

// The view of the members 0 to 15 that has the number 0.
fn genesis() -> Result<View> {
    let mut members = [Pid::default(); 16];
    for n in 0..MEMBERS {
        members[n as usize] = process(n);
    }
    View::new(0, &members).ok_or_else(|| anyhow!("no view"))
}

// Of what the proof of a view consists: the view is renewed, and none of its places counts.
fn renewal(view: u16) -> Statement<'static>
    requires { view ≤ 1023 }
    ensures { IsStatement (stmt result) }
{
    Statement::Ready {
        view,
        rank: 0,
        value: Value {
            update: Update::Renew,
            cut: 0,
        },
    }
}

// Two bytes of length, and that many bytes.
fn push_text(frame: &mut Vec<u8>, text: &[u8]) -> Result<()> {
    let Ok(len) = u16::try_from(text.len()) else {
        return Err(anyhow!("too long"));
    };
    frame.extend_from_slice(&len.to_be_bytes())?;
    frame.extend_from_slice(text)?;
    Ok(())
}

// The bytes of a Proof of one group: the statement with these signatures (docs/FORMATS.md, «Frames»).
fn frame_of(alloc: Global, statement: &Statement<'_>, signed: &[Signed]) -> Result<Vec<u8>>
    requires { IsStatement (stmt statement.now) }
{
    let mut text = [0; STATEMENT_BYTES];
    let len = spell_into(statement, &mut text);
    let mut frame = vec![in alloc; 1, 2, 1]?;
    push_text(&mut frame, &text[..len])?;
    frame.push(SIGNERS)?;
    for one in signed {
        frame.push(one.signer.get())?;
        push_text(&mut frame, &one.signature)?;
    }
    Ok(frame)
}

// The proof of the view after the one of this number, signed by the tree's leaf of that number.
fn make_proof(alloc: Global, tree: &LmsTree, view: u16) -> Result<Proof>
    requires { view ≤ 1023 }
{
    let statement = renewal(view);
    let signed = sign_all(alloc, tree, view.into(), &statement)?;
    let frame = frame_of(alloc, &statement, &signed)?;
    Ok(Proof { frame, signed })
}

fn time_advance(
    rt: &impl CpuClock,
    chain: &mut Chain,
    roster: &Roster,
    frame: &[u8],
) -> Result<f64> {
    let begun = seconds(rt)?;
    let taken = chain.advance(&LmsScheme, roster, &GROUP, frame).is_ok();
    let ended = seconds(rt)?;
    if !taken {
        return Err(anyhow!("no proof"));
    }
    Ok(ended - begun)
}

fn time_bare(rt: &impl CpuClock, key: &[u8], signed: &[Signed]) -> Result<f64> {
    let begun = seconds(rt)?;
    let valid = count_valid(key, signed);
    let ended = seconds(rt)?;
    if valid != SIGNERS {
        return Err(anyhow!("not valid"));
    }
    Ok(ended - begun)
}

// So many proofs, from the first view on.
fn spend(
    rt: &(impl AllocGlobal + CpuClock),
    tree: &LmsTree,
    roster: &Roster,
    chain: &mut Chain,
    proofs: u16,
) -> Result<Spent>
    requires { proofs ≤ 1024 }
{
    let mut spent = Spent {
        advance: 0.0,
        bare: 0.0,
    };
    for view in 0..proofs {
        let next = make_proof(rt.alloc(), tree, view)?;
        spent.advance += time_advance(rt, chain, roster, &next.frame)?;
        spent.bare += time_bare(rt, tree.public(), &next.signed)?;
    }
    Ok(spent)
}

/// A chain takes so many proofs, whose signers have a tree with W4 of the height of this typecode.
pub(crate) fn prove(rt: &(impl AllocGlobal + CpuClock), height: u32, proofs: u16) -> Result<Spent>
    requires { proofs ≤ 1024 }
{
    let tree = tree(rt.alloc(), height)?;
    let Ok(roster) = roster(rt.alloc(), tree.public()) else {
        return Err(anyhow!("no memory"));
    };
    let mut chain = Chain::new(genesis()?);
    spend(rt, &tree, &roster, &mut chain, proofs)
}
