//! How a member left its views: of each the rank and the value that decided it, and its commit certificate.
ghost use Rattle.std.specs.Prelude.{◌≡◌, ◌++◌, ◌<◌, ◌≤◌, drop, length, map, slice_get, option_to_list, unwrap_or, IfOk, OnOk};
ghost use Rattle.std.specs.List.{AllByRecursion};
ghost use Rattle.message_defs.specs.Spelling.{IsClaim};
ghost use Rattle.message_defs.specs.Updates as plain;
ghost use Rattle.image_defs.specs.Images.{left_by, ready_said, reported_by};
ghost use Rattle.rp_base.specs.Views.{value as value_of};
ghost use Rattle.stmt_codec.specs.Views.{stmt};
ghost use Rattle.snapshot_rp.specs.Views.{left_view as view_of};
ghost use Rattle.state_image.specs.Commits.{claims_as, commit_at};
ghost use Rattle.state_image.specs.Ranges.{IsCommit};

use crate::claims::keep;
use reliable_mcast::Archive;
use rp_base::{NoMemory, Update, Value};
use snapshot_rp::{KeptClaim, LeftView};
use std::alloc::Global;
use stmt_codec::Statement;

/// The most members of a view.
const MEMBERS: u8 = 16;

// Puts a copy of the claim of the i-th signer of the commit certificate of this view behind the others.
fn keep_commit(
    alloc: Global,
    kept: &mut Vec<KeptClaim>,
    archive: &Archive,
    view: u16,
    i: u8,
) -> Result<(), NoMemory>
    requires { AllByRecursion IsClaim (drop i (commit_at archive.now.commits view)) }
    ensures { OnOk result (kept.new.items ≡ kept.old.items ++ option_to_list (slice_get (commit_at archive.now.commits view) i)) }
{
    match archive.commit_claim(view, i) {
        Some(claim) => keep(alloc, kept, &claim),
        None => Ok(()),
    }
}

// Copies of the claims of the commit certificate of this view.
fn commit(alloc: Global, archive: &Archive, view: u16) -> Result<Vec<KeptClaim>, NoMemory>
    requires { IsCommit (commit_at archive.now.commits view) }
    ensures { IfOk result (λ kept. kept.items ≡ commit_at archive.now.commits view) }
{
    let mut kept = Vec::with_capacity(alloc, MEMBERS as usize)?;
    'claims: for i in 0..MEMBERS {
        keep_commit(alloc, &mut kept, archive, view, i)?;
    }
    Ok(kept)
}

// The rank and the value of the statement, which is a Ready.
fn ready_in(statement: &Statement<'_>) -> (u8, Value)
    ensures { (result.0, value_of result.1)
        ≡ unwrap_or (ready_said (stmt statement.now)) (0, record { update = plain.Renew; cut = 0 }) }
{
    match *statement {
        Statement::Ready { rank, value, .. } => (rank, value),
        _ => (
            0,
            Value {
                update: Update::Renew,
                cut: 0,
            },
        ),
    }
}

// What the claims say, which is the Ready that decided the view.
fn reported(commit: &[KeptClaim]) -> (u8, Value)
    ensures { (result.0, value_of result.1) ≡ reported_by commit.now }
{
    match commit {
        [first, ..] => ready_in(&first.claim().statement),
        [] => (
            0,
            Value {
                update: Update::Renew,
                cut: 0,
            },
        ),
    }
}

// How this view was left.
fn left_view(alloc: Global, archive: &Archive, view: u16) -> Result<LeftView, NoMemory>
    requires { IsCommit (commit_at archive.now.commits view) }
    ensures { IfOk result (λ left. view_of left ≡ left_by (commit_at archive.now.commits view)) }
{
    let commit = commit(alloc, archive, view)?;
    let (rank, value) = reported(commit.as_slice());
    Ok(LeftView {
        rank,
        value,
        commit,
    })
}

/// How the views were left, of which there are so many.
pub(crate) fn left_views(
    alloc: Global,
    archive: &Archive,
    count: u16,
) -> Result<Vec<LeftView>, NoMemory>
    requires count { count ≡ length archive.now.commits }
    requires each { AllByRecursion (λ cs. IsCommit (claims_as cs)) archive.now.commits }
    ensures { IfOk result (λ left. map view_of left.items ≡ map (λ cs. left_by (claims_as cs)) archive.now.commits) }
{
    let mut left = Vec::with_capacity(alloc, count as usize)?;
    'views: for view in 0..count {
        left.push(left_view(alloc, archive, view)?)?;
    }
    Ok(left)
}
