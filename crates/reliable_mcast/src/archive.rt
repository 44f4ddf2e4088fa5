//! What is kept of the views that were left: of the last one its pool, and of each its commit certificate
//! (docs/PROTOCOL.md, «What is sent»).
ghost use Rattle.std.specs.Prelude.{◌≡◌, ◌≤◌, ◌++◌, ◌∷◌, ◌-◌, [], length, take, Some, None, IsOk, OnOk, OnErr, IfOk, IfSome, ◌==◌, false, filter, unwrap_or, option_to_list, option_and_then, slice_get};
ghost use Rattle.std.specs.Option.{option_map};
ghost use Rattle.message_defs.specs.Statements.{Ready, ReadyAt};
ghost use Rattle.message_defs.specs.Spelling.{IsStatement};
ghost use Rattle.message_defs.specs.Packing.{signed_of};
ghost use Rattle.group_defs.specs.Certified.{certificate, value_at};
ghost use Rattle.rp_base.specs.Views.{value};
ghost use Rattle.sent_claims.specs.Kept.{Holding};
ghost use Rattle.stmt_codec.specs.Views.{stmt, claim as claim_of};
ghost use Rattle.sent_claims.specs.Lists.{extended};
ghost use Rattle.sent_claims.specs.Certificates.{all_signed, IsRanged};
ghost use Rattle.reliable_mcast.specs.Archives.{AreReadable, Keeps};
ghost use Rattle.reliable_mcast.specs.Answers.{places_kept};
ghost use Rattle.reliable_mcast.specs.Packed.{Fills};
ghost use Rattle.group_defs.specs.Process.{Process};
ghost use Rattle.group_defs.specs.Sending.{Proof, answer, frames_of};

use crate::frames::Frames;
use crate::sheet::FrameKind;
use rp_base::{NoMemory, Value};
use sent_claims::{Commit, Pool, SentClaims, put_certificate};
use std::alloc::Global;
use std::marker::Model;
use std::mem;
use stmt_codec::{Claim, Slot, read_statement};

/// What a process keeps of the views that it left. Contracts see the pool of the last one, and the commit certificates of the
/// views 0, 1, 2 and so on.
pub struct Archive {
    alloc: Global,
    previous: Option<Pool>,
    commits: Vec<SentClaims>,
}

// Written out, so that whoever drops a value makes one call (docs/CONTRIBUTING.md).
impl Drop for Archive {
    fn drop(self) {
        let Archive {
            alloc: _,
            previous,
            commits,
        } = self;
        mem::drop(previous);
        mem::drop(commits);
    }
}

impl Model for Archive {
    ghost use Rattle.std.specs.Option.{option_map};
    ghost use Rattle.sent_claims.specs.Kept.{Holding};
    ghost use Rattle.reliable_mcast.specs.Archives.{Archived, AreKept};

    ghost Value = { Archived };

    ghost view = { λ a. record {
      previous = option_map (λ (h : Holding). h.pool) a.previous;
      marked = option_map (λ (h : Holding). h.marked) a.previous;
      commits = a.commits.items;
    } };

    ghost invariant = { λ a. AreKept (option_map (λ (h : Holding). h.pool) a.previous) a.commits.items };
}

/// The pool of the view before the one that was left last, which the archive keeps no more. Contracts see the definitions' pool.
#[derive(Drop)]
pub struct Displaced {
    pool: Option<Pool>,
}

impl Model for Displaced {
    ghost use Rattle.std.specs.Prelude.{◌≡◌, Option, Some};
    ghost use Rattle.std.specs.Option.{option_map};
    ghost use Rattle.group_defs.specs.Process.{Pool};
    ghost use Rattle.sent_claims.specs.Kept.{Holding};
    ghost use Rattle.sent_claims.specs.Certificates.{IsRanged};

    ghost Value = { Option Pool };

    ghost view = { λ d. option_map (λ (h : Holding). h.pool) d.pool };

    ghost invariant = { λ d. (h : Pool) → option_map (λ (h : Holding). h.pool) d.pool ≡ Some h → IsRanged h };
}

// The claim at this place; None exactly where the list has no more than `place`.
fn claim_at(kept: &SentClaims, place: usize) -> Option<Claim<'_>>
    requires { AreReadable kept.now }
    ensures claim { option_map (λ c. signed_of (claim_of c)) result ≡ slice_get kept.now place }
    ensures range { IfSome result (λ c. IsStatement (stmt c.statement)) }
{
    if place >= kept.len() {
        return None;
    }
    let lent = kept.at(place);
    let Ok(statement) = read_statement(lent.statement) else {
        unreachable!()
    };
    Some(Claim {
        signer: lent.signer,
        statement,
        signature: lent.signature,
    })
}

// The commit certificate of the view of this number.
fn commit_at(commits: &[SentClaims], view: usize) -> Option<&SentClaims>
    ensures { option_map (λ (l : _). l.now) result ≡ slice_get commits.now view }
{
    commits.get(view)
}

// Puts the commit certificate of the view of this number, where that was left.
fn put_commit(frames: &mut Frames, commits: &[SentClaims], view: u16) -> Result<(), NoMemory>
    ensures list { OnOk result (Fills frames.old frames.new (extended false frames.old.claims (unwrap_or (slice_get commits.now view) []))) }
    ensures none { unwrap_or (slice_get commits.now view) [] ≡ [] → IsOk result }
{
    match commit_at(commits, view as usize) {
        Some(commit) => frames.put_list(commit),
        None => Ok(()),
    }
}

// Puts the certificates of eight places of the pool, where its view is the one of this number.
fn put_pool(frames: &mut Frames, pool: &Pool, view: u16, place: u16) -> Result<(), NoMemory>
    requires range { IsRanged pool.now.pool }
    requires place { place ≤ 1024 }
    ensures list { OnOk result (Fills frames.old frames.new
        (extended false frames.old.claims (all_signed (places_kept (filter (λ g. g.view.number == view) (pool.now.pool ∷ [])) place)))) }
    ensures none { all_signed (places_kept (filter (λ g. g.view.number == view) (pool.now.pool ∷ [])) place) ≡ [] → IsOk result }
{
    if pool.view().number() == view {
        frames.put_places(pool, place)
    } else {
        Ok(())
    }
}

impl Archive {
    /// No view was left.
    pub fn new(alloc: Global) -> Result<Archive, NoMemory>
        ensures previous { IfOk result (λ a. a.previous ≡ None) }
        ensures commits { IfOk result (λ a. a.commits ≡ []) }
    {
        Ok(Archive {
            alloc,
            previous: None,
            commits: Vec::new(alloc),
        })
    }

    /// Keeps the view that is left: its pool, and for good the commit certificate of the Ready of this rank and this value,
    /// which is certified there. `pool` is then the one that begins, and the pool that was kept before is handed out. Without memory
    /// nothing changes.
    pub fn keep_view(
        &mut self,
        pool: &mut Pool,
        begun: Pool,
        commit: (u8, Value),
    ) -> Result<Displaced, NoMemory>
        requires range { IsRanged pool.old.pool }
        requires certified { value_at pool.old.pool (ReadyAt pool.old.pool.view.number commit.0) ≡ Some (value commit.1) }
        requires order { pool.old.pool.view.number ≡ length self.old.commits }
        ensures begins { OnOk result (pool.new ≡ begun) }
        ensures previous { OnOk result (self.new.previous ≡ Some pool.old.pool) }
        ensures marked { OnOk result (self.new.marked ≡ Some pool.old.marked) }
        ensures commits { OnOk result (self.new.commits ≡ self.old.commits
            ++ all_signed (certificate pool.old.pool (Ready pool.old.pool.view.number commit.0 (value commit.1))) ∷ []) }
        ensures older { IfOk result (λ older. older ≡ self.old.previous) }
        ensures same { OnErr result ((self.new ≡ self.old) × (pool.new ≡ pool.old)) }
    {
        let view = pool.view().number();
        let slot = Slot::Rank {
            view,
            rank: commit.0,
        };
        let mut kept = SentClaims::new(self.alloc);
        put_certificate::<Commit>(&mut kept, pool, &slot, false)?;
        self.commits.push(kept)?;
        let left = mem::replace(pool, begun);
        let pool = mem::replace(&mut self.previous, Some(left));
        Ok(Displaced { pool })
    }

    /// Goes back to before the last view was kept: its pool is handed out again, and `older` is the pool that was kept before. It takes no
    /// memory.
    pub fn take_back(&mut self, older: Displaced) -> Option<Pool>
        ensures previous { self.new.previous ≡ older }
        ensures commits { self.new.commits ≡ take (length self.old.commits - 1) self.old.commits }
        ensures pool { option_map (λ (h : Holding). h.pool) result ≡ self.old.previous }
        ensures marked { option_map (λ (h : Holding). h.marked) result ≡ self.old.marked }
    {
        self.commits.truncate(self.commits.len().saturating_sub(1));
        let Displaced { pool } = older;
        mem::replace(&mut self.previous, pool)
    }

    // Puts the certificates of eight places of the previous view, where that is the view of this number.
    fn put_previous(&self, view: u16, place: u16, frames: &mut Frames) -> Result<(), NoMemory>
        requires { place ≤ 1024 }
        ensures list { OnOk result (Fills frames.old frames.new
            (extended false frames.old.claims
            (all_signed (places_kept (filter (λ g. g.view.number == view) (option_to_list self.now.previous)) place)))) }
        ensures none { all_signed (places_kept (filter (λ g. g.view.number == view) (option_to_list self.now.previous)) place) ≡ []
            → IsOk result }
    {
        match &self.previous {
            Some(previous) => put_pool(frames, previous, view, place),
            None => Ok(()),
        }
    }

    /// Packs the answer to a Want for the view of this number from this place on: the commit certificate of the view, where it
    /// was left, and the certificates of eight places, where its pool is this one or the previous one. An answer without claims takes no
    /// memory, as that to a Want for a view that was not left and is not the current one.
    pub fn answer_want(
        &self,
        pool: &Pool,
        view: u16,
        place: u16,
        frames: &mut Frames,
    ) -> Result<(), NoMemory>
        requires range { IsRanged pool.now.pool }
        requires place { place ≤ 1024 }
        requires empty { frames.old.claims ≡ [] }

        // The answer of each process that has this pool and keeps this archive.
        ensures answer { OnOk result ((p : Process) → Keeps self.now p → p.pool ≡ pool.now.pool
            → frames.new.frames ≡ frames.old.frames ++ frames_of (Proof (answer p view place))) }
        ensures none { (p : Process) → Keeps self.now p → p.pool ≡ pool.now.pool → answer p view place ≡ [] → IsOk result }
        ensures empty { OnOk result (frames.new.claims ≡ []) }
    {
        put_commit(frames, &self.commits, view)?;
        put_pool(frames, pool, view, place)?;
        self.put_previous(view, place, frames)?;
        frames.close(FrameKind::Proof)
    }

    /// The pool of the view that was left last; None exactly where no view was left.
    pub fn previous(&self) -> Option<&Pool>
        ensures { option_map (λ (h : _). h.now.pool) result ≡ self.now.previous }
    {
        self.previous.as_ref()
    }

    /// The claim of the i-th signer, rising and counted from 0, of the commit certificate of the view of this number; None exactly
    /// where the view was not left, or its commit certificate has no more than i claims.
    pub fn commit_claim(&self, view: u16, i: u8) -> Option<Claim<'_>>
        ensures claim { option_map (λ c. signed_of (claim_of c)) result
            ≡ option_and_then (λ cs. slice_get cs i) (slice_get self.now.commits view) }
        ensures range { IfSome result (λ c. IsStatement (stmt c.statement)) }
    {
        match commit_at(&self.commits, view as usize) {
            Some(kept) => claim_at(kept, i as usize),
            None => None,
        }
    }
}
