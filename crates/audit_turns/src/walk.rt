//! All processes that are taken as correct, and the claims that came up.
ghost use Rattle.std.specs.Prelude.{◌≡◌, [], ◌++◌, ◌==◌, ◌<◌, ℕ, List, IfSome, None, Err, OnOk, length};
ghost use Rattle.std.specs.List.{position_from};
ghost use Rattle.message_defs.specs.Statements as plain;
ghost use Rattle.group_defs.specs.Process.{Setting};
ghost use Rattle.journal_entries.specs.Views.{entry as entry_of};
ghost use Rattle.audit_claims.specs.Judges.{Shares};
ghost use Rattle.audit_defs.specs.Players.{Taken, taking};
ghost use Rattle.audit_defs.specs.Audits.{Known};
ghost use Rattle.audit_turns.specs.Players.{IsPlayer, begun, number_of};
ghost use Rattle.audit_turns.specs.Walks.{GoesOn, IsWalk, TakesAt, with_player};

use crate::player::Player;
use audit_claims::{Firsts, Judge};
use member_core::{AbsorbFault, Entry};
use rp_base::{NoMemory, Pid, Scheme};
use std::alloc::Global;

/// The processes that are taken as correct, and the claims that were handed to them or are their own words. Which processes of the
/// definitions they are, and which claims, `IsWalk` of the specs says.
#[derive(Drop)]
pub struct Walk<'a> {
    pub(crate) players: Vec<Player<'a>>,
    pub(crate) claims: Firsts<'a>,
}

// The place of a process among these.
fn place_of(players: &[Player<'_>], p: Pid) -> Option<usize>
    ensures place { result ≡ position_from (λ q. number_of q == p) 0 players.now }
    ensures within { IfSome result (λ at. at < length players.now) }
{
    players.iter().position(|player| player.me() == p)
}

// The process at this place takes the entry.
fn take_at<'a, V: Scheme>(
    players: &mut Vec<Player<'a>>,
    at: usize,
    judge: &Judge<'_, V>,
    journal: usize,
    entry: &Entry<'a>,
    all: &mut Firsts<'a>,
) -> Result<(), AbsorbFault>
    requires { at < length players.old.items }
    ensures { (s : Setting) → Shares s (V.valid judge.now.scheme.now) judge.now.group.now judge.now.roster.now
        → TakesAt s at journal (entry_of entry.now) players.old.items players.new.items all.old all.new result }
{
    let player = &mut players[at];
    player.take(judge, journal, entry, all)
}

impl<'a> Walk<'a> {
    /// The walk of no processes yet.
    pub fn new(alloc: Global) -> Walk<'a>
        ensures { (s : Setting) → IsWalk s (record { players = []; claims = [] }) [] result }
    {
        Walk {
            players: Vec::new(alloc),
            claims: Firsts::new(alloc),
        }
    }

    /// One process more, which starts.
    ///
    /// # Errors
    /// [`NoMemory`]; then the process is dropped.
    pub fn add(&mut self, player: Player<'a>) -> Result<(), NoMemory>
        ensures { (s : Setting) (k : Known) (own : List plain.Claim) (me limit journal : ℕ) → IsWalk s k own self.old
            → IsPlayer s (begun s me limit journal) player.entry
            → OnOk result (IsWalk s (with_player k (begun s me limit journal)) own self.new) }
    {
        self.players.push(player)?;
        Ok(())
    }

    /// The processes, in the order in which they were added.
    pub fn players(&self) -> &[Player<'a>]
        ensures { result.now ≡ self.now.players.items }
    {
        &self.players
    }

    /// The claims that were handed to the processes or are their own words.
    pub fn claims(&self) -> &Firsts<'a>
        ensures { result.now ≡ self.now.claims }
    {
        &self.claims
    }

    /// The process whose entry it is takes an entry of the journal of this index, as `Player::take` says. An entry of a process that is
    /// none of these is passed over.
    ///
    /// # Errors
    /// [`AbsorbFault::Differs`] exactly where the entry is one of these processes' and is refused: the journal does not host the process,
    /// or the process cannot have written it. And [`AbsorbFault::NoMemory`]. After a fault there is no going on.
    pub fn take<V: Scheme>(
        &mut self,
        judge: &Judge<'_, V>,
        journal: usize,
        entry: &Entry<'a>,
    ) -> Result<(), AbsorbFault>
        ensures taken { (s : Setting) (k : Known) (own : List plain.Claim) → IsWalk s k own self.old
            → Shares s (V.valid judge.now.scheme.now) judge.now.group.now judge.now.roster.now
            → OnOk result (GoesOn s k own (taking s journal (entry_of entry.now) k.players) self.new) }
        ensures refused { (s : Setting) (k : Known) (own : List plain.Claim) → IsWalk s k own self.old
            → Shares s (V.valid judge.now.scheme.now) judge.now.group.now judge.now.roster.now
            → result ≡ Err AbsorbFault.Differs → taking s journal (entry_of entry.now) k.players ≡ None }
    {
        match place_of(&self.players, entry.process) {
            Some(at) => take_at(
                &mut self.players,
                at,
                judge,
                journal,
                entry,
                &mut self.claims,
            ),
            None => Ok(()),
        }
    }
}
