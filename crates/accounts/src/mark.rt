//! An account at a mark.
ghost use Rattle.std.specs.Prelude.{◌≡◌, ◌-◌, ◌++◌, ◌∷◌, [], true, false, None, List, length, map, take, IfOk, OnOk, IsSome, MatchOption};
ghost use Rattle.group_defs.specs.Process as defs;
ghost use Rattle.group_defs.specs.Accounts as plain;
ghost use Rattle.accounts.specs.Views.{account, delivery};
ghost use Rattle.accounts.specs.Marks.{GrewSince, without_last};

use crate::account::Account;
use member_events::Delivered;
use rp_base::{NoMemory, Update};

/// What an account had at a mark: how much was delivered in the current view and how much was accepted, and the updates that were
/// perceived, where others may come.
#[derive(Drop)]
pub struct AccountMark {
    delivered: usize,
    accepted: usize,
    perceived: Option<Vec<(u16, Update)>>,
}

// How much was delivered in the current view, which is the last one.
fn count_last(lists: &[Vec<Delivered>]) -> usize
    ensures { (before : List (List defs.Delivered)) (last : List defs.Delivered)
        → map (λ ds. map delivery ds.items) lists.now ≡ before ++ last ∷ [] → result ≡ length last }
{
    match lists.last() {
        Some(delivered) => delivered.len(),
        None => 0,
    }
}

// Forgets what was delivered in the current view after the first `count`.
fn cut_last(lists: &mut Vec<Vec<Delivered>>, count: usize)
    ensures { (before : List (List defs.Delivered)) (last : List defs.Delivered)
        → map (λ ds. map delivery ds.items) lists.old.items ≡ before ++ last ∷ []
        → map (λ ds. map delivery ds.items) lists.new.items ≡ before ++ take count last ∷ [] }
{
    if let Some(delivered) = lists.last_mut() {
        delivered.truncate(count);
    }
}

impl AccountMark {
    /// An empty mark, to be filled later.
    pub fn new() -> AccountMark
        ensures delivered { result.delivered ≡ 0 }
        ensures accepted { result.accepted ≡ 0 }
        ensures perceived { result.perceived ≡ None }
    {
        AccountMark {
            delivered: 0,
            accepted: 0,
            perceived: None,
        }
    }
}

impl Account {
    // The perceived updates, where they are asked for.
    fn perceived_if(&self, asks: bool) -> Result<Option<Vec<(u16, Update)>>, NoMemory>
        ensures { IfOk result (λ all. MatchOption all (asks ≡ false) (λ xs. xs.items ≡ self.now.perceived.items)) }
    {
        if !asks {
            return Ok(None);
        }
        let alloc = *self.perceived.allocator();
        Ok(Some(Vec::from_slice(alloc, &self.perceived)?))
    }

    /// Marks in `mark` what the account has, so that it can be gone back to. `asks` says whether an update may be perceived until then.
    pub fn mark(&self, asks: bool, mark: &mut AccountMark) -> Result<(), NoMemory>
        ensures tells { (before : List (List defs.Delivered)) (last : List defs.Delivered)
            → (account self.now).delivered ≡ before ++ last ∷ []
            → OnOk result (GrewSince mark.new (account self.now) (account self.now)) }
        ensures asks { asks ≡ true → OnOk result (IsSome mark.new.perceived) }
    {
        mark.delivered = count_last(&self.delivered);
        mark.accepted = self.accepted.len();
        mark.perceived = self.perceived_if(asks)?;
        Ok(())
    }

    /// Goes back to what the account had at the mark. It takes no memory.
    pub fn rewind(&mut self, mark: &mut AccountMark)
        ensures { (was : plain.Account) → GrewSince mark.old was (account self.old) → account self.new ≡ was }
    {
        cut_last(&mut self.delivered, mark.delivered);
        self.accepted.truncate(mark.accepted);
        if let Some(perceived) = mark.perceived.take() {
            self.perceived = perceived;
        }
    }

    /// Forgets the view that was installed last, in which nothing was delivered.
    pub fn drop_last(&mut self)
        ensures { account self.new ≡ without_last (account self.old) }
    {
        self.views.truncate(self.views.len().saturating_sub(1));
        self.delivered
            .truncate(self.delivered.len().saturating_sub(1));
    }
}
