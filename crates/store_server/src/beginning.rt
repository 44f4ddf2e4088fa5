//! Where a run begins: a process as its journal left it.
ghost use Rattle.std.specs.Prelude.{◌≡◌, ◌≤◌, [], length, map, min, slice_index_or, option_map, IfOk};
ghost use Rattle.accounts.specs.Views.{account, delivery};
ghost use Rattle.group_defs.specs.Accounts.{account_of};
ghost use Rattle.group_defs.specs.Process as process;
ghost use Rattle.kit_defs.specs.Kits.{IsSecret};
ghost use Rattle.sig_scheme.specs.Views.{secret as secret_in};
ghost use Rattle.store_defs.specs.Holding.{delivered_below, payloads_of, stayed, store_over};
ghost use Rattle.store_defs.specs.Serving.{held, server_of};
ghost use Rattle.store_defs.specs.Stores.{store_after};
ghost use Rattle.store_replies.specs.Words.{most_counted};
ghost use Rattle.store_server.specs.Beginning.{lists_of};
ghost use Rattle.store_server.specs.Serving.{IsServer, place_with};

use crate::server::Server;
use accounts::{Account, Delivered};
use sig_scheme::Secret;
use std::alloc::Global;
use store_giving::{Giving, Store, carried_out};
use store_replies::{GroupId, NoMemory, Replies, reply_key, state_key};

// How many messages the process delivered in all its views, up to the last u32.
fn count(reported: &Account) -> u32
    ensures { result ≡ min (delivered_below (account reported.now) (length reported.now.delivered.items)) most_counted }
{
    let mut total = 0u32;
    'views: for delivered in &reported.delivered {
        total = total.saturating_add(delivered.len().min(u32::MAX as usize) as u32);
    }
    total
}

// Whether the process was a member of all its views.
fn is_in_all(reported: &Account) -> bool
    ensures { result ≡ stayed (account reported.now) 0 (length reported.now.views.items) }
{
    'views: for view in &reported.views {
        if !view.is_member(reported.me) {
            return false;
        }
    }
    true
}

// The store after what was delivered in these views, from the empty one on.
fn store_after_all(alloc: Global, lists: &[Vec<Delivered>]) -> Result<Store, NoMemory>
    ensures { IfOk result (λ t. t
        ≡ store_over (λ z. payloads_of (slice_index_or (lists_of lists.now) z [])) [] 0 (length lists.now)) }
{
    let mut store = Store::new(alloc);
    'views: for delivered in lists {
        store = carried_out(store, alloc, delivered)?;
    }
    Ok(store)
}

// The store as the view begins, where the process was a member of all its views; what was delivered in those before it.
fn begun(
    alloc: Global,
    reported: &Account,
    below: &[Vec<Delivered>],
) -> Result<Option<Store>, NoMemory>
    ensures { IfOk result (λ o. o ≡ held (stayed (account reported.now) 0 (length reported.now.views.items))
        (store_over (λ z. payloads_of (slice_index_or (lists_of below.now) z [])) [] 0 (length below.now))) }
{
    if !is_in_all(reported) {
        return Ok(None);
    }
    Ok(Some(store_after_all(alloc, below)?))
}

// The store after what was delivered in the view, where there is one.
fn gone_on(
    alloc: Global,
    store: Option<Store>,
    here: &[Delivered],
) -> Result<Option<Store>, NoMemory>
    ensures { IfOk result (λ o. o ≡ option_map (λ t. store_after t (payloads_of (map delivery here.now))) store) }
{
    match store {
        Some(store) => Ok(Some(carried_out(store, alloc, here)?)),
        None => Ok(None),
    }
}

impl Server {
    /// The server of a process of this group, as its journal left it: of what the process reports of itself, and its secret. It holds the
    /// store where the process was a member of all its views, and its keys have signed nothing in this run. Keys of trees take their memory
    /// and the time of their public keys.
    ///
    /// # Errors
    /// [`NoMemory`] where room for the store, its state or the keys is refused.
    pub fn begin(
        alloc: Global,
        secret: &Secret,
        group: GroupId,
        reported: &Account,
    ) -> Result<Server, NoMemory>
        requires secret { IsSecret (secret_in secret.now) }
        requires views { 1 ≤ length reported.now.views.items }
        requires lists { 1 ≤ length reported.now.delivered.items }

        // The views of a process are numbered by how many it left.
        ensures { (p : process.Process) → account_of p ≡ account reported.now → p.pool.view.number ≡ length p.left
            → IfOk result (IsServer (place_with reported.now.me group (secret_in secret.now)) (server_of p)) }
    {
        let Some((here, below)) = reported.delivered.split_last() else {
            unreachable!();
        };
        let Some((view, _)) = reported.views.split_last() else {
            unreachable!();
        };
        let store = begun(alloc, reported, below)?;
        let states = state_key(alloc, secret)?;
        let giving = Giving::new(
            reported.me,
            group,
            states,
            view.clone()?,
            store.as_ref(),
            alloc,
        )?;
        let store = gone_on(alloc, store, here)?;
        let key = reply_key(alloc, secret)?;
        let replies = Replies::new(reported.me, group, key, count(reported), store);
        Ok(Server { replies, giving })
    }
}
