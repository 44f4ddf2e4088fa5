ghost use Rattle.std.specs.Prelude.{◌≡◌, ◌≤◌, ◌<◌, ◌+◌, length, map, IfOk, OnOk, OnErr, option_map};
ghost use Rattle.std.specs.Option.{ForNone, ForSome};
ghost use Rattle.accounts.specs.Views.{delivery};
ghost use Rattle.store_defs.specs.Holding.{payloads_of};
ghost use Rattle.store_defs.specs.Records.{IsStateRecord, state_body};
ghost use Rattle.store_defs.specs.Stores.{store_bytes};
ghost use Rattle.store_keys.specs.Keys.{next, signs};
ghost use Rattle.store_records.specs.Views.{state_record as record_of};
ghost use Rattle.store_giving.specs.Signatures.{IsSignature};
ghost use Rattle.store_giving.specs.Spellings.{bytes_in};

use crate::handed::StateKeys;
use crate::offered::{Offered, append_offered};
use crate::spelling::Spelling;
use crate::stores::carried_out;
use accounts::Delivered;
use kv_service::Store;
use rp_base::{GroupId, NoMemory, Pid, Scheme};
use sig_scheme::PublicKey;
use state_transfer::Transfer;
use std::alloc::Global;
use store_defs::Taken;
use store_keys::LeafKey;
use store_records::{StateRecord, push_state, push_state_body, read_state};
use store_words::{push_hex_line, push_line};
use view_table::View;

/// What a process gives of its view, and what others gave: the key that signs, the state with its signature, once it was asked for, the
/// keys of the others, and the states that they gave. `IsGiving` of the specs says what the definitions' server has of these.
#[derive(Drop)]
pub struct Giving {
    me: Pid,
    group: GroupId,
    key: LeafKey,
    view: View,

    // The store at the beginning of the view, where the process held it then.
    state: Option<Spelling>,

    // Its signature with the leaf whose number is the view's, once it was asked for.
    signature: Option<Vec<u8>>,
    keys: StateKeys,
    transfer: Transfer,
    ghost unused: { ForNone signature (next key ≤ view.number) },
    ghost used: { next key ≤ view.number + 1 },
    ghost signed: { ForSome signature (λ s. IsSignature (signs key) group me view.number state s.items) },
}

const STATE: &[u8] = b"state";

// The signature of a state with the leaf whose number is the view's, on which nothing was signed yet.
fn sign(
    key: &mut LeafKey,
    alloc: Global,
    group: &GroupId,
    given: &StateRecord<'_>,
) -> Result<Vec<u8>, NoMemory>
    requires fits { IsStateRecord (record_of given.now) }
    requires unused { next key.old ≤ given.now.view }
    requires within { given.now.view < (signs key.old).total }
    ensures signed { IfOk result (λ s. s.items ≡ (signs key.old).signature given.now.view (state_body group.now (record_of given.now))) }
    ensures short { IfOk result (λ s. length s.items ≤ 16384) }
    ensures used { OnOk result (next key.new ≡ given.now.view + 1) }
    ensures unused { OnErr result (next key.new ≡ next key.old) }
    ensures signs { signs key.new ≡ signs key.old }
{
    let mut body = Vec::new(alloc);
    push_state_body(&mut body, group, given)?;
    let mut signature = vec![in alloc; 0; key.most()]?;
    let count = key.sign(u32::from(given.view), &body, &mut signature);
    signature.truncate(count);
    Ok(signature)
}

// The spelling of a store, where there is one.
fn spelled(alloc: Global, store: Option<&Store>) -> Result<Option<Spelling>, NoMemory>
    ensures { IfOk result (λ o. option_map bytes_in o ≡ option_map (λ t. store_bytes t.now) store.entry) }
{
    match store {
        Some(store) => Ok(Some(Spelling::of(alloc, store)?)),
        None => Ok(None),
    }
}

impl Giving {
    ghost use Rattle.std.specs.Prelude.{◌++◌, [], None, IsSome, is_some, if◌then◌else◌, ℕ, List, vec_len, vec_capacity};
    ghost use Rattle.group_defs.specs.Views.{is_member};
    ghost use Rattle.sig_scheme.specs.Keys.{key_bytes};
    ghost use Rattle.store_defs.specs.Serving.{Place, Server, after_offer, after_view, offer_word, state_given, with_key, Given};
    ghost use Rattle.store_defs.specs.Stores.{store_bytes};
    ghost use Rattle.store_defs.specs.Transfers.{new_transfer};
    ghost use Rattle.store_defs.specs.Words.{given_text, offered_text, state_key_text};
    ghost use Rattle.store_giving.specs.Given.{IsGiving, IsSameBut, giver_in, signed_record, state_key_in, transfer_in, view_in};
    ghost use Rattle.store_giving.specs.Offers.{ready_store, store_by, word};

    /// For a process of this group in this view, whose key has signed nothing yet, and which gives this store or none. It was handed no key
    /// and no state.
    ///
    /// # Errors
    /// [`NoMemory`] where room for the state or for keys is refused.
    pub fn new(
        me: Pid,
        group: GroupId,
        key: LeafKey,
        view: View,
        store: Option<&Store>,
        alloc: Global,
    ) -> Result<Giving, NoMemory>
        requires unused { next key ≡ 0 }
        ensures { (q : Place) (s : Server) → q.me ≡ me → q.group ≡ group → q.states ≡ signs key → s.view ≡ view
            → s.gives ≡ option_map (λ t. t.now) store.entry → s.keys ≡ [] → s.transfer ≡ new_transfer view
            → IfOk result (IsGiving q s) }
    {
        let transfer = Transfer::new(alloc, view.clone()?);
        let state = spelled(alloc, store)?;
        let keys = StateKeys::new(alloc)?;
        Ok(Giving {
            me,
            group,
            key,
            view,
            state,
            signature: None,
            keys,
            transfer,
        })
    }

    // Signs the state of the view, where this was not done yet.
    fn sign_state(&mut self, alloc: Global) -> Result<(), NoMemory>
        requires gives { IsSome self.old.state }
        requires within { self.old.view.number < (signs self.old.key).total }
        ensures signed { OnOk result (IsSome self.new.signature) }
        ensures same { IsSameBut self.old self.new }
    {
        // Read, so that it is known to be at most 63.
        let _number = self.me.get();
        if self.signature.is_some() {
            return Ok(());
        }
        let Some(state) = &self.state else {
            unreachable!();
        };
        let given = StateRecord {
            signer: self.me,
            view: self.view.number(),
            state: state.bytes(),
            signature: &[],
        };
        let signature = sign(&mut self.key, alloc, &self.group, &given)?;
        self.signature = Some(signature);
        Ok(())
    }

    // Appends the line of the state, which was signed.
    fn push_given(&self, alloc: Global, out: &mut Vec<u8>) -> Result<(), NoMemory>
        requires gives { IsSome self.now.state }
        requires signed { IsSome self.now.signature }
        ensures given { OnOk result (out.new.items ≡ out.old.items ++ given_text self.now.me (Given (signed_record self.now))) }
        ensures ungiven { OnErr result (out.new.items ≡ out.old.items) }
    {
        // Read, so that it is known to be at most 63.
        let _number = self.me.get();
        let Some(state) = &self.state else {
            unreachable!();
        };
        let Some(signature) = &self.signature else {
            unreachable!();
        };
        let given = StateRecord {
            signer: self.me,
            view: self.view.number(),
            state: state.bytes(),
            signature,
        };
        let mut record = Vec::new(alloc);
        push_state(&mut record, &given)?;
        push_hex_line(out, STATE, self.me, &record)
    }

    /// Appends the line of the store that the process gives of its view: the state as it was when the view began, signed with the leaf
    /// whose number is the view's, or that there is no such leaf, or no store. The state is signed once in a view: the signature is kept.
    ///
    /// # Errors
    /// [`NoMemory`] where room for what is signed or for the line is refused. Nothing is appended then; a signature that was made is kept.
    pub fn give(&mut self, alloc: Global, out: &mut Vec<u8>) -> Result<(), NoMemory>
        ensures given { (q : Place) (s : Server) → IsGiving q s self.old
            → OnOk result (out.new.items ≡ out.old.items ++ given_text q.me (state_given q s)) }
        ensures ungiven { OnErr result (out.new.items ≡ out.old.items) }
        ensures same { (q : Place) (s : Server) → IsGiving q s self.old → IsGiving q s self.new }
    {
        if self.state.is_none() {
            return push_line(out, STATE, self.me, b"none");
        }
        if u32::from(self.view.number()) >= self.key.total() {
            return push_line(out, STATE, self.me, b"spent");
        }
        self.sign_state(alloc)?;
        self.push_given(alloc, out)
    }

    /// The number of its view.
    pub fn view_number(&self) -> u16
        ensures { result ≡ (view_in self.now).number }
    {
        self.view.number()
    }

    /// A view begins, which comes after the one before: the process gives this store of it, or none, and nobody has given a state yet.
    ///
    /// # Errors
    /// [`NoMemory`] where room for the state is refused; nothing has changed then.
    pub fn begin_view(
        &mut self,
        alloc: Global,
        view: View,
        store: Option<&Store>,
    ) -> Result<(), NoMemory>
        requires later { (view_in self.old).number < view.number }
        ensures begun { (q : Place) (s : Server) → IsGiving q s self.old
            → option_map (λ t. t.now) store.entry ≡ (if is_member view q.me then s.store else None)
            → OnOk result (IsGiving q (after_view q s view) self.new) }
        ensures unchanged { (q : Place) (s : Server) → IsGiving q s self.old → OnErr result (IsGiving q s self.new) }
    {
        let transfer = Transfer::new(alloc, view.clone()?);
        let state = spelled(alloc, store)?;
        self.view = view;
        self.state = state;
        self.signature = None;
        self.transfer = transfer;
        Ok(())
    }

    /// Hands in the state key of a process, in place of its earlier one.
    pub fn hand(&mut self, p: Pid, key: PublicKey)
        ensures { (q : Place) (s : Server) → IsGiving q s self.old → IsGiving q (with_key p (key_bytes key) s) self.new }
    {
        self.keys.hand(p, key);
    }

    /// Offers bytes as a state to the process, of which `holds` says whether it holds the store. The state counts where its bytes are a
    /// state record, the process holds no store and is a member of its view, and the transfer takes it; else the answer is the first
    /// reason why not, and nothing has changed.
    ///
    /// # Errors
    /// [`NoMemory`] where room for what is signed or for the state is refused; nothing has changed then.
    pub fn offer<V: Scheme>(
        &mut self,
        alloc: Global,
        scheme: &V,
        holds: bool,
        bytes: &[u8],
    ) -> Result<Offered, NoMemory>
        ensures word { (q : Place) (s : Server) → IsGiving q s self.old → holds ≡ is_some s.store
            → IfOk result (λ o. word o ≡ offer_word (V.valid scheme.now) q s bytes.now) }
        ensures server { (q : Place) (s : Server) (here : List (List ℕ)) → IsGiving q s self.old → holds ≡ is_some s.store
            → IfOk result (λ o. after_offer (V.valid scheme.now) q here s bytes.now
            ≡ record s { store = store_by here s.store o (transfer_in self.new); transfer = transfer_in self.new }) }
        ensures after { (q : Place) (s : Server) (here : List (List ℕ)) → IsGiving q s self.old → holds ≡ is_some s.store
            → OnOk result (IsGiving q (after_offer (V.valid scheme.now) q here s bytes.now) self.new) }
        ensures unchanged { (q : Place) (s : Server) → IsGiving q s self.old → OnErr result (IsGiving q s self.new) }
    {
        let Some(given) = read_state(bytes) else {
            return Ok(Offered::Grammar);
        };
        if holds {
            return Ok(Offered::Held);
        }
        if !self.view.is_member(self.me) {
            return Ok(Offered::Offered(Taken::OtherView));
        }
        let key = self.keys.of(given.signer);
        let taken = self
            .transfer
            .offer(alloc, scheme, &self.group, key, &given)?;
        Ok(Offered::Offered(taken))
    }

    /// The store of the state that is ready, followed by what the process itself delivered in its view; none where none is ready.
    ///
    /// # Errors
    /// [`NoMemory`] where room for it is refused.
    pub fn ready(&self, alloc: Global, here: &[Delivered]) -> Result<Option<Store>, NoMemory>
        ensures { IfOk result (λ o. o ≡ ready_store (payloads_of (map delivery here.now)) (transfer_in self.now)) }
    {
        let Some(state) = self.transfer.state() else {
            return Ok(None);
        };
        let Some(store) = Store::of_state(alloc, state)? else {
            return Ok(None);
        };
        Ok(Some(carried_out(store, alloc, here)?))
    }

    /// Appends the line that says what became of a state that was offered, for which there is room
    /// ([`reserve_offered`](crate::reserve_offered)).
    pub fn append_offered(&self, out: &mut Vec<u8>, offered: Offered)
        requires room { vec_len out.old + 32 ≤ vec_capacity out.old }
        ensures { out.new.items ≡ out.old.items ++ offered_text (giver_in self.now) (word offered) }
    {
        append_offered(out, self.me, offered);
    }

    /// Appends the line of the key that signs the states.
    ///
    /// # Errors
    /// [`NoMemory`] where room for it is refused; nothing is appended then.
    pub fn push_key(&self, out: &mut Vec<u8>) -> Result<(), NoMemory>
        ensures pushed { OnOk result (out.new.items ≡ out.old.items ++ state_key_text (giver_in self.now) (state_key_in self.now).public) }
        ensures unchanged { OnErr result (out.new.items ≡ out.old.items) }
    {
        push_hex_line(out, b"statekey", self.me, self.key.public())
    }
}
