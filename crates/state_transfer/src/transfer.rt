ghost use Rattle.std.specs.Prelude.{◌≡◌, ◌++◌, ◌∷◌, [], ◌==◌, ◌&&◌, IfOk, OnOk, OnErr, option_map};
ghost use Rattle.std.specs.List.{list_any};
ghost use Rattle.byte_defs.specs.Equality.{same_bytes};
ghost use Rattle.store_defs.specs.Records.{IsStateRecord};
ghost use Rattle.store_defs.specs.Transfers as transfers;
ghost use Rattle.store_records.specs.Views.{state_record as record_of};
ghost use Rattle.state_transfer.specs.Counted.{given, counted as counted_of};
ghost use Rattle.state_transfer.specs.Refusals.{refusal, verdict, with_ready};

use rp_base::{GroupId, NoMemory, Pid, Scheme};
use std::alloc::Global;
use std::marker::Model;
use std::rc::Rc;
use store_defs::Taken;
use store_records::{StateRecord, push_state_body};
use view_table::{View, faulty};

// A signer, and the state that it gave, which those who gave the same share.
#[derive(Drop)]
struct Given {
    signer: Pid,
    state: Rc<Vec<u8>>,
}

/// The states that members of a view gave: who is counted with which, in order, and the state that more than f of them gave first. Contracts
/// see it so. A state is kept once.
#[derive(Drop)]
pub struct Transfer {
    view: View,
    counted: Vec<Given>,
    ready: Option<Rc<Vec<u8>>>,
}

impl Model for Transfer {
    ghost use Rattle.std.specs.Prelude.{option_map};
    ghost use Rattle.store_defs.specs.Transfers as transfers;
    ghost use Rattle.state_transfer.specs.Counted.{counted as counted_of};

    ghost Value = { transfers.Transfer };

    ghost view = { λ t. record { view = t.view; counted = counted_of t.counted.items; state = option_map (λ s. s.value.items) t.ready } };
}

// Whether they are the same bytes. Both at one lifetime, the only form of the comparison that the borrow checker covers.
fn are_same<'a>(a: &'a [u8], b: &'a [u8]) -> bool
    ensures { result ≡ same_bytes a.now b.now }
{
    a == b
}

// Whether a state's signature is valid under its signer's state key, where there is one.
fn is_signed<V: Scheme>(
    alloc: Global,
    scheme: &V,
    group: &GroupId,
    key: Option<&[u8]>,
    given: &StateRecord<'_>,
) -> Result<bool, NoMemory>
    requires { IsStateRecord (record_of given.now) }
    ensures { IfOk result (λ b. b
        ≡ transfers.is_signed (V.valid scheme.now) group.now (option_map (λ k. k.now) key.entry) (record_of given.now)) }
{
    let Some(key) = key else {
        return Ok(false);
    };
    let mut body = Vec::new(alloc);
    push_state_body(&mut body, group, given)?;
    Ok(scheme.verify(key, &body, given.signature))
}

impl Given {
    // Whether it is this signer's.
    fn is_from(&self, signer: Pid) -> bool
        ensures { result ≡ ((given self.now).0 == signer) }
    {
        self.signer == signer
    }

    // Whether it is this signer's, with this state.
    fn is_of(&self, signer: Pid, state: &[u8]) -> bool
        ensures { result ≡ (((given self.now).0 == signer) && same_bytes state.now (given self.now).1) }
    {
        self.is_from(signer) && are_same(state, self.state.as_slice())
    }
}

// The state as one of these keeps it, or a copy of it.
fn kept(counted: &[Given], alloc: Global, state: &[u8]) -> Result<Rc<Vec<u8>>, NoMemory>
    ensures { IfOk result (λ s. s.value.items ≡ state.now) }
{
    'counted: for given in counted {
        if are_same(given.state.as_slice(), state) {
            return Ok(given.state.clone()?);
        }
    }
    let copy = state.to_vec(alloc)?;
    Ok(Rc::new(alloc, copy)?)
}

// Whether the signer is among these.
fn is_counted(counted: &[Given], signer: Pid) -> bool
    ensures { result ≡ list_any (λ g. g.0 == signer) (counted_of counted.now) }
{
    'counted: for given in counted {
        if given.is_from(signer) {
            return true;
        }
    }
    false
}

// Whether the signer is among these with this state.
fn has_given(counted: &[Given], state: &[u8], signer: Pid) -> bool
    ensures { result ≡ list_any (λ g. (g.0 == signer) && same_bytes state.now g.1) (counted_of counted.now) }
{
    'counted: for given in counted {
        if given.is_of(signer, state) {
            return true;
        }
    }
    false
}

impl Transfer {
    /// Nobody is counted yet.
    pub fn new(alloc: Global, view: View) -> Transfer
        ensures { result ≡ transfers.new_transfer view }
    {
        Transfer {
            view,
            counted: Vec::new(alloc),
            ready: None,
        }
    }

    // The first reason not to count a state, where there is one.
    fn refusal<V: Scheme>(
        &self,
        alloc: Global,
        scheme: &V,
        group: &GroupId,
        key: Option<&[u8]>,
        given: &StateRecord<'_>,
    ) -> Result<Option<Taken>, NoMemory>
        requires { IsStateRecord (record_of given.now) }
        ensures { IfOk result (λ o. o
            ≡ refusal (V.valid scheme.now) group.now (option_map (λ k. k.now) key.entry) self.now (record_of given.now)) }
    {
        if given.view != self.view.number() {
            return Ok(Some(Taken::OtherView));
        }
        if !self.view.is_member(given.signer) {
            return Ok(Some(Taken::Stranger));
        }
        if !is_signed(alloc, scheme, group, key, given)? {
            return Ok(Some(Taken::Unsigned));
        }
        if is_counted(&self.counted, given.signer) {
            return Ok(Some(Taken::Known));
        }
        Ok(None)
    }

    // Counts the signer with the state.
    fn count(&mut self, signer: Pid, state: Rc<Vec<u8>>) -> Result<(), NoMemory>
        ensures counted { OnOk result (self.new ≡ record self.old { counted = self.old.counted ++ (signer, state.value.items) ∷ [] }) }
        ensures unchanged { OnErr result (self.new ≡ self.old) }
    {
        self.counted.push(Given { signer, state })?;
        Ok(())
    }

    // How many members gave the state.
    fn givers(&self, state: &[u8]) -> u8
        ensures { result ≡ transfers.givers self.now state.now }
    {
        let counted = self.counted.as_slice();
        let members = self.view.members();
        let givers = members
            .iter()
            .filter(|m| has_given(counted, state, **m))
            .count();
        givers as u8
    }

    // What comes of a state that was counted.
    fn settle(&mut self, state: Rc<Vec<u8>>) -> Taken
        ensures taken { result ≡ verdict self.old state.value.items }
        ensures ready { self.new ≡ with_ready self.old state.value.items }
    {
        let givers = self.givers(state.as_slice());
        if faulty(self.view.members().len()) >= givers as usize {
            return Taken::Counted(givers);
        }
        if self.ready.is_none() {
            self.ready = Some(state);
        }
        Taken::Ready
    }

    /// Offers a state, with the state key of its signer where the joiner was handed one. It counts where it is of the view, its signer is a
    /// member that is not counted yet, and its signature is valid under the key; else the answer is the first reason why not, and nothing
    /// has changed. The first state that more than f members gave stays.
    ///
    /// # Errors
    /// [`NoMemory`] where room for what is signed or for the state is refused; nothing has changed then.
    #[tactic(auto, unfolding(store_defs::specs::Transfers::offer))]
    pub fn offer<V: Scheme>(
        &mut self,
        alloc: Global,
        scheme: &V,
        group: &GroupId,
        key: Option<&[u8]>,
        given: &StateRecord<'_>,
    ) -> Result<Taken, NoMemory>
        requires { IsStateRecord (record_of given.now) }
        ensures taken { IfOk result (λ o. o
            ≡ transfers.offer (V.valid scheme.now) group.now (option_map (λ k. k.now) key.entry) self.old (record_of given.now)) }
        ensures transfer { IfOk result (λ o. self.new ≡ transfers.with_record self.old (record_of given.now) o) }
        ensures unchanged { OnErr result (self.new ≡ self.old) }
    {
        if let Some(refused) = self.refusal(alloc, scheme, group, key, given)? {
            return Ok(refused);
        }
        let state = kept(&self.counted, alloc, given.state)?;
        let again = state.clone()?;
        self.count(given.signer, state)?;
        Ok(self.settle(again))
    }

    /// The state that more than f members gave first, where there is one.
    pub fn state(&self) -> Option<&[u8]>
        ensures { option_map (λ s. s.now) result ≡ self.now.state }
    {
        match &self.ready {
            Some(state) => Some(state.as_slice()),
            None => None,
        }
    }
}
