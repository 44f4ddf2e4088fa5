//! All processes that a node hosts.
ghost use Rattle.std.specs.Prelude.{◌≡◌, ℕ, Some, None, vec_len, slice_index_or};
ghost use Rattle.node_hosts.specs.declared.host.Host.{Host as OneHost};
ghost use Rattle.node_hosts.specs.Places.{number_of};

use crate::host::Host;
use crate::making::{host_again, place_of};
use hosted_core::{AbsorbFault, Entry, Hosted};
use node_keys::Kit;
use rp_base::{NoMemory, Pid, PidSet, Scheme};
use sig_scheme::AnySigner;
use std::alloc::Global;

/// The processes that a node hosts, each in the place of its number. One may be handed out.
#[derive(Drop)]
pub struct Hosts {
    hosted: PidSet,
    places: Vec<Option<Host>>,
    ghost counted: { vec_len places ≡ 64 },
    ghost own: { (p : ℕ) (h : OneHost) → slice_index_or places.items p None ≡ Some h → number_of h ≡ p },
}

impl Hosts {
    ghost use Rattle.std.specs.Prelude.{◌≢◌, ◌≤◌, ◌∷◌, [], List, Option, IfOk, IsNone, IsOkUnless, IsTrue, OnErr, OnOk};
    ghost use Rattle.std.specs.Option.{option_copied};
    ghost use Rattle.byte_defs.specs.Members.{has};
    ghost use Rattle.kit_defs.specs.Kits.{IsKit, Kit as PlainKit};
    ghost use Rattle.journal_defs.specs.declared.Version.{Version};
    ghost use Rattle.journal_defs.specs.Journals.{batch_limit as limit_of};
    ghost use Rattle.group_defs.specs.Process.{Process};
    ghost use Rattle.journal_entries.specs.Views.{entry as entry_of};
    ghost use Rattle.sig_scheme.specs.Signers.{used};
    ghost use Rattle.hosted_core.specs.Cores.{me_of};
    ghost use Rattle.hosted_core.specs.Hosts.{core_of, IsReal};
    ghost use Rattle.node_defs.specs.Casts.{Cast, cast_of, from_start, hosted_by};
    ghost use Rattle.node_defs.specs.Nodes.{Node, reads_one, takes_up};
    ghost use Rattle.node_hosts.specs.Places.{IsHost, IsHosted, IsPlace};
    ghost use Rattle.node_hosts.specs.Hosts.{AreHosts, HasHosts, numbers_of};

    /// The processes that the kit hosts, each as it starts: with its signer, which has signed nothing, its keys and its port. An own Order
    /// has at most `batch_limit` messages: 1 with a journal of the first version, 16 with one of the second. Signers of trees take the
    /// memory and the time of their public keys (`node_keys::signer_of`).
    ///
    /// # Errors
    /// [`NoMemory`] where memory is refused.
    pub fn new(alloc: Global, kit: &Kit, batch_limit: u8) -> Result<Hosts, NoMemory>
        requires kit { IsKit kit.now }
        requires some { 1 ≤ batch_limit }
        requires few { batch_limit ≤ 16 }
        ensures { (version : Version) → limit_of version ≡ batch_limit
            → IfOk result (AreHosts (cast_of kit.now version) kit.now (from_start (cast_of kit.now version)).from None) }
    {
        let mut places = Vec::new(alloc);
        for number in 0..64u8 {
            let place = place_of(alloc, kit, number, batch_limit)?;
            places.push(place)?;
        }
        Ok(Hosts {
            hosted: kit.hosted(),
            places,
        })
    }

    /// None yet of the processes that the kit hosts: each is put in as it begins again.
    ///
    /// # Errors
    /// [`NoMemory`] where memory is refused.
    pub fn none_yet(alloc: Global, kit: &Kit) -> Result<Hosts, NoMemory>
        ensures { (version : Version) (now : ℕ → Process) → IfOk result (HasHosts (cast_of kit.now version) kit.now now []) }
    {
        let mut places = Vec::new(alloc);
        'places: while places.len() < 64 {
            places.push(None)?;
        }
        Ok(Hosts {
            hosted: kit.hosted(),
            places,
        })
    }

    /// Puts in a process that the kit hosts, as it begins again, with its keys and its port. It takes no memory.
    pub fn put(&mut self, kit: &Kit, process: Hosted<AnySigner>)
        requires kit { IsKit kit.now }
        requires real { IsReal used process }
        requires hosted { IsTrue (has (hosted_by kit.now) (me_of (core_of process))) }
        ensures { (version : Version) (now : ℕ → Process) (here : List ℕ) → let c = cast_of kit.now version in
            let p = me_of (core_of process) in HasHosts c kit.now now here self.old → IsHosted c p (now p) process
            → HasHosts c kit.now now (p ∷ here) self.new }
    {
        let me = process.core().me();
        self.places[usize::from(me.get())] = Some(host_again(kit, me, process));
    }

    /// The numbers of the hosted processes.
    pub fn numbers(&self) -> PidSet
        ensures { result ≡ numbers_of self.now }
    {
        self.hosted
    }

    /// The host of this number; None exactly where it is not hosted here. It is asked of no process that is handed out.
    pub fn host(&self, p: Pid) -> Option<&Host>
        ensures { (c : Cast) (kit : PlainKit) (now : ℕ → Process) (out : Option ℕ) → AreHosts c kit now out self.now → out ≢ Some p
            → IsPlace c kit p (now p) (option_copied result) }
    {
        self.places[usize::from(p.get())].as_ref()
    }

    /// Hands the host of this number out, for one event; None exactly where it is not hosted here. It takes no memory.
    pub fn take_out(&mut self, p: Pid) -> Option<Host>
        ensures host { (c : Cast) (kit : PlainKit) (now : ℕ → Process) → AreHosts c kit now None self.old
            → IsPlace c kit p (now p) result }
        ensures others { (c : Cast) (kit : PlainKit) (now : ℕ → Process) → AreHosts c kit now None self.old
            → AreHosts c kit now (Some p) self.new }
        ensures none { IsNone result → self.new ≡ self.old }
    {
        self.places[usize::from(p.get())].take()
    }

    /// Takes a host back, as it is after its event. It takes no memory.
    pub fn put_back(&mut self, host: Host)
        ensures { (c : Cast) (kit : PlainKit) (now new : ℕ → Process) (p : ℕ) → AreHosts c kit now (Some p) self.old
            → IsTrue (has c.hosted p) → IsHost c kit p (new p) host → ((q : ℕ) → q ≢ p → new q ≡ now q) → AreHosts c kit new None self.new }
    {
        let me = host.process.core().me();
        self.places[usize::from(me.get())] = Some(host);
    }

    /// An entry of the journal, taken up by its process.
    ///
    /// # Errors
    /// `Differs` exactly where no hosted process may have written it, and `NoMemory`. All processes are as they were.
    pub fn absorb<V: Scheme>(&mut self, scheme: &V, entry: &Entry<'_>) -> Result<(), AbsorbFault>
        ensures absorbs { (c : Cast) (kit : PlainKit) (n : Node) → AreHosts c kit n.now None self.old
            → c.setting.valid ≡ V.valid scheme.now → OnOk result (IsTrue (takes_up c n (entry_of entry.now))
            × AreHosts c kit (reads_one c n (entry_of entry.now)).now None self.new) }
        ensures only { (c : Cast) (kit : PlainKit) (n : Node) → AreHosts c kit n.now None self.old
            → c.setting.valid ≡ V.valid scheme.now → IsTrue (takes_up c n (entry_of entry.now)) → IsOkUnless result AbsorbFault.NoMemory }
        ensures lost { (c : Cast) (kit : PlainKit) (now : ℕ → Process) → AreHosts c kit now None self.old
            → OnErr result (AreHosts c kit now None self.new) }
    {
        let Some(host) = &mut self.places[usize::from(entry.process.get())] else {
            return Err(AbsorbFault::Differs);
        };
        host.absorb(scheme, entry)
    }
}
