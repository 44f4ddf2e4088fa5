//! A hosted process as it starts, and as it takes up its journal.
ghost use Rattle.std.specs.Prelude.{◌≡◌, ◌≤◌, ◌+◌, length, IfOk, OnErr, OnOk, IsOkUnless};
ghost use Rattle.group_defs.specs.Process.{Setting, Process, start};
ghost use Rattle.member_events.specs.Kept.{signatures_left};
ghost use Rattle.member_core.specs.Events.{event as event_of};
ghost use Rattle.member_core.specs.Cores.{IsCore, Shares, left_of, me_of, signer_of};
ghost use Rattle.member_core.specs.Entries.{Agrees, Absorbs};
ghost use Rattle.hosted_core.specs.Hosts.{core_of, IsReal};

use member_core::{AbsorbFault, Core, Entry, Outcome};
use rp_base::{GroupId, NoMemory, Pid, Roster, Scheme, Tally};
use std::alloc::Global;
use view_table::View;

/// A process whose turns a journal keeps. There is no call that changes it and leaves it in the caller's hand, but `absorb`, whose
/// entry the journal has already.
#[derive(Drop)]
pub struct Hosted<G> {
    pub(crate) core: Core<G>,
}

impl<G: Tally + Drop> Hosted<G> {
    /// The process of this number as it starts, in the genesis view, which has the number 0. The signer has signed nothing; on
    /// `NoMemory` it is dropped unused. An own Order has at most `batch_limit` messages, 1 to 16.
    pub fn new(
        alloc: Global,
        group: GroupId,
        roster: Roster,
        genesis: View,
        me: Pid,
        batch_limit: u8,
        signer: G,
    ) -> Result<Hosted<G>, NoMemory>
        requires number { genesis.number ≡ 0 }
        requires some { 1 ≤ batch_limit }
        requires few { batch_limit ≤ 16 }
        requires unused { G.used signer ≡ 0 }
        ensures starts { IfOk result (λ h. (s : Setting) → Shares s group roster genesis
            → IsCore G.used s (start s me batch_limit) (core_of h)) }
        ensures real { IfOk result (IsReal G.used) }
        ensures signer { IfOk result (λ h. signer_of (core_of h) ≡ signer) }
    {
        let core = Core::new(alloc, group, roster, genesis, me, batch_limit, signer)?;
        Ok(Hosted { core })
    }

    /// The process of a core that begins again from an image, at a place of its journal. All that the core has signed is in the image or in
    /// an entry before that place; so the core has not stepped since.
    pub fn again(core: Core<G>) -> Hosted<G>
        ensures core { core_of result ≡ core }
        ensures real { (s : Setting) (p : Process) → IsCore G.used s p core → IsReal G.used result }
    {
        Hosted { core }
    }

    /// The process, to ask what it reports of itself.
    pub fn core(&self) -> &Core<G>
        ensures { result.now ≡ core_of self.now }
    {
        &self.core
    }

    /// An entry of the process in its journal, taken again, as `Core::absorb` says. What came of it may be sent and reported again: its
    /// entry is in the journal.
    ///
    /// # Errors
    /// `Differs` and `NoMemory`, as `Core::absorb` has them; the process is as it was.
    pub fn absorb<V: Scheme>(
        &mut self,
        scheme: &V,
        entry: &Entry<'_>,
    ) -> Result<Outcome, AbsorbFault>
        requires whose { entry.now.process ≡ me_of (core_of self.old) }
        ensures absorbs { (s : Setting) (p : Process) → IsCore G.used s p (core_of self.old) → s.valid ≡ V.valid scheme.now
            → IfOk result (Absorbs G.used s p (left_of G.used G.total (core_of self.old)) (core_of self.new) (event_of entry.now.event)
            (signatures_left entry.now.signatures) entry.now.spent) }
        ensures only { (s : Setting) (p : Process) → IsCore G.used s p (core_of self.old) → s.valid ≡ V.valid scheme.now
            → Agrees s p (left_of G.used G.total (core_of self.old)) (event_of entry.now.event)
            (signatures_left entry.now.signatures) entry.now.spent → IsOkUnless result AbsorbFault.NoMemory }
        ensures lost { (s : Setting) (p : Process) → IsCore G.used s p (core_of self.old) → OnErr result (IsCore G.used s p (core_of self.new)) }
        ensures real { IsReal G.used self.old → IsReal G.used self.new }
        ensures kept { OnErr result (signer_of (core_of self.new) ≡ signer_of (core_of self.old)) }
        ensures used { OnOk result (G.used (signer_of (core_of self.new))
            ≡ G.used (signer_of (core_of self.old)) + length (signatures_left entry.now.signatures)) }
        ensures total { OnOk result (G.total (signer_of (core_of self.new)) ≡ G.total (signer_of (core_of self.old))) }
        ensures key { OnOk result (G.same_key (signer_of (core_of self.old)) (signer_of (core_of self.new))) }
    {
        self.core.absorb(scheme, entry)
    }
}
