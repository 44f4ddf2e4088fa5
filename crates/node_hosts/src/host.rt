//! One process that a node hosts.
ghost use Rattle.sig_scheme.specs.Signers.{used};
ghost use Rattle.hosted_core.specs.Hosts.{IsReal};

use auth_link::LinkKeys;
use hosted_core::{AbsorbFault, Entry, Hosted};
use rp_base::Scheme;
use sig_scheme::AnySigner;

/// A process that a node hosts, and what it speaks with.
#[derive(Drop)]
pub struct Host {
    /// The process, which is never ahead of its journal.
    pub process: Hosted<AnySigner>,

    /// The keys that it shares with the others.
    pub keys: LinkKeys,

    /// The port on which it receives.
    pub port: u16,
    pub ghost real: { IsReal used process },
}

impl Host {
    ghost use Rattle.std.specs.Prelude.{◌≡◌, IsOkUnless, IsTrue, OnErr, OnOk};
    ghost use Rattle.group_defs.specs.Process.{Process};
    ghost use Rattle.group_defs.specs.Events.{after};
    ghost use Rattle.journal_entries.specs.Views.{entry as entry_of};
    ghost use Rattle.kit_defs.specs.Kits.{Kit};
    ghost use Rattle.node_defs.specs.Casts.{Cast, kept_turn, may_have_written};
    ghost use Rattle.node_hosts.specs.Places.{IsHost, number_of};

    // An entry of its process, taken up.
    pub(crate) fn absorb<V: Scheme>(
        &mut self,
        scheme: &V,
        entry: &Entry<'_>,
    ) -> Result<(), AbsorbFault>
        requires whose { entry.now.process ≡ number_of self.old }
        ensures absorbs { (c : Cast) (kit : Kit) (p : Process) → IsHost c kit entry.now.process p self.old → c.setting.valid ≡ V.valid scheme.now
            → OnOk result (IsTrue (may_have_written c p (entry_of entry.now))
            × IsHost c kit entry.now.process (after c.setting p (kept_turn p (entry_of entry.now))) self.new) }
        ensures only { (c : Cast) (kit : Kit) (p : Process) → IsHost c kit entry.now.process p self.old → c.setting.valid ≡ V.valid scheme.now
            → IsTrue (may_have_written c p (entry_of entry.now)) → IsOkUnless result AbsorbFault.NoMemory }
        ensures lost { (c : Cast) (kit : Kit) (p : Process) → IsHost c kit entry.now.process p self.old
            → OnErr result (IsHost c kit entry.now.process p self.new) }
        ensures number { number_of self.new ≡ number_of self.old }
    {
        self.process.absorb(scheme, entry)?;
        Ok(())
    }
}
