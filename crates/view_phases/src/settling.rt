ghost use Rattle.std.specs.Prelude.{◌≡◌};
ghost use Rattle.group_defs.specs.Process.{Process};
ghost use Rattle.group_defs.specs.Settle.{leave};
ghost use Rattle.view_phases.specs.Phases.{counts, IsDecided};
ghost use Rattle.view_phases.specs.Settled.{Settles, Leaves};

use crate::phases::{DecidedView, HaltedView};
use rp_base::Update;

/// What becomes of a process whose view is decided.
#[derive(Drop)]
pub enum Settled {
    /// The process waits for what is left below the cut.
    Waiting(DecidedView),

    /// The process installs the view that follows by this update.
    Install(Update),

    /// The process has delivered beyond the cut, and halts.
    Halted(HaltedView),
}

impl DecidedView {
    /// Waiting, Install or Halted: exactly by how many places were delivered, below the cut, equal to it or above it. For a
    /// process that is no member, which delivers nothing, the cut itself is handed in.
    pub fn settle(self, delivered: u16) -> Settled
        ensures exactly { Settles self delivered result }
        ensures leaves { (p : Process) → IsDecided self p → delivered ≡ counts p self → Leaves self p result (leave p) }
    {
        let cut = self.decision.value.cut;
        if delivered < cut {
            Settled::Waiting(self)
        } else if delivered == cut {
            Settled::Install(self.decision.value.update)
        } else {
            Settled::Halted(HaltedView {
                decision: self.decision,
                delivered,
            })
        }
    }
}
