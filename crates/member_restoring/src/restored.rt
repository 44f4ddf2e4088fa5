//! A process of an image that was judged.
ghost use Rattle.std.specs.Prelude.{◌≡◌, ◌≤◌, is_none, true};
ghost use Rattle.group_defs.specs.Process.{Setting, Process};
ghost use Rattle.member_restoring.specs.States.{IsReal, IsStateOf};

use restored_present::ProcessState;
use rp_base::{GroupId, Roster, Tally};

/// The process of an image that was judged, in its group, with its signer.
#[derive(Drop)]
pub struct Restored<G> {
    /// The name of the group.
    pub group: GroupId,

    /// The processes of the group with their public keys.
    pub roster: Roster,

    /// What the process keeps.
    pub state: ProcessState,

    /// Its signer, which counts as many signatures as the process has signed statements.
    pub signer: G,
    pub ghost real: { IsReal state },
    pub ghost here: { is_none state.left ≡ true },
}

// The state of the same process, but that an own Order has at most so many messages.
fn limited(state: ProcessState, batch_limit: u8) -> ProcessState
    requires some { 1 ≤ batch_limit }
    requires few { batch_limit ≤ 16 }
    ensures is { (s : Setting) (p : Process) → IsStateOf s p state → IsStateOf s (record p { batch_limit = batch_limit }) result }
    ensures real { IsReal state → IsReal result }
    ensures left { result.left ≡ state.left }
{
    let mut state = state;
    state.batch_limit = batch_limit;
    state
}

impl<G: Tally + Drop> Restored<G> {
    ghost use Rattle.std.specs.Prelude.{◌≡◌, ◌≤◌, ℕ};
    ghost use Rattle.group_defs.specs.Process.{Setting};
    ghost use Rattle.image_defs.specs.Images.{Image as PlainImage};
    ghost use Rattle.member_restoring.specs.Restored.{IsRestored};

    /// The same process, but that an own Order has at most `batch_limit` messages, 1 to 16, which no image says.
    pub fn with_limit(self, batch_limit: u8) -> Restored<G>
        requires some { 1 ≤ batch_limit }
        requires few { batch_limit ≤ 16 }
        ensures is { (s : Setting) (before : ℕ) (i : PlainImage) → IsRestored G.used s before i self → IsRestored G.used s batch_limit i result }
        ensures signer { result.signer ≡ self.signer }
    {
        let Restored {
            group,
            roster,
            state,
            signer,
        } = self;
        let state = limited(state, batch_limit);
        Restored {
            group,
            roster,
            state,
            signer,
        }
    }
}
