//! Frames that are handed over to processes.
ghost use Rattle.std.specs.Prelude.{◌≡◌, ◌≢◌, ◌++◌, ◌==◌, [], true, false, not, map, filter, IsOk, OnOk};
ghost use Rattle.byte_defs.specs.Orders.{sorted};
ghost use Rattle.claim_index.specs.Kept.{by_number};
ghost use Rattle.member_taking.specs.States.{frame_to};
ghost use Rattle.member_sending.specs.Sends.{each_to, IsEmpty};

use member_events::Sending;
use member_taking::Frames;
use rp_base::{NoMemory, Pid, PidSet};
use view_table::View;

/// The other members of the view, rising.
pub(crate) fn others(view: &View, me: Pid) -> PidSet
    ensures { result ≡ sorted by_number (filter (λ m. not (m == me)) view.now.members) }
{
    let members = view.members();
    let mut others = PidSet::new();
    let mut left = members.len();
    'members: while left > 0 {
        left -= 1;
        let member = members[left];
        if member != me {
            others.insert(member);
        }
    }
    others
}

/// Whether no process is in the set.
pub(crate) fn is_nobody(to: PidSet) -> bool
    ensures nobody { result ≡ true → to ≡ [] }
    ensures somebody { result ≡ false → to ≢ [] }
{
    let mut left = to;
    left.pop_first().is_none()
}

/// Hands all frames over to these processes. Where there are none, it takes no memory.
pub(crate) fn hand_over(
    frames: &mut Frames,
    to: PidSet,
    sends: &mut Vec<Sending>,
) -> Result<(), NoMemory>
    requires { frames.old.claims ≡ [] }
    ensures sends { OnOk result (map frame_to sends.new.items ≡ map frame_to sends.old.items ++ each_to to frames.old.frames) }
    ensures none { frames.old.frames ≡ [] → IsOk result }
    ensures empty { OnOk result (IsEmpty frames.new) }
{
    'frames: while let Some(frame) = frames.next_frame() {
        sends.push(Sending { to, frame })?;
    }
    Ok(())
}
