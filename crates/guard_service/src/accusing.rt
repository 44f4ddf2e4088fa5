//! A process accuses another: what convicts that one goes to the other members of the process's view.
ghost use Rattle.std.specs.Prelude.{◌≡◌, ◌<◌, ◌==◌, ◌&&◌, ◌++◌, ◌∷◌, [], not, ℕ, filter, OnOk, OnErr, Some, vec_capacity, vec_len};
ghost use Rattle.byte_defs.specs.Members.{has};
ghost use Rattle.byte_defs.specs.Orders.{sorted};
ghost use Rattle.group_defs.specs.Process.{Process};
ghost use Rattle.node_service.specs.Histories.{Version};
ghost use Rattle.member_events.specs.Below.{claim as claim_of};
ghost use Rattle.node_defs.specs.Casts.{cast_of, setting_of};
ghost use Rattle.node_service.specs.Words.{IsHosted};
ghost use Rattle.guard_defs.specs.Lines.{conflict_of};
ghost use Rattle.guard_service.specs.Accusing.{HasAccused, listed_others, sent};

use crate::packing::bundle_of;
use crate::words::push_accuse;
use member_events::{Claim, Payload};
use node_service::{AnySigner, Hosted, Kit, Sending};
use rp_base::{NoMemory, Pid, PidSet};
use view_table::View;

// Whether the member is another one, and among these.
fn is_listed_other(member: Pid, me: Pid, listed: PidSet) -> bool
    ensures { result ≡ (not (member == me) && has listed member) }
{
    member != me && listed.contains(member)
}

// The other members of the view that are among these, rising.
fn others_among(view: &View, me: Pid, listed: PidSet) -> PidSet
    ensures { result ≡ sorted (λ m. m ∷ []) (filter (λ m. not (m == me) && has listed m) view.now.members) }
{
    let members = view.members();
    let mut others = PidSet::new();
    let mut left = members.len();
    'members: while left > 0 {
        left -= 1;
        let member = members[left];
        if is_listed_other(member, me, listed) {
            others.insert(member);
        }
    }
    others
}

// The other members of the process's view of which the roster has a key.
fn others_of(kit: &Kit, process: &Hosted<AnySigner>) -> PidSet
    ensures { (version : Version) (p : ℕ) (now : Process) → IsHosted (cast_of kit.now version) p now process.now
        → result ≡ listed_others (setting_of kit.now) now }
{
    let state = process.core().state();
    others_among(state.pool.view(), state.own.me, kit.roster().processes())
}

// Puts the frame to these after what is to be sent, if there is one. There is room for it.
fn put_frame(sends: &mut Vec<Sending>, to: PidSet, frame: Option<Payload>)
    requires { vec_len sends.old < vec_capacity sends.old }
    ensures { sends.new.items ≡ sends.old.items ++ sent to frame }
{
    let Some(frame) = frame else {
        return;
    };
    let Ok(()) = sends.push(Sending { to, frame }) else {
        unreachable!();
    };
}

// The process accuses that one by these two claims, which it keeps of it.
fn accuse_by(
    kit: &Kit,
    process: &Hosted<AnySigner>,
    q: Pid,
    heard: &Claim<'_>,
    other: &Claim<'_>,
    lines: &mut Vec<u8>,
    sends: &mut Vec<Sending>,
) -> Result<(), NoMemory>
    ensures accuses { (version : Version) (p : ℕ) (now : Process) → IsHosted (cast_of kit.now version) p now process.now
        → conflict_of now q ≡ Some (claim_of heard.now, claim_of other.now)
        → OnOk result (HasAccused (cast_of kit.now version) p now q lines.old.items lines.new.items sends.old.items sends.new.items) }
    ensures lines { OnErr result (lines.new.items ≡ lines.old.items) }
    ensures sends { OnErr result (sends.new.items ≡ sends.old.items) }
{
    let to = others_of(kit, process);
    let frame = bundle_of(*lines.allocator(), heard, other)?;
    sends.reserve(1)?;
    push_accuse(lines, process.core().me(), Some(q))?;
    put_frame(sends, to, frame);
    Ok(())
}

/// The process accuses that one: a line says so, and the two claims of the conflict that it keeps of it go, in one Bundle, the heard one
/// first, to the other members of its view. Where it keeps none, the line says that, and nothing is sent.
///
/// # Errors
/// [`NoMemory`]; lines and sends are as they were then.
pub(crate) fn accuse(
    kit: &Kit,
    process: &Hosted<AnySigner>,
    q: Pid,
    lines: &mut Vec<u8>,
    sends: &mut Vec<Sending>,
) -> Result<(), NoMemory>
    ensures accuses { (version : Version) (p : ℕ) (now : Process) → IsHosted (cast_of kit.now version) p now process.now
        → OnOk result (HasAccused (cast_of kit.now version) p now q lines.old.items lines.new.items sends.old.items sends.new.items) }
    ensures lines { OnErr result (lines.new.items ≡ lines.old.items) }
    ensures sends { OnErr result (sends.new.items ≡ sends.old.items) }
{
    let core = process.core();
    match core.conflict(q) {
        Some((heard, other)) => accuse_by(kit, process, q, &heard, &other, lines, sends),
        None => push_accuse(lines, core.me(), None),
    }
}
