//! The phase of an image's process.
ghost use Rattle.std.specs.Prelude.{◌≡◌, ◌≢◌, ◌↔◌, ℕ, if◌then◌else◌, true, false, Some, None, All, is_some, IfSome, IsSome, IsTrue};
ghost use Rattle.std.specs.Option.{option_map};
ghost use Rattle.message_defs.specs.Updates.{Value as PlainValue};
ghost use Rattle.message_defs.specs.Statements.{Ready};
ghost use Rattle.group_defs.specs.Views.{is_member};
ghost use Rattle.group_defs.specs.Process.{Process, places_in};
ghost use Rattle.group_defs.specs.Certified as certified;
ghost use Rattle.group_defs.specs.Certified.{readied};
ghost use Rattle.rp_base.specs.Views.{value as value_of};
ghost use Rattle.stmt_codec.specs.Views.{stmt, report};
ghost use Rattle.claim_pool.specs.Certificates.{content_of};
ghost use Rattle.view_phases.specs.Phases.{decided as decided_by, decides, IsIn};
ghost use Rattle.image_parts.specs.InView.{EndsView, HasEnd, HasHalted, IsDecidedSo, IsInView};
ghost use Rattle.image_parts.specs.Walks.{end_said, end_in};

use claim_pool::{Certificate, Commit, Pool};
use heard_images::is_decided;
use rank_rules::commit;
use rp_base::{Pid, PidSet, Value};
use snapshot_rp::KeptClaim;
use stmt_codec::Statement;
use view_phases::{DecidedView, OpenView, Phase, Settled};
use view_table::View;

// The length that the statement says, where it is an End of the view of this number.
fn end_of(number: u16, statement: &Statement<'_>) -> Option<u16>
    ensures { result ≡ end_said number (stmt statement.now) }
{
    match *statement {
        Statement::End { view, length } => { if view == number { Some(length) } else { None } }
        _ => None,
    }
}

// The length of the first End of the view among these.
fn first_end(number: u16, signed: &[KeptClaim]) -> Option<u16>
    ensures { result ≡ end_in number signed.now }
{
    for kept in signed {
        let claim = kept.claim();
        if let Some(length) = end_of(number, &claim.statement) {
            return Some(length);
        }
    }
    None
}

/// The length of the process's own End of the view of this number, where this is what the process signed; None exactly where it has
/// signed none.
pub fn own_end(number: u16, signed: &[KeptClaim]) -> Option<u16>
    ensures { (p : Process) → p.signed ≡ signed.now → All (λ c. c.signer ≡ p.me) p.signed → p.pool.view.number ≡ number → HasEnd p result }
{
    first_end(number, signed)
}

// The phase of a member that has decided nothing: closing where it has signed its End.
fn closed(open: OpenView, ended: Option<u16>) -> Phase
    ensures { (p : Process) → p.halted ≡ false → p.decision ≡ None → is_member p.pool.view p.me ≡ true → HasEnd p ended → IsIn result p }
{
    match ended {
        Some(length) => Phase::ClosingView(open.close(length)),
        None => Phase::OpenView(open),
    }
}

// The phase of a process that has decided nothing.
fn undecided(view: &View, me: Pid, ended: Option<u16>) -> Phase
    ensures { (p : Process) → p.pool.view ≡ view.now → p.me ≡ me → p.halted ≡ false → p.decision ≡ None → HasEnd p ended → IsIn result p }
{
    match Phase::begin(view, me) {
        Phase::OpenView(open) => closed(open, ended),
        phase => phase,
    }
}

// The view as the Ready decides it, where the Ready's update is possible and the process is a member.
fn decided(
    view: &View,
    keyed: PidSet,
    me: Pid,
    ready: &Certificate<'_, Commit>,
) -> Option<DecidedView>
    requires { IsSome (readied (content_of ready.now)) }
    ensures { option_map decided_by result
        ≡ (if is_member view.now me then decides keyed view.now (content_of ready.now) else None) }
{
    match Phase::begin(view, me) {
        Phase::OpenView(open) => match open.decide(view, keyed, ready) {
            Ok(decided) => Some(decided),
            Err(_) => None,
        },
        _ => None,
    }
}

// The phase of a process that has decided so: waiting below the cut, and halted beyond it.
fn settled(decided: DecidedView, places: u16) -> Option<Phase>
    ensures is { (p : Process) → p.decision ≡ Some (decided_by decided) → places_in p.delivered ≡ places → HasHalted p
        → IfSome result (λ phase. IsIn phase p) }
    ensures exact { IsTrue (is_some result) ↔ (places ≢ (decided_by decided).1.cut) }
{
    match decided.settle(places) {
        Settled::Waiting(decided) => Some(Phase::DecidedView(decided)),
        Settled::Install(_) => None,
        Settled::Halted(halted) => Some(Phase::HaltedView(halted)),
    }
}

/// Whether the pool certifies the Ready of this rank and value.
pub fn is_certified(pool: &Pool, rank: u8, value: Value) -> bool
    ensures { IsTrue result ↔ IsTrue (certified.is_certified pool.now.pool (Ready pool.now.pool.view.number rank (value_of value))) }
{
    is_decided(pool, Some((rank, value)))
}

// The phase of a process that has decided by this Ready.
fn ended_by(
    view: &View,
    keyed: PidSet,
    me: Pid,
    places: u16,
    ready: &Certificate<'_, Commit>,
) -> Option<Phase>
    requires { IsSome (readied (content_of ready.now)) }
    ensures is { (d : ℕ × PlainValue) → readied (content_of ready.now) ≡ Some d
        → (p : Process) → p.decision ≡ Some d → places_in p.delivered ≡ places → HasHalted p → IfSome result (λ phase. IsIn phase p) }
    ensures exact { (d : ℕ × PlainValue) → readied (content_of ready.now) ≡ Some d
        → IsTrue (is_some result) ↔ EndsView view.now keyed me places d }
{
    match decided(view, keyed, me, ready) {
        Some(decided) => settled(decided, places),
        None => None,
    }
}

// The phase of a process that has decided by the Ready of this rank that the pool certifies.
fn decided_so(pool: &Pool, keyed: PidSet, me: Pid, places: u16, rank: u8) -> Option<Phase>
    ensures is { (v : PlainValue) → IsTrue (certified.is_certified pool.now.pool (Ready pool.now.pool.view.number rank v))
        → (p : Process) → p.decision ≡ Some (rank, v) → places_in p.delivered ≡ places → HasHalted p → IfSome result (λ phase. IsIn phase p) }
    ensures exact { (v : PlainValue) → IsTrue (certified.is_certified pool.now.pool (Ready pool.now.pool.view.number rank v))
        → IsTrue (is_some result) ↔ EndsView pool.now.pool.view keyed me places (rank, v) }
{
    let current = pool.view();
    let _members = current.members();
    match commit(pool, rank) {
        Some(ready) => ended_by(current, keyed, me, places, &ready),
        None => None,
    }
}

/// The phase of a process that has this pool, has signed an End of this length or none, has delivered `places` places and decided this.
/// None exactly where no process can be so: the decision is not certified, its update is not possible, the process is no member, or it has
/// delivered just the places that count, and would have left the view. `keyed` is the processes with keys.
pub fn phase_of(
    pool: &Pool,
    keyed: PidSet,
    me: Pid,
    ended: Option<u16>,
    places: u16,
    decision: Option<(u8, Value)>,
) -> Option<Phase>
    ensures is { (p : Process) → IsInView p pool.now.pool me ended places (report decision) → IfSome result (λ phase. IsIn phase p) }
    ensures exact { IsTrue (is_some result) ↔ IsDecidedSo pool.now.pool keyed me places (report decision) }
{
    match decision {
        None => Some(undecided(pool.view(), me, ended)),
        Some((rank, value)) => {
            if is_certified(pool, rank, value) {
                decided_so(pool, keyed, me, places, rank)
            } else {
                None
            }
        }
    }
}
