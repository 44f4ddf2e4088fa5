//! The view is decided, where some rank decides.
ghost use Rattle.std.specs.Prelude.{◌≡◌, IsSome};
ghost use Rattle.group_defs.specs.Process.{Setting, Process};
ghost use Rattle.group_defs.specs.Certified.{readied};
ghost use Rattle.group_defs.specs.Settle as defs;
ghost use Rattle.member_state.specs.Below.{content_of, decides, IsIn};
ghost use Rattle.member_state.specs.Parts.{HasKeys};
ghost use Rattle.member_state.specs.Marks.{Stays};
ghost use Rattle.member_state.specs.States.{IsStateOf};

use member_state::{Before, Certificate, Commit, Own, Phase, Pool, ProcessState};
use rank_rules::{commit, decided};
use rp_base::PidSet;
use view_table::View;

// The phase after the certified Ready: decided by it, where the phase is undecided and the Ready's update is possible; else the
// same.
fn phase_behind(phase: Phase, view: &View, keyed: PidSet, ready: &Certificate<'_, Commit>) -> Phase
    requires { IsSome (readied (content_of ready.now)) }

    // So is the process that decides, where the Ready's rank is the one that decides.
    ensures { (s : Setting) (p : Process) → defs.decided_by s p.pool ≡ decides keyed view.now (content_of ready.now) → IsIn phase p
        → IsIn result (defs.decide s p) }
{
    match phase {
        Phase::Observing(observing) => match observing.decide(view, keyed, ready) {
            Ok(decided) => Phase::DecidedView(decided),
            Err(observing) => Phase::Observing(observing),
        },
        Phase::OpenView(open) => match open.decide(view, keyed, ready) {
            Ok(decided) => Phase::DecidedView(decided),
            Err(open) => Phase::OpenView(open),
        },
        Phase::ClosingView(closing) => match closing.decide(view, keyed, ready) {
            Ok(decided) => Phase::DecidedView(decided),
            Err(closing) => Phase::ClosingView(closing),
        },
        Phase::DecidedView(decided) => Phase::DecidedView(decided),
        Phase::HaltedView(halted) => Phase::HaltedView(halted),
    }
}

// The phase of the process when it has decided.
fn phase_then(phase: Phase, pool: &Pool, own: &Own) -> Phase
    ensures { (s : Setting) (p : Process) → HasKeys s own.now → p.pool ≡ pool.now.pool → IsIn phase p → IsIn result (defs.decide s p) }
{
    let Some((rank, _)) = decided(pool, own) else {
        return phase;
    };
    match commit(pool, rank) {
        Some(ready) => phase_behind(phase, pool.view(), own.keyed, &ready),
        None => phase,
    }
}

/// Decides the view: by the certified Ready of the least rank whose update is possible, where the view is undecided and there
/// is one.
pub(crate) fn decide(state: &mut ProcessState)
    ensures decides { (s : Setting) (p : Process) → IsStateOf s p state.old → IsStateOf s (defs.decide s p) state.new }
    ensures stays { (b : Before) (was : ProcessState) → Stays b was state.old → Stays b was state.new }
    ensures left { state.new.left ≡ state.old.left }
{
    let phase = state.phase.take();
    state.phase = phase_then(phase, &state.pool, &state.own);
}
