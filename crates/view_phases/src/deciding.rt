ghost use Rattle.std.specs.Prelude.{◌≡◌, None, Some, IfOk, IfErr, IsSome};
ghost use Rattle.std.specs.Option.{option_map};
ghost use Rattle.std.specs.Result.{result_ok};
ghost use Rattle.message_defs.specs.Statements.{ReadyAt};
ghost use Rattle.multicast_rules.specs.Certificates.{content_of};
ghost use Rattle.group_defs.specs.Process.{Setting, Process, keyed as keyed_by};
ghost use Rattle.group_defs.specs.Certified.{readied, rank_said, certified_on};
ghost use Rattle.group_defs.specs.Settle as defs;
ghost use Rattle.group_defs.specs.Settle.{phase_of, decided_at, decided_by, decide};
ghost use Rattle.view_phases.specs.Phases.{decision_of, decides, decided, IsDecided, IsClosing};

use crate::phases::{ClosingView, DecidedView, Decision, Observing, OpenView};
use multicast_rules::{Certificate, Commit, Statement};
use rp_base::PidSet;
use view_table::{View, is_possible};

// What the certified Ready decides: its rank and value, where the value's update is possible.
fn decision(view: &View, keyed: PidSet, commit: &Certificate<'_, Commit>) -> Option<Decision>
    requires { IsSome (readied (content_of commit.now)) }
    ensures { option_map decision_of result ≡ decides keyed view.now (content_of commit.now) }
{
    let Statement::Ready { rank, value, .. } = *commit.content() else {
        unreachable!()
    };
    if is_possible(view, keyed, &value.update) {
        Some(Decision { rank, value })
    } else {
        None
    }
}

impl OpenView {
    /// The decided view, with the rank and the value of the certified Ready; the same phase exactly where the value's update
    /// is not possible: no view follows by it, or it adds a process without a key. `keyed` is the roster's processes, and
    /// the certificate is of this view. A view is decided by the least rank whose certified Ready decides it, so the
    /// certificates are handed in by rising rank.
    pub fn decide(
        self,
        view: &View,
        keyed: PidSet,
        commit: &Certificate<'_, Commit>,
    ) -> Result<DecidedView, Self>
        requires { IsSome (readied (content_of commit.now)) }
        ensures exactly { option_map decided (result_ok result) ≡ decides keyed view.now (content_of commit.now) }
        ensures same { IfErr result (λ e. e ≡ self) }

        // What decides is what the rank of the certificate decides.
        ensures of_rank { (s : Setting) (p : Process) → keyed ≡ keyed_by s → p.pool.view ≡ view.now
            → certified_on p.pool (ReadyAt p.pool.view.number (rank_said (content_of commit.now))) ≡ Some (content_of commit.now)
            → decided_at s p.pool (rank_said (content_of commit.now)) ≡ option_map decided (result_ok result) }

        // Where no lesser rank decides, the process is decided so; where none does, nothing changes.
        ensures decides { IfOk result (λ d. (s : Setting) (p : Process) → phase_of p ≡ defs.OpenView
            → decided_by s p.pool ≡ Some (decided d) → IsDecided d (decide s p)) }
        ensures stays { IfErr result (λ e. (s : Setting) (p : Process) → phase_of p ≡ defs.OpenView → decided_by s p.pool ≡ None
            → decide s p ≡ p) }
    {
        match decision(view, keyed, commit) {
            Some(decision) => Ok(DecidedView { decision }),
            None => Err(self),
        }
    }
}

impl ClosingView {
    /// The decided view, as `OpenView::decide` gives it, of a member that has signed its End; the same phase, with the length of the End,
    /// exactly where the value's update is not possible.
    pub fn decide(
        self,
        view: &View,
        keyed: PidSet,
        commit: &Certificate<'_, Commit>,
    ) -> Result<DecidedView, Self>
        requires { IsSome (readied (content_of commit.now)) }
        ensures exactly { option_map decided (result_ok result) ≡ decides keyed view.now (content_of commit.now) }
        ensures same { IfErr result (λ e. e ≡ self) }

        // What decides is what the rank of the certificate decides.
        ensures of_rank { (s : Setting) (p : Process) → keyed ≡ keyed_by s → p.pool.view ≡ view.now
            → certified_on p.pool (ReadyAt p.pool.view.number (rank_said (content_of commit.now))) ≡ Some (content_of commit.now)
            → decided_at s p.pool (rank_said (content_of commit.now)) ≡ option_map decided (result_ok result) }

        // Where no lesser rank decides, the process is decided so; where none does, nothing changes.
        ensures decides { IfOk result (λ d. (s : Setting) (p : Process) → IsClosing self p → decided_by s p.pool ≡ Some (decided d)
            → IsDecided d (decide s p)) }
        ensures stays { IfErr result (λ e. (s : Setting) (p : Process) → IsClosing self p → decided_by s p.pool ≡ None → decide s p ≡ p) }
    {
        match decision(view, keyed, commit) {
            Some(decision) => Ok(DecidedView { decision }),
            None => Err(self),
        }
    }
}

impl Observing {
    /// The decided view, as `OpenView::decide` gives it, of a process that is no member; the same phase exactly where the value's update is
    /// not possible.
    pub fn decide(
        self,
        view: &View,
        keyed: PidSet,
        commit: &Certificate<'_, Commit>,
    ) -> Result<DecidedView, Self>
        requires { IsSome (readied (content_of commit.now)) }
        ensures exactly { option_map decided (result_ok result) ≡ decides keyed view.now (content_of commit.now) }
        ensures same { IfErr result (λ e. e ≡ self) }

        // What decides is what the rank of the certificate decides.
        ensures of_rank { (s : Setting) (p : Process) → keyed ≡ keyed_by s → p.pool.view ≡ view.now
            → certified_on p.pool (ReadyAt p.pool.view.number (rank_said (content_of commit.now))) ≡ Some (content_of commit.now)
            → decided_at s p.pool (rank_said (content_of commit.now)) ≡ option_map decided (result_ok result) }

        // Where no lesser rank decides, the process is decided so; where none does, nothing changes.
        ensures decides { IfOk result (λ d. (s : Setting) (p : Process) → phase_of p ≡ defs.Observing
            → decided_by s p.pool ≡ Some (decided d) → IsDecided d (decide s p)) }
        ensures stays { IfErr result (λ e. (s : Setting) (p : Process) → phase_of p ≡ defs.Observing → decided_by s p.pool ≡ None
            → decide s p ≡ p) }
    {
        match decision(view, keyed, commit) {
            Some(decision) => Ok(DecidedView { decision }),
            None => Err(self),
        }
    }
}
