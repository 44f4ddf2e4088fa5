ghost use Rattle.std.specs.Prelude.{◌≡◌, None, false, if◌then◌else◌};
ghost use Rattle.message_defs.specs.Statements.{End};
ghost use Rattle.group_defs.specs.Views as views;
ghost use Rattle.group_defs.specs.Process.{Setting, Process};
ghost use Rattle.group_defs.specs.Certified.{is_ended};
ghost use Rattle.group_defs.specs.Signing.{Signer, signs};
ghost use Rattle.group_defs.specs.Settle as defs;
ghost use Rattle.view_phases.specs.Phases.{word, as_phase, IsIn, IsClosing};
ghost use Rattle.view_phases.specs.Marks.{marked, phase_as};

use rp_base::{Pid, Value};
use view_table::View;

/// What decided a view: the rank of a certified Ready, and its value.
#[derive(Clone, Copy, PartialEq, Eq)]
pub struct Decision {
    /// The rank, 0 to 15.
    pub rank: u8,

    /// The update, and how many places of the view count.
    pub value: Value,
}

/// The view is undecided, and the process is no member of it.
#[derive(Drop)]
pub struct Observing(());

/// The view is undecided, and the process is a member that has not signed its End. It has no copy, and its End takes it.
#[derive(Drop)]
pub struct OpenView(());

/// The view is undecided, and the process is a member that has signed its End.
#[derive(Drop)]
pub struct ClosingView {
    pub(crate) length: u16,
}

/// The view is decided, and the process has not left it.
#[derive(Drop)]
pub struct DecidedView {
    pub(crate) decision: Decision,
}

/// The view is decided, and the process is a member that delivered more places than count. It stays so for good.
#[derive(Drop)]
pub struct HaltedView {
    pub(crate) decision: Decision,
    pub(crate) delivered: u16,
}

/// The phase of a process in its view, with what it keeps.
#[derive(Drop)]
pub enum Phase {
    /// No member.
    Observing(Observing),

    /// A member, before its End.
    OpenView(OpenView),

    /// A member, after its End.
    ClosingView(ClosingView),

    /// Decided, and not left.
    DecidedView(DecidedView),

    /// Halted beyond the cut.
    HaltedView(HaltedView),
}

/// The name of a phase.
#[derive(Clone, Copy, PartialEq, Eq)]
pub enum PhaseWord {
    /// No member.
    Observing,

    /// A member, before its End.
    OpenView,

    /// A member, after its End.
    ClosingView,

    /// Decided, and not left.
    DecidedView,

    /// Halted beyond the cut.
    HaltedView,
}

impl Phase {
    /// The phase in which the process begins a view: open to a member, and else observing.
    pub fn begin(view: &View, me: Pid) -> Phase
        ensures word { as_phase result ≡ (if views.is_member view.now me then defs.OpenView else defs.Observing) }

        // So is a process that has signed no End of the view, and has no decision of it.
        ensures begins { (p : Process) → p.pool.view ≡ view.now → p.me ≡ me → p.halted ≡ false → p.decision ≡ None → is_ended p ≡ false
            → IsIn result p }
    {
        if view.is_member(me) {
            Phase::OpenView(OpenView(()))
        } else {
            Phase::Observing(Observing(()))
        }
    }

    /// Takes the phase out, for a step to the next one. In its place is that of an observer, until the next one is put there.
    pub fn take(&mut self) -> Phase
        ensures { result ≡ self.old }
    {
        let taken = phase_of(was_of(self));
        *self = Phase::Observing(Observing(()));
        taken
    }

    /// The name of the phase.
    pub fn word(&self) -> PhaseWord
        ensures { word result ≡ as_phase self.now }
    {
        match self {
            Phase::Observing(_) => PhaseWord::Observing,
            Phase::OpenView(_) => PhaseWord::OpenView,
            Phase::ClosingView(_) => PhaseWord::ClosingView,
            Phase::DecidedView(_) => PhaseWord::DecidedView,
            Phase::HaltedView(_) => PhaseWord::HaltedView,
        }
    }
}

/// A phase as it was at a mark, which serves to go back alone.
#[derive(Drop)]
pub struct PhaseMark {
    was: Was,
}

// What a phase keeps.
#[derive(Clone, Copy)]
enum Was {
    Observing,
    OpenView,
    ClosingView(u16),
    DecidedView(Decision),
    HaltedView(Decision, u16),
}

// What the phase keeps.
fn was_of(phase: &Phase) -> Was
    ensures { phase_as result ≡ phase.now }
{
    match phase {
        Phase::Observing(_) => Was::Observing,
        Phase::OpenView(_) => Was::OpenView,
        Phase::ClosingView(closing) => Was::ClosingView(closing.length),
        Phase::DecidedView(decided) => Was::DecidedView(decided.decision),
        Phase::HaltedView(halted) => Was::HaltedView(halted.decision, halted.delivered),
    }
}

// The phase that keeps this.
fn phase_of(was: Was) -> Phase
    ensures { result ≡ phase_as was }
{
    match was {
        Was::Observing => Phase::Observing(Observing(())),
        Was::OpenView => Phase::OpenView(OpenView(())),
        Was::ClosingView(length) => Phase::ClosingView(ClosingView { length }),
        Was::DecidedView(decision) => Phase::DecidedView(DecidedView { decision }),
        Was::HaltedView(decision, delivered) => Phase::HaltedView(HaltedView {
            decision,
            delivered,
        }),
    }
}

impl Phase {
    /// Marks the phase, so that it can be gone back to.
    pub fn mark(&self) -> PhaseMark
        ensures { marked result ≡ self.now }
    {
        PhaseMark { was: was_of(self) }
    }

    /// Goes back to the phase of the mark.
    pub fn rewind(&mut self, mark: &PhaseMark)
        ensures { self.new ≡ marked mark.now }
    {
        *self = phase_of(mark.was);
    }
}

impl OpenView {
    /// The phase after the own End of this length, which is signed: 0 to 1,024 places.
    pub fn close(self, length: u16) -> ClosingView
        ensures length { result.length ≡ length }
        ensures closes { (s : Setting) (signer : Signer) (p : Process) → defs.phase_of p ≡ defs.OpenView
            → IsClosing result (signs s signer p (End p.pool.view.number length)) }
    {
        ClosingView { length }
    }
}

impl DecidedView {
    /// What decided the view.
    pub fn decision(&self) -> Decision
        ensures { result ≡ self.now.decision }
    {
        self.decision
    }
}

impl HaltedView {
    /// What decided the view. Its cut is below what was delivered.
    pub fn decision(&self) -> Decision
        ensures { result ≡ self.now.decision }
    {
        self.decision
    }

    /// How many places were delivered.
    pub fn delivered(&self) -> u16
        ensures { result ≡ self.now.delivered }
    {
        self.delivered
    }
}
