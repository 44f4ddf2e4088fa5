use member_core::Core;
use member_events::{Event, Outcome};
use rp_base::{NoMemory, Pid};
use said_index::SaidIndex;
use shared_checks::{SharedScheme, SharedSigner};

/// A correct process of a schedule: a real one.
#[derive(Drop)]
pub struct Player {
    pub process: Pid,
    pub core: Core<SharedSigner>,

    /// All that it signed, over all views.
    pub said: SaidIndex,
}

impl Player {
    ghost use Rattle.std.specs.Prelude.{◌≡◌, IfOk};
    ghost use Rattle.group_defs.specs.Process.{Setting};
    ghost use Rattle.replay_defs.specs.Worlds as plain;
    ghost use Rattle.signature_defs.specs.Schemes.{is_valid};
    ghost use Rattle.sig_scheme.specs.Views.{scheme as scheme_of};
    ghost use Rattle.replay_cast.specs.Players.{Plays, Stepped};

    /// The process takes an event, with as many signatures as its key has left. Where memory runs out, it is as before, or has taken the
    /// event and not all is kept of what it said.
    pub fn step(&mut self, scheme: &SharedScheme, event: &Event<'_>) -> Result<Outcome, NoMemory>
        ensures { (s : Setting) (c : plain.Player) → Plays s self.old c → s.valid ≡ is_valid (scheme_of scheme.now)
            → IfOk result (Stepped s c self.new event.now) }
    {
        let outcome = self.core.step(scheme, event)?;
        let alloc = *outcome.signed.allocator();
        self.said.add_all(alloc, &outcome.signed)?;
        Ok(outcome)
    }
}
