//! An event that a line hands to its process.
ghost use Rattle.std.specs.Prelude.{◌≡◌};
ghost use Rattle.journal_entries.specs.Views.{event as event_of};
ghost use Rattle.node_text.specs.Views.{handed};

use member_events::Event;
use rp_base::Pid;

/// An event that a line hands to its process, with a payload of its own.
#[derive(Drop)]
pub enum Handed {
    Submit(Vec<u8>),
    Suspect(Pid),
    Join(Pid),
    Renew,
    Tick,
}

impl Handed {
    /// The event.
    pub fn event(&self) -> Event<'_>
        ensures { event_of result ≡ handed self.now }
    {
        match self {
            Handed::Submit(payload) => Event::Submit(payload),
            Handed::Suspect(process) => Event::Suspect(*process),
            Handed::Join(process) => Event::Join(*process),
            Handed::Renew => Event::Renew,
            Handed::Tick => Event::Tick,
        }
    }
}
