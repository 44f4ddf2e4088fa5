//! What came of an event, as it is seen from outside.
ghost use Rattle.std.specs.Prelude.{◌≡◌, map, IfOk};
ghost use Rattle.happenings.specs.Reported.{IsSeenOf};

use member_events::{EventVerdict, Note, Outcome, OwnClaim, Sending};
use rp_base::{NoMemory, PidSet};
use std::alloc::Global;
use std::mem;

/// What came of an event at a process. Of a frame that it sends, it has to whom it goes.
pub struct Seen {
    pub verdict: EventVerdict,

    /// How many claims were new to it.
    pub heard: u16,

    /// What it signed, in order of signing.
    pub signed: Vec<OwnClaim>,

    /// Whether a statement was due, and no signature was left.
    pub spent: bool,

    /// To whom each frame goes that it sends, in this order.
    pub to: Vec<PidSet>,

    /// What it reports, in this order.
    pub notes: Vec<Note>,
}

// Written out, so that whoever drops a value makes one call (docs/CONTRIBUTING.md).
impl Drop for Seen {
    fn drop(self) {
        let Seen {
            verdict: _,
            heard: _,
            signed,
            spent: _,
            to,
            notes,
        } = self;
        mem::drop(signed);
        mem::drop(to);
        mem::drop(notes);
    }
}

// To whom each frame goes.
fn addressees(alloc: Global, sends: &[Sending]) -> Result<Vec<PidSet>, NoMemory>
    ensures { IfOk result (λ all. all.items ≡ map (λ s. s.to) sends.now) }
{
    let mut all = Vec::new(alloc);
    'sends: for sending in sends {
        all.push(sending.to)?;
    }
    Ok(all)
}

impl Seen {
    /// What is seen of an outcome; and what it sends.
    pub fn of(alloc: Global, outcome: Outcome) -> Result<(Seen, Vec<Sending>), NoMemory>
        ensures seen { IfOk result (λ all. IsSeenOf outcome all.0) }
        ensures sends { IfOk result (λ all. all.1 ≡ outcome.sends) }
    {
        let to = addressees(alloc, &outcome.sends)?;
        let (verdict, heard, spent) = (outcome.verdict, outcome.heard, outcome.spent);
        let (signed, sends, notes) = outcome.into_parts();
        let seen = Seen {
            verdict,
            heard,
            signed,
            spent,
            to,
            notes,
        };
        Ok((seen, sends))
    }
}
