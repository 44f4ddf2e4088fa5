ghost use Rattle.std.specs.Prelude.{◌≡◌, ◌<◌, ℕ, [], ◌∷◌, length, IfOk, IfErr, IfSome, IfNone};
ghost use Rattle.audit_defs.specs.Sources.{Takes, Breaks};
ghost use Rattle.journal_entries.specs.Views.{entry};
ghost use Rattle.journal_steps.specs.Places.{steps_at, all_steps};

use journal_entries::entry_at;
use member_events::Entry;

/// The place of the first gate.
const FIRST_GATE: u64 = 60;

// What is at the gate at this place.
fn step_at(bytes: &[u8], place: u64) -> Result<Option<(Entry<'_>, u64)>, u64>
    requires { place < length bytes.now }
    ensures takes { IfOk result (λ o. IfSome o (λ x. (j : ℕ)
        → steps_at j place bytes.now ≡ Takes j place (entry x.0) ∷ steps_at j x.1 bytes.now)) }
    ensures next { IfOk result (λ o. IfSome o (λ x. x.1 < length bytes.now)) }
    ensures ends { IfOk result (λ o. IfNone o ((j : ℕ) → steps_at j place bytes.now ≡ [])) }
    ensures breaks { IfErr result (λ at. (j : ℕ) → steps_at j place bytes.now ≡ Breaks j at ∷ []) }
{
    entry_at(bytes, place)
}

/// What is left at the gates of a journal, up to the first gate that is closed, or that no whole entry and next gate follow.
#[derive(Clone, Copy)]
pub struct Steps<'a> {
    bytes: &'a [u8],
    gate: u64,
    pub ghost within: { gate < length bytes.now },
}

impl<'a> Steps<'a> {
    ghost use Rattle.std.specs.Prelude.{◌≡◌, ℕ, [], ◌∷◌, IfOk, IfErr, IfSome, IfNone, OnErr};
    ghost use Rattle.audit_defs.specs.Sources.{Takes, Breaks};
    ghost use Rattle.journal_entries.specs.Views.{entry};
    ghost use Rattle.journal_steps.specs.Views.{steps_left};

    /// The steps of a journal with a first gate, from there on.
    pub(crate) fn new(bytes: &'a [u8]) -> Steps<'a>
        requires { 60 < length bytes.now }
        ensures { (j : ℕ) → steps_left j result ≡ all_steps j bytes.now }
    {
        Steps {
            bytes,
            gate: FIRST_GATE,
        }
    }

    /// The entry after the gate with the gate's place, and the next gate comes next. None at a gate that is not open: there the
    /// journal ends, and None comes again. No memory is taken.
    ///
    /// # Errors
    /// The gate's place, exactly where it is open and no whole entry and next gate follow it; it comes again.
    pub fn next(&mut self) -> Result<Option<(u64, Entry<'a>)>, u64>
        // Whatever index the journal has among the journals.
        ensures takes { IfOk result (λ o. IfSome o (λ x. (j : ℕ) → steps_left j self.old ≡ Takes j x.0 (entry x.1) ∷ steps_left j self.new)) }
        ensures ends { IfOk result (λ o. IfNone o ((j : ℕ) → steps_left j self.old ≡ [])) }
        ensures breaks { IfErr result (λ place. (j : ℕ) → steps_left j self.old ≡ Breaks j place ∷ []) }
        ensures none { IfOk result (λ o. IfNone o (self.new ≡ self.old)) }
        ensures err { OnErr result (self.new ≡ self.old) }
    {
        let place = self.gate;
        match step_at(self.bytes, place) {
            Ok(Some((entry, next))) => {
                self.gate = next;
                Ok(Some((place, entry)))
            }
            Ok(None) => Ok(None),
            Err(place) => Err(place),
        }
    }
}
