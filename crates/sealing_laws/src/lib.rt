//! The letters of a turn can be sealed, and those of a service: what `let_out` and `let_frames_out` require of them.
#![tactic(auto)]

ghost use Rattle.sealing_laws.specs.Sealing.{KeyedTurnsCanBeSealed, LettersCanBeSealed, SendsCanBeSealed, TurnsCanBeSealed};

pub use node_turns::{
    AnySigner, Counts, Event, EventFault, Host, Hosted, Hosts, Kit, LinkFault, LinkKeys, NoService,
    Note, Outcome, Running, SEALED_BYTES, Sending, Service, Speaker, Stop, Synced, Taken,
    let_frames_out, let_out, push_drop, push_expel, push_fault, push_recv, push_refused, stop_at,
};

/// A hosted process shares a key with whom each letter of a turn goes to, and no frame is too long.
pub fn letters_can_be_sealed()
    ensures { LettersCanBeSealed }
{}

/// The same of a hosted process of a node, whatever entries its journal has.
pub fn turns_can_be_sealed()
    ensures { TurnsCanBeSealed }
{}

/// The same of one that begins anywhere, where what it keeps is in range.
pub fn keyed_turns_can_be_sealed()
    ensures { KeyedTurnsCanBeSealed }
{}

/// What a service has a hosted process send can be sealed too.
pub fn sends_can_be_sealed()
    ensures { SendsCanBeSealed }
{}
