//! Where a fault is in an input, which may pass the limit.
ghost use Rattle.std.specs.Prelude.{◌≡◌};
ghost use Rattle.replay_defs.specs.Schedules as schedules;
ghost use Rattle.replay_defs.specs.Reading as plain;

use replay_defs::{Fault, FaultKind, Found};

/// The most bytes of a schedule.
pub const SCHEDULE_BYTES: usize = 67_108_864;

/// The fault, in `size` bytes.
pub fn placed(size: usize, found: Found) -> Fault
    ensures { result ≡ plain.placed size found }
{
    Fault {
        kind: found.kind,
        place: size.saturating_sub(found.left),
    }
}

/// The fault of bytes that pass the limit, where this one is within it.
#[tactic(auto, unfolding(replay_defs::specs::Schedules::most_bytes))]
pub fn placed_past_limit(found: Found) -> Fault
    ensures { result ≡ plain.placed_past_limit found.kind (plain.placed schedules.most_bytes found) }
{
    match found.kind {
        FaultKind::Short => too_long(),
        FaultKind::Magic
        | FaultKind::Scheme
        | FaultKind::Roster
        | FaultKind::Key
        | FaultKind::Tag
        | FaultKind::Field
        | FaultKind::TooLong
        | FaultKind::TooMany => placed(SCHEDULE_BYTES, found),
    }
}

/// The fault of bytes that pass the limit.
#[tactic(auto, unfolding(replay_defs::specs::Schedules::most_bytes))]
pub fn too_long() -> Fault
    ensures { result ≡ plain.too_long }
{
    Fault {
        kind: FaultKind::TooLong,
        place: SCHEDULE_BYTES,
    }
}
