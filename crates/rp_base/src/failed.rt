/// A call of the outside failed.
///
/// Each source, sink, disk and link counts its faults, and the count never falls. A call answers `Failed` only where
/// the count rose in it, or is at 2^64 - 1, where it can't rise. Where the call succeeds, the count stays.
#[derive(Clone, Copy, Debug, PartialEq, Eq)]
pub struct Failed;
