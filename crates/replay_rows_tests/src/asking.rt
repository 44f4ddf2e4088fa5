use replay_defs::{Fault, FaultKind};
use replay_run::{ReplayFault, replay};
use std::alloc::Global;
use std::test::Fail;

/// The report of a schedule that has one.
pub(crate) fn report(alloc: Global, schedule: &[u8], short: bool) -> Result<Vec<u8>, Fail> {
    match replay(alloc, schedule, short)? {
        Ok(report) => Ok(report),
        Err(_) => Err(Fail::from("no report")),
    }
}

/// Whether this is the report of a schedule.
pub(crate) fn is_report(
    alloc: Global,
    schedule: &[u8],
    short: bool,
    wanted: &[u8],
) -> Result<bool, Fail> {
    let reported = report(alloc, schedule, short)?;
    Ok(reported.as_slice() == wanted)
}

/// Why bytes have no report.
pub(crate) fn fault(alloc: Global, bytes: &[u8]) -> Result<ReplayFault, Fail> {
    match replay(alloc, bytes, false)? {
        Ok(_) => Err(Fail::from("a report")),
        Err(fault) => Ok(fault),
    }
}

/// Whether bytes have no report for this fault of theirs.
pub(crate) fn is_fault(
    alloc: Global,
    bytes: &[u8],
    kind: FaultKind,
    place: usize,
) -> Result<bool, Fail> {
    let wanted = ReplayFault::Schedule(Fault { kind, place });
    Ok(fault(alloc, bytes)? == wanted)
}
