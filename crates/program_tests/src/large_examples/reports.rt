use crate::large_examples::data::{
    SEVEN, SEVEN_REPORT, SIGNED_ELSEWHERE, SIGNED_ELSEWHERE_REPORT, SIX_IN_BATCHES,
    SIX_IN_BATCHES_REPORT,
};
use crate::rampart_calls::is_answered;
use std::test::Fail;

#[test]
fn large_schedules_give_their_reports(rt: HostRuntime) -> Result<(), Fail> {
    for (schedule, report) in [
        (SIGNED_ELSEWHERE, SIGNED_ELSEWHERE_REPORT),
        (SEVEN, SEVEN_REPORT),
        (SIX_IN_BATCHES, SIX_IN_BATCHES_REPORT),
    ] {
        assert!(rt; is_answered(rt.alloc(), &["replay"], schedule, report, 0)?);
    }
    Ok(())
}
