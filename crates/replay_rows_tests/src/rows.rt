use crate::asking::is_report;
use crate::data::{
    CUT_BETWEEN_PLACES, CUT_BETWEEN_PLACES_REPORT, DEPUTY_ADOPTS_COMMIT,
    DEPUTY_ADOPTS_COMMIT_REPORT, DEPUTY_HIDES_READY, DEPUTY_HIDES_READY_REPORT, HOSTILE_FRAMES,
    HOSTILE_FRAMES_REPORT, LONG_PAYLOAD_AND_BACKLOG, LONG_PAYLOAD_AND_BACKLOG_REPORT,
    LOST_FRAMES_AND_WANT, LOST_FRAMES_AND_WANT_REPORT, MANAGER_RENEWS, MANAGER_RENEWS_REPORT,
    NO_EVENTS, NO_EVENTS_REPORT, ONE_LIAR, ONE_LIAR_REPORT, ONE_MEMBER, ONE_MEMBER_REPORT,
    ONE_PLACE, ONE_PLACE_REPORT, REFUSED_REQUESTS, REFUSED_REQUESTS_REPORT,
    REMOVED_AND_ADDED_AGAIN, REMOVED_AND_ADDED_AGAIN_REPORT, SIGNED_ELSEWHERE,
    SIGNED_ELSEWHERE_REPORT, SPENT_KEY, SPENT_KEY_REPORT, SPENT_TREE, SPENT_TREE_REPORT,
    THREE_PLACES, THREE_PLACES_REPORT, THREE_SENDERS, THREE_SENDERS_ONE_LIAR,
    THREE_SENDERS_ONE_LIAR_REPORT, THREE_SENDERS_REPORT, TWO_LEVELS, TWO_LEVELS_REPORT, TWO_LIARS,
    TWO_LIARS_REPORT,
};
use std::test::Fail;

/// What `replay` writes of the schedule in `THREE_SENDERS_ONE_LIAR`, the short report.
const SHORT_REPORT: &[u8] = b"rampart report 1
events 8
refused 0
process 0 open 1 4 17
process 1 open 1 4 13
process 2 open 1 4 13
honest yes
bounded yes
agree yes
sound yes
";

#[test]
fn one_member(rt: HostRuntime) -> Result<(), Fail> {
    assert!(rt; is_report(rt.alloc(), ONE_MEMBER, false, ONE_MEMBER_REPORT)?);
    Ok(())
}

#[test]
fn no_events(rt: HostRuntime) -> Result<(), Fail> {
    assert!(rt; is_report(rt.alloc(), NO_EVENTS, false, NO_EVENTS_REPORT)?);
    Ok(())
}

#[test]
fn three_senders(rt: HostRuntime) -> Result<(), Fail> {
    assert!(rt; is_report(rt.alloc(), THREE_SENDERS, false, THREE_SENDERS_REPORT)?);
    Ok(())
}

#[test]
fn one_liar(rt: HostRuntime) -> Result<(), Fail> {
    assert!(rt; is_report(rt.alloc(), ONE_LIAR, false, ONE_LIAR_REPORT)?);
    Ok(())
}

#[test]
fn three_senders_one_liar(rt: HostRuntime) -> Result<(), Fail> {
    assert!(rt;
        is_report(
            rt.alloc(),
            THREE_SENDERS_ONE_LIAR,
            false,
            THREE_SENDERS_ONE_LIAR_REPORT
        )?
    );
    Ok(())
}

#[test]
fn two_liars(rt: HostRuntime) -> Result<(), Fail> {
    assert!(rt; is_report(rt.alloc(), TWO_LIARS, false, TWO_LIARS_REPORT)?);
    Ok(())
}

#[test]
fn lost_frames_and_want(rt: HostRuntime) -> Result<(), Fail> {
    assert!(rt;
        is_report(
            rt.alloc(),
            LOST_FRAMES_AND_WANT,
            false,
            LOST_FRAMES_AND_WANT_REPORT
        )?
    );
    Ok(())
}

#[test]
fn one_place(rt: HostRuntime) -> Result<(), Fail> {
    assert!(rt; is_report(rt.alloc(), ONE_PLACE, false, ONE_PLACE_REPORT)?);
    Ok(())
}

#[test]
fn three_places(rt: HostRuntime) -> Result<(), Fail> {
    assert!(rt; is_report(rt.alloc(), THREE_PLACES, false, THREE_PLACES_REPORT)?);
    Ok(())
}

#[test]
fn manager_renews(rt: HostRuntime) -> Result<(), Fail> {
    assert!(rt; is_report(rt.alloc(), MANAGER_RENEWS, false, MANAGER_RENEWS_REPORT)?);
    Ok(())
}

#[test]
fn cut_between_places(rt: HostRuntime) -> Result<(), Fail> {
    assert!(rt;
        is_report(
            rt.alloc(),
            CUT_BETWEEN_PLACES,
            false,
            CUT_BETWEEN_PLACES_REPORT
        )?
    );
    Ok(())
}

#[test]
fn deputy_adopts_commit(rt: HostRuntime) -> Result<(), Fail> {
    assert!(rt;
        is_report(
            rt.alloc(),
            DEPUTY_ADOPTS_COMMIT,
            false,
            DEPUTY_ADOPTS_COMMIT_REPORT
        )?
    );
    Ok(())
}

#[test]
fn deputy_hides_ready(rt: HostRuntime) -> Result<(), Fail> {
    assert!(rt;
        is_report(
            rt.alloc(),
            DEPUTY_HIDES_READY,
            false,
            DEPUTY_HIDES_READY_REPORT
        )?
    );
    Ok(())
}

#[test]
fn removed_and_added_again(rt: HostRuntime) -> Result<(), Fail> {
    assert!(rt;
        is_report(
            rt.alloc(),
            REMOVED_AND_ADDED_AGAIN,
            false,
            REMOVED_AND_ADDED_AGAIN_REPORT
        )?
    );
    Ok(())
}

#[test]
fn spent_key(rt: HostRuntime) -> Result<(), Fail> {
    assert!(rt; is_report(rt.alloc(), SPENT_KEY, false, SPENT_KEY_REPORT)?);
    Ok(())
}

#[test]
fn spent_tree(rt: HostRuntime) -> Result<(), Fail> {
    assert!(rt; is_report(rt.alloc(), SPENT_TREE, false, SPENT_TREE_REPORT)?);
    Ok(())
}

#[test]
fn two_levels(rt: HostRuntime) -> Result<(), Fail> {
    assert!(rt; is_report(rt.alloc(), TWO_LEVELS, false, TWO_LEVELS_REPORT)?);
    Ok(())
}

#[test]
fn hostile_frames(rt: HostRuntime) -> Result<(), Fail> {
    assert!(rt; is_report(rt.alloc(), HOSTILE_FRAMES, false, HOSTILE_FRAMES_REPORT)?);
    Ok(())
}

#[test]
fn signed_elsewhere(rt: HostRuntime) -> Result<(), Fail> {
    assert!(rt; is_report(rt.alloc(), SIGNED_ELSEWHERE, false, SIGNED_ELSEWHERE_REPORT)?);
    Ok(())
}

#[test]
fn long_payload_and_backlog(rt: HostRuntime) -> Result<(), Fail> {
    assert!(rt;
        is_report(
            rt.alloc(),
            LONG_PAYLOAD_AND_BACKLOG,
            false,
            LONG_PAYLOAD_AND_BACKLOG_REPORT
        )?
    );
    Ok(())
}

#[test]
fn refused_requests(rt: HostRuntime) -> Result<(), Fail> {
    assert!(rt; is_report(rt.alloc(), REFUSED_REQUESTS, false, REFUSED_REQUESTS_REPORT)?);
    Ok(())
}

#[test]
fn the_short_report(rt: HostRuntime) -> Result<(), Fail> {
    assert!(rt; is_report(rt.alloc(), THREE_SENDERS_ONE_LIAR, true, SHORT_REPORT)?);
    Ok(())
}
