use reliable_mcast::Archive;
use std::test::Fail;

#[test]
fn where_no_view_was_left_nothing_is_kept(rt: HostRuntime) -> Result<(), Fail> {
    let archive = Archive::new(rt.alloc())?;
    assert!(rt; archive.previous().is_none());
    assert!(rt; archive.commit_claim(0, 0).is_none());
    Ok(())
}
