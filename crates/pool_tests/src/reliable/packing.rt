use claim_lists::ClaimList;
use claim_pool::Pool;
use reliable_mcast::Frames;
use rp_base::Pid;
use std::process::Abort;
use std::test::Fail;
use stmt_codec::{Claim, Statement};
use view_table::View;

fn pid(rt: &impl Abort, n: u8) -> Pid {
    Pid::new(n).expect(rt, "a process number")
}

#[test]
fn frames_come_in_the_order_in_which_they_were_made(rt: HostRuntime) -> Result<(), Fail> {
    let mut frames = Frames::new(rt.alloc())?;
    assert!(rt; frames.next_frame().is_none());
    frames.want(1, 1024)?;
    frames.want(0, 3)?;
    let first = frames.next_frame().ok_or("no frame")?;
    assert_eq!(rt; first.bytes(), b"\x01\x03\x00\x01\x04\x00".as_slice());
    let second = frames.next_frame().ok_or("no second frame")?;
    assert_eq!(rt; second.bytes(), b"\x01\x03\x00\x00\x00\x03".as_slice());
    assert!(rt; frames.next_frame().is_none());
    Ok(())
}

#[test]
fn a_bundle_of_an_end_is_the_end(rt: HostRuntime) -> Result<(), Fail> {
    let members = [pid(&rt, 0), pid(&rt, 1)];
    let view = View::new(0, &members).ok_or("no view")?;
    let pool = Pool::new(rt.alloc(), view)?;
    let mut said = ClaimList::new(rt.alloc());
    said.reserve(1, 8)?;
    said.push(&Claim {
        signer: pid(&rt, 1),
        statement: Statement::End { view: 0, length: 3 },
        signature: b"sig",
    });
    let mut frames = Frames::new(rt.alloc())?;
    frames.resend(&pool, &said, &[0], 0)?;
    let frame = frames.next_frame().ok_or("no frame")?;
    assert_eq!(rt;
        frame.bytes(),
        b"\x01\x01\x01\x00\x05\x07\x00\x00\x00\x03\x01\x01\x00\x03sig".as_slice()
    );
    assert!(rt; frames.next_frame().is_none());
    Ok(())
}
