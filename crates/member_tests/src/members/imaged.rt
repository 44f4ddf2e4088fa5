//! The image of a process that has left a view.
use crate::members::members::{after, one_member};
use member_image::{Event, image};

/// It delivers a message in view 0, leaves it, and delivers one in view 1. Its image has what it signed in both, as much as by another program.
#[test]
fn an_image_has_what_was_signed_in_all_views(rt: HostRuntime) {
    let mut core = one_member(&rt, 100);
    let _ = after(&rt, &mut core, &Event::Submit(b"hi"));
    let _ = after(&rt, &mut core, &Event::Tick);
    let _ = after(&rt, &mut core, &Event::Renew);
    let _ = after(&rt, &mut core, &Event::Submit(b"you"));
    let image = image(&core, rt.alloc()).expect(&rt, "memory");
    assert!(rt; image.left.len() == 1 && image.delivered.len() == 2);
    assert!(rt; image.accepted.len() == 2 && image.perceived.len() == 1);
    assert!(rt; image.signed.len() == 11);
}
