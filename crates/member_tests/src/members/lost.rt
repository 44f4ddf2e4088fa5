//! Events for which memory runs out. In the gate none does; `rt try --test --fail-alloc 1..` has each allocation fail in turn.
use crate::members::members::{after, try_one_member};
use member_image::{Core, Event, EventVerdict, image};
use rp_base::{NoMemory, PlainScheme, PlainSigner};
use std::process::Abort;

// What the process reports of itself: its signatures, its views, the payloads that it accepted, and the messages that it delivered in its
// current view.
fn reported(core: &Core<PlainSigner>) -> (u32, usize, usize, usize) {
    let account = core.account();
    let delivered = match account.delivered.last() {
        Some(delivered) => delivered.len(),
        None => 0,
    };
    (
        core.used(),
        account.views.len(),
        account.accepted.len(),
        delivered,
    )
}

// The event, handed in again where memory ran out. It ends the test where the process is then another than before.
fn take(rt: &impl Abort, core: &mut Core<PlainSigner>, event: &Event<'_>) {
    let (before, phase) = (reported(core), core.phase());
    let Err(NoMemory) = core.step(&PlainScheme, event) else {
        return;
    };
    assert!(rt; reported(core) == before);
    assert!(rt; core.phase() == phase);
    let outcome = after(rt, core, event);
    assert!(rt; outcome.verdict == EventVerdict::Taken);
}

#[test]
fn an_event_without_memory_leaves_the_process_as_it_was(rt: HostRuntime) {
    let Ok(mut core) = try_one_member(rt.alloc(), 100) else {
        return;
    };
    take(&rt, &mut core, &Event::Submit(b"hi"));
    take(&rt, &mut core, &Event::Tick);
    take(&rt, &mut core, &Event::Renew);
    take(&rt, &mut core, &Event::Submit(b"you"));
    assert!(rt; core.account().accepted.len() == 2);

    // As many as without a loss, by another program.
    assert!(rt; core.used() == 11);
    if let Ok(image) = image(&core, rt.alloc()) {
        assert!(rt; image.signed.len() == 11);
    }
}
