use crate::members::members::{after, one_member};
use member_image::{Core, Event, EventFault, EventVerdict, Note};
use rp_base::{Pid, PlainSigner};
use std::process::Abort;

// Whether the note says that the payload was delivered as the first message.
fn is_first(note: &Note, payload: &[u8]) -> bool {
    match note {
        Note::Delivered {
            view,
            place,
            sender,
            number,
            payload: delivered,
        } => {
            *view == 0
                && *place == 0
                && sender.get() == 0
                && *number == 0
                && delivered.bytes() == payload
        }
        _ => false,
    }
}

// How many messages it delivered in view 0, if that is reported.
fn delivered_at_first(core: &Core<PlainSigner>) -> Option<usize> {
    match core.account().delivered.first() {
        Some(delivered) => Some(delivered.len()),
        None => None,
    }
}

#[test]
fn one_member_signs_five_statements_and_delivers(rt: HostRuntime) {
    let mut core = one_member(&rt, 100);
    let event = Event::Submit(b"hi");
    let outcome = after(&rt, &mut core, &event);
    assert!(rt; outcome.verdict == EventVerdict::Taken && !outcome.spent);
    assert!(rt; outcome.signed.len() == 5 && outcome.sends.is_empty() && core.used() == 5);
    assert!(rt; outcome.notes.len() == 1);
    assert!(rt; is_first(&outcome.notes[0], b"hi"));
    assert!(rt; delivered_at_first(&core) == Some(1));
}

#[test]
fn a_key_of_three_is_spent_before_the_place(rt: HostRuntime) {
    let mut core = one_member(&rt, 3);
    let event = Event::Submit(b"hi");
    let outcome = after(&rt, &mut core, &event);
    assert!(rt; outcome.signed.len() == 3);
    assert!(rt; outcome.spent);
    assert!(rt; outcome.notes.len() == 1);
    assert!(rt; matches!(outcome.notes[0], Note::Spent));
    assert!(rt; delivered_at_first(&core) == Some(0));
}

#[test]
fn a_payload_of_1024_bytes_is_taken_and_one_of_1025_is_too_long(rt: HostRuntime) {
    let bytes = [97; 1025];
    let mut core = one_member(&rt, 100);
    let long = Event::Submit(&bytes);
    let outcome = after(&rt, &mut core, &long);
    assert!(rt; outcome.verdict == EventVerdict::Refused(EventFault::TooLong));
    assert!(rt; outcome.signed.is_empty() && outcome.notes.is_empty());
    assert!(rt; core.used() == 0 && core.account().accepted.is_empty());
    let short = Event::Submit(&bytes[..1024]);
    let outcome = after(&rt, &mut core, &short);
    assert!(rt; outcome.verdict == EventVerdict::Taken);
    assert!(rt; core.account().accepted.len() == 1);
}

// Whether the process took each of `count` payloads more.
fn takes_each(rt: &impl Abort, core: &mut Core<PlainSigner>, count: u32) -> bool {
    let mut each = true;
    'payloads: for _ in 0..count {
        let outcome = after(rt, core, &Event::Submit(b"hi"));
        each = each && outcome.verdict == EventVerdict::Taken;
    }
    each
}

#[test]
fn a_key_that_signs_nothing_takes_256_payloads_and_no_more(rt: HostRuntime) {
    let mut core = one_member(&rt, 0);
    assert!(rt; takes_each(&rt, &mut core, 256));
    let event = Event::Submit(b"hi");
    let outcome = after(&rt, &mut core, &event);
    assert!(rt; outcome.verdict == EventVerdict::Refused(EventFault::Backlog));
    assert!(rt; !outcome.spent);
    assert!(rt; core.account().accepted.len() == 256);
}

#[test]
fn one_without_a_key_cannot_join(rt: HostRuntime) {
    let mut core = one_member(&rt, 100);
    let event = Event::Join(Pid::new(1).unwrap());
    let outcome = after(&rt, &mut core, &event);
    assert!(rt; outcome.verdict == EventVerdict::Refused(EventFault::NoKey));
    assert!(rt; core.account().perceived.is_empty());
}
