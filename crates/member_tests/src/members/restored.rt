//! A process that begins again from its image.
use crate::members::absorbed::assert_same_outcome;
use crate::members::members::{after, key, one_again, one_member};
use member_image::{Core, Event, RestoreFault};
use rp_base::{PlainSigner, Tally};
use std::process::Abort;

// The image of the process once it has submitted "hi" and delivered it, as another program writes it.
const IMAGE: &str = "\
    000000000000000000000100026869000000050000090100000000000268690020823ad65a06d3837fff0656aded99fc680e34daffef79e1\
    b9e38eebee49fe144000000a02000000000000026869002036f556931f6d1cfb78e900aa72020a2034e5f78545fa27e942d11c2f080ed08b\
    00000803000000000000000020d39607dd917bbd33f0a59795d47b72a92d97e423c979a5ed7075438ebb6572cd0000080400000000000000\
    0020a888b4d2a3660db72231e25a418c2cd2ca879fdcafb3f79f358cd8ba3e6f09be000008050000000000000000201d9c081de5f2cf9414\
    56ae0ccbc15fcb30fbf660a0fd287a162229334b33aa8000000000000000050000090100000000000268690020823ad65a06d3837fff0656\
    aded99fc680e34daffef79e1b9e38eebee49fe144000000a02000000000000026869002036f556931f6d1cfb78e900aa72020a2034e5f785\
    45fa27e942d11c2f080ed08b00000803000000000000000020d39607dd917bbd33f0a59795d47b72a92d97e423c979a5ed7075438ebb6572\
    cd00000804000000000000000020a888b4d2a3660db72231e25a418c2cd2ca879fdcafb3f79f358cd8ba3e6f09be00000805000000000000\
    0000201d9c081de5f2cf941456ae0ccbc15fcb30fbf660a0fd287a162229334b33aa8000000000010000000000000268690000";

fn image(rt: &(impl AllocGlobal + Abort)) -> Vec<u8> {
    hex::decode(rt.alloc(), IMAGE).expect(rt, "hex")
}

// Whether the image that the bytes spell is refused with this key.
fn is_refused(rt: &impl AllocGlobal, bytes: &[u8], signer: PlainSigner) -> bool {
    match one_again(rt.alloc(), bytes, signer) {
        Err(RestoreFault::NotKept) => true,
        _ => false,
    }
}

// Ends the test where the two processes do not take the event alike.
fn assert_alike(
    rt: &(impl AllocGlobal + Abort),
    live: &mut Core<PlainSigner>,
    again: &mut Core<PlainSigner>,
    event: &Event<'_>,
) {
    let first = after(rt, live, event);
    let second = after(rt, again, event);
    assert_same_outcome(rt, &first, &second).expect(rt, "memory");
}

/// It has signed what it had, and goes on as the process does that never stopped.
#[test]
fn a_process_begins_again_from_its_image(rt: HostRuntime) {
    let mut live = one_member(&rt, 100);
    let _ = after(&rt, &mut live, &Event::Submit(b"hi"));
    let mut again = one_again(rt.alloc(), &image(&rt), key(100)).expect(&rt, "kept");
    assert!(rt; again.used() == 5);
    assert_alike(&rt, &mut live, &mut again, &Event::Tick);
    assert_alike(&rt, &mut live, &mut again, &Event::Renew);
    assert_alike(&rt, &mut live, &mut again, &Event::Submit(b"you"));
}

/// With a key that has made a sixth signature, or can make four alone, it does not begin again; nor from an image that has halted undecided.
#[test]
fn no_process_begins_again_from_what_is_not_kept(rt: HostRuntime) {
    let bytes = image(&rt);
    let mut ahead = key(100);
    ahead.skip_to(6);
    assert!(rt; is_refused(&rt, &bytes, ahead));
    assert!(rt; is_refused(&rt, &bytes, key(4)));
    assert!(rt; !is_refused(&rt, &bytes, key(5)));
    let mut halted = bytes;
    let _ = halted.pop();
    halted.push(1).expect(&rt, "memory");
    assert!(rt; is_refused(&rt, &halted, key(100)));
}
