//! What a client makes of the replies of four members, of whom one may be corrupt, and a joiner of their states. A signature is valid where it
//! is the key.
ghost use Rattle.byte_defs.specs.Equality.{same_bytes};

use rp_base::{GroupId, Pid, Scheme};
use state_transfer::{Taken, Transfer};
use std::alloc::Global;
use std::process::Abort;
use std::test::Fail;
use store_records::{read_reply, read_state};
use view_table::View;
use vote_client::{Offer, Vote};

struct KeysThemselves;

impl Scheme for KeysThemselves {
    ghost valid = { λ s key body signature. same_bytes key signature };

    fn verify(&self, key: &[u8], _body: &[u8], sig: &[u8]) -> bool {
        key == sig
    }
}

const GROUP: GroupId = GroupId([0; 16]);

// The view of this number with members 0 to 3.
fn view(number: u16) -> Result<View, Fail> {
    let mut members = [Pid::default(); 4];
    for p in 0..4u8 {
        members[p as usize] = Pid::new(p).ok_or("no process")?;
    }
    Ok(View::new(number, &members).ok_or("no view")?)
}

// The keys of processes 0, 1, 2 and 4.
fn key_of(p: Pid) -> Option<&'static [u8]> {
    match p.get() {
        0 => Some(b"a"),
        1 => Some(b"b"),
        2 => Some(b"c"),
        4 => Some(b"e"),
        _ => None,
    }
}

// Offers replies: signer, view, place, payload, answer and signature of each. Holds what is made of each against what is wanted; the place and
// the answer that are accepted.
fn voted(
    rt: &impl Abort,
    alloc: Global,
    replies: &[[u8; 6]],
    wanted: &[Offer],
) -> Result<Option<(u16, u8)>, Fail> {
    let mut vote = Vote::new(alloc, view(0)?, b"p")?;
    for ([signer, view, place, payload, answer, signature], offer) in replies.iter().zip(wanted) {
        let record = [
            *signer, 0, *view, 0, *place, 0, 0, 1, *payload, 0, 1, *answer, 0, 1, *signature,
        ];
        let Some(reply) = read_reply(&record) else {
            assert!(rt; false);
            return Ok(None);
        };
        let made = vote.offer(alloc, &KeysThemselves, &GROUP, key_of(reply.signer), &reply)?;
        assert_eq!(rt; made, *offer);
    }
    let Some(content) = vote.accepted() else {
        return Ok(None);
    };
    Ok(Some((content.place, content.answer.first().copied().unwrap_or(0))))
}

#[test]
fn replies_are_counted_by_members(rt: HostRuntime) -> Result<(), Fail> {
    let first = [0, 0, 0, b'p', b'y', b'a'];
    for (second, made) in [
        (first, Offer::Known),
        ([1, 1, 0, b'p', b'y', b'b'], Offer::OtherRequest),
        ([1, 0, 0, b'q', b'y', b'b'], Offer::OtherRequest),
        ([1, 0, 0, b'p', b'y', b'x'], Offer::Unsigned),
        ([3, 0, 0, b'p', b'y', b'?'], Offer::Unsigned),
        ([4, 0, 0, b'p', b'y', b'e'], Offer::Stranger),
        ([1, 0, 0, b'p', b'z', b'b'], Offer::Counted),
        ([1, 0, 1, b'p', b'y', b'b'], Offer::Counted),
    ] {
        let accepted = voted(&rt, rt.alloc(), &[first, second], &[Offer::Counted, made])?;
        assert_eq!(rt; accepted, None);
    }
    Ok(())
}

#[test]
fn the_least_that_two_of_four_gave_is_accepted(rt: HostRuntime) -> Result<(), Fail> {
    let two = [[0, 0, 0, b'p', b'y', b'a'], [1, 0, 0, b'p', b'y', b'b']];
    let counted = [Offer::Counted; 4];
    assert_eq!(rt; voted(&rt, rt.alloc(), &two, &counted)?, Some((0, b'y')));
    let two_contents = [
        [0, 0, 1, b'p', b'y', b'a'],
        [1, 0, 1, b'p', b'y', b'b'],
        [0, 0, 0, b'p', b'y', b'a'],
        [1, 0, 0, b'p', b'y', b'b'],
    ];
    assert_eq!(rt;
        voted(&rt, rt.alloc(), &two_contents, &counted)?,
        Some((0, b'y'))
    );
    let liar_first = [
        [2, 0, 0, b'p', b'x', b'c'],
        [0, 0, 0, b'p', b'y', b'a'],
        [1, 0, 0, b'p', b'y', b'b'],
        [2, 0, 0, b'p', b'y', b'c'],
    ];
    assert_eq!(rt;
        voted(&rt, rt.alloc(), &liar_first, &counted)?,
        Some((0, b'y'))
    );
    Ok(())
}

// Offers states of view 1: signer, view and signature of each, and whether it has a key. Holds what is made of each against what is wanted;
// whether a state is ready, and which.
fn offered(
    rt: &impl Abort,
    alloc: Global,
    states: &[([u8; 3], bool)],
    wanted: &[Taken],
) -> Result<Option<bool>, Fail> {
    let mut transfer = Transfer::new(alloc, view(1)?);
    for (([signer, view, signature], has_key), taken) in states.iter().zip(wanted) {
        let empty = [*signer, 0, *view, 0, 0, 0, 2, 0, 0, 0, 1, *signature];
        let one = [
            *signer, 0, *view, 0, 0, 0, 6, 0, 1, 1, b'k', 0, 0, 0, 1, *signature,
        ];
        let (keyed, keyless) = (one.as_slice(), empty.as_slice());
        let record = if *has_key { keyed } else { keyless };
        let Some(given) = read_state(record) else {
            assert!(rt; false);
            return Ok(None);
        };
        let made = transfer.offer(alloc, &KeysThemselves, &GROUP, key_of(given.signer), &given)?;
        assert_eq!(rt; made, *taken);
    }
    Ok(transfer.state().map(|state| state.len() == 6))
}

#[test]
fn the_state_that_two_of_four_give_is_ready(rt: HostRuntime) -> Result<(), Fail> {
    let first = ([0, 1, b'a'], false);
    for (second, made, ready) in [
        (([1, 1, b'b'], false), Taken::Ready, Some(false)),
        (first, Taken::Known, None),
        (([0, 1, b'a'], true), Taken::Known, None),
        (([1, 0, b'b'], false), Taken::OtherView, None),
        (([1, 1, b'x'], false), Taken::Unsigned, None),
        (([4, 1, b'e'], false), Taken::Stranger, None),
        (([3, 1, b'?'], false), Taken::Unsigned, None),
        (([1, 1, b'b'], true), Taken::Counted(1), None),
    ] {
        let is_ready = offered(
            &rt,
            rt.alloc(),
            &[first, second],
            &[Taken::Counted(1), made],
        )?;
        assert_eq!(rt; is_ready, ready);
    }
    let apart = [first, ([1, 1, b'b'], true), ([2, 1, b'c'], true)];
    let taken = [Taken::Counted(1), Taken::Counted(1), Taken::Ready];
    assert_eq!(rt; offered(&rt, rt.alloc(), &apart, &taken)?, Some(true));
    Ok(())
}
