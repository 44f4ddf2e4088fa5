use crate::members::members::{after, one_by_journal, one_member};
use member_events::EntrySignatures;
use member_image::{AbsorbFault, Core, Entry, Event, Outcome, OwnClaim};
use rp_base::{Count, NoMemory, Pid, PlainScheme, PlainSigner};
use std::alloc::Global;
use std::process::Abort;

const TOO_LONG: [u8; 1025] = [97; 1025];

// The signatures of these claims as an entry keeps them. Each has 32 bytes.
fn kept(alloc: Global, claims: &[OwnClaim]) -> Result<Vec<u8>, NoMemory> {
    let mut bytes = Vec::new(alloc);
    for claim in claims {
        bytes.extend_from_slice(&[0, 32])?;
        bytes.extend_from_slice(claim.signature.bytes())?;
    }
    Ok(bytes)
}

// What happens to process 0 in these tests.
#[derive(Clone, Copy)]
enum Happening {
    // "hi" is submitted.
    Hi,

    // A payload of 1,025 bytes is submitted.
    TooLong,

    // Process 1, which has no key, is to be added.
    Join,
    Renew,
    Tick,
}

impl Happening {
    fn event(self) -> Event<'static> {
        match self {
            Happening::Hi => Event::Submit(b"hi"),
            Happening::TooLong => Event::Submit(&TOO_LONG),
            Happening::Join => Event::Join(Pid::new(1).unwrap()),
            Happening::Renew => Event::Renew,
            Happening::Tick => Event::Tick,
        }
    }
}

// What comes of it at process 0 by an entry with `count` signatures, which these bytes hold.
fn absorbed(
    core: &mut Core<Count>,
    what: Happening,
    spent: bool,
    count: usize,
    bytes: &[u8],
) -> Result<Outcome, AbsorbFault> {
    let count = u16::try_from(count).unwrap_or(0);
    let Some((signatures, _)) = EntrySignatures::read(count, bytes) else {
        return Err(AbsorbFault::NoMemory);
    };
    let event = what.event();
    let process = core.me();
    let entry = Entry {
        process,
        event,
        spent,
        signatures,
    };
    core.absorb(&PlainScheme, &entry)
}

/// Ends the test where not the same came of an event.
pub fn assert_same_outcome(
    rt: &(impl AllocGlobal + Abort),
    live: &Outcome,
    again: &Outcome,
) -> Result<(), NoMemory> {
    let alloc = rt.alloc();
    let first = format!(in alloc; "{live:?}")?;
    let second = format!(in alloc; "{again:?}")?;
    assert!(rt; first == second);
    Ok(())
}

// Ends the test where the two do not report the same of themselves.
fn assert_same(
    rt: &(impl AllocGlobal + Abort),
    live: &Core<PlainSigner>,
    again: &Core<Count>,
) -> Result<(), NoMemory> {
    let alloc = rt.alloc();
    let first = format!(in alloc; "{:?}", live.account())?;
    let second = format!(in alloc; "{:?}", again.account())?;
    assert!(rt; first == second);
    assert!(rt; live.used() == again.used());
    assert!(rt; live.phase() == again.phase());
    Ok(())
}

// What happens stepped by one, and its entry absorbed by the other. It ends the test where they do not report the same.
fn step_and_absorb(
    rt: &(impl AllocGlobal + Abort),
    live: &mut Core<PlainSigner>,
    again: &mut Core<Count>,
    what: Happening,
) {
    let outcome = after(rt, live, &what.event());
    let bytes = kept(rt.alloc(), &outcome.signed).expect(rt, "memory");
    let count = outcome.signed.len();
    let reported = absorbed(again, what, outcome.spent, count, &bytes).expect(rt, "absorbed");
    assert_same_outcome(rt, &outcome, &reported).expect(rt, "memory");
    assert_same(rt, live, again).expect(rt, "memory");
}

#[test]
fn a_journal_absorbed_gives_the_account_of_the_process(rt: HostRuntime) {
    let (mut live, mut again) = (one_member(&rt, 12), one_by_journal(&rt, 12));
    for (what, used) in [
        (Happening::Hi, 5),
        (Happening::Tick, 5),
        (Happening::TooLong, 5),
        (Happening::Renew, 9),
        (Happening::Tick, 10),
        (Happening::Hi, 12),
    ] {
        step_and_absorb(&rt, &mut live, &mut again, what);
        assert!(rt; again.used() == used);
    }
}

// Whether process 0, as it starts with a key of `total`, finds that a Submit of "hi" cannot have come to these signatures.
fn differs(
    rt: &(impl AllocGlobal + Abort),
    total: u32,
    spent: bool,
    count: usize,
    bytes: &[u8],
) -> bool {
    let mut core = one_by_journal(rt, total);
    match absorbed(&mut core, Happening::Hi, spent, count, bytes) {
        Ok(_) => false,
        Err(fault) => fault == AbsorbFault::Differs,
    }
}

// The signatures that process 0 makes when "hi" is submitted, as an entry keeps them.
fn kept_of_hi(rt: &(impl AllocGlobal + Abort)) -> Result<Vec<u8>, NoMemory> {
    let outcome = after(rt, &mut one_member(rt, 100), &Event::Submit(b"hi"));
    kept(rt.alloc(), &outcome.signed)
}

#[test]
fn an_entry_of_other_signatures_or_another_spent_byte_differs(rt: HostRuntime) {
    let mut bytes = kept_of_hi(&rt).expect(&rt, "memory");
    bytes.extend_from_slice(&[0, 0]).expect(&rt, "memory");
    assert!(rt; bytes.len() == 5 * 34 + 2);
    for (total, spent, count, is_other) in [
        (5, false, 5, false),
        (5, true, 5, true),
        (4, false, 5, true),
        (5, false, 4, true),
        (5, true, 4, false),
        (6, false, 6, true),
    ] {
        assert!(rt; differs(&rt, total, spent, count, &bytes) == is_other);
    }
    bytes[2 * 34 + 2] = bytes[2 * 34 + 2].wrapping_add(1);
    assert!(rt; differs(&rt, 5, false, 5, &bytes));
}

#[test]
fn an_entry_of_a_refused_event_has_no_signature(rt: HostRuntime) {
    let mut core = one_by_journal(&rt, 100);
    let absent = absorbed(&mut core, Happening::Join, false, 0, &[]);
    assert!(rt; absent.is_ok());
    assert!(rt; core.used() == 0);
    assert!(rt; absorbed(&mut core, Happening::Join, false, 1, &[0, 0]).is_err());
    assert!(rt; absorbed(&mut core, Happening::Join, true, 0, &[]).is_err());
}

#[test]
fn a_process_that_refused_an_entry_absorbs_the_one_that_is_its_own(rt: HostRuntime) {
    let bytes = kept_of_hi(&rt).expect(&rt, "memory");
    let mut core = one_by_journal(&rt, 100);
    for (spent, count) in [(false, 4), (true, 5)] {
        assert!(rt; absorbed(&mut core, Happening::Hi, spent, count, &bytes).is_err());
    }
    assert!(rt; core.used() == 0);
    assert!(rt; core.account().accepted.is_empty());
    assert!(rt; absorbed(&mut core, Happening::Hi, false, 5, &bytes).is_ok());
    assert!(rt; core.used() == 5);
}
