use journal_steps::{Source, Steps, Version};
use kit_reading::read_kit;
use member_events::{Entry, Event};
use std::process::Abort;
use std::test::Fail;

// The kit and the journal are those of another program, in Python.

const KIT: &[u8] = b"rampart kit 1
scheme plain
group 6f289d5b5aa425dc2f365877e4cf8595
key 0 2dd447ac7305bc84b2dc0da0fe9411f33e1af724d30036daa8b9c930ce8b3722
key 1 00d30be9d2cd77737e2bbd0d7678b8b6c35b2fa04810456308028c71958103a5
genesis 0 1
port 0 47000
port 1 47001
host 0 plain 100
pair 0 1 e5d93ab81fbaf5647142a212f6fec7a66fc65a8250045aaf87c78aa3de95e3e9
host 1 plain 100
pair 1 0 e5d93ab81fbaf5647142a212f6fec7a66fc65a8250045aaf87c78aa3de95e3e9
";

// Process 0 takes a payload and signs two statements, process 1 a tick, and after the closed gate, which reads 7, are two bytes more.
const JOURNAL: [u8; 155] = [
    82, 80, 74, 50, 111, 40, 157, 91, 90, 164, 37, 220, 47, 54, 88, 119, 228, 207, 133, 149, 0, 0,
    0, 0, 0, 0, 0, 3, 144, 191, 203, 15, 15, 224, 218, 200, 25, 204, 203, 129, 124, 166, 194, 108,
    23, 251, 239, 235, 254, 72, 84, 12, 163, 238, 157, 59, 129, 116, 151, 103, 1, 0, 0, 0, 77, 0,
    1, 0, 2, 104, 105, 0, 0, 2, 0, 32, 98, 112, 119, 17, 73, 65, 131, 228, 223, 184, 248, 175, 222,
    18, 129, 230, 114, 44, 93, 58, 127, 61, 19, 175, 88, 231, 63, 118, 73, 189, 129, 23, 0, 32, 4,
    222, 47, 122, 106, 42, 237, 242, 135, 226, 160, 117, 215, 105, 207, 214, 206, 249, 206, 47,
    193, 183, 254, 203, 140, 9, 124, 176, 116, 231, 94, 117, 1, 0, 0, 0, 5, 1, 9, 0, 0, 0, 7, 0, 0,
];

// The journal is walked entry by entry, to this gate.
fn walk(rt: &impl Abort, steps: &mut Steps<'_>) {
    let first = steps.next();
    assert!(rt;
        matches!(
            first,
            Ok(Some((
                60,
                Entry {
                    spent: false,
                    event: Event::Submit(b"hi"),
                    ..
                }
            )))
        )
    );
    let second = steps.next();
    assert!(rt;
        matches!(
            second,
            Ok(Some((
                142,
                Entry {
                    spent: false,
                    event: Event::Tick,
                    ..
                }
            )))
        )
    );
}

#[test]
fn a_journal_of_the_kit_is_walked_to_its_closed_gate(rt: HostRuntime) -> Result<(), Fail> {
    let kit = read_kit(rt.alloc(), KIT).ok().expect(&rt, "a kit");
    let Some(source) = Source::read(&kit, &JOURNAL) else {
        assert!(rt; false, "a journal of the kit");
        return Ok(());
    };
    assert!(rt; source.version() == Version::Two);
    assert!(rt; source.hosted().mask() == 3);
    let mut steps = source.steps();
    walk(&rt, &mut steps);
    assert!(rt; matches!(steps.next(), Ok(None)));
    assert!(rt; matches!(steps.next(), Ok(None)), "it comes again");
    Ok(())
}

#[test]
fn an_open_gate_without_an_entry_breaks(rt: HostRuntime) -> Result<(), Fail> {
    let kit = read_kit(rt.alloc(), KIT).ok().expect(&rt, "a kit");
    let mut bytes = JOURNAL;
    bytes[152] = 1;
    let Some(source) = Source::read(&kit, &bytes) else {
        assert!(rt; false, "a journal of the kit");
        return Ok(());
    };
    let mut steps = source.steps();
    walk(&rt, &mut steps);
    assert!(rt; matches!(steps.next(), Err(152)));
    assert!(rt; matches!(steps.next(), Err(152)), "it comes again");
    Ok(())
}

#[test]
fn a_header_that_differs_is_none_of_the_kit(rt: HostRuntime) -> Result<(), Fail> {
    let kit = read_kit(rt.alloc(), KIT).ok().expect(&rt, "a kit");

    // a letter, the group, a process that is not in the roster, the digest
    for at in [0, 19, 20, 59] {
        let mut bytes = JOURNAL;
        bytes[at] ^= 1;
        assert!(rt; Source::read(&kit, &bytes).is_none());
    }
    assert!(rt; Source::read(&kit, &JOURNAL[..60]).is_none());
    assert!(rt; Source::read(&kit, &JOURNAL[..61]).is_some());
    Ok(())
}
