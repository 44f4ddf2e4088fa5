//! The two calls, with rooms of different sizes. The schedules, their reports and the trace were made by another program.
use crate::{page_replay, page_story};
use std::alloc::{AllocError, Global};
use std::test::Fail;

const FILL: u8 = 0xee;

/// Process 0 alone submits `hi`. Its key makes 100,000 signatures.
const ONE_MEMBER: &[u8] =
    b"RPS1\x00\x00\x00\x00\x00\x00\x00\x00\x00\x00\x00\x00\x00\x00\x00\x00\x00\x01\x00\x00\x00\x00\x00\x00\x00\x00\x00\x00\
\x00\x00\x00\x00\x00\x00\x00\x00\x00\x00\x00\x00\x00\x00\x00\x00\x00\x00\x00\x00\x00\x00\x00\x00\x00\x01\x86\xa0\x01\x00\
\x01\x00\x00\x02hi";

const STORY: &[u8] = b"group 00000000000000000000000000000000 plain
process 0 correct plain 100000
genesis 0
submit 0 \"hi\"
";

const REPORT: &[u8] = b"rampart report 1
events 1
process 0 open 1 1 5
view 0 0 : 0
message 0 0 0 0 0 6869
honest yes
bounded yes
agree yes
sound yes
";

const SHORT_REPORT: &[u8] = b"rampart report 1
events 1
refused 0
process 0 open 1 1 5
honest yes
bounded yes
agree yes
sound yes
";

/// A key of four signatures is spent before its process can deliver.
const SPENT_KEY: &[u8] =
    b"RPS1\x00\x00\x00\x00\x00\x00\x00\x00\x00\x00\x00\x00\x00\x00\x00\x00\x00\x01\x00\x00\x00\x00\x00\x00\x00\x00\x00\x00\
\x00\x00\x00\x00\x00\x00\x00\x00\x00\x00\x00\x00\x00\x00\x00\x00\x00\x00\x00\x00\x00\x00\x00\x00\x00\x00\x00\x04\x01\x00\
\x01\x00\x00\x01a";

/// The same schedule as a story.
const SPENT_STORY: &[u8] = b"group 00000000000000000000000000000000 plain
process 0 correct plain 4
genesis 0
submit 0 \"a\"
";

const SPENT_TRACE: &[u8] = b"process 0: correct
view 0: 0
event 0: 0 is asked to send \"a\"
  0 signs Init 0 in view 0: \"a\"
  0 signs Echo of 0/0 in view 0: \"a\"
  0 signs Order of place 0 in view 0: 0/0
  0 signs Place of place 0 in view 0: 0/0
  0 has no signature left for what is due
";

/// The number of a command, what it is given, and its answer.
const ANSWERS: [(u8, &[u8], u8, &[u8]); 8] = [
    (0, STORY, 0, ONE_MEMBER),
    (1, ONE_MEMBER, 0, STORY),
    (2, SPENT_KEY, 0, SPENT_TRACE),
    (2, SPENT_STORY, 0, SPENT_TRACE),
    (1, b"", 7, b"stop 7 short 0\n"),
    (2, b"RPS4", 7, b"stop 7 magic 0\n"),
    (3, b"RPS4", 7, b"stop 7 magic 0\n"),
    (4, ONE_MEMBER, 2, b""),
];

/// What a call left: its status, the length of the whole answer, and the room.
#[derive(Drop)]
struct Left {
    status: u8,
    count: usize,
    room: Vec<u8>,
}

impl Left {
    // As much of the answer as the room holds is at its front, the count is the whole answer's, and the rest is as it was.
    fn holds(&self, status: u8, answer: &[u8]) -> bool {
        let filled = self
            .room
            .iter()
            .skip(answer.len())
            .all(|byte| *byte == FILL);
        let front = self
            .room
            .iter()
            .zip(answer)
            .all(|(byte, wanted)| *byte == *wanted);
        self.status == status && self.count == answer.len() && front && filled
    }
}

fn replayed(alloc: Global, short: bool, input: &[u8], size: usize) -> Result<Left, AllocError> {
    let mut room = vec![in alloc; FILL; size]?;
    let mut count = 0;
    let status = page_replay(alloc, short, input, &mut room, &mut count);
    Ok(Left {
        status,
        count,
        room,
    })
}

fn reported(alloc: Global, command: u8, input: &[u8], size: usize) -> Result<Left, AllocError> {
    let mut room = vec![in alloc; FILL; size]?;
    let mut count = 0;
    let status = page_story(alloc, command, input, &mut room, &mut count);
    Ok(Left {
        status,
        count,
        room,
    })
}

#[test]
fn a_room_of_any_size_holds_the_front_of_a_report(rt: HostRuntime) -> Result<(), Fail> {
    for (short, report) in [(false, REPORT), (true, SHORT_REPORT)] {
        for size in [0, 1, report.len(), 4096] {
            let left = replayed(rt.alloc(), short, ONE_MEMBER, size)?;
            assert!(rt; left.holds(0, report), "at {size}");
        }
    }
    let left = replayed(rt.alloc(), false, b"", 64)?;
    assert!(rt; left.holds(7, b"stop 7 short 0\n"));
    Ok(())
}

#[test]
fn each_command_answers_as_the_program_does(rt: HostRuntime) -> Result<(), Fail> {
    for (command, input, status, answer) in ANSWERS {
        for size in [0, 1, answer.len(), 4096] {
            let left = reported(rt.alloc(), command, input, size)?;
            assert!(rt; left.holds(status, answer), "{command} at {size}");
        }
    }
    Ok(())
}

#[test]
fn what_is_no_story_is_reported_at_its_line(rt: HostRuntime) -> Result<(), Fail> {
    let left = reported(rt.alloc(), 0, b"grup 0 plain\n", 4096)?;
    assert_eq!(rt; left.status, 5);
    assert!(rt; left.room.starts_with(b"line 1: expected group NAME SCHEME"));
    Ok(())
}
