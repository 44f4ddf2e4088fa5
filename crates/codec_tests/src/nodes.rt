//! The lines of a node, and those of its script, as another program writes and reads them.
use arrayvec::ArrayVec;
use member_events::Payload;
use message_defs::FrameFault;
use node_text::{
    EventFault, Handed, KitFault, Line, LinkFault, Note, Said, Stop, push_drop, push_expel,
    push_fault, push_note, push_recv, push_refused, read_line,
};
use rp_base::{Pid, PidSet};
use std::alloc::Global;
use std::process::Abort;
use std::test::Fail;

fn pid(rt: &impl Abort, n: u8) -> Pid {
    Pid::new(n).expect(rt, "below 64")
}

fn delivered(rt: &impl Abort, alloc: Global, payload: &[u8]) -> Note {
    Note::Delivered {
        view: 1,
        place: 2,
        sender: pid(rt, 3),
        number: 4,
        payload: Payload::from_vec(payload.to_vec(alloc).expect(rt, "memory")),
    }
}

fn installed(rt: &impl Abort) -> Note {
    let members = [pid(rt, 0), pid(rt, 2), pid(rt, 3)];
    let listed = &members[..];
    Note::Installed {
        view: 1,
        members: ArrayVec::try_from(listed).expect(rt, "room"),
    }
}

#[test]
fn a_turn_tells_its_notes(rt: HostRuntime) -> Result<(), Fail> {
    let me = pid(&rt, 2);
    let notes = [
        delivered(&rt, rt.alloc(), b"hi"),
        delivered(&rt, rt.alloc(), b""),
        installed(&rt),
        Note::Liar(pid(&rt, 5)),
        Note::Spent,
        Note::Halted {
            delivered: 7,
            cut: 5,
        },
    ];
    let mut text = Vec::new(rt.alloc());
    for note in &notes {
        push_note(&mut text, me, note)?;
    }
    assert_eq!(rt;
        text.as_slice(),
        b"deliver 2 1 2 3 4 6869\ndeliver 2 1 2 3 4 -\nview 2 1 : 0 2 3\nliar 2 5\nspent 2\nhalted 2 7 5\n".as_slice()
    );
    Ok(())
}

#[test]
fn the_link_and_the_events_have_their_lines(rt: HostRuntime) -> Result<(), Fail> {
    let me = pid(&rt, 1);
    let mut text = Vec::new(rt.alloc());
    push_refused(&mut text, me, EventFault::BadFrame(FrameFault::Short))?;
    push_refused(&mut text, me, EventFault::Outsider)?;
    for fault in [
        LinkFault::Short,
        LinkFault::Magic,
        LinkFault::OtherGroup,
        LinkFault::NotForMe,
        LinkFault::UnknownPeer,
        LinkFault::BadTag,
    ] {
        push_drop(&mut text, me, fault)?;
    }
    push_fault(&mut text, me)?;
    push_recv(&mut text, me, 1000)?;
    push_expel(&mut text, me, pid(&rt, 63))?;
    assert_eq!(rt;
        text.as_slice(),
        b"refused 1 short\nrefused 1 outsider\ndrop 1 short\ndrop 1 magic\ndrop 1 othergroup\ndrop 1 notforme\ndrop 1 unknownpeer\ndrop 1 badtag\nfault 1\nrecv 1 1000\nexpel 1 63\n".as_slice()
    );
    Ok(())
}

#[test]
fn each_stop_has_its_status_and_its_line(rt: HostRuntime) -> Result<(), Fail> {
    let stops: [(Stop, u8, &[u8]); 14] = [
        (Stop::Ended, 0, b""),
        (Stop::NoMemory, 1, b""),
        (Stop::ReadFailed, 3, b"stop 3 read\n"),
        (Stop::WriteFailed, 4, b""),
        (Stop::DiskFailed, 5, b"stop 5 disk\n"),
        (Stop::BindFailed, 6, b"stop 6 link\n"),
        (
            Stop::BadKit(KitFault::Line { line: 3 }),
            7,
            b"stop 7 line 3\n",
        ),
        (
            Stop::BadKit(KitFault::Repeated { line: 5 }),
            7,
            b"stop 7 repeated 5\n",
        ),
        (
            Stop::BadKit(KitFault::Missing { line: 3 }),
            7,
            b"stop 7 missing 3\n",
        ),
        (Stop::BadKit(KitFault::NoMemory), 1, b""),
        (Stop::BadLine(12), 7, b"stop 7 line 12\n"),
        (Stop::BadSnap(11), 7, b"stop 7 snap 11\n"),
        (Stop::BadJournal(287), 8, b"stop 8 journal 0 287\n"),
        (
            Stop::Full {
                whole: 1073741824,
                entry: 77,
            },
            9,
            b"stop 9 full 1073741824 77\n",
        ),
    ];
    for (stop, status, line) in &stops {
        let mut text = Vec::new(rt.alloc());
        stop.push_line(&mut text)?;
        assert_eq!(rt; stop.status(), *status);
        assert_eq!(rt; text.as_slice(), *line);
    }
    Ok(())
}

// What an event of a line is, in a word and a number.
fn handed(event: &Handed) -> (&'static str, usize) {
    match event {
        Handed::Submit(payload) => ("submit", payload.len()),
        Handed::Suspect(process) => ("suspect", process.get().into()),
        Handed::Join(process) => ("join", process.get().into()),
        Handed::Renew => ("renew", 0),
        Handed::Tick => ("tick", 0),
    }
}

// The same of a line, where the processes 0 and 2 are hosted.
fn asked(rt: &impl Abort, alloc: Global, line: &[u8]) -> (&'static str, usize) {
    let mut hosted = PidSet::new();
    hosted.insert(pid(rt, 0));
    hosted.insert(pid(rt, 2));
    match read_line(alloc, hosted, line).expect(rt, "memory") {
        None => ("none", 0),
        Some(Line::Snap) => ("snap", 0),
        Some(Line::Of { said, .. }) => match &said {
            Said::Hand(event) => handed(event),
            Said::Receive(most) => ("recv", *most as usize),
            Said::Other => ("other", 0),
        },
    }
}

#[test]
fn lines_of_a_script_are_read(rt: HostRuntime) {
    let lines: [(&[u8], (&str, usize)); 20] = [
        (b"0 submit 6869", ("submit", 2)),
        (b"2 submit -", ("submit", 0)),
        (b"2 suspect 63", ("suspect", 63)),
        (b"0 join 5", ("join", 5)),
        (b"0 renew", ("renew", 0)),
        (b"2 tick", ("tick", 0)),
        (b"0 recv 1000", ("recv", 1000)),
        (b"snap", ("snap", 0)),
        (b"0 submit 6A", ("other", 0)),
        (b"0 submit ", ("other", 0)),
        (b"0 suspect 64", ("other", 0)),
        (b"0 join 05", ("other", 0)),
        (b"0 recv 1001", ("other", 0)),
        (b"0 renew ", ("other", 0)),
        (b"0 \xc3\xa9", ("other", 0)),
        (b"1 tick", ("none", 0)),
        (b"00 tick", ("none", 0)),
        (b"", ("none", 0)),
        (b"snap ", ("none", 0)),
        (b"0 \xff", ("none", 0)),
    ];
    for (line, wanted) in &lines {
        assert_eq!(rt; asked(&rt, rt.alloc(), line), *wanted);
    }
}

#[test]
fn a_line_of_the_nodes_own_has_70000_bytes(rt: HostRuntime) -> Result<(), Fail> {
    let mut line = b"0 submit ".to_vec(rt.alloc())?;
    line.resize(69_999, b'6')?;
    assert_eq!(rt; asked(&rt, rt.alloc(), &line), ("submit", 34_995));
    line.extend_from_slice(b"66")?;
    assert_eq!(rt; asked(&rt, rt.alloc(), &line), ("other", 0));
    Ok(())
}
