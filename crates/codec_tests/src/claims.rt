use frame_codec::split_frame;
use member_events::{
    Batch, Entry, EntrySignatures, Event, EventFault, EventVerdict, FrameFault, Note, Outcome,
    OwnClaim, Payload, Sending, Slot, Statement, body_into, claims_of, conflicts, read_statement,
    slot_of, spell_into, spelled_len,
};
use rp_base::{GroupId, Pid, PidSet, Update, Value};
use std::process::Abort;
use std::test::Fail;

fn pid(rt: &impl Abort, n: u8) -> Pid {
    Pid::new(n).expect(rt, "a process number")
}

// The kind of the statement that these bytes spell: 3 to 5 are spelled as 12 to 14 where a place has several messages.
fn kind_in(bytes: &[u8]) -> Option<u8> {
    let first = *bytes.first()?;
    if first > 11 {
        Some(first.wrapping_sub(9))
    } else {
        Some(first)
    }
}

// The bytes are read as the statement, and the statement is spelled so.
fn is_spelled(rt: &impl Abort, bytes: &[u8], statement: &Statement<'_>) {
    let Ok(read) = read_statement(bytes) else {
        assert!(rt; false, "not read");
        return;
    };
    assert!(rt; &read == statement, "read otherwise");
    assert!(rt; kind_in(bytes) == Some(read.kind()), "of another kind");
    let mut out = [0; 1032];
    let len = spell_into(&read, &mut out);
    assert!(rt; &out[..len] == bytes, "spelled otherwise");
    assert!(rt; spelled_len(&read) == len);
}

// The first `count` messages of process 7: 0, 1, 2 and so on.
fn many(rt: &impl Abort, count: u16) -> Batch {
    let mut batch = Batch::of(pid(rt, 7), 0);
    for number in 1..count {
        assert!(rt; batch.len() < 16);
        batch.push(pid(rt, 7), number);
    }
    batch
}

fn removal(rt: &impl Abort) -> Value {
    Value {
        update: Update::Remove(pid(rt, 7)),
        cut: 1024,
    }
}

fn renewal() -> Value {
    Value {
        update: Update::Renew,
        cut: 0,
    }
}

#[test]
fn each_kind_is_read_and_spelled(rt: HostRuntime) {
    let rt = &rt;
    let view = 9;
    is_spelled(
        rt,
        &[1, 0, 0, 0, 0, 0, 2, 104, 105],
        &Statement::Init {
            view: 0,
            number: 0,
            payload: b"hi",
        },
    );
    is_spelled(
        rt,
        &[2, 3, 255, 63, 3, 255, 0, 0],
        &Statement::Echo {
            view: 1023,
            sender: pid(rt, 63),
            number: 1023,
            payload: b"",
        },
    );
    is_spelled(
        rt,
        &[3, 0, 1, 3, 255, 2, 0, 3],
        &Statement::Order {
            view: 1,
            place: 1023,
            batch: Batch::of(pid(rt, 2), 3),
        },
    );
    is_spelled(
        rt,
        &[4, 0, 1, 0, 2, 3, 0, 4],
        &Statement::Place {
            view: 1,
            place: 2,
            batch: Batch::of(pid(rt, 3), 4),
        },
    );
    is_spelled(
        rt,
        &[5, 1, 2, 3, 4, 5, 3, 255],
        &Statement::Keep {
            view: 258,
            place: 772,
            batch: Batch::of(pid(rt, 5), 1023),
        },
    );
    is_spelled(
        rt,
        &[6, 0, 9, 2, 63],
        &Statement::Notify {
            view,
            update: Update::Add(pid(rt, 63)),
        },
    );
    is_spelled(rt, &[7, 0, 9, 4, 0], &Statement::End { view, length: 1024 });
    is_spelled(
        rt,
        &[8, 0, 9, 15, 0],
        &Statement::Last {
            view,
            rank: 15,
            ready: None,
        },
    );
    is_spelled(
        rt,
        &[8, 0, 9, 15, 1, 14, 1, 7, 4, 0],
        &Statement::Last {
            view,
            rank: 15,
            ready: Some((14, removal(rt))),
        },
    );
    is_spelled(
        rt,
        &[9, 0, 9, 15, 3, 0, 0, 0],
        &Statement::Suggest {
            view,
            rank: 15,
            value: renewal(),
        },
    );
    is_spelled(
        rt,
        &[10, 0, 9, 0, 1, 7, 4, 0],
        &Statement::Ack {
            view,
            rank: 0,
            value: removal(rt),
        },
    );
    is_spelled(
        rt,
        &[11, 0, 9, 1, 3, 0, 0, 0],
        &Statement::Ready {
            view,
            rank: 1,
            value: renewal(),
        },
    );
}

#[test]
fn several_messages_of_a_place(rt: HostRuntime) {
    let rt = &rt;
    let mut two = Batch::of(pid(rt, 63), 1023);
    two.push(pid(rt, 0), 0);
    is_spelled(
        rt,
        &[12, 0, 1, 3, 255, 2, 63, 3, 255, 0, 0, 0],
        &Statement::Order {
            view: 1,
            place: 1023,
            batch: two,
        },
    );
    let three = many(rt, 3);
    is_spelled(
        rt,
        &[13, 0, 1, 0, 2, 3, 7, 0, 0, 7, 0, 1, 7, 0, 2],
        &Statement::Place {
            view: 1,
            place: 2,
            batch: three,
        },
    );
    let most = Statement::Keep {
        view: 0,
        place: 0,
        batch: many(rt, 16),
    };
    let mut bytes = [0; 54];
    bytes[0] = 14;
    bytes[5] = 16;
    for number in 0..16u8 {
        bytes[6 + 3 * number as usize] = 7;
        bytes[8 + 3 * number as usize] = number;
    }
    is_spelled(rt, &bytes, &most);
}

#[test]
fn a_batch_grows_to_sixteen_messages(rt: HostRuntime) {
    let mut batch = Batch::of(pid(&rt, 3), 5);
    assert!(rt; batch.len() == 1 && !batch.is_full());
    assert!(rt; batch.messages() == [(pid(&rt, 3), 5)].as_slice());
    assert!(rt; batch == Batch::of(pid(&rt, 3), 5) && batch != Batch::of(pid(&rt, 3), 6));
    batch.push(pid(&rt, 2), 0);
    assert_eq!(rt;
        format!(in rt.alloc(); "{batch:?}").ok().as_deref(),
        Some("[(Pid(3), 5), (Pid(2), 0)]")
    );
    assert!(rt; many(&rt, 15).len() == 15 && many(&rt, 16).is_full());
}

#[test]
fn hostile_bytes_are_no_statement(rt: HostRuntime) {
    let cases: [&[u8]; 17] = [
        b"",
        &[0],
        &[15, 0, 0, 0, 0],
        &[12, 0, 1, 0, 2],
        &[12, 0, 1, 0, 2, 0],
        &[12, 0, 1, 0, 2, 1, 7, 0, 0],
        &[13, 0, 1, 0, 2, 2, 7, 0, 0, 7, 0],
        &[14, 0, 1, 0, 2, 2, 7, 0, 0, 7, 0, 0, 0],
        &[12, 0, 1, 0, 2, 2, 64, 0, 0],
        &[1, 0, 0, 0, 0, 0, 2, 104, 105, 255],
        &[1, 0, 0, 0, 0, 0, 3, 104],
        &[3, 0, 1, 0, 2, 3, 0, 4, 255],
        &[6, 0, 10, 4, 5],
        &[6, 0, 10, 3, 1],
        &[7, 4, 0, 0],
        &[8, 0, 9, 15, 2],
        &[9, 0, 9, 16, 1, 3, 0, 0, 0],
    ];
    for bytes in cases {
        assert!(rt;
            read_statement(bytes) == Err(FrameFault::Statement),
            "{bytes:?}"
        );
    }
}

#[test]
fn hostile_numbers_are_out_of_range(rt: HostRuntime) {
    let cases: [&[u8]; 10] = [
        &[12, 0, 1, 0, 2, 2, 7, 0, 0, 64, 0, 0],
        &[13, 0, 1, 0, 2, 2, 7, 0, 0, 7, 4, 0],
        &[6, 0, 10, 1, 64],
        &[7, 4, 0, 0, 0],
        &[7, 0, 0, 4, 1],
        &[5, 0, 0, 4, 0, 0, 0, 0],
        &[9, 0, 9, 16, 3, 0, 0, 0],
        &[9, 0, 9, 15, 3, 0, 4, 1],
        &[8, 0, 9, 5, 1, 5, 3, 0, 0, 0],
        &[2, 0, 0, 64, 0, 0, 0, 0],
    ];
    for bytes in cases {
        assert!(rt;
            read_statement(bytes) == Err(FrameFault::Range),
            "{bytes:?}"
        );
    }
    let mut seventeen = [0; 57];
    seventeen[0] = 14;
    seventeen[5] = 17;
    assert!(rt; read_statement(&seventeen) == Err(FrameFault::Statement));
    let mut long = [97; 1032];
    long[..7].copy_from_slice(&[1, 0, 0, 0, 0, 4, 1]);
    assert!(rt; read_statement(&long) == Err(FrameFault::Range));
    long[6] = 0;
    assert!(rt; read_statement(&long[..1031]).is_ok());
}

// Ready of view 0 and rank 0 by processes 3 and 63, then Echo by process 0, in a frame of this kind.
const fn frame(kind: u8, last: u8) -> [u8; 37] {
    [
        1, kind, 2, 0, 8, 11, 0, 0, 0, 3, 0, 0, 0, 2, 3, 0, 1, 0xaa, last, 0, 0, 0, 9, 2, 0, 0, 1,
        0, 0, 0, 1, 97, 1, 0, 0, 1, 0xbb,
    ]
}

fn fault_of(bytes: &[u8]) -> Option<FrameFault> {
    match split_frame(bytes) {
        Ok(view) => claims_of(&view).err(),
        Err(fault) => Some(fault),
    }
}

// The kinds of the claims in a frame, and their signers, two digits each.
fn kinds_and_signers(bytes: &[u8]) -> Option<(u32, u32)> {
    let Ok(view) = split_frame(bytes) else {
        return None;
    };
    let Ok(claims) = claims_of(&view) else {
        return None;
    };
    let mut kinds = 0u32;
    let mut signers = 0u32;
    for claim in claims {
        kinds = kinds
            .wrapping_mul(100)
            .wrapping_add(claim.statement.kind() as u32);
        signers = signers
            .wrapping_mul(100)
            .wrapping_add(claim.signer.get() as u32);
    }
    Some((kinds, signers))
}

#[test]
fn the_claims_of_a_frame(rt: HostRuntime) {
    let bytes = frame(frame_codec::PROOF, 63);
    assert!(rt; kinds_and_signers(&bytes) == Some((111102, 36300)));
    let mut notify = bytes;
    notify[23] = 1;
    let mut bundle = notify;
    bundle[1] = frame_codec::BUNDLE;
    for (bytes, fault) in [
        (
            frame(frame_codec::PROOF, 64).as_slice(),
            Some(FrameFault::Range),
        ),
        (&notify, Some(FrameFault::Misplaced)),
        (&bundle, Some(FrameFault::Statement)),
        (&[1, 3, 3, 255, 4, 0], None),
        (&[1, 3, 4, 0, 0, 0], Some(FrameFault::Range)),
    ] {
        assert_eq!(rt; fault_of(bytes), fault, "{bytes:?}");
    }
}

#[test]
fn the_body_that_is_signed(rt: HostRuntime) {
    let group = GroupId([0, 1, 2, 3, 4, 5, 6, 7, 8, 9, 10, 11, 12, 13, 14, 15]);
    let statement = Statement::Init {
        view: 0,
        number: 0,
        payload: b"hi",
    };
    let mut out = [0; 1100];
    let len = body_into(&group, pid(&rt, 5), &statement, &mut out);
    let expected = [
        82, 80, 66, 49, 0, 1, 2, 3, 4, 5, 6, 7, 8, 9, 10, 11, 12, 13, 14, 15, 5, 1, 0, 0, 0, 0, 0,
        2, 104, 105,
    ];
    assert!(rt; &out[..len] == &expected[..]);
}

#[test]
fn conflicts_of_one_slot(rt: HostRuntime) {
    let long = Statement::End { view: 3, length: 7 };
    let short = Statement::End { view: 3, length: 6 };
    let later = Statement::End { view: 4, length: 6 };
    assert!(rt; conflicts(&long, &short));
    assert!(rt; !conflicts(&short, &short));
    assert!(rt; !conflicts(&short, &later));
    assert!(rt; slot_of(&short) == Slot::View { view: 3 });
}

#[test]
fn what_core_and_journal_share(rt: HostRuntime) -> Result<(), Fail> {
    let statement = Payload::from_vec([7, 0, 3, 0, 7].to_vec(rt.alloc())?);
    let signature = Payload::from_vec(Vec::new(rt.alloc()));
    let frame = Payload::from_vec([1, 3, 0, 3, 0, 7].to_vec(rt.alloc())?);
    let claim = OwnClaim {
        signer: pid(&rt, 1),
        statement,
        signature,
    };
    assert!(rt; claim.statement.bytes() == [7, 0, 3, 0, 7].as_slice());
    let mut outcome = Outcome {
        verdict: EventVerdict::Taken,
        heard: 0,
        signed: Vec::new(rt.alloc()),
        spent: true,
        sends: Vec::new(rt.alloc()),
        notes: Vec::new(rt.alloc()),
    };
    outcome.signed.push(claim)?;
    outcome.sends.push(Sending {
        to: PidSet::new(),
        frame,
    })?;
    outcome.notes.push(Note::Spent)?;
    assert!(rt; outcome.verdict != EventVerdict::Refused(EventFault::Outsider));
    let (signatures, rest) = EntrySignatures::read(2, &[0, 1, 0xaa, 0, 0, 9]).expect(
        &rt,
        "two signatures",
    );
    assert!(rt; rest == [9].as_slice());
    let entry = Entry {
        process: pid(&rt, 1),
        event: Event::Submit(b"hi"),
        spent: outcome.spent,
        signatures,
    };
    let mut bytes = 0usize;
    for signature in entry.signatures {
        bytes = bytes.wrapping_add(signature.len());
    }
    assert_eq!(rt; bytes, 1);
    assert!(rt; EntrySignatures::read(2, &[0, 1, 0xaa, 0]).is_none());
    Ok(())
}
