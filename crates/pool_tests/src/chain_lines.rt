//! A chain of views after a kit that another program made, and the proof of its second view, by that program.
use chain_words::chain;
use rp_base::{MemSink, MemSource};
use std::alloc::{AllocError, Global};
use std::process::Abort;
use std::test::Fail;

// The kit, whose one member is process 0, up to the line `go`.
const KIT: [&[u8]; 13] = [
    b"rampart kit 1\n",
    b"scheme plain\n",
    b"group 6f289d5b5aa425dc2f365877e4cf8595\n",
    b"key 0 2dd447ac7305bc84b2dc0da0fe9411f33e1af724d30036daa8b9c930ce8b3722\n",
    b"key 1 00d30be9d2cd77737e2bbd0d7678b8b6c35b2fa04810456308028c71958103a5\n",
    b"genesis 0\n",
    b"port 0 47000\n",
    b"port 1 47001\n",
    b"host 0 plain 100\n",
    b"pair 0 1 e5d93ab81fbaf5647142a212f6fec7a66fc65a8250045aaf87c78aa3de95e3e9\n",
    b"host 1 plain 100\n",
    b"pair 1 0 e5d93ab81fbaf5647142a212f6fec7a66fc65a8250045aaf87c78aa3de95e3e9\n",
    b"go\n",
];

const PROOF: &[u8] =
    b"proof 01020400080b00000002010001010000202cd47032c3d2282ea720305186c7350d254e81a370fbf8fab6c403d229a54b3a0008040000000000000001000020c5289626e044c8d8ca858193426b390e0845b012f47b66fb6bc41728d92270970016020000000000000e0000000000000000010161000162010000203182617e23a078f285bf03be978a7950e0b36a9cba3ac8f4567c8a6ec1bd83410008050000000000000001000020c2d7aac53f0582fe849a3bdbd6232ce6e05beadd1c7dd69e7ac884c09d6df1a4\n";

// The kit and these lines.
fn input_of(alloc: Global, more: &[&[u8]]) -> Result<Vec<u8>, AllocError> {
    let mut text = Vec::new(alloc);
    for line in KIT {
        text.extend_from_slice(line)?;
    }
    for line in more {
        text.extend_from_slice(line)?;
    }
    Ok(text)
}

// What the word `chain` of the program `witness` writes of the kit and these lines, and its status. Reads and writes with these numbers fail.
fn begun(alloc: Global, more: &[&[u8]], failing: [&[u64]; 2]) -> Result<(MemSink, u8), AllocError> {
    let [reads, writes] = failing;
    let mut source = MemSource::new(input_of(alloc, more)?, reads.to_vec(alloc)?);
    let mut sink = MemSink::new(alloc, writes.to_vec(alloc)?);
    let ended = witness_chain::chain(alloc, &mut source, &mut sink);
    Ok((sink, ended))
}

// Ends the test where the answer to the kit and these lines is another, or its status. Reads and writes with these numbers fail.
fn assert_answered(
    rt: &impl Abort,
    alloc: Global,
    more: &[&[u8]],
    failing: [&[u64]; 2],
    wanted: &[u8],
    status: u8,
) -> Result<(), Fail> {
    let [reads, writes] = failing;
    let mut source = MemSource::new(input_of(alloc, more)?, reads.to_vec(alloc)?);
    let mut sink = MemSink::new(alloc, writes.to_vec(alloc)?);
    let ended = chain(alloc, &mut source, &mut sink);
    assert_eq!(rt; sink.bytes(), wanted);
    assert_eq!(rt; ended, status);
    Ok(())
}

const NONE: [&[u64]; 2] = [&[], &[]];

#[test]
fn each_view_that_is_shown_is_written(rt: HostRuntime) -> Result<(), Fail> {
    let alloc = rt.alloc();
    assert_answered(&rt, alloc, &[], NONE, b"view 0 : 0\n", 0)?;
    assert_answered(&rt, alloc, &[PROOF], NONE, b"view 0 : 0\nview 1 : 0 1\n", 0)
}

#[test]
fn a_line_that_shows_no_view_ends_the_chain(rt: HostRuntime) -> Result<(), Fail> {
    let alloc = rt.alloc();
    let twice = b"view 0 : 0\nview 1 : 0 1\nstop 7 few 15 0\n";
    assert_answered(&rt, alloc, &[PROOF, PROOF], NONE, twice, 7)?;
    let other = b"view 0 : 0\nstop 7 frame 14 version\n";
    assert_answered(&rt, alloc, &[b"proof 0a\n"], NONE, other, 7)
}

#[test]
fn a_line_that_is_no_proof_ends_the_chain(rt: HostRuntime) -> Result<(), Fail> {
    let alloc = rt.alloc();
    let none = b"view 0 : 0\nstop 7 line 14\n";
    assert_answered(&rt, alloc, &[b"proof 0A\n"], NONE, none, 7)?;
    assert_answered(&rt, alloc, &[b"proof\n"], NONE, none, 7)?;
    assert_answered(&rt, alloc, &[b"proof 01"], NONE, none, 7)
}

#[test]
fn a_stream_that_fails_ends_the_chain(rt: HostRuntime) -> Result<(), Fail> {
    let alloc = rt.alloc();
    assert_answered(&rt, alloc, &[PROOF], [&[], &[1]], b"view 0 : 0\n", 4)?;
    assert_answered(&rt, alloc, &[PROOF], [&[0], &[]], b"stop 3 read\n", 3)
}

const NO_PROOF: &[u8] = b"view 0 : 0\nstop 7 line 14\n";

/// What follows the kit, and the answer to both where a chain may begin at the line of a view.
const BEGUN: [(&[&[u8]], &[u8], u8); 9] = [
    (&[], b"view 0 : 0\n", 0),
    (&[PROOF], b"view 0 : 0\nview 1 : 0 1\n", 0),
    (&[b"view 0 : 0\n", PROOF], b"view 0 : 0\nview 1 : 0 1\n", 0),
    (&[b"view 1 : 1 0\n"], b"view 1 : 1 0\n", 0),
    (
        &[b"view 7 : 1 0\n", PROOF],
        b"view 7 : 1 0\nstop 7 few 15 0\n",
        7,
    ),
    (&[b"view 1 : 0 2\n", PROOF], NO_PROOF, 7),
    (&[b"view 1024 : 0\n"], NO_PROOF, 7),
    (&[b"view 0 : 0"], NO_PROOF, 7),
    (
        &[PROOF, b"view 1 : 0 1\n"],
        b"view 0 : 0\nview 1 : 0 1\nstop 7 line 15\n",
        7,
    ),
];

#[test]
fn a_chain_begins_at_the_line_of_a_view(rt: HostRuntime) -> Result<(), Fail> {
    for (more, wanted, status) in BEGUN {
        let (sink, ended) = begun(rt.alloc(), more, NONE)?;
        assert!(rt; sink.bytes() == wanted && ended == status);
    }
    Ok(())
}

#[test]
fn a_stream_that_fails_ends_a_chain_from_a_view(rt: HostRuntime) -> Result<(), Fail> {
    let view = b"view 1 : 0 1\n".as_slice();
    for (more, failing, wanted, status) in [
        ([view].as_slice(), [[].as_slice(), &[0]], b"".as_slice(), 4),
        (&[], [&[], &[0]], b"", 4),
        (&[PROOF], [&[], &[1]], b"view 0 : 0\n", 4),
        (&[view], [&[0], &[]], b"stop 3 read\n", 3),
    ] {
        let (sink, ended) = begun(rt.alloc(), more, failing)?;
        assert!(rt; sink.bytes() == wanted && ended == status);
    }
    Ok(())
}
