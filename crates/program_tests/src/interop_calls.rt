use interop_lines::{Outside, Program, interop};
use rp_base::{MemSink, MemSource, NoMemory};
use std::alloc::{AllocError, Global};
use std::test::Fail;
use text_codec::push_hex;

/// A program that does nothing, about whose runs is asked.
struct Idle;

impl Program for Idle {
    ghost comes_to = { λ _ _ _ _ _. Unit {0} };

    fn run(&self, _alloc: Global, _words: &[String], _outside: &mut Outside) -> u8 {
        0
    }
}

/// The status, and what was written, where these calls of the source and the sink fail.
fn run(
    alloc: Global,
    input: &[u8],
    reads: &[u64],
    writes: &[u64],
) -> Result<(u8, MemSink), AllocError> {
    let mut source = MemSource::new(input.to_vec(alloc)?, reads.to_vec(alloc)?);
    let mut sink = MemSink::new(alloc, writes.to_vec(alloc)?);
    let status = interop(alloc, &Idle, &mut source, &mut sink);
    Ok((status, sink))
}

/// Whether this is written of an input, and the run ends so, where these calls of the source and the sink fail.
fn is_answered(
    alloc: Global,
    input: &[u8],
    failing: [&[u64]; 2],
    written: &[u8],
    ended: u8,
) -> Result<bool, AllocError> {
    let [reads, writes] = failing;
    let (status, sink) = run(alloc, input, reads, writes)?;
    Ok(status == ended && sink.bytes() == written)
}

/// No call fails.
const NONE: [&[u64]; 2] = [&[], &[]];

#[test]
fn each_line_is_answered_until_one_is_no_question(rt: HostRuntime) -> Result<(), Fail> {
    for (input, output, ends) in [
        (b"".as_slice(), b"".as_slice(), 0),
        (b"verify lms - 00 ff\n", b"false\n", 0),
        (b"verify lms - 00 ff\n\n", b"false\nstop 7 line 2\n", 7),
        (b"verify lms - 00 fF\n", b"stop 7 line 1\n", 7),
        (b"verify lms - - -", b"stop 7 line 1\n", 7),
        (b"journal 5250\n", b"notajournal\n", 0),
        (
            b"journal 52\njournal 5\n",
            b"notajournal\nstop 7 line 2\n",
            7,
        ),
        (
            b"datagram 0000000000000000000000000000000000000000000000000000000000000000 52\n",
            b"short\n",
            0,
        ),
        (b"datagram 00 52\n", b"stop 7 line 1\n", 7),
        (b"pool 0 0001 00 -\n", b"noview\n", 0),
        (b"pool 0 00 00 02\n", b"version\n", 0),
        (b"pool 1024 00 00 -\n", b"stop 7 line 1\n", 7),
    ] {
        assert!(rt; is_answered(rt.alloc(), input, NONE, output, ends)?);
    }
    Ok(())
}

/// What is asked is read to its last word; the program itself does nothing.
#[test]
fn questions_on_runs_are_read(rt: HostRuntime) -> Result<(), Fail> {
    for (input, output, ends) in [
        (b"run - - - - - -\n".as_slice(), b"0 - - -\n".as_slice(), 0),
        (
            b"run 6e6f64652061 00 0102 bind:1,send:2,recv:3,len:4,read:5,write:6,sync:7,source:8,sink:4294967295 0:-,65535:ff sync:1\n",
            b"0 - 0102 -\n",
            0,
        ),
        (b"run - - - - -\n", b"stop 7 line 1\n", 7),
        (b"run - - - - - - -\n", b"stop 7 line 1\n", 7),
        (b"run ff - - - - -\n", b"stop 7 line 1\n", 7),
        (b"run - - - send:0 - -\n", b"stop 7 line 1\n", 7),
        (b"run - - - send:1, - -\n", b"stop 7 line 1\n", 7),
        (b"run - - - Send:1 - -\n", b"stop 7 line 1\n", 7),
        (b"run - - - sink:4294967296 - -\n", b"stop 7 line 1\n", 7),
        (b"run - - - - 65536:- -\n", b"stop 7 line 1\n", 7),
        (b"run - - - - 1: -\n", b"stop 7 line 1\n", 7),
        (b"run - - - - - read:1\n", b"stop 7 line 1\n", 7),
    ] {
        assert!(rt; is_answered(rt.alloc(), input, NONE, output, ends)?);
    }
    Ok(())
}

/// The first read gives the whole input, and the second one fails.
#[test]
fn a_read_that_fails_is_no_end(rt: HostRuntime) -> Result<(), Fail> {
    let line = b"verify lms - - -\n";
    assert!(rt; is_answered(rt.alloc(), line, [&[1], &[]], b"false\nstop 3 read\n", 3)?);
    Ok(())
}

#[test]
fn a_write_that_fails_stops(rt: HostRuntime) -> Result<(), Fail> {
    assert!(rt; is_answered(rt.alloc(), b"verify lms - - -\n", [&[], &[0]], b"", 4)?);
    Ok(())
}

// What another program, in Python, makes for one process with a plain key for 7 signatures and the seed 00 01 02 .. 1f.
const KIT: &[u8] = b"rampart kit 1
scheme plain
group 8303ca4d81d97afed6931bd5391d7eb0
key 0 3427359e9e727deb642976176fede3de0e5cb7af24fca3d2ddec8c3c5663fe09
genesis 0
port 0 47000
host 0 plain 7
";

// The last digit of the key is not the one that the secret makes.
const OF_ANOTHER_KEY: &[u8] = b"rampart kit 1
scheme lms
group 00000000000000000000000000000000
key 0 0000000500000004000102030405060708090a0b0c0d0e0ff7d19985ac511431ccfb6634ef73b23ca9d9d4c7fac81d6a428ca5ab3454f83a
genesis 0
port 0 1
host 0 lms 5 4 000102030405060708090a0b0c0d0e0f 202122232425262728292a2b2c2d2e2f303132333435363738393a3b3c3d3e3f
";

// The line that asks what the text says as a kit.
fn kit_line(alloc: Global, text: &[u8]) -> Result<Vec<u8>, NoMemory> {
    let mut line = b"kit ".to_vec(alloc)?;
    push_hex(&mut line, text)?;
    line.push(b'\n')?;
    Ok(line)
}

// A kit is its own answer.
#[test]
fn a_kit_is_spelled_again(rt: HostRuntime) -> Result<(), Fail> {
    let line = kit_line(rt.alloc(), KIT)?;
    assert!(rt; is_answered(rt.alloc(), &line, NONE, &line, 0)?);
    Ok(())
}

// Faults are those that the other program gives.
#[test]
fn faults_of_kits_are_reported(rt: HostRuntime) -> Result<(), Fail> {
    for (text, reported) in [
        (b"\n".as_slice(), b"line 1\n".as_slice()),
        (b"rampart kit 1\nscheme plain", b"line 2\n"),
        (b"rampart kit 1\nscheme plain\n", b"missing 3\n"),
        (b"rampart kit 1\nrampart kit 1\n", b"repeated 2\n"),
        (
            OF_ANOTHER_KEY,
            b"mismatch 7 0000000500000004000102030405060708090a0b0c0d0e0ff7d19985ac511431ccfb6634ef73b23ca9d9d4c7fac81d6a428ca5ab3454f83b 0000000500000004000102030405060708090a0b0c0d0e0ff7d19985ac511431ccfb6634ef73b23ca9d9d4c7fac81d6a428ca5ab3454f83a\n",
        ),
    ] {
        let line = kit_line(rt.alloc(), text)?;
        assert!(rt; is_answered(rt.alloc(), &line, NONE, reported, 0)?);
    }
    Ok(())
}
