ghost use Rattle.std.specs.Prelude.{◌≤◌, length, None};

use rampart_cli::rampart;
use rp_base::{Failed, MemSink, MemSource, NoDisk, NoLink, Sink, Source};
use std::alloc::{AllocError, Global};
use std::test::Fail;

/// Process 0 alone submits `hi`. The group is 16 dots, and the key is 32 digits 0 and makes 256 signatures.
pub(crate) const ONE_MEMBER: [u8; 68] =
    *b"RPS1\x00................\x01\x00\x0000000000000000000000000000000000\x00\x00\x01\x00\x01\x00\x01\x00\x00\x02hi";

pub(crate) const REPORT: &[u8] = b"rampart report 1
events 1
process 0 open 1 1 5
view 0 0 : 0
message 0 0 0 0 0 6869
honest yes
bounded yes
agree yes
sound yes
";

pub(crate) const SHORT_REPORT: &[u8] = b"rampart report 1
events 1
refused 0
process 0 open 1 1 5
honest yes
bounded yes
agree yes
sound yes
";

// What another program says of the schedule of number 1.
pub(crate) const LARGE_REPORT: &[u8] = b"rampart report 1
events 2160
refused 100
process 0 open 21 1000 4434
process 1 open 21 1000 3413
process 2 open 21 1000 3393
honest yes
bounded yes
agree yes
sound yes
";

/// Inputs that have no report, given by what follows the header of `ONE_MEMBER`, and their lines.
const STOPPED: [(&[u8], &[u8]); 4] = [
    (b"\x0a", b"stop 7 tag 62\n"),
    (b"\x03\x00\x00\x00\x00\x00", b"stop 7 frame 0 0 0\n"),
    (b"\x03\x00\x00\x00\x00\x00\x0a", b"stop 7 tag 68\n"),
    (
        b"\x01\x00\x00\x02hi\x03\x00\x00\x00\x05\x00",
        b"stop 7 frame 1 5 0\n",
    ),
];

// What another program, in Python, writes for these words.
pub(crate) const KEYGEN: [&str; 5] = [
    "keygen",
    "1",
    "2",
    "plain:9",
    "000102030405060708090a0b0c0d0e0f101112131415161718191a1b1c1d1e1f",
];

pub(crate) const KIT: &[u8] = b"rampart kit 1
scheme plain
group 8303ca4d81d97afed6931bd5391d7eb0
key 0 3427359e9e727deb642976176fede3de0e5cb7af24fca3d2ddec8c3c5663fe09
key 1 7e9344677ed099c935bbbc976be09051ea5cce1f353d88a9a04617026201d83f
genesis 0
port 0 47000
port 1 47001
host 0 plain 9
pair 0 1 5855ee5121fe557457f8e9e9fd737e34751991ec45348663fd50cfeca1ea1b21
host 1 plain 9
pair 1 0 5855ee5121fe557457f8e9e9fd737e34751991ec45348663fd50cfeca1ea1b21
go
";

const KEYGEN_OF_LEVELS: [&str; 5] = [
    "keygen",
    "1",
    "1",
    "hss:2:5:4",
    "000102030405060708090a0b0c0d0e0f101112131415161718191a1b1c1d1e1f",
];

const KIT_OF_LEVELS: &[u8] = b"rampart kit 2
scheme hss
group 8303ca4d81d97afed6931bd5391d7eb0
key 0 000000020000000500000004b966e4bbf7b7b3988d0ef56ca47ddcd2ad45c71816576d9852913006b485df0f88ea641eea0ab05223e49b1eec7bf90b
genesis 0
port 0 47000
host 0 hss 2 5 4 b966e4bbf7b7b3988d0ef56ca47ddcd2 f4b2494c729deaf404ac48765e64f122dbff4d62830f144842df61d68e5bf443
go
";

pub(crate) fn asked(alloc: Global, all: &[&str]) -> Result<Vec<String>, AllocError> {
    let mut words = Vec::new(alloc);
    for word in all {
        words.push(String::from_str(alloc, word)?)?;
    }
    Ok(words)
}

/// The status, and what was written.
pub(crate) fn run(
    alloc: Global,
    words: &[String],
    input: &[u8],
    failing: &[u64],
) -> Result<(u8, MemSink), AllocError> {
    let mut source = MemSource::new(input.to_vec(alloc)?, failing.to_vec(alloc)?);
    let mut sink = MemSink::new(alloc, Vec::new(alloc));
    let status = rampart(
        alloc,
        words,
        &mut source,
        &mut sink,
        &mut NoDisk::new(),
        &mut NoLink::new(),
    );
    Ok((status, sink))
}

/// Whether this is written on these words, and the run ends so.
pub(crate) fn is_answered(
    alloc: Global,
    words: &[&str],
    input: &[u8],
    written: &[u8],
    ended: u8,
) -> Result<bool, AllocError> {
    let (status, sink) = run(alloc, &asked(alloc, words)?, input, &[])?;
    Ok(status == ended && sink.bytes() == written)
}

/// The header of `ONE_MEMBER`, and these events after it.
fn after_header(alloc: Global, events: &[u8]) -> Result<Vec<u8>, AllocError> {
    let mut input = ONE_MEMBER[..62].to_vec(alloc)?;
    input.extend_from_slice(events)?;
    Ok(input)
}

#[test]
fn a_schedule_gives_its_report(rt: HostRuntime) -> Result<(), Fail> {
    let alloc = rt.alloc();
    assert!(rt; is_answered(alloc, &["replay"], &ONE_MEMBER, REPORT, 0)?);
    assert!(rt; is_answered(alloc, &["replay", "short"], &ONE_MEMBER, SHORT_REPORT, 0)?);
    Ok(())
}

#[test]
fn an_input_without_a_report_is_reported_why(rt: HostRuntime) -> Result<(), Fail> {
    let alloc = rt.alloc();
    for (events, line) in STOPPED {
        let input = after_header(alloc, events)?;
        assert!(rt; is_answered(alloc, &["replay"], &input, line, 7)?);
    }
    for (input, line) in [
        (b"".as_slice(), b"stop 7 short 0\n".as_slice()),
        (b"RPX1", b"stop 7 magic 0\n"),
    ] {
        assert!(rt; is_answered(alloc, &["replay", "short"], input, line, 7)?);
    }
    Ok(())
}

/// Gives at most `most` bytes at a time.
#[derive(Drop)]
struct Slow {
    bytes: Vec<u8>,
    at: usize,
    most: usize,
    ghost within: { at ≤ length bytes.items },
}

impl Source for Slow {
    ghost left = { λ s. None };

    ghost faults = { λ s. 0 };

    fn read(&mut self, into: &mut [u8]) -> Result<usize, Failed> {
        let n = into.len().min(self.bytes.len() - self.at).min(self.most);
        into[..n].copy_from_slice(&self.bytes[self.at..self.at + n]);
        self.at += n;
        Ok(n)
    }
}

/// Whether this is written, and the run ends so, where the input comes at most `most` bytes at a time.
fn is_answered_slowly(
    alloc: Global,
    words: &[String],
    bytes: Vec<u8>,
    most: usize,
    written: &[u8],
    ended: u8,
) -> bool {
    let mut source = Slow { bytes, at: 0, most };
    let mut sink = MemSink::new(alloc, Vec::new(alloc));
    let status = rampart(
        alloc,
        words,
        &mut source,
        &mut sink,
        &mut NoDisk::new(),
        &mut NoLink::new(),
    );
    status == ended && sink.bytes() == written
}

#[test]
fn pieces_of_any_size_give_the_same_report(rt: HostRuntime) -> Result<(), Fail> {
    let alloc = rt.alloc();
    let (_, schedule) = run(alloc, &asked(alloc, &["gen", "1"])?, &[], &[])?;
    let words = asked(alloc, &["replay", "short"])?;
    for most in [1, 7, 4096] {
        let bytes = schedule.bytes().to_vec(alloc)?;
        assert!(rt;
            is_answered_slowly(alloc, &words, bytes, most, LARGE_REPORT, 0),
            "{most}"
        );
    }
    Ok(())
}

/// A Pass of a frame that is not sent stops the run, and after it is a byte that is no tag.
#[test]
fn a_fault_of_the_bytes_comes_first_for_every_cut(rt: HostRuntime) -> Result<(), Fail> {
    let alloc = rt.alloc();
    let words = asked(alloc, &["replay"])?;
    for most in 1..70 {
        let bytes = after_header(alloc, b"\x03\x00\x00\x00\x00\x00\x0a")?;
        assert!(rt;
            is_answered_slowly(alloc, &words, bytes, most, b"stop 7 tag 68\n", 7),
            "{most}"
        );
    }
    Ok(())
}

#[test]
fn other_words_stop(rt: HostRuntime) -> Result<(), Fail> {
    for words in [[].as_slice(), &["replays"], &["replay", "long"]] {
        assert!(rt; is_answered(rt.alloc(), words, &ONE_MEMBER, b"stop 2 words\n", 2)?);
    }
    Ok(())
}

/// The first read gives the whole schedule, and the second one fails.
#[test]
fn a_read_that_fails_is_no_end(rt: HostRuntime) -> Result<(), Fail> {
    let alloc = rt.alloc();
    let (status, sink) = run(alloc, &asked(alloc, &["replay"])?, &ONE_MEMBER, &[1])?;
    assert!(rt; status == 3 && sink.bytes() == b"stop 3 read\n".as_slice());
    Ok(())
}

/// Takes ten bytes at a time.
#[derive(Drop)]
struct Narrow<K> {
    sink: K,
}

impl<K: Sink> Sink for Narrow<K> {
    ghost written = { λ s. K.written s.sink };

    ghost faults = { λ s. K.faults s.sink };

    fn write(&mut self, piece: &[u8]) -> Result<usize, Failed> {
        self.sink.write(&piece[..piece.len().min(10)])
    }
}

/// The status where the third call of the output fails, and what was written.
fn run_narrowly(alloc: Global) -> Result<(u8, MemSink), AllocError> {
    let mut source = MemSource::new(ONE_MEMBER.to_vec(alloc)?, Vec::new(alloc));
    let mut output = Narrow {
        sink: MemSink::new(alloc, [2].to_vec(alloc)?),
    };
    let status = rampart(
        alloc,
        &asked(alloc, &["replay"])?,
        &mut source,
        &mut output,
        &mut NoDisk::new(),
        &mut NoLink::new(),
    );
    Ok((status, output.sink))
}

#[test]
fn a_write_that_fails_leaves_a_prefix(rt: HostRuntime) -> Result<(), Fail> {
    let (status, sink) = run_narrowly(rt.alloc())?;
    assert!(rt; status == 4 && sink.bytes() == b"rampart report 1\neve".as_slice());
    Ok(())
}

#[test]
fn a_kit_is_written_as_the_other_program_does(rt: HostRuntime) -> Result<(), Fail> {
    for (words, written, ended) in [
        (KEYGEN.as_slice(), KIT, 0),
        (KEYGEN_OF_LEVELS.as_slice(), KIT_OF_LEVELS, 0),
        (&KEYGEN[..4], b"stop 2 words\n", 2),
    ] {
        assert!(rt; is_answered(rt.alloc(), words, &[], written, ended)?);
    }
    Ok(())
}
