use crate::story_calls::data::{
    BYTES, LOOSE, SPENT_KEY, SPENT_TRACE, STOPPED_TRACE, STORY, TOO_EARLY,
};
use rp_base::{MemSink, MemSource};
use std::alloc::{AllocError, Global};
use std::test::Fail;
use story_cli::story;

/// Texts that are no stories, and what is reported of them. The lines before are those of a group of one.
const FAULTS: [(&[u8], &[u8]); 6] = [
    (b"submit 1 \"a\"\n", b"line 5: expected submit P PAYLOAD: "),
    (
        b"\n# two\nsubmit 0 \"a\n",
        b"line 7: expected a quote that ends the text",
    ),
    (b"tick 0\ntock 0\n", b"line 6: expected an event: "),
    (
        b"drain 4294967296 to all\n",
        b"line 5: expected drain COUNT to MASK: ",
    ),
    (
        b"tick 0\ndrain 1000000 to all\n",
        b"line 6: expected at most 1000000 steps: ",
    ),
    (b"genesis 0\n", b"line 5: expected an event: "),
];

const FRONT: &[u8] =
    b"group 00000000000000000000000000000000 plain\nprocess 0 correct plain 9\ngenesis 0\ntick 0\n";

/// The status, and what was written to the output and as errors.
fn run(
    alloc: Global,
    word: &str,
    input: &[u8],
    failing: [&[u64]; 2],
) -> Result<(u8, MemSink, MemSink), AllocError> {
    let mut words = Vec::new(alloc);
    words.push(String::from_str(alloc, word)?)?;
    let [reads, writes] = failing;
    let mut source = MemSource::new(input.to_vec(alloc)?, reads.to_vec(alloc)?);
    let mut sink = MemSink::new(alloc, writes.to_vec(alloc)?);
    let mut errors = MemSink::new(alloc, Vec::new(alloc));
    let status = story(alloc, &words, &mut source, &mut sink, &mut errors);
    Ok((status, sink, errors))
}

/// Whether the run of an input ends well, with no errors, and writes this.
fn is_answered(
    alloc: Global,
    word: &str,
    input: &[u8],
    written: &[u8],
) -> Result<bool, AllocError> {
    let (status, sink, errors) = run(alloc, word, input, [&[], &[]])?;
    Ok(status == 0 && errors.bytes().is_empty() && sink.bytes() == written)
}

/// Whether the run ends so, writes nothing, and says this and perhaps more as errors.
fn is_reported(
    alloc: Global,
    word: &str,
    input: &[u8],
    line: &[u8],
    ended: u8,
) -> Result<bool, AllocError> {
    let (status, sink, errors) = run(alloc, word, input, [&[], &[]])?;
    Ok(status == ended && sink.bytes().is_empty() && errors.bytes().starts_with(line))
}

/// These bytes one after the other.
fn joined(alloc: Global, front: &[u8], rest: &[u8]) -> Result<Vec<u8>, AllocError> {
    let mut bytes = front.to_vec(alloc)?;
    bytes.extend_from_slice(rest)?;
    Ok(bytes)
}

#[test]
fn a_schedule_is_reported_and_assembled(rt: HostRuntime) -> Result<(), Fail> {
    for (word, input, written) in [
        ("text", BYTES, STORY),
        ("assemble", STORY, BYTES),
        ("assemble", LOOSE, BYTES),
    ] {
        assert!(rt; is_answered(rt.alloc(), word, input, written)?);
    }
    Ok(())
}

#[test]
fn what_happens_in_a_run_is_reported(rt: HostRuntime) -> Result<(), Fail> {
    assert!(rt; is_answered(rt.alloc(), "run", SPENT_KEY, SPENT_TRACE)?);
    let longer = joined(rt.alloc(), SPENT_KEY, TOO_EARLY)?;
    let trace = joined(rt.alloc(), SPENT_TRACE, STOPPED_TRACE)?;
    assert!(rt; is_answered(rt.alloc(), "run", &longer, &trace)?);
    Ok(())
}

#[test]
fn a_fault_is_reported_with_its_line(rt: HostRuntime) -> Result<(), Fail> {
    for (after, line) in FAULTS {
        let input = joined(rt.alloc(), FRONT, after)?;
        assert!(rt; is_reported(rt.alloc(), "assemble", &input, line, 5)?);
    }
    Ok(())
}

#[test]
fn what_is_missing_at_the_end_is_reported(rt: HostRuntime) -> Result<(), Fail> {
    let line = b"line 1: expected group NAME SCHEME";
    assert!(rt; is_reported(rt.alloc(), "assemble", b"", line, 5)?);
    let (status, _text, errors) = run(rt.alloc(), "text", b"RPS4", [&[], &[]])?;
    assert!(rt; status == 7 && errors.bytes() == b"stop 7 magic 0\n".as_slice());
    Ok(())
}

#[test]
fn a_run_is_of_a_schedule_or_a_story(rt: HostRuntime) -> Result<(), Fail> {
    let (status, trace, errors) = run(rt.alloc(), "run", BYTES, [&[], &[]])?;
    assert!(rt; status == 0 && errors.bytes().is_empty());
    assert!(rt; is_answered(rt.alloc(), "run", STORY, trace.bytes())?);
    for (word, input, line, ended) in [
        ("run", b"RPS4".as_slice(), b"stop 7 magic 0\n".as_slice(), 7),
        ("draw", b"RPS4", b"stop 7 magic 0\n", 7),
        ("run", b"tick 0\n", b"line 1: expected group NAME SCHEME", 5),
        ("draw", b"", b"line 1: expected group NAME SCHEME", 5),
    ] {
        assert!(rt; is_reported(rt.alloc(), word, input, line, ended)?);
    }
    Ok(())
}

#[test]
fn a_run_is_drawn(rt: HostRuntime) -> Result<(), Fail> {
    let (status, sink, errors) = run(rt.alloc(), "draw", BYTES, [&[], &[]])?;
    assert!(rt; status == 0 && errors.bytes().is_empty());
    let picture = sink.bytes();
    assert!(rt; picture.starts_with(b"<svg xmlns='http://www.w3.org/2000/svg' "));
    assert!(rt; picture.ends_with(b"</svg>\n"));
    assert!(rt; is_answered(rt.alloc(), "draw", STORY, picture)?);
    Ok(())
}

#[test]
fn other_words_and_failing_streams_have_their_statuses(rt: HostRuntime) -> Result<(), Fail> {
    for (word, failing, ended, reported) in [
        (
            "disassemble",
            [[].as_slice(), &[]],
            2,
            b"stop 2 words\n".as_slice(),
        ),
        ("text", [&[1], &[]], 3, b"stop 3 read\n"),
        ("text", [&[], &[0]], 4, b""),
    ] {
        let (status, out, errors) = run(rt.alloc(), word, BYTES, failing)?;
        assert!(rt; status == ended && out.bytes().is_empty() && errors.bytes() == reported);
    }
    Ok(())
}
