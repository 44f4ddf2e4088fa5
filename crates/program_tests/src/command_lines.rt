//! The programs on command lines, as their mains run them.
ghost use Rattle.std.specs.Io.{WritesAtMost};

use crate::rampart_calls::{KEYGEN, KIT, LARGE_REPORT, ONE_MEMBER, REPORT, SHORT_REPORT};
use crate::story_calls::data::{BYTES, SPENT_KEY, SPENT_TRACE, STORY};
use net_edge::run;
use rampart_cli::rampart;
use rp_base::{MemSink, MemSource, NoDisk, NoLink};
use std::alloc::Global;
use std::env::{Env, FillError};
use std::process::ExitCode;
use std::test::Fail;
use story_cli::story;

/// A command line: the words after the program's name.
#[derive(Drop)]
struct Line<'a> {
    words: &'a [&'a [u8]],
}

fn copied(word: &[u8], buf: &mut [u8]) -> Result<usize, FillError>
    ensures { WritesAtMost result buf.new }
{
    if word.len() > buf.len() {
        return Err(FillError::TooLong);
    }
    buf[..word.len()].copy_from_slice(word);
    Ok(word.len())
}

impl Env for Line<'_> {
    fn arg(&self, i: usize, buf: &mut [u8]) -> Result<usize, FillError> {
        if i == 0 {
            return copied(b"program", buf);
        }
        match self.words.get(i - 1) {
            Some(word) => copied(word, buf),
            None => Err(FillError::NotPresent),
        }
    }

    fn var(&self, _name: &str, _buf: &mut [u8]) -> Result<usize, FillError> {
        Err(FillError::NotPresent)
    }

    fn var_at(&self, _i: usize, _buf: &mut [u8]) -> Result<usize, FillError> {
        Err(FillError::NotPresent)
    }
}

/// How `rampart` ends on these words, and what it writes.
fn on_rampart(alloc: Global, words: &[&[u8]], input: &[u8]) -> Result<(ExitCode, MemSink), Fail> {
    let mut source = MemSource::new(input.to_vec(alloc)?, Vec::new(alloc));
    let mut sink = MemSink::new(alloc, Vec::new(alloc));
    let ended = run(&(Line { words }, alloc), |words| {
        rampart(
            alloc,
            &words,
            &mut source,
            &mut sink,
            &mut NoDisk::new(),
            &mut NoLink::new(),
        )
    })?;
    Ok((ended, sink))
}

/// How `story` ends on this word, and what it writes.
fn on_story(alloc: Global, word: &[u8], input: &[u8]) -> Result<(ExitCode, MemSink), Fail> {
    let mut source = MemSource::new(input.to_vec(alloc)?, Vec::new(alloc));
    let mut sink = MemSink::new(alloc, Vec::new(alloc));
    let mut errors = MemSink::new(alloc, Vec::new(alloc));
    let ended = run(&(Line { words: &[word] }, alloc), |words| {
        story(alloc, &words, &mut source, &mut sink, &mut errors)
    })?;
    Ok((ended, sink))
}

/// Whether `rampart` writes this on these words, and ends so.
fn rampart_answers(
    alloc: Global,
    words: &[&[u8]],
    input: &[u8],
    written: &[u8],
    status: u8,
) -> Result<bool, Fail> {
    let (ended, sink) = on_rampart(alloc, words, input)?;
    Ok(ended == ExitCode::from(status) && sink.bytes() == written)
}

/// Whether `story` ends well on this word, and writes this.
fn story_answers(alloc: Global, word: &[u8], input: &[u8], written: &[u8]) -> Result<bool, Fail> {
    let (ended, sink) = on_story(alloc, word, input)?;
    Ok(ended == ExitCode::from(0) && sink.bytes() == written)
}

#[test]
fn rampart_ends_on_each_command(rt: HostRuntime) -> Result<(), Fail> {
    let keygen = KEYGEN.map(|word: &str| word.as_bytes());
    for (words, written, status) in [
        ([b"replay".as_slice()].as_slice(), REPORT, 0),
        (&[b"replay", b"short"], SHORT_REPORT, 0),
        (&[b"chain"], b"stop 7 line 1\n", 7),
        (&keygen, KIT, 0),
        (&[], b"stop 2 words\n", 2),
        (&[b"replay", b"\xff"], b"stop 2 words\n", 2),
    ] {
        assert!(rt; rampart_answers(rt.alloc(), words, &ONE_MEMBER, written, status)?);
    }
    Ok(())
}

#[test]
fn a_schedule_that_rampart_makes_it_replays(rt: HostRuntime) -> Result<(), Fail> {
    let (made, schedule) = on_rampart(rt.alloc(), &[b"gen", b"1"], &[])?;
    assert_eq!(rt; made, ExitCode::from(0));
    let words = [b"replay".as_slice(), b"short"];
    assert!(rt; rampart_answers(rt.alloc(), &words, schedule.bytes(), LARGE_REPORT, 0)?);
    Ok(())
}

#[test]
fn story_ends_on_each_command(rt: HostRuntime) -> Result<(), Fail> {
    for (word, input, written) in [
        (b"assemble".as_slice(), STORY, BYTES),
        (b"text", BYTES, STORY),
        (b"run", SPENT_KEY, SPENT_TRACE),
    ] {
        assert!(rt; story_answers(rt.alloc(), word, input, written)?);
    }
    let (ended, picture) = on_story(rt.alloc(), b"draw", SPENT_KEY)?;
    assert!(rt; ended == ExitCode::from(0) && picture.bytes().starts_with(b"<svg"));
    Ok(())
}
