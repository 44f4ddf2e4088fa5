use crate::tutorial::data::{FAULTS, REPORTS, TRACES};
use rampart_cli::rampart;
use rp_base::{MemSink, MemSource, NoDisk, NoLink};
use std::alloc::{AllocError, Global};
use std::test::Fail;
use story_cli::story;

/// One word.
fn asked(alloc: Global, word: &str) -> Result<Vec<String>, AllocError> {
    let mut words = Vec::new(alloc);
    words.push(String::from_str(alloc, word)?)?;
    Ok(words)
}

/// The status of `story`, and what it wrote and reported.
fn reported(alloc: Global, word: &str, input: &[u8]) -> Result<(u8, MemSink, MemSink), AllocError> {
    let mut source = MemSource::new(input.to_vec(alloc)?, Vec::new(alloc));
    let mut sink = MemSink::new(alloc, Vec::new(alloc));
    let mut errors = MemSink::new(alloc, Vec::new(alloc));
    let status = story(
        alloc,
        &asked(alloc, word)?,
        &mut source,
        &mut sink,
        &mut errors,
    );
    Ok((status, sink, errors))
}

/// The status of `rampart replay`, and what it wrote.
fn replayed(alloc: Global, input: &[u8]) -> Result<(u8, MemSink), AllocError> {
    let mut source = MemSource::new(input.to_vec(alloc)?, Vec::new(alloc));
    let mut sink = MemSink::new(alloc, Vec::new(alloc));
    let status = rampart(
        alloc,
        &asked(alloc, "replay")?,
        &mut source,
        &mut sink,
        &mut NoDisk::new(),
        &mut NoLink::new(),
    );
    Ok((status, sink))
}

/// Whether the part is in the text.
fn shows(text: &[u8], part: &[u8]) -> bool {
    (0..text.len()).any(|at| text[at..].starts_with(part))
}

/// Whether the run of a story has this report.
fn has_report(alloc: Global, text: &[u8], report: &[u8]) -> Result<bool, AllocError> {
    let (assembled, schedule, _errors) = reported(alloc, "assemble", text)?;
    let (ended, written) = replayed(alloc, schedule.bytes())?;
    Ok([assembled, ended] == [0, 0] && written.bytes() == report)
}

/// Whether the trace of the run of a story shows this part.
fn has_shown(alloc: Global, text: &[u8], part: &[u8]) -> Result<bool, AllocError> {
    let (assembled, schedule, _errors) = reported(alloc, "assemble", text)?;
    let (ended, trace, _errors) = reported(alloc, "run", schedule.bytes())?;
    Ok([assembled, ended] == [0, 0] && shows(trace.bytes(), part))
}

/// Whether a text is no story for what this line says.
fn is_fault(alloc: Global, text: &[u8], line: &[u8]) -> Result<bool, AllocError> {
    let (status, written, errors) = reported(alloc, "assemble", text)?;
    Ok(status == 5 && written.bytes().is_empty() && errors.bytes() == line)
}

#[test]
fn each_story_has_the_report_that_is_shown(rt: HostRuntime) -> Result<(), Fail> {
    for (text, report) in REPORTS {
        assert!(rt; has_report(rt.alloc(), text, report)?);
    }
    Ok(())
}

#[test]
fn what_is_shown_of_a_run_stands_in_its_trace(rt: HostRuntime) -> Result<(), Fail> {
    for (text, part) in TRACES {
        assert!(rt; has_shown(rt.alloc(), text, part)?);
    }
    Ok(())
}

#[test]
fn a_text_that_is_no_story_is_reported_as_shown(rt: HostRuntime) -> Result<(), Fail> {
    for (text, line) in FAULTS {
        assert!(rt; is_fault(rt.alloc(), text, line)?);
    }
    Ok(())
}
