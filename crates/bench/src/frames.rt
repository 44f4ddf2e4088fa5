//! Splits one Bundle again and again, to be timed from outside. The words are its number of groups, 1 to 255, and the
//! number of times.
use anyhow::{Result, anyhow};
use frame_codec::{FrameView, split_frame};
use std::alloc::{AllocError, Global};

// A statement of 16 bytes with one signature of 32.
const GROUP: [u8; 54] = [
    0, 16, 2, 2, 2, 2, 2, 2, 2, 2, 2, 2, 2, 2, 2, 2, 2, 2, 1, 3, 0, 32, 4, 4, 4, 4, 4, 4, 4, 4, 4,
    4, 4, 4, 4, 4, 4, 4, 4, 4, 4, 4, 4, 4, 4, 4, 4, 4, 4, 4, 4, 4, 4, 4,
];

fn bundle(alloc: Global, groups: u8) -> Result<Vec<u8>, AllocError> {
    let mut frame = vec![in alloc; 1, 1, groups]?;
    for _ in 0..groups {
        frame.extend_from_slice(&GROUP)?;
    }
    Ok(frame)
}

// How many times the frame was read. A byte of it changes each time.
fn split_again(frame: &mut [u8], times: u32) -> u32 {
    let mut read = 0u32;
    for _ in 0..times {
        if let Some(last) = frame.last_mut() {
            *last = last.wrapping_add(1);
        }
        if let Ok(FrameView::Bundle(_)) = split_frame(frame) {
            read = read.wrapping_add(1);
        }
    }
    read
}

fn tell(rt: &(impl Print + AllocGlobal), groups: u8, times: u32) -> Result<()> {
    let mut frame = bundle(rt.alloc(), groups)?;
    let read = split_again(&mut frame, times);
    let len = frame.len();
    println!(rt; "{groups} groups in {len} bytes, read {read} times")?;
    Ok(())
}

/// Splits a Bundle of 16 groups ten times.
pub(crate) fn once(rt: &(impl Print + AllocGlobal)) -> Result<()> {
    tell(rt, 16, 10)
}

/// Splits a Bundle as the words say.
pub(crate) fn split(rt: &(impl Print + AllocGlobal), words: &[String]) -> Result<()> {
    let groups = words.first().and_then(|word| word.parse().ok());
    let times = words.get(1).and_then(|word| word.parse().ok());
    match (groups, times) {
        (Some(groups), Some(times)) => tell(rt, groups, times),
        _ => Err(anyhow!("the words are a number of groups and of times")),
    }
}
