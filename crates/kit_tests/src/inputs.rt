//! Lines of an input.
use line_input::{InputFault, Lines, Next};
use rp_base::MemSource;
use std::test::Fail;

/// Whether the next lines of at most five bytes are these.
fn are_next(
    lines: &mut Lines,
    input: &mut MemSource,
    wanted: &[&[u8]],
) -> Result<bool, InputFault> {
    for line in wanted {
        if lines.read(input, 5)? != Next::Line || lines.line() != *line {
            return Ok(false);
        }
    }
    Ok(true)
}

/// Six bytes are none of five, and nothing of them was taken.
#[test]
fn a_line_has_at_most_so_many_bytes(rt: HostRuntime) -> Result<(), Fail> {
    let bytes = b"one\n\nabcde\nabcdef\n".to_vec(rt.alloc())?;
    let mut input = MemSource::new(bytes, Vec::new(rt.alloc()));
    let mut lines = Lines::new(rt.alloc());
    assert!(rt; are_next(&mut lines, &mut input, &[b"one", b"", b"abcde"])?);
    let rest = [
        lines.read(&mut input, 5)?,
        lines.read(&mut input, 6)?,
        lines.read(&mut input, 6)?,
    ];
    assert!(rt; rest == [Next::Broken, Next::Line, Next::End]);
    Ok(())
}

#[test]
fn the_end_ends_no_line(rt: HostRuntime) -> Result<(), Fail> {
    let bytes = b"a\nb".to_vec(rt.alloc())?;
    let mut input = MemSource::new(bytes, Vec::new(rt.alloc()));
    let mut lines = Lines::new(rt.alloc());
    let read = [lines.read(&mut input, 9)?, lines.read(&mut input, 9)?];
    assert!(rt; read == [Next::Line, Next::Broken]);
    Ok(())
}

#[test]
fn a_failed_read_loses_nothing(rt: HostRuntime) -> Result<(), Fail> {
    let mut bytes = Vec::new(rt.alloc());
    bytes.resize(40_000, b'a')?;
    bytes.push(b'\n')?;
    let mut failing = Vec::new(rt.alloc());
    failing.push(1)?;
    let mut input = MemSource::new(bytes, failing);
    let mut lines = Lines::new(rt.alloc());
    assert_eq!(rt;
        lines.read(&mut input, 40_000).err(),
        Some(InputFault::Read)
    );
    assert_eq!(rt; lines.read(&mut input, 40_000)?, Next::Line);
    assert_eq!(rt; lines.line().len(), 40_000);
    Ok(())
}
