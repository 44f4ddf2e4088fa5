//! A kit that another program made, at the front of an input.
use kit_reading::{FrontFault, KitFault, Lines, Next, read_front};
use rp_base::MemSource;
use std::alloc::{AllocError, Global};
use std::test::Fail;

/// The lines of the kit; the last four are those of its hosts.
const LINES: [&[u8]; 12] = [
    b"rampart kit 1\n",
    b"scheme plain\n",
    b"group 7bc1055b45b28cee5c8ff88b7e033b4d\n",
    b"key 0 5f692434b22b3a9d56787c6659dfbad28e8bfb826b7aaaf0a239a9fae9f4e139\n",
    b"key 1 c19b3831267cf3b627ac08d69957379e26e65f42242bebb414570c9851716c05\n",
    b"genesis 0 1\n",
    b"port 0 47000\n",
    b"port 1 47001\n",
    b"host 0 plain 100\n",
    b"pair 0 1 bae502aee8922b26f47fe176231dd06c7561844e056c446ee6e67db5929ef5bb\n",
    b"host 1 plain 100\n",
    b"pair 1 0 bae502aee8922b26f47fe176231dd06c7561844e056c446ee6e67db5929ef5bb\n",
];

fn text_of(alloc: Global, lines: &[&[u8]]) -> Result<Vec<u8>, AllocError> {
    let mut text = Vec::new(alloc);
    for line in lines {
        text.extend_from_slice(line)?;
    }
    Ok(text)
}

/// Why there is no kit at the front of an input, if there is none.
fn fault_of(alloc: Global, text: Vec<u8>) -> Option<FrontFault> {
    let mut input = MemSource::new(text, Vec::new(alloc));
    let mut lines = Lines::new(alloc);
    read_front(alloc, &mut lines, &mut input).err()
}

#[test]
fn what_comes_after_go_is_left(rt: HostRuntime) -> Result<(), Fail> {
    let mut text = text_of(rt.alloc(), &LINES)?;
    text.extend_from_slice(b"go\n0 tick\n")?;
    let mut input = MemSource::new(text, Vec::new(rt.alloc()));
    let mut lines = Lines::new(rt.alloc());
    let front = read_front(rt.alloc(), &mut lines, &mut input)?;
    assert!(rt; front.go == 13 && front.kit.genesis().len() == 2);
    let next = lines.read(&mut input, 70_000)?;
    assert!(rt; next == Next::Line && lines.line() == b"0 tick".as_slice());
    Ok(())
}

#[test]
fn no_kit_ends_without_go(rt: HostRuntime) -> Result<(), Fail> {
    let text = text_of(rt.alloc(), &LINES)?;
    let fault = fault_of(rt.alloc(), text);
    assert_eq!(rt; fault, Some(FrontFault::Kit(KitFault::Line { line: 13 })));
    Ok(())
}

#[test]
fn go_comes_after_the_last_line(rt: HostRuntime) -> Result<(), Fail> {
    let mut text = text_of(rt.alloc(), &LINES[..11])?;
    text.extend_from_slice(b"go\n")?;
    let fault = fault_of(rt.alloc(), text);
    assert_eq!(rt;
        fault,
        Some(FrontFault::Kit(KitFault::Missing { line: 12 }))
    );
    Ok(())
}
