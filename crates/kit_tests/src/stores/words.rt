//! Requests in words, and the lines that submit them.
use std::alloc::Global;
use std::test::Fail;
use store_wording::assembled;

// Whether each line becomes what is said beside it; None where it becomes nothing.
fn become_these(alloc: Global, rows: &[(&[u8], Option<&[u8]>)]) -> Result<bool, Fail> {
    for (line, wanted) in rows {
        if assembled(alloc, line)?.as_deref() != *wanted {
            return Ok(false);
        }
    }
    Ok(true)
}

// Each command, spelled, in hexadecimal and with what a story's line may have; and lines that ask for none.
const REQUESTS: [(&[u8], Option<&[u8]>); 8] = [
    (
        b"0 put 0 \"a\" \"b\"",
        Some(b"0 submit 0000000000000000010161000162\n"),
    ),
    (
        b"0 put 0  61 62   # a is b",
        Some(b"0 submit 0000000000000000010161000162\n"),
    ),
    (b"0 get 1 \"a\"", Some(b"0 submit 0000000000000001020161\n")),
    (
        b"63 remove 18446744073709551615 \"a\"",
        Some(b"63 submit ffffffffffffffff030161\n"),
    ),
    (
        b"1 swap 2 \"a\" - \"\\\"c\"",
        Some(b"1 submit 0000000000000002040161000000022263\n"),
    ),
    (b"0 submit 616263", Some(b"0 submit 616263\n")),
    (b"", Some(b"\n")),
    (b"put 0 \"a\" \"b\"", Some(b"put 0 \"a\" \"b\"\n")),
];

// No value, a process too many, a tag too great and one with a zero before it, no key, a value where none is asked for, half a byte, a text
// that does not end, and one value where two are asked for.
const FAULTY: [(&[u8], Option<&[u8]>); 10] = [
    (b"0 put 0 \"a\"", None),
    (b"64 get 0 \"a\"", None),
    (b"0 get 18446744073709551616 \"a\"", None),
    (b"0 get 00 \"a\"", None),
    (b"0 get 0", None),
    (b"0 get 0 \"\"", None),
    (b"0 get 0 \"a\" \"b\"", None),
    (b"0 remove 0 616", None),
    (b"0 put 0 \"a\" \"b", None),
    (b"0 swap 0 \"a\" \"b\"", None),
];

#[test]
fn requests_in_words_become_lines(rt: HostRuntime) -> Result<(), Fail> {
    assert!(rt; become_these(rt.alloc(), &REQUESTS)?);
    assert!(rt; become_these(rt.alloc(), &FAULTY)?);
    Ok(())
}
