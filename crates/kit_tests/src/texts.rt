use std::test::Fail;
use text_codec::{
    Parts, WordFault, byte_list, bytes, number, process, push_byte_list, push_hex, push_number,
};

// Whether these are the next parts, and no part is left then.
fn are_left(parts: &mut Parts, wanted: &[&[u8]]) -> bool {
    for part in wanted {
        if parts.next() != Some(*part) {
            return false;
        }
    }
    let is_done = parts.is_done();
    let is_none_next = parts.next().is_none();
    is_done && is_none_next
}

#[test]
fn a_text_is_cut_into_lines_and_words(rt: HostRuntime) {
    let mut parts = Parts::words(b"a b c");
    assert!(rt; are_left(&mut parts, &[b"a", b"b", b"c"]));
    let mut lines = Parts::lines(b"key 3  00ff\n");
    let mut words = Parts::words(lines.next().unwrap_or(b""));
    assert!(rt; are_left(&mut words, &[b"key", b"3", b"", b"00ff"]));
    assert!(rt; are_left(&mut lines, &[b""]));
}

#[test]
fn words_are_read(rt: HostRuntime) {
    for (word, most, read) in [
        (b"4294967295".as_slice(), 4_294_967_295, Some(4_294_967_295)),
        (b"4294967296", 4_294_967_295, None),
        (b"08", 9, None),
        (b"", 9, None),
    ] {
        assert_eq!(rt; number(word, 0, most), read);
    }
    for (word, read) in [(b"63", Some(63)), (b"64", None)] {
        assert_eq!(rt; process(word).map(|p| p.get()), read);
    }
    for (word, read) in [
        (b"00ff".as_slice(), Some([0, 255])),
        (b"00fF", None),
        (b"00ff00", None),
    ] {
        assert_eq!(rt; bytes::<2>(word), read);
    }
}

#[test]
fn words_are_written(rt: HostRuntime) -> Result<(), Fail> {
    let mut out = Vec::new(rt.alloc());
    push_number(&mut out, 18_446_744_073_709_551_615)?;
    push_hex(&mut out, &[0, 0xab])?;
    assert_eq!(rt; out.as_slice(), b"1844674407370955161500ab".as_slice());
    Ok(())
}

#[test]
fn bytes_of_any_number_are_a_word(rt: HostRuntime) -> Result<(), Fail> {
    for (word, read) in [
        (b"-".as_slice(), b"".as_slice()),
        (b"00ab", &[0, 0xab]),
        (b"ff", &[0xff]),
    ] {
        assert_eq!(rt; byte_list(rt.alloc(), word)?.as_slice(), read);
        let mut out = Vec::new(rt.alloc());
        push_byte_list(&mut out, read)?;
        assert_eq!(rt; out.as_slice(), word);
    }
    for word in [b"".as_slice(), b"0", b"0g", b"0A", b"--", b"- "] {
        assert_eq!(rt; byte_list(rt.alloc(), word).err(), Some(WordFault::NoBytes));
    }
    Ok(())
}
