//! What `ask` is to read, made of lines that nodes wrote.
use rp_base::{MemSink, MemSource};
use std::alloc::Global;
use std::test::Fail;
use store_questions::write_question;

const KIT: &[u8] = b"rampart kit 1
scheme plain
group 6f289d5b5aa425dc2f365877e4cf8595
key 0 2dd447ac7305bc84b2dc0da0fe9411f33e1af724d30036daa8b9c930ce8b3722
genesis 0
port 0 47000
go
";

// A key, a request with its reply, and another one, as a node wrote them, and lines that say nothing.
const WRITTEN: &[u8] = b"host 0 view 0 delivered 0 entries 0
replykey 0 c812792564484ed2db7d7a0479050f49eb7bcd71e7fcd29432c45a891508a94b
deliver 0 0 0 0 0 0000000000000000010161000162
reply 0 000000000000000e00000000000000000101610001620001000020c30f02c6e7865639d258b1b374c743a79fefcd59d5cd8383a7c50c8939ebe0db
deliver 0 0 1 0 1 0000000000000001020161
  get 1 \"a\"
reply 0 000000000100000b0000000000000001020161000201620020a737d1c1150f49f398e5f7e25df506af19ab5e9f375d2ad62a4a6f222dd661b4
replykey 0 0000000000000000000000000000000000000000000000000000000000000000
";

const ASKED: &[u8] = b"replykey 0 c812792564484ed2db7d7a0479050f49eb7bcd71e7fcd29432c45a891508a94b
view 0 : 0
reply 0 000000000100000b0000000000000001020161000201620020a737d1c1150f49f398e5f7e25df506af19ab5e9f375d2ad62a4a6f222dd661b4
";

const PAYLOAD: &[u8] = b"\0\0\0\0\0\0\0\x01\x02\x01a";

// The status, and what is written to the output and to standard error, of a kit and these lines.
fn made_of(alloc: Global, lines: &[u8]) -> Result<(u8, MemSink, MemSink), Fail> {
    let mut whole = KIT.to_vec(alloc)?;
    whole.extend_from_slice(lines)?;
    let mut input = MemSource::new(whole, Vec::new(alloc));
    let mut output = MemSink::new(alloc, Vec::new(alloc));
    let mut errors = MemSink::new(alloc, Vec::new(alloc));
    let status = write_question(alloc, PAYLOAD, &mut input, &mut output, &mut errors);
    Ok((status, output, errors))
}

#[test]
fn what_ask_is_to_read_is_made_of_lines(rt: HostRuntime) -> Result<(), Fail> {
    let mut wanted = KIT.to_vec(rt.alloc())?;
    wanted.extend_from_slice(ASKED)?;
    let (status, output, errors) = made_of(rt.alloc(), WRITTEN)?;
    assert_eq!(rt; status, 0);
    assert!(rt; output.bytes() == wanted.as_slice());
    assert!(rt; errors.bytes().is_empty());
    Ok(())
}

#[test]
fn a_line_that_is_cut_is_told(rt: HostRuntime) -> Result<(), Fail> {
    let (status, output, errors) = made_of(rt.alloc(), b"reply 0 none")?;
    assert_eq!(rt; status, 7);
    assert!(rt; output.bytes().is_empty());
    assert!(rt; errors.bytes() == b"stop 7 line 8\n".as_slice());
    Ok(())
}
