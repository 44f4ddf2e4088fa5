//! The word `chain` over streams in memory. Kits, proofs and answers were made by another program.
use crate::rampart_calls::asked;
use rampart_cli::rampart;
use rp_base::{MemSink, MemSource, NoDisk, NoLink};
use std::alloc::{AllocError, Global};
use std::test::Fail;

/// A kit of the processes 0 and 1; 0 alone is a member.
const KIT: &[u8] = b"rampart kit 1
scheme plain
group 6f289d5b5aa425dc2f365877e4cf8595
key 0 2dd447ac7305bc84b2dc0da0fe9411f33e1af724d30036daa8b9c930ce8b3722
key 1 00d30be9d2cd77737e2bbd0d7678b8b6c35b2fa04810456308028c71958103a5
genesis 0
port 0 47000
port 1 47001
host 0 plain 100
pair 0 1 e5d93ab81fbaf5647142a212f6fec7a66fc65a8250045aaf87c78aa3de95e3e9
host 1 plain 100
pair 1 0 e5d93ab81fbaf5647142a212f6fec7a66fc65a8250045aaf87c78aa3de95e3e9
go
";

/// Process 0 is ready to add process 1.
const ADDED: &[u8] =
    b"proof 01020400080b00000002010001010000202cd47032c3d2282ea720305186c7350d254e81a370fbf8fab6c403d229a54b3a000804000000000000000100\
0020c5289626e044c8d8ca858193426b390e0845b012f47b66fb6bc41728d92270970016020000000000000e000000000000000001016100016201000020318261\
7e23a078f285bf03be978a7950e0b36a9cba3ac8f4567c8a6ec1bd83410008050000000000000001000020c2d7aac53f0582fe849a3bdbd6232ce6e05beadd1c7d\
d69e7ac884c09d6df1a4\n";

const WANT: &[u8] = b"proof 010300000000\n";

/// What follows the kit, and the answer to both.
const ANSWERED: [(&[&[u8]], &[u8], u8); 7] = [
    (&[], b"view 0 : 0\n", 0),
    (&[ADDED], b"view 0 : 0\nview 1 : 0 1\n", 0),
    (
        &[ADDED, ADDED],
        b"view 0 : 0\nview 1 : 0 1\nstop 7 few 15 0\n",
        7,
    ),
    (&[WANT], b"view 0 : 0\nstop 7 notproof 14\n", 7),
    (&[b"proof 01\n"], b"view 0 : 0\nstop 7 frame 14 short\n", 7),
    (
        &[ADDED, b"view 1 : 0 1\n"],
        b"view 0 : 0\nview 1 : 0 1\nstop 7 line 15\n",
        7,
    ),
    (&[b"proof 01"], b"view 0 : 0\nstop 7 line 14\n", 7),
];

/// The public lines of a kit of four members, and the proofs with which 4 was answered in a run: 3 was removed, and then 4 was added.
const OF_FOUR: &[u8] = b"rampart kit 1
scheme plain
group 210d015441515f6cd6eb6e4217d67ffa
key 0 d174b8a0d992b22cbf511816b4a5a4fe12ab85b413b2fcea38a292c0b0b30c0b
key 1 9126a7d4e0384b08934e579d2ed49b338ad4fa53570fbcab1a8e453a8af0ec16
key 2 cc349b0a7a977169799019e65ffd2d1c920438c7f2c1305df41ed7cf51bdac6d
key 3 c6112e41e3790446520cff0a7da5fafd0cccefb1199b4c2b588b03e439796d3e
key 4 06e57bebc01aaa5e6ae3dc4af93e0f4bccead4679aeb03f482b99768cf2e50c4
genesis 0 1 2 3
port 0 47000
port 1 47001
port 2 47002
port 3 47003
port 4 47004
go
proof 01020100080b0000000103000003000020da28d112cccddae1f4ca2530edea9438e3bce958ccbf64e838c23cae5ca0c08c020020a50c540f34a7a43afcd4\
d0c342ca50aa27fd92b28ac5612d414f04367cc872eb030020c8333fcdd1bcb1ee00717eb06b5a4aedb317668079592d5cfc0c75e97ef19407
proof 01020100080b000100020400000300002067a96f137ee6b9b02dd09b262dfc35056ae207bec7a32637e5591ab775a758ea010020de56218db43da650e25f\
fff2dc3f32d1afc696a60a64cc080a23446b2fcb2aa5020020a12ea5509228051d05e2e1b6e472e7d5d8284629c79a58f1078e292a46d8790a
";

/// The public lines of `KIT`, without the genesis line.
const NO_GENESIS: &[u8] = b"rampart kit 1
scheme plain
group 6f289d5b5aa425dc2f365877e4cf8595
key 0 2dd447ac7305bc84b2dc0da0fe9411f33e1af724d30036daa8b9c930ce8b3722
key 1 00d30be9d2cd77737e2bbd0d7678b8b6c35b2fa04810456308028c71958103a5
port 0 47000
port 1 47001
go
";

/// The answer to an input whose reads and writes with these numbers fail.
fn answered(
    alloc: Global,
    input: &[u8],
    failing: [&[u64]; 2],
) -> Result<(u8, MemSink), AllocError> {
    let [reads, writes] = failing;
    let mut source = MemSource::new(input.to_vec(alloc)?, reads.to_vec(alloc)?);
    let mut sink = MemSink::new(alloc, writes.to_vec(alloc)?);
    let status = rampart(
        alloc,
        &asked(alloc, &["chain"])?,
        &mut source,
        &mut sink,
        &mut NoDisk::new(),
        &mut NoLink::new(),
    );
    Ok((status, sink))
}

/// Whether this is written of an input, and the run ends so, where no call fails.
fn is_answered(alloc: Global, input: &[u8], written: &[u8], ended: u8) -> Result<bool, AllocError> {
    let (status, sink) = answered(alloc, input, [&[], &[]])?;
    Ok(status == ended && sink.bytes() == written)
}

/// The kit, and these lines.
fn after_kit(alloc: Global, lines: &[&[u8]]) -> Result<Vec<u8>, AllocError> {
    let mut input = KIT.to_vec(alloc)?;
    for line in lines {
        input.extend_from_slice(line)?;
    }
    Ok(input)
}

#[test]
fn each_proof_is_answered_by_its_view_or_its_fault(rt: HostRuntime) -> Result<(), Fail> {
    for (lines, written, ended) in ANSWERED {
        let input = after_kit(rt.alloc(), lines)?;
        assert!(rt; is_answered(rt.alloc(), &input, written, ended)?);
    }
    Ok(())
}

#[test]
fn public_lines_of_a_kit_are_enough(rt: HostRuntime) -> Result<(), Fail> {
    let written = b"view 0 : 0 1 2 3\nview 1 : 0 1 2\nview 2 : 0 1 2 4\n";
    assert!(rt; is_answered(rt.alloc(), OF_FOUR, written, 0)?);
    Ok(())
}

#[test]
fn a_fault_of_the_kit_ends_the_chain(rt: HostRuntime) -> Result<(), Fail> {
    for (input, written) in [
        (b"".as_slice(), b"stop 7 line 1\n".as_slice()),
        (NO_GENESIS, b"stop 7 missing 6\n"),
    ] {
        assert!(rt; is_answered(rt.alloc(), input, written, 7)?);
    }
    Ok(())
}

/// The first write is the line of the first view.
#[test]
fn what_was_written_before_a_failed_call_stays(rt: HostRuntime) -> Result<(), Fail> {
    let input = after_kit(rt.alloc(), &[ADDED])?;
    for (failing, written, ended) in [
        ([[].as_slice(), &[1]], b"view 0 : 0\n".as_slice(), 4),
        ([&[0], &[]], b"stop 3 read\n", 3),
    ] {
        let (status, sink) = answered(rt.alloc(), &input, failing)?;
        assert!(rt; status == ended && sink.bytes() == written);
    }
    Ok(())
}
