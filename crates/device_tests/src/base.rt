ghost use Rattle.std.specs.Prelude.{◌≡◌, ◌<◌};

use rp_base::*;
use std::test::Fail;

fn pid(n: u8) -> Pid
    requires { n < 64 }
    ensures { result ≡ n }
{
    match Pid::new(n) {
        Some(p) => p,
        None => unreachable!(),
    }
}

#[test]
fn sets_give_their_members_rising(rt: HostRuntime) {
    let mut set = PidSet::from_mask(1 << 63);
    set.insert(pid(5));
    set.insert(pid(0));
    let mut numbers = 0u32;
    for p in set.iter() {
        numbers = numbers.wrapping_mul(100).wrapping_add(u32::from(p.get()));
    }
    assert!(rt; numbers == 563);
    assert!(rt; set.contains(pid(5)) && !set.contains(pid(6)));
    assert!(rt; set.pop_first().is_some() && set.mask() == 0x8000_0000_0000_0020);
    assert!(rt; set != PidSet::new());
}

#[test]
fn values_are_ordered(rt: HostRuntime) {
    let add = Update::Add(pid(1));
    let early = Value {
        update: Update::Remove(pid(9)),
        cut: 4,
    };
    let late = Value {
        update: add,
        cut: 3,
    };
    assert!(rt; add.is_before(Update::Renew) && early.is_before(late));
}

#[test]
fn rosters_give_each_process_its_key(rt: HostRuntime) -> Result<(), Fail> {
    let mut roster = Roster::new(rt.alloc())?;
    roster.add(pid(2), GroupId([7; 16]).bytes())?;
    assert!(rt; roster.key(pid(2)).is_some() && roster.key(pid(3)).is_none());
    assert!(rt; roster.processes().mask() == 4);
    Ok(())
}

// SHA-256 of 32 zeros and "abc", by another program.
const SIGNED: [u8; 32] = [
    0x36, 0x5a, 0xa7, 0xd8, 0xf7, 0xf9, 0x40, 0x2c, 0x4b, 0x94, 0x34, 0x50, 0x2b, 0x4c, 0xc8, 0x9d,
    0xdb, 0x09, 0xfe, 0x50, 0xd7, 0xcd, 0x95, 0xb4, 0x93, 0xb8, 0x34, 0xc6, 0x2d, 0x5a, 0x53, 0x70,
];

#[test]
fn plain_signatures_are_digests_and_run_out(rt: HostRuntime) {
    let mut signer = PlainSigner::new([0; 32], 2);
    let mut out = [0u8; 32];
    signer.skip_to(1);
    assert!(rt; signer.sign(b"abc", &mut out).is_ok() && out == SIGNED);
    assert!(rt; PlainScheme.verify(signer.public(), b"abc", &out));
    assert!(rt; signer.sign(b"abc", &mut out).is_err());
    let mut count = Count::new(3);
    count.skip_to(2);
    assert!(rt; count.used() == 2 && count.total() == 3);
}

#[test]
fn plain_keys_are_not_printed(rt: HostRuntime) -> Result<(), Fail> {
    let mut signer = PlainSigner::new([93; 32], 2);
    signer.skip_to(1);
    let printed = format!(in rt.alloc(); "{signer:?}")?;
    assert_eq!(rt; printed.as_str(), "PlainSigner { total: 2, used: 1, .. }");
    Ok(())
}

#[test]
fn devices_go_on_after_a_call_that_fails(rt: HostRuntime) -> Result<(), Fail> {
    let alloc = rt.alloc();
    let mut source = MemSource::new(
        Vec::from_slice(alloc, b"abcde")?,
        Vec::from_slice(alloc, &[1])?,
    );
    let mut sink = MemSink::new(alloc, Vec::from_slice(alloc, &[0])?);
    let mut into = [0u8; 3];
    assert!(rt; source.read(&mut into).is_ok() && source.read(&mut into).is_err());
    assert!(rt; sink.write(&into).is_err());
    assert!(rt; source.read(&mut into).is_ok() && sink.write(&into).is_ok());
    assert!(rt; sink.bytes() == b"dec".as_slice());
    Ok(())
}

#[test]
fn absent_devices_fail(rt: HostRuntime) {
    let mut disk = NoDisk::new();
    assert!(rt; disk.len().is_err() && disk.read_at(0, &mut [0]).is_err());
    assert!(rt; disk.write_at(0, &[0]).is_err() && disk.sync().is_err());
    let mut link = NoLink::new();
    assert!(rt; link.bind(1).is_err() && link.send(1, &[0]).is_err());
    assert!(rt; link.recv(1, &mut [0]).is_err());
}
