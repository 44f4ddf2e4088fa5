//! What a disk and a link in memory do with ample memory.
use rp_base::{Disk, Failed, Got, Link};
use rp_devices::{Left, MemDisk, MemLink};
use std::test::Fail;

// Whether a crash that leaves this of the last writes leaves these bytes.
fn is_image(disk: &MemDisk, left: Left, bytes: &[u8]) -> bool {
    match disk.image(left) {
        Ok(image) => image.as_slice() == bytes,
        Err(_) => false,
    }
}

#[test]
fn a_write_is_torn_until_the_sync(rt: HostRuntime) -> Result<(), Fail> {
    let alloc = rt.alloc();
    let bytes = [1, 2, 3].to_vec(alloc)?;
    let mut disk = MemDisk::new(alloc, bytes, Vec::new(alloc))
        .ok()
        .expect(&rt, "memory");
    assert!(rt; disk.bytes().len() == 3);
    assert!(rt; disk.write_at(2, &[7, 8]).is_ok());
    assert!(rt; disk.bytes() == [1, 2, 7, 8].as_slice());
    for (left, bytes) in [
        (Left::Nothing, [1, 2, 3].as_slice()),
        (Left::All, &[1, 2, 7, 8]),
        (Left::Each(0xa5), &[1, 2, 0xa5, 0xa5]),
    ] {
        assert!(rt; is_image(&disk, left, bytes));
    }
    assert!(rt; disk.sync().is_ok() && is_image(&disk, Left::Nothing, &[1, 2, 7, 8]));
    Ok(())
}

#[test]
fn a_disk_stops_within_a_write(rt: HostRuntime) -> Result<(), Fail> {
    let alloc = rt.alloc();
    let bytes = [1, 2, 3].to_vec(alloc)?;
    let mut disk = MemDisk::new(alloc, bytes, Vec::new(alloc))
        .ok()
        .expect(&rt, "memory");
    disk.stop_at(1);
    let mut into = [0; 2];
    assert!(rt; disk.bytes().len() == 3);
    assert!(rt; disk.read_at(1, &mut into).is_ok());
    assert!(rt; into == [2, 3]);
    let stopped = (disk.write_at(0, &[9]), disk.sync(), disk.calls());
    assert!(rt; stopped == (Err(Failed), Err(Failed), 3));
    assert!(rt;
        is_image(&disk, Left::Nothing, &[1, 2, 3]) && is_image(&disk, Left::All, &[9, 2, 3])
    );
    Ok(())
}

#[test]
fn a_call_that_is_to_fail_does(rt: HostRuntime) -> Result<(), Fail> {
    let alloc = rt.alloc();
    let mut disk = MemDisk::new(alloc, Vec::new(alloc), [0].to_vec(alloc)?)
        .ok()
        .expect(&rt, "memory");
    assert!(rt; disk.write_at(0, &[1]) == Err(Failed));
    assert!(rt; disk.len() == Ok(0));
    assert!(rt; disk.write_at(0, &[1]).is_ok());
    assert!(rt; disk.len() == Ok(1));
    Ok(())
}

// What comes on the port into a room of one byte, and the byte.
fn received(link: &mut MemLink, port: u16) -> (Result<Got, Failed>, u8) {
    let mut into = [0; 1];
    let got = link.recv(port, &mut into);
    (got, into[0])
}

#[test]
fn datagrams_come_in_order_on_their_port(rt: HostRuntime) -> Result<(), Fail> {
    let alloc = rt.alloc();
    let mut link = MemLink::new(alloc, [2].to_vec(alloc)?);
    assert!(rt; link.bind(1).is_ok());
    for (port, bytes, sent) in [
        (1, [5, 6].as_slice(), Ok(())),
        (1, &[9], Err(Failed)),
        (2, &[7], Ok(())),
        (1, &[8], Ok(())),
    ] {
        assert!(rt; link.send(port, bytes) == sent, "{bytes:?}");
    }
    assert!(rt; link.sent().len() == 3);
    for (port, got, byte) in [
        (1, Got::Datagram(1), 5),
        (1, Got::Datagram(1), 8),
        (1, Got::Nothing, 0),
        (2, Got::Datagram(1), 7),
    ] {
        assert!(rt; received(&mut link, port) == (Ok(got), byte), "{byte}");
    }
    Ok(())
}
