//! Datagrams over real sockets on 127.0.0.1.
use rp_base::{Failed, Got, Link};
use std::rt::Clock;
use std::test::Fail;
use std::time::Duration;
use std::{process, thread};
use udp_link::UdpLink;

// Below the ports that systems choose by themselves.
const FIRST_PORT: u16 = 10_240;

const PORTS: u16 = 20_000;

// A port that this link opened: one of a hundred, which begin at a place of this process's own.
fn bound(rt: &HostRuntime, link: &mut UdpLink<'_, HostRuntime>) -> Option<u16> {
    let first = (process::id(rt.process()) % 20_000) as u16;
    for step in 0..100u16 {
        let port = FIRST_PORT + first.wrapping_add(step.wrapping_mul(97)) % PORTS;
        if link.bind(port).is_ok() {
            return Some(port);
        }
    }
    None
}

// What comes on a port, which may take a while.
fn received(
    rt: &impl Clock,
    link: &mut UdpLink<'_, HostRuntime>,
    port: u16,
    into: &mut [u8],
) -> Result<Got, Failed> {
    for _ in 0..100u32 {
        let got = link.recv(port, into)?;
        if got != Got::Nothing {
            return Ok(got);
        }
        thread::sleep(rt, Duration::from_millis(10));
    }
    Ok(Got::Nothing)
}

#[test]
fn a_hundred_datagrams_come(rt: HostRuntime) -> Result<(), Fail> {
    let mut link = UdpLink::new(rt.alloc(), &rt);
    let port = bound(&rt, &mut link).expect(&rt, "a port");
    let mut into = [0; 4];
    assert!(rt; link.recv(port, &mut into) == Ok(Got::Nothing));
    for number in 0..100u8 {
        assert!(rt; link.send(port, &[number, 7, 9]) == Ok(()));
        assert!(rt; received(&rt, &mut link, port, &mut into) == Ok(Got::Datagram(3)));
        assert!(rt; into == [number, 7, 9, 0]);
    }
    assert!(rt; link.recv(port, &mut into) == Ok(Got::Nothing));
    Ok(())
}

#[test]
fn a_long_datagram_is_cut(rt: HostRuntime) -> Result<(), Fail> {
    let mut link = UdpLink::new(rt.alloc(), &rt);
    let port = bound(&rt, &mut link).expect(&rt, "a port");
    let mut into = [0; 2];
    assert!(rt; link.send(port, &[1, 2, 3]) == Ok(()));
    assert!(rt; link.send(port, &[]) == Ok(()));
    assert!(rt; received(&rt, &mut link, port, &mut into) == Ok(Got::Datagram(2)));
    assert!(rt; into == [1, 2]);
    assert!(rt; received(&rt, &mut link, port, &mut into) == Ok(Got::Datagram(0)));
    Ok(())
}

#[test]
fn what_cannot_be_done_fails(rt: HostRuntime) -> Result<(), Fail> {
    let mut link = UdpLink::new(rt.alloc(), &rt);
    let mut into = [0; 2];
    assert!(rt; link.bind(0) == Err(Failed) && link.recv(FIRST_PORT, &mut into) == Err(Failed));
    let port = bound(&rt, &mut link).expect(&rt, "a port");
    assert!(rt; link.bind(port) == Err(Failed));
    assert!(rt; link.send(0, &[1]) == Err(Failed));
    let long = vec![in rt.alloc(); 0u8; 70_000]?;
    assert!(rt; link.send(port, &long) == Err(Failed));
    assert!(rt; link.recv(port, &mut into) == Ok(Got::Nothing));
    Ok(())
}
