ghost use Rattle.std.specs.Prelude.{◌≡◌, ◌≤◌, ◌==◌, ◌∷◌, ◌++◌, [], length, find, option_copied, OnOk, OnErr, IfOk, IsErr};
ghost use Rattle.rp_base.specs.Causes.{HasCause};
ghost use Rattle.rp_base.specs.Links.{IsWithin};
ghost use Rattle.udp_link.specs.Ports.{ports_of, IsClosed};

use crate::answers::{fault, got};
use rp_base::{Failed, Got, Link};
use std::alloc::Global;
use std::io;
use std::io::ErrorKind;
use std::net::{Ipv4Addr, Net, SocketAddr, SocketAddrV4, UdpSocket};

// A port that is open, with its socket.
#[derive(Drop)]
pub(crate) struct OpenPort {
    port: u16,
    socket: UdpSocket,
}

/// UDP on 127.0.0.1 as a link.
///
/// A port is open once `bind` has succeeded on it, and until the link is dropped. A datagram is sent from a socket of its
/// own, which the first send opens on a port that the system chooses. No call waits: a receive that would finds nothing,
/// and a send that would is a fault. A call that a signal interrupts is made again. Every other error of a call counts as
/// one fault, and so does a receive on a port that isn't open, and a port for which there is no memory.
///
/// It doesn't say which datagrams were sent or are coming, so no clause says which one a receive gives.
#[derive(Drop)]
pub struct UdpLink<'a, R: Net> {
    rt: &'a R,
    ports: Vec<OpenPort>,
    sender: Option<UdpSocket>,
    faults: u64,
}

impl<'a, R: Net> UdpLink<'a, R> {
    ghost use Rattle.udp_link.specs.Links.{link_faults, open_ports};

    /// Nothing is opened yet.
    pub fn new(alloc: Global, rt: &'a R) -> UdpLink<'a, R>
        ensures faults { link_faults result ≡ 0 }
        ensures open { open_ports result ≡ [] }
    {
        UdpLink {
            rt,
            ports: Vec::new(alloc),
            sender: None,
            faults: 0,
        }
    }
}

// A port of 127.0.0.1.
fn address(port: u16) -> SocketAddr {
    SocketAddr::V4(SocketAddrV4::new(Ipv4Addr::LOCALHOST, port))
}

// A socket on a port of 127.0.0.1, on which no call waits.
fn socket_on<R: Net>(rt: &R, port: u16) -> io::Result<UdpSocket> {
    let socket = rt.bind_udp(address(port))?;
    socket.set_nonblocking(true)?;
    Ok(socket)
}

// Port 0 would be one that the system chooses, and nobody would know it.
fn open_port<R: Net>(rt: &R, port: u16) -> io::Result<OpenPort>
    ensures { IfOk result (λ o. o.port ≡ port) }
{
    if port == 0 {
        return Err(io::Error::from(ErrorKind::InvalidInput));
    }
    let socket = socket_on(rt, port)?;
    Ok(OpenPort { port, socket })
}

// Opens a port besides those that are open.
fn open_one_more<R: Net>(rt: &R, ports: &mut Vec<OpenPort>, port: u16) -> io::Result<()>
    ensures ok { OnOk result (ports_of ports.new ≡ ports_of ports.old ++ port ∷ []) }
    ensures err { OnErr result (ports_of ports.new ≡ ports_of ports.old) }
{
    let opened = open_port(rt, port)?;
    ports.push(opened)?;
    Ok(())
}

// Receives on a socket.
fn receive_on(socket: &UdpSocket, into: &mut [u8]) -> io::Result<usize>
    ensures { IfOk result (λ n. n ≤ length into.new) }
{
    for _ in 0..u64::MAX {
        match socket.recv_from(into) {
            Ok((n, _from)) => return Ok(n),
            Err(e) if e.kind() == ErrorKind::Interrupted => {}
            Err(e) => return Err(e),
        }
    }
    Err(io::Error::from(ErrorKind::Interrupted))
}

// What was opened on a port.
fn opened_on(ports: &[OpenPort], port: u16) -> Option<&OpenPort>
    ensures { option_copied result ≡ find (λ o. o.port == port) ports.now }
{
    ports.iter().find(|o| o.port == port)
}

// Receives on a port, which is to be open.
fn receive(ports: &[OpenPort], port: u16, into: &mut [u8]) -> io::Result<Got>
    ensures closed { IsClosed ports.now port → IsErr result }
    ensures bound { IfOk result (λ got. IsWithin got into.new) }
{
    match opened_on(ports, port) {
        Some(found) => got(receive_on(&found.socket, into)),
        None => Err(io::Error::from(ErrorKind::NotConnected)),
    }
}

// Sends a datagram from a socket, whole or not at all.
fn send_on(socket: &UdpSocket, port: u16, bytes: &[u8]) -> io::Result<()> {
    for _ in 0..u64::MAX {
        match socket.send_to(bytes, address(port)) {
            Ok(n) if n < bytes.len() => return Err(io::Error::from(ErrorKind::WriteZero)),
            Ok(_) => return Ok(()),
            Err(e) if e.kind() == ErrorKind::Interrupted => {}
            Err(e) => return Err(e),
        }
    }
    Err(io::Error::from(ErrorKind::Interrupted))
}

// Sends a datagram from the sender's socket, which is opened where it isn't.
fn send<R: Net>(rt: &R, sender: &mut Option<UdpSocket>, port: u16, bytes: &[u8]) -> io::Result<()> {
    if sender.is_none() {
        *sender = Some(socket_on(rt, 0)?);
    }
    match sender {
        Some(socket) => send_on(socket, port, bytes),
        None => Err(io::Error::from(ErrorKind::NotConnected)),
    }
}

impl<'a, R: Net> Link for UdpLink<'a, R> {
    ghost use Rattle.rp_base.specs.Links.{IsWithin, Sends, Receives};
    ghost use Rattle.udp_link.specs.Links.{link_faults, open_ports, untold_sent, untold_coming};

    ghost sent = { λ l. untold_sent };

    ghost coming = { λ l. untold_coming };

    ghost faults = { link_faults };

    fn bind(&mut self, port: u16) -> Result<(), Failed>
        ensures opens { OnOk result (open_ports self.new ≡ open_ports self.old ++ port ∷ []) }
        ensures err { OnErr result (open_ports self.new ≡ open_ports self.old) }
        ensures cause { HasCause (link_faults self.old) (link_faults self.new) result }
    {
        match open_one_more(self.rt, &mut self.ports, port) {
            Ok(()) => Ok(()),
            Err(_) => Err(fault(&mut self.faults)),
        }
    }

    fn send(&mut self, port: u16, bytes: &[u8]) -> Result<(), Failed>
        ensures ok { OnOk result (Sends untold_sent untold_sent untold_coming untold_coming port bytes.now) }
        ensures err { OnErr result ((untold_sent ≡ untold_sent) × (untold_coming ≡ untold_coming)) }
        ensures open { open_ports self.new ≡ open_ports self.old }
        ensures cause { HasCause (link_faults self.old) (link_faults self.new) result }
    {
        match send(self.rt, &mut self.sender, port, bytes) {
            Ok(()) => Ok(()),
            Err(_) => Err(fault(&mut self.faults)),
        }
    }

    fn recv(&mut self, port: u16, into: &mut [u8]) -> Result<Got, Failed>
        ensures closed { IsClosed self.old.ports.items port → IsErr result }
        ensures bound { IfOk result (λ got. IsWithin got into.new) }
        ensures got { IfOk result (λ got. Receives untold_coming untold_coming port got into.new) }
        ensures err { OnErr result (untold_coming ≡ untold_coming) }
        ensures open { open_ports self.new ≡ open_ports self.old }
        ensures cause { HasCause (link_faults self.old) (link_faults self.new) result }
    {
        match receive(&self.ports, port, into) {
            Ok(got) => Ok(got),
            Err(_) => Err(fault(&mut self.faults)),
        }
    }
}
