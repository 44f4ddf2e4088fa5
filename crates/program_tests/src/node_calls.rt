//! The word `node` over streams, disks and a link in memory, and once over a file and sockets of the system's. Kits, scripts and answers were
//! made by another program.
use crate::rampart_calls::asked;
use file_disk::FileDisk;
use rampart_cli::{journal_name, rampart};
use rp_base::{Disk, Link, MemSink, MemSource, NoDisk, NoLink};
use rp_devices::{MemDisk, MemLink};
use std::alloc::Global;
use std::test::Fail;
use std::{fs, process};
use udp_link::UdpLink;

/// The public lines of a kit of two processes, both of them members, without their ports.
const PUBLIC: &str = "rampart kit 1
scheme plain
group 8303ca4d81d97afed6931bd5391d7eb0
key 0 3427359e9e727deb642976176fede3de0e5cb7af24fca3d2ddec8c3c5663fe09
key 1 7e9344677ed099c935bbbc976be09051ea5cce1f353d88a9a04617026201d83f
genesis 0 1
";

/// What the kit says to whoever runs process 0.
const HOST_0: &str = "host 0 plain 100
pair 0 1 5855ee5121fe557457f8e9e9fd737e34751991ec45348663fd50cfeca1ea1b21
";

/// What the kit says to whoever runs process 1.
const HOST_1: &str = "host 1 plain 100
pair 1 0 5855ee5121fe557457f8e9e9fd737e34751991ec45348663fd50cfeca1ea1b21
";

const PORTS: [u16; 2] = [47000, 47001];

/// Lines of scripts; whether each is for the node of process 0, or for that of process 1; and what the node says that is opened for this line
/// alone.
const LINES: [(bool, &str, &[u8]); 12] = [
    (
        true,
        "0 submit 6869\n",
        b"host 0 view 0 delivered 0 entries 0\n",
    ),
    (
        false,
        "1 recv 8\n",
        b"host 1 view 0 delivered 0 entries 0\nrecv 1 1\n",
    ),
    (
        true,
        "0 recv 8\n",
        b"host 0 view 0 delivered 0 entries 1\nrecv 0 1\n",
    ),
    (
        false,
        "1 recv 8\n",
        b"host 1 view 0 delivered 0 entries 1\nrecv 1 1\n",
    ),
    (
        true,
        "0 recv 8\n",
        b"host 0 view 0 delivered 0 entries 2\ndeliver 0 0 0 0 0 6869\nrecv 0 1\n",
    ),
    (
        false,
        "1 recv 8\n",
        b"host 1 view 0 delivered 0 entries 2\ndeliver 1 0 0 0 0 6869\nrecv 1 1\n",
    ),
    (
        false,
        "1 submit 796f\n",
        b"host 1 view 0 delivered 1 entries 3\n",
    ),
    (
        true,
        "0 recv 8\n",
        b"host 0 view 0 delivered 1 entries 3\nrecv 0 1\n",
    ),
    (
        false,
        "1 recv 8\n",
        b"host 1 view 0 delivered 1 entries 4\nrecv 1 1\n",
    ),
    (
        true,
        "0 recv 8\n",
        b"host 0 view 0 delivered 1 entries 4\ndeliver 0 0 1 1 0 796f\nrecv 0 1\n",
    ),
    (
        false,
        "1 recv 8\n",
        b"host 1 view 0 delivered 1 entries 5\ndeliver 1 0 1 1 0 796f\nrecv 1 1\n",
    ),
    (true, "", b"host 0 view 0 delivered 2 entries 5\n"),
];

/// What a node of both processes says of the script, but for its receives; and how it begins again.
const DELIVERED: [&[u8]; 2] = [
    b"host 0 view 0 delivered 0 entries 0\nhost 1 view 0 delivered 0 entries 0\ndeliver 0 0 0 0 0 6869\ndeliver 1 0 0 0 0 6869\n",
    b"host 0 view 0 delivered 1 entries 3\nhost 1 view 0 delivered 1 entries 3\n",
];

/// The name of a journal.
const FILE: &str = "node_calls_journal";

/// A kit with these ports and hosts, and after it these lines.
fn input(alloc: Global, ports: [u16; 2], hosts: &[&str], script: &str) -> Result<Vec<u8>, Fail> {
    let [first, second] = ports;
    let mut text = format!(in alloc; "{PUBLIC}port 0 {first}\nport 1 {second}\n")?;
    for host in hosts {
        text.push_str(host)?;
    }
    text.push_str("go\n")?;
    text.push_str(script)?;
    Ok(text.into_bytes())
}

/// The status on these words, and what was written.
fn answered<D: Disk, L: Link>(
    words: &[String],
    alloc: Global,
    input: Vec<u8>,
    disk: &mut D,
    link: &mut L,
) -> (u8, MemSink) {
    let mut source = MemSource::new(input, Vec::new(alloc));
    let mut sink = MemSink::new(alloc, Vec::new(alloc));
    let status = rampart(alloc, words, &mut source, &mut sink, disk, link);
    (status, sink)
}

/// Whether a node of these processes, on its kit and this script, ends well and says this.
fn is_reported(
    alloc: Global,
    hosts: &[&str],
    script: &str,
    disk: &mut MemDisk,
    link: &mut MemLink,
    reported: &[u8],
) -> Result<bool, Fail> {
    let words = asked(alloc, &["node", FILE])?;
    let input = input(alloc, PORTS, hosts, script)?;
    let (status, sink) = answered(&words, alloc, input, disk, link);
    Ok(status == 0 && sink.bytes() == reported)
}

/// Each of two nodes has its own kit and journal, and none finds a process that runs: what they know is what the journals hold.
#[test]
fn two_nodes_deliver_though_they_are_stopped_after_each_line(rt: HostRuntime) -> Result<(), Fail> {
    let alloc = rt.alloc();
    let mut link = MemLink::new(alloc, Vec::new(alloc));
    let mut first = MemDisk::new(alloc, Vec::new(alloc), Vec::new(alloc))?;
    let mut second = MemDisk::new(alloc, Vec::new(alloc), Vec::new(alloc))?;
    for (is_first, script, reported) in LINES {
        let is_said = if is_first {
            is_reported(alloc, &[HOST_0], script, &mut first, &mut link, reported)?
        } else {
            is_reported(alloc, &[HOST_1], script, &mut second, &mut link, reported)?
        };
        assert!(rt; is_said, "{script}");
    }
    Ok(())
}

/// Whether these words, on a kit with these hosts, end so and say this, and ask neither disk nor link.
fn is_refused(
    alloc: Global,
    words: &[&str],
    hosts: &[&str],
    reported: &[u8],
    ended: u8,
) -> Result<bool, Fail> {
    let words = asked(alloc, words)?;
    let input = input(alloc, PORTS, hosts, "")?;
    let (status, sink) = answered(&words, alloc, input, &mut NoDisk::new(), &mut NoLink::new());
    Ok(status == ended && sink.bytes() == reported)
}

/// No kit, one of another's processes alone, and no word or two for the file: neither disk nor link is asked.
#[test]
fn no_node_is_opened_without_a_kit_or_a_file(rt: HostRuntime) -> Result<(), Fail> {
    for (words, hosts, reported, ended) in [
        (
            ["node", FILE].as_slice(),
            [].as_slice(),
            b"stop 7 missing 9\n".as_slice(),
            7,
        ),
        (
            &["node", FILE],
            &[HOST_0, HOST_0],
            b"stop 7 repeated 11\n",
            7,
        ),
        (&["node"], &[HOST_0], b"stop 2 words\n", 2),
        (&["node", FILE, FILE], &[HOST_0], b"stop 2 words\n", 2),
    ] {
        assert!(rt; is_refused(rt.alloc(), words, hosts, reported, ended)?);
    }
    Ok(())
}

/// The status of a node of process 0 whose disk fails, and what it says.
fn on_bad_disk(alloc: Global) -> Result<(u8, MemSink), Fail> {
    let words = asked(alloc, &["node", FILE])?;
    let input = input(alloc, PORTS, &[HOST_0], "0 submit 6869\n")?;
    let mut disk = MemDisk::new(alloc, Vec::new(alloc), [0].to_vec(alloc)?)?;
    let mut link = MemLink::new(alloc, Vec::new(alloc));
    Ok(answered(&words, alloc, input, &mut disk, &mut link))
}

#[test]
fn a_disk_that_fails_ends_a_node(rt: HostRuntime) -> Result<(), Fail> {
    let (status, sink) = on_bad_disk(rt.alloc())?;
    assert!(rt; status == 5 && sink.bytes() == b"stop 5 disk\n".as_slice());
    Ok(())
}

/// Lines without those of receives.
fn without_receives(alloc: Global, text: &[u8]) -> Result<Vec<u8>, Fail> {
    let mut kept = Vec::new(alloc);
    for line in text.split(|byte: &u8| *byte == b'\n') {
        if !line.is_empty() && !line.starts_with(b"recv ") {
            kept.extend_from_slice(line)?;
            kept.push(b'\n')?;
        }
    }
    Ok(kept)
}

/// The status of a node of both processes over the file and sockets with these ports, and what it says but for its receives.
fn on_system(rt: &HostRuntime, ports: [u16; 2], script: &str) -> Result<(u8, Vec<u8>), Fail> {
    let alloc = rt.alloc();
    let words = asked(alloc, &["node", FILE])?;
    let input = input(alloc, ports, &[HOST_0, HOST_1], script)?;
    let mut disk = FileDisk::new(rt, journal_name(&words));
    let mut link = UdpLink::new(alloc, rt);
    let (status, sink) = answered(&words, alloc, input, &mut disk, &mut link);
    Ok((status, without_receives(alloc, sink.bytes())?))
}

/// A process submits, and then both receive again and again, since a datagram may take a while.
fn script(alloc: Global) -> Result<String, Fail> {
    let mut lines = String::from_str(alloc, "0 submit 6869\n")?;
    for _ in 0..100u32 {
        lines.push_str("1 recv 8\n0 recv 8\n")?;
    }
    Ok(lines)
}

/// Whether what a node of both processes says on these ports, and when it is opened again, is what they deliver and know. None where a port
/// is not free.
fn delivers_and_knows(
    rt: &HostRuntime,
    ports: [u16; 2],
    script: &str,
) -> Result<Option<bool>, Fail> {
    let (status, reported) = on_system(rt, ports, script)?;
    if status == 6 {
        return Ok(None);
    }
    let (again, known) = on_system(rt, ports, "")?;
    let said = [reported.as_slice(), known.as_slice()];
    Ok(Some([status, again] == [0, 0] && said == DELIVERED))
}

/// The file is in the folder in which the test runs. The ports are tried by twos until both are free.
#[test]
fn a_node_over_a_file_and_sockets_delivers_and_knows_again(rt: HostRuntime) -> Result<(), Fail> {
    let script = script(rt.alloc())?;
    let first = 10_240 + (process::id(rt.process()) % 20_000) as u16;
    for step in 0..100u16 {
        let _ = fs::remove_file(&rt, FILE);
        let port = first + 2 * step;
        if let Some(is_well) = delivers_and_knows(&rt, [port, port + 1], &script)? {
            assert!(rt; is_well);
            break;
        }
    }
    assert!(rt; fs::exists(&rt, FILE)?);
    fs::remove_file(&rt, FILE)?;
    Ok(())
}
