//! Runs with a service that answers each call in words of its own.
ghost use Rattle.std.specs.Prelude.{[], List};

use crate::data::{HOSTS, KIT, SCRIPT};
use crate::runs::{disk_of, joined};
use node_loop::{AnySigner, Event, Hosted, Hosts, Kit, Note, Sending, Service, host};
use rp_base::{MemSink, MemSource, NoMemory, Pid};
use rp_devices::MemLink;
use std::alloc::Global;
use std::test::Fail;

/// Says a word as it begins and of each note, names processes 0 and 5 where it is asked to, and has each line that ends in a full stop.
#[derive(Clone, Copy)]
struct Teller {
    names: bool,
}

impl Service for Teller {
    ghost heard = { λ _ _. Unit {0} };

    ghost begun = { λ _. record { history = []; has = tt; holds = tt } };

    ghost longest_line = { λ _. 0 };

    fn longest(&self) -> usize {
        0
    }

    fn start(&mut self, _kit: &Kit, _hosts: &Hosts, lines: &mut Vec<u8>) -> Result<(), NoMemory> {
        lines.extend_from_slice(b"begun\n")?;
        Ok(())
    }

    fn noted(
        &mut self,
        _process: &Hosted<AnySigner>,
        _note: &Note,
        lines: &mut Vec<u8>,
    ) -> Result<(), NoMemory> {
        lines.extend_from_slice(b"noted\n")?;
        Ok(())
    }

    fn suspects(
        &mut self,
        _kit: &Kit,
        _process: &Hosted<AnySigner>,
        _event: &Event<'_>,
        _notes: &[Note],
        above: Option<Pid>,
    ) -> Option<Pid> {
        if !self.names {
            return None;
        }
        match above {
            None => Pid::new(0),
            Some(last) if last.get() < 5 => Pid::new(5),
            Some(_) => None,
        }
    }

    fn word(
        &mut self,
        _kit: &Kit,
        _process: &Hosted<AnySigner>,
        line: &str,
        lines: &mut Vec<u8>,
        _sends: &mut Vec<Sending>,
    ) -> Result<bool, NoMemory> {
        if !line.as_bytes().ends_with(b".") {
            return Ok(false);
        }
        lines.extend_from_slice(b"well\n")?;
        Ok(true)
    }
}

/// The status and what was written, of the kit and then these lines, on an empty disk.
fn served(alloc: Global, script: &[u8], names: bool) -> Result<(u8, MemSink), NoMemory> {
    let mut source = MemSource::new(joined(alloc, &[KIT, script])?, Vec::new(alloc));
    let mut sink = MemSink::new(alloc, Vec::new(alloc));
    let mut disk = disk_of(alloc, b"")?;
    let mut link = MemLink::new(alloc, Vec::new(alloc));
    let mut service = Teller { names };
    let status = host(
        alloc,
        &mut source,
        &mut sink,
        &mut disk,
        &mut link,
        &mut service,
    );
    Ok((status, sink))
}

/// Whether these texts, one after the other, are written of the kit and these lines, and the node ends so.
fn is_served(
    alloc: Global,
    script: &[u8],
    names: bool,
    texts: &[&[u8]],
    ended: u8,
) -> Result<bool, NoMemory> {
    let (status, sink) = served(alloc, script, names)?;
    let reported = joined(alloc, texts)?;
    Ok(status == ended && sink.bytes() == reported.as_slice())
}

/// What it says as it begins is after the lines of the hosts, and what it says of a note is after the note's line.
#[test]
fn what_the_service_says_is_written(rt: HostRuntime) -> Result<(), Fail> {
    let texts = [
        HOSTS,
        b"begun\nrecv 1 1\nrecv 0 1\nrecv 1 1\ndeliver 0 0 0 0 0 6869\nnoted\nrecv 0 1\n",
        b"deliver 1 0 0 0 0 6869\nnoted\nrecv 1 1\n",
    ];
    assert!(rt; is_served(rt.alloc(), SCRIPT, false, &texts, 0)?);
    Ok(())
}

/// Each has its line and is suspected, the one and then the other, though process 5 is no member.
#[test]
fn whom_the_service_names_is_suspected(rt: HostRuntime) -> Result<(), Fail> {
    let script = b"0 submit 6869\n1 recv 8\n";
    let texts = [
        HOSTS,
        b"begun\nexpel 1 0\nexpel 1 5\nrefused 1 notmember\nrecv 1 1\n",
    ];
    assert!(rt; is_served(rt.alloc(), script, true, &texts, 0)?);
    Ok(())
}

/// A line that the service has is answered; one that it has not, and one that is no text, ends the node.
#[test]
fn a_line_for_the_service_is_answered(rt: HostRuntime) -> Result<(), Fail> {
    let alloc = rt.alloc();
    let texts = [HOSTS, b"begun\nwell\nstop 7 line 15\n"];
    for line in [b"1 hello\n".as_slice(), b"1 \xff.\n", b"2 hello.\n"] {
        let script = joined(alloc, &[b"0 hello.\n", line])?;
        assert!(rt; is_served(alloc, &script, false, &texts, 7)?);
    }
    Ok(())
}
