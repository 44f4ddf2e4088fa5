//! The program: hands the system's words, streams, file and sockets to the one call, and ends with its status.
#![tactic(auto)]

use file_disk::FileDisk;
use net_edge::{StdSink, StdSource, run};
use rampart_cli::{journal_name, rampart};
use std::io;
use std::process::ExitCode;
use udp_link::UdpLink;

fn main(rt: HostRuntime) -> io::Result<ExitCode> {
    run(&rt, |words| {
        rampart(
            rt.alloc(),
            &words,
            &mut StdSource::new(&rt),
            &mut StdSink::new(&rt),
            &mut FileDisk::new(&rt, journal_name(&words)),
            &mut UdpLink::new(rt.alloc(), &rt),
        )
    })
}
