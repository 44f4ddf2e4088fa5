//! The program as it would be on a disk that says too early that it has kept something: a node of it sends before its entry is in the file.
//! tools/torture.py, which kills it, must see that (docs/TESTED.md).
#![tactic(auto)]

mod late_disk;

use crate::late_disk::LateDisk;
use net_edge::{StdSink, StdSource, run};
use rampart_cli::{journal_name, rampart};
use std::io;
use std::process::ExitCode;
use udp_link::UdpLink;

fn main(rt: HostRuntime) -> io::Result<ExitCode> {
    run(&rt, |words| {
        rampart(
            rt.alloc(),
            &words,
            &mut StdSource::new(&rt),
            &mut StdSink::new(&rt),
            &mut LateDisk::new(rt.alloc(), &rt, journal_name(&words)),
            &mut UdpLink::new(rt.alloc(), &rt),
        )
    })
}
