//! Answers questions of one line each, so that other implementations can be compared with this one. Those on runs are about `rampart`.
#![tactic(auto)]

mod program;

use crate::program::Rampart;
use interop_lines::interop;
use net_edge::{StdSink, StdSource};
use std::process::ExitCode;

fn main(rt: HostRuntime) -> ExitCode {
    let status = interop(
        rt.alloc(),
        &Rampart,
        &mut StdSource::new(&rt),
        &mut StdSink::new(&rt),
    );
    ExitCode::from(status)
}
