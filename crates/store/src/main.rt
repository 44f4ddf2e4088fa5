//! The store in words: hands the system's words and streams to the one call, and ends with its status.
#![tactic(auto)]

use net_edge::{StdErrors, StdSink, StdSource, run};
use std::io;
use std::process::ExitCode;
use store_cli::store;

fn main(rt: HostRuntime) -> io::Result<ExitCode> {
    run(&rt, |words| {
        store(
            rt.alloc(),
            &words,
            &mut StdSource::new(&rt),
            &mut StdSink::new(&rt),
            &mut StdErrors::new(&rt),
        )
    })
}
