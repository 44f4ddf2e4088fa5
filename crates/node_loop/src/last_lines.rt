//! The last line of a node.
ghost use Rattle.std.specs.Prelude.{◌≡◌};
ghost use Rattle.node_traces.specs.Seen.{sink_seen};
ghost use Rattle.node_script.specs.Words.{stop as stop_of};
ghost use Rattle.node_loop.specs.Ended.{EndsWith, SaysLast};

use node_script::Stop;
use rp_base::{Sink, write_all};
use std::alloc::Global;

// Writes the line, if there is one. A fault of the output changes nothing else.
#[tactic(none)]
fn say<K: Sink>(output: &mut K, line: &[u8])
    ensures { SaysLast line.now (sink_seen K.written K.faults output.old) (sink_seen K.written K.faults output.new) }
{
    if !line.is_empty() {
        let _ = write_all(output, line);
    }
}

/// Writes the line that says why a node ends, and answers its status, or 1 where there is no memory for the line. A fault meanwhile leaves
/// the status as it is.
#[tactic(none)]
pub(crate) fn tell<K: Sink>(alloc: Global, output: &mut K, stop: Stop) -> u8
    ensures { EndsWith (stop_of stop) result (sink_seen K.written K.faults output.old) (sink_seen K.written K.faults output.new) }
{
    let mut line = Vec::new(alloc);
    match stop.push_line(&mut line) {
        Ok(()) => {
            say(output, &line);
            stop.status()
        }
        Err(_) => Stop::NoMemory.status(),
    }
}
