//! The lines of a receive.
ghost use Rattle.std.specs.Prelude.{◌≡◌, ◌++◌, OnOk};
ghost use Rattle.node_defs.specs.Lines.{drop_line};
ghost use Rattle.node_traces.specs.Seen.{sink_seen};
ghost use Rattle.node_taking.specs.Telling.{WritesText};
ghost use Rattle.node_receiving.specs.Receiving.{end_text, fault_text};

use node_taking::{LinkFault, Stop, push_drop, push_fault, push_recv, say};
use rp_base::{NoMemory, Pid, Sink};
use std::alloc::Global;

/// Writes that a datagram that came to this process was dropped, and why.
///
/// # Errors
/// `NoMemory` for the line, and `WriteFailed`.
pub(crate) fn say_drop<K: Sink>(
    alloc: Global,
    me: Pid,
    fault: LinkFault,
    output: &mut K,
) -> Result<(), Stop>
    ensures { WritesText result (drop_line me fault) (sink_seen K.written K.faults output.old) (sink_seen K.written K.faults output.new) }
{
    let mut line = Vec::new(alloc);
    push_drop(&mut line, me, fault)?;
    say(output, line.as_slice())
}

// Appends that the link failed, where it did.
fn push_fault_if(text: &mut Vec<u8>, me: Pid, failed: bool) -> Result<(), NoMemory>
    ensures { OnOk result (text.new.items ≡ text.old.items ++ fault_text me failed) }
{
    if failed { push_fault(text, me) } else { Ok(()) }
}

// Appends how many datagrams came, after the line of a link that failed.
fn push_end(text: &mut Vec<u8>, me: Pid, failed: bool, count: u16) -> Result<(), NoMemory>
    ensures { OnOk result (text.new.items ≡ text.old.items ++ end_text me failed count) }
{
    push_fault_if(text, me, failed)?;
    push_recv(text, me, count.into())
}

/// Writes how many datagrams came to this process, and before it that the link failed, where it did.
///
/// # Errors
/// `NoMemory` for the lines, and `WriteFailed`.
pub(crate) fn say_end<K: Sink>(
    alloc: Global,
    me: Pid,
    failed: bool,
    count: u16,
    output: &mut K,
) -> Result<(), Stop>
    ensures { WritesText result (end_text me failed count) (sink_seen K.written K.faults output.old) (sink_seen K.written K.faults output.new) }
{
    let mut text = Vec::new(alloc);
    push_end(&mut text, me, failed, count)?;
    say(output, text.as_slice())
}
