//! The kit of a node.
ghost use Rattle.std.specs.Prelude.{◌≡◌, [], IfErr, IfOk};
ghost use Rattle.kit_defs.specs.Kits.{IsKit};
ghost use Rattle.node_text.specs.Views.{stop as stop_of};
ghost use Rattle.node_traces.specs.Outside.{SourceSeen};
ghost use Rattle.node_input.specs.Kits.{HasKit, HasNoKit, front_stop};
ghost use Rattle.node_input.specs.Sources.{IsSeen, SeenAs};

use kit_reading::{Front, FrontFault, KitFault, Lines, Source, read_front};
use node_keys::hosts_nobody;
use node_text::Stop;
use std::alloc::Global;

// Why there is no kit.
fn stop_for(fault: FrontFault) -> Stop
    ensures { stop_of result ≡ front_stop fault }
{
    match fault {
        FrontFault::Read => Stop::ReadFailed,
        FrontFault::Kit(KitFault::NoMemory) => Stop::NoMemory,
        FrontFault::Kit(fault) => Stop::BadKit(fault),
    }
}

/// The kit at the front of a node's input, up to and with the line `go`. It hosts a process: else a line is missing before the line `go`.
///
/// # Errors
/// `BadKit` with the first fault of the kit's lines; `ReadFailed` only where a read failed; and `NoMemory`.
pub fn read_kit<S: Source>(alloc: Global, lines: &mut Lines, input: &mut S) -> Result<Front, Stop>
    requires { lines.old.ahead ≡ [] }
    ensures found { (k : SourceSeen) → IsSeen k [] (S.left input.old) (S.faults input.old)
        → IfOk result (λ front. SeenAs (HasKit k front.kit front.go) lines.new.ahead (S.left input.new) (S.faults input.new)) }
    ensures kit { IfOk result (λ front. IsKit front.kit) }
    ensures none { (k : SourceSeen) → IsSeen k [] (S.left input.old) (S.faults input.old)
        → IfErr result (λ why. HasNoKit k (S.faults input.new) (stop_of why)) }
{
    match read_front(alloc, lines, input) {
        Err(fault) => Err(stop_for(fault)),
        Ok(front) if hosts_nobody(&front.kit) => {
            Err(Stop::BadKit(KitFault::Missing { line: front.go }))
        }
        Ok(front) => Ok(front),
    }
}
