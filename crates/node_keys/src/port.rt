//! The port of a hosted process.
ghost use Rattle.std.specs.Prelude.{◌≡◌, ◌==◌, find, option_map, Some, IsTrue};
ghost use Rattle.byte_defs.specs.Members.{has};
ghost use Rattle.kit_defs.specs.Kits.{IsKit};
ghost use Rattle.node_defs.specs.Casts.{hosted_by};

use kit_file::Kit;
use rp_base::Pid;

/// The port of a hosted process, which is in the roster.
pub fn port_of(kit: &Kit, me: Pid) -> u16
    requires kit { IsKit kit.now }
    requires hosted { IsTrue (has (hosted_by kit.now) me) }
    ensures { option_map (λ port. port.1) (find (λ port. port.0 == me) kit.now.ports) ≡ Some result }
{
    let Some(port) = kit.port(me) else {
        unreachable!();
    };
    port
}
