//! Who speaks.
ghost use Rattle.std.specs.Prelude.{◌≡◌};
ghost use Rattle.std.specs.Option.{unwrap_or};
ghost use Rattle.std.specs.Prelude.{◌==◌, find, option_map};
ghost use Rattle.auth_link.specs.Keys.{known};
ghost use Rattle.node_defs.specs.Casts.{known_of};

use node_keys::{Kit, LinkKeys};
use rp_base::Pid;

/// A hosted process as it speaks to others: its number, the kit with their ports, and the keys that it shares with them.
pub struct Speaker<'a> {
    pub me: Pid,
    pub kit: &'a Kit,
    pub keys: &'a LinkKeys,
    pub ghost knows: { known keys.now ≡ known_of kit.now me },
}

impl Speaker<'_> {
    // The port of a process; 0 where it is not in the roster.
    pub(crate) fn port(&self, to: Pid) -> u16
        ensures { result ≡ unwrap_or (option_map (λ port. port.1) (find (λ port. port.0 == to) self.now.kit.now.ports)) 0 }
    {
        self.kit.port(to).unwrap_or(0)
    }
}
