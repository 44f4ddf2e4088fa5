//! The keys of a process.
ghost use Rattle.std.specs.Prelude.{◌≡◌};
ghost use Rattle.kit_defs.specs.Kits.{IsKit};
ghost use Rattle.auth_link.specs.Keys.{known};
ghost use Rattle.node_defs.specs.Casts.{known_of};

use auth_link::LinkKeys;
use kit_file::Kit;
use rp_base::Pid;

/// The keys with which a process speaks: a hosted one shares a key with each other process of the roster, and one that is not hosted with
/// none.
pub fn link_keys(kit: &Kit, me: Pid) -> LinkKeys
    requires { IsKit kit.now }
    ensures { known result ≡ known_of kit.now me }
{
    let mut keys = LinkKeys::new(me, kit.group());
    for peer in kit.roster().processes().iter() {
        if let Some(key) = kit.pair(me, peer) {
            keys.add(peer, key);
        }
    }
    keys
}
