//! Where the server of a process is.
ghost use Rattle.std.specs.Prelude.{◌≡◌, ◌==◌, ◌<◌, length, IfSome};
ghost use Rattle.std.specs.List.{position_from};
ghost use Rattle.store_service.specs.Served.{whose};

use store_server::{Pid, Server};

/// The place of the server of this process among these, the first if there are more.
pub(crate) fn place_of(servers: &[Server], p: Pid) -> Option<usize>
    ensures place { result ≡ position_from (λ server. whose server == p) 0 servers.now }
    ensures within { IfSome result (λ at. at < length servers.now) }
{
    servers.iter().position(|server| server.me() == p)
}
