//! Whether a kit is a node's.
ghost use Rattle.std.specs.Prelude.{◌≡◌, ◌↔◌, [], IsTrue};

use kit_file::Kit;

/// Whether the kit hosts no process. A node has at least one: without one its kit lacks a line before the line `go`.
pub fn hosts_nobody(kit: &Kit) -> bool
    ensures { IsTrue result ↔ (kit.now.hosts ≡ []) }
{
    let mut hosted = kit.hosted();
    hosted.pop_first().is_none()
}
