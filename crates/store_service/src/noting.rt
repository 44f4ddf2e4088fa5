//! Notes of a hosted process.
ghost use Rattle.std.specs.Prelude.{◌≡◌, ◌<◌, ◌==◌, ℕ, List, Some, length, IfOk};
ghost use Rattle.std.specs.List.{position_from};
ghost use Rattle.node_service.specs.Words.{note as note_of};
ghost use Rattle.store_service.specs.Served.{AreThese, whose};
ghost use Rattle.store_service.specs.Service.{Serving, after_noted, noted};

use crate::places::place_of;
use std::alloc::Global;
use store_server::{NoMemory, Note, Pid, Server};

// The server at this place, that of the process, takes the note; what it says of it.
fn tell_at(
    alloc: Global,
    servers: &mut Vec<Server>,
    at: usize,
    note: &Note,
) -> Result<Vec<u8>, NoMemory>
    requires { at < length servers.old.items }
    ensures { (p : ℕ) (xs : List Serving) → Some at ≡ position_from (λ server. whose server == p) 0 servers.old.items
        → AreThese xs servers.old.items → IfOk result (λ text. (text.items ≡ noted p (note_of note.now) xs)
        × AreThese (after_noted p (note_of note.now) xs) servers.new.items) }
{
    let mut text = Vec::new(alloc);
    let server = &mut servers[at];
    if !server.can_take(note) {
        // No process has such a note: what it delivers and installs is within the limits of a reply, and its views have rising numbers.
        return Err(NoMemory);
    }
    server.note(alloc, note, &mut text)?;
    Ok(text)
}

/// The server of this process takes the note; what it says of it, which is nothing where the process has no server.
///
/// # Errors
/// [`NoMemory`]; the server may have taken the note then.
pub(crate) fn tell(
    alloc: Global,
    servers: &mut Vec<Server>,
    p: Pid,
    note: &Note,
) -> Result<Vec<u8>, NoMemory>
    ensures { (xs : List Serving) → AreThese xs servers.old.items
        → IfOk result (λ text. (text.items ≡ noted p (note_of note.now) xs)
        × AreThese (after_noted p (note_of note.now) xs) servers.new.items) }
{
    match place_of(servers, p) {
        Some(at) => tell_at(alloc, servers, at, note),
        None => Ok(Vec::new(alloc)),
    }
}
