//! The cast of a kit and the kit, and the servers of the processes: each is the contract of a function with an empty body.
ghost use Rattle.store_service.specs.Laws.{LinesAreTheKits, OthersStay, OwnCallsTell, OwnChanges, ServersAreTheKits};

/// As a node begins, each hosted process is served at its place in the kit, as the process is then, and no other is served.
pub fn servers_are_the_kits()
    ensures { ServersAreTheKits }
{}

/// A line does what it does in the kit.
pub fn lines_are_the_kits()
    ensures { LinesAreTheKits }
{}

/// Since a node began, the server of a process is what its own notes and lines made of it.
pub fn own_calls_tell()
    ensures { OwnCallsTell }
{}

/// Where the server of one process changes, that of another stays.
pub fn others_stay()
    ensures { OthersStay }
{}

/// And its own is the new one, at its place.
pub fn own_changes()
    ensures { OwnChanges }
{}
