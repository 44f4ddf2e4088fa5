//! A server can take each note of its process: the contracts of functions with an empty body.
#![tactic(auto)]

ghost use Rattle.taking_laws.specs.Laws.{NotesAreTaken, ServersCanTake};

/// In a run each note that a turn lets out is one that the server can take, after those before it.
pub fn notes_are_taken()
    ensures { NotesAreTaken }
{}

/// And a server of the code, which keeps what that server does, can take it.
pub fn servers_can_take()
    ensures { ServersCanTake }
{}
