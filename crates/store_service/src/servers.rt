//! The servers of a node's hosted processes, as its service.
ghost use Rattle.std.specs.Prelude.{◌≡◌, ◌∷◌, [], ℕ, List, None, IfOk, OnErr, OnOk};
ghost use Rattle.node_service.specs.Histories.{Asked, Cast, Process, NotesOf, Version, cast_of};
ghost use Rattle.node_service.specs.Words.{IsHosted, note as note_of};
ghost use Rattle.node_service.specs.Answers.{AnswersLine, GoesOn, HasAnswered};
ghost use Rattle.store_server.specs.Places.{most_state_line_bytes};

use crate::beginning::begin_all;
use crate::hearing::say;
use crate::noting::tell;
use node_service::{AnySigner, Event, Hosted, Hosts, Kit, Note, Sending, Service};
use std::alloc::Global;
use store_server::{NoMemory, Pid, Server, longest, push_keys};

/// The servers of the processes that a node hosts, one for each: the node's service. There are none until the node begins it.
#[derive(Drop)]
pub struct Servers {
    alloc: Global,
    pub(crate) servers: Vec<Server>,

    // Whether memory ran out in a call: a server may be ahead of what was answered then, so nothing more is answered.
    pub(crate) lost: bool,
}

impl Servers {
    ghost use Rattle.store_service.specs.Served.{HasServed};

    /// No servers yet.
    pub fn new(alloc: Global) -> Servers
        ensures { HasServed result [] }
    {
        Servers {
            alloc,
            servers: Vec::new(alloc),
            lost: false,
        }
    }

    // What the server of a process says of a note is appended to the lines.
    fn tell(&mut self, p: Pid, note: &Note, lines: &mut Vec<u8>) -> Result<(), NoMemory>
        ensures tells { (c : Cast) (now : Process) (h : List Asked) → HasServed self.old h
            → OnOk result (HasAnswered HasServed self.new h c (now ∷ []) (NotesOf p (note_of note.now)) lines.old.items lines.new.items) }
        ensures more { GoesOn lines.old.items lines.new.items }
    {
        if self.lost {
            return Err(NoMemory);
        }
        let text = tell(self.alloc, &mut self.servers, p, note)?;
        lines.extend_from_slice(text.as_slice())?;
        Ok(())
    }

    // What the server of a process says to a line is appended to the lines, where it has a word for the server.
    fn say(
        &mut self,
        kit: &Kit,
        process: &Hosted<AnySigner>,
        line: &str,
        lines: &mut Vec<u8>,
    ) -> Result<bool, NoMemory>
        ensures { (version : Version) (p : ℕ) (now : Process) (h : List Asked) (sends : List Sending) → HasServed self.old h
            → IsHosted (cast_of kit.now version) p now process.now → IfOk result (AnswersLine HasServed self.new h
            (cast_of kit.now version) p now line.now lines.old.items lines.new.items sends sends) }
    {
        if self.lost {
            return Err(NoMemory);
        }
        let Some(text) = say(self.alloc, &mut self.servers, kit, process, line)? else {
            return Ok(false);
        };
        lines.extend_from_slice(text.as_slice())?;
        Ok(true)
    }
}

impl Service for Servers {
    ghost use Rattle.store_service.specs.Served.{HasServed};

    ghost heard = { λ v h. HasServed v h };

    ghost begun = { λ v. record { history = []; has = record { answered = tt; servers = λ e. tt }; holds = tt } };

    ghost longest_line = { λ _. most_state_line_bytes };

    fn longest(&self) -> usize {
        longest()
    }

    fn start(&mut self, kit: &Kit, hosts: &Hosts, lines: &mut Vec<u8>) -> Result<(), NoMemory> {
        let servers = begin_all(self.alloc, kit, hosts)?;
        let mut text = Vec::new(self.alloc);
        push_keys(servers.as_slice(), &mut text)?;
        lines.extend_from_slice(text.as_slice())?;
        self.servers = servers;
        self.lost = false;
        Ok(())
    }

    fn noted(
        &mut self,
        process: &Hosted<AnySigner>,
        note: &Note,
        lines: &mut Vec<u8>,
    ) -> Result<(), NoMemory> {
        match self.tell(process.core().me(), note, lines) {
            Ok(()) => Ok(()),
            Err(NoMemory) => {
                self.lost = true;
                Err(NoMemory)
            }
        }
    }

    fn suspects(
        &mut self,
        _kit: &Kit,
        _process: &Hosted<AnySigner>,
        _event: &Event<'_>,
        _notes: &[Note],
        _above: Option<Pid>,
    ) -> Option<Pid> {
        None
    }

    fn word(
        &mut self,
        kit: &Kit,
        process: &Hosted<AnySigner>,
        line: &str,
        lines: &mut Vec<u8>,
        _sends: &mut Vec<Sending>,
    ) -> Result<bool, NoMemory> {
        match self.say(kit, process, line, lines) {
            Ok(heard) => Ok(heard),
            Err(NoMemory) => {
                self.lost = true;
                Err(NoMemory)
            }
        }
    }
}
