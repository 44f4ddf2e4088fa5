//! The service of a node that has none.
ghost use Rattle.std.specs.Prelude.{ℕ, List, []};
ghost use Rattle.node_service.specs.Silent.{AreNothing};

use crate::service::Service;
use member_events::{Note, Sending};
use node_hosts::{AnySigner, Event, Hosted, Hosts, Kit};
use rp_base::{NoMemory, Pid};
use std::alloc::Global;

/// No service: it says nothing, names nobody and has no line.
#[derive(Clone, Copy)]
pub struct NoService;

impl Service for NoService {
    ghost heard = { λ _ h. AreNothing h };

    ghost begun = { λ _. record { history = []; has = tt; holds = tt } };

    ghost longest_line = { λ _. 0 };

    fn longest(&self) -> usize {
        0
    }

    fn start(&mut self, _kit: &Kit, _hosts: &Hosts, _lines: &mut Vec<u8>) -> Result<(), NoMemory> {
        Ok(())
    }

    fn noted(
        &mut self,
        _process: &Hosted<AnySigner>,
        _note: &Note,
        _lines: &mut Vec<u8>,
    ) -> Result<(), NoMemory> {
        Ok(())
    }

    fn suspects(
        &mut self,
        _kit: &Kit,
        _process: &Hosted<AnySigner>,
        _event: &Event<'_>,
        _notes: &[Note],
        _above: Option<Pid>,
    ) -> Option<Pid> {
        None
    }

    fn word(
        &mut self,
        _kit: &Kit,
        _process: &Hosted<AnySigner>,
        _line: &str,
        _lines: &mut Vec<u8>,
        _sends: &mut Vec<Sending>,
    ) -> Result<bool, NoMemory> {
        Ok(false)
    }
}
