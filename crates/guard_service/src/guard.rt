//! The service of a guard.
use crate::accusing::accuse;
use crate::evidence::next_suspect;
use crate::words::accused;
use node_service::{AnySigner, Event, Hosted, Hosts, Kit, Note, Sending, Service};
use rp_base::{NoMemory, Pid};

/// The service of a node that is a guard. It keeps nothing: what it answers is a function of the kit, the process and what it is asked.
///
/// It names whom a frame that was taken in shows, if the process may expel it: the next one above that it named before. And it has one
/// line, `P accuse Q`. Its history says so of each call.
#[derive(Clone, Copy)]
pub struct Guard;

/// The most bytes of a line for a guard.
const LINE_BYTES: usize = 70_000;

impl Service for Guard {
    ghost use Rattle.std.specs.Prelude.{◌≡◌, [], ℕ, List, IfOk, OnErr};
    ghost use Rattle.group_defs.specs.Process.{Process};
    ghost use Rattle.node_defs.specs.Casts.{cast_of};
    ghost use Rattle.node_service.specs.Histories.{Asked, Version};
    ghost use Rattle.node_service.specs.Answers.{AnswersLine};
    ghost use Rattle.node_service.specs.Words.{IsHosted};
    ghost use Rattle.guard_service.specs.Answers.{AreGuards};

    ghost heard = { λ _ h. AreGuards h };

    ghost begun = { λ _. record { history = []; has = tt; holds = tt } };

    ghost longest_line = { λ _. 70000 };

    fn longest(&self) -> usize {
        LINE_BYTES
    }

    fn start(&mut self, _kit: &Kit, _hosts: &Hosts, _lines: &mut Vec<u8>) -> Result<(), NoMemory> {
        Ok(())
    }

    fn noted(
        &mut self,
        _process: &Hosted<AnySigner>,
        _note: &Note,
        _lines: &mut Vec<u8>,
    ) -> Result<(), NoMemory> {
        Ok(())
    }

    fn suspects(
        &mut self,
        kit: &Kit,
        process: &Hosted<AnySigner>,
        event: &Event<'_>,
        notes: &[Note],
        above: Option<Pid>,
    ) -> Option<Pid> {
        next_suspect(kit, process, event, notes, above)
    }

    /// `P accuse Q`: as `accuse` says. Any other line is not a guard's.
    ///
    /// # Errors
    /// [`NoMemory`]; lines and sends are as they were then.
    fn word(
        &mut self,
        kit: &Kit,
        process: &Hosted<AnySigner>,
        line: &str,
        lines: &mut Vec<u8>,
        sends: &mut Vec<Sending>,
    ) -> Result<bool, NoMemory>
        ensures answers { (version : Version) (p : ℕ) (now : Process) (h : List Asked) → AreGuards h
            → IsHosted (cast_of kit.now version) p now process.now
            → IfOk result (AnswersLine (λ _ h. AreGuards h) self.new h (cast_of kit.now version) p now line.now
            lines.old.items lines.new.items sends.old.items sends.new.items) }
        ensures lost { (h : List Asked) → AreGuards h → OnErr result (AreGuards h) }
        ensures lines { OnErr result (lines.new.items ≡ lines.old.items) }
        ensures sends { OnErr result (sends.new.items ≡ sends.old.items) }
    {
        let Some(q) = accused(line) else {
            return Ok(false);
        };
        accuse(kit, process, q, lines, sends)?;
        Ok(true)
    }
}
