//! What a node asks of its service.
ghost use Rattle.std.specs.Prelude.{◌≡◌, [], ◌∷◌, ◌++◌, ℕ, List, map, None, IfOk, IfSome, OnErr, OnOk};
ghost use Rattle.group_defs.specs.Process.{Process};
ghost use Rattle.kit_defs.specs.Kits.{IsKit};
ghost use Rattle.journal_defs.specs.declared.Version.{Version};
ghost use Rattle.node_defs.specs.Casts.{Cast, cast_of};
ghost use Rattle.node_defs.specs.Nodes.{Asks, Serves, NotesOf};
ghost use Rattle.node_traces.specs.Service.{Asked, HeardBy, one_asked};
ghost use Rattle.node_service.specs.Words.{AreHosts, IsHosted, note as note_of, event as event_of};
ghost use Rattle.node_service.specs.Answers.{AnswersLine, GoesOn, IsAbove, HasAnswered, named_by};

use member_events::{Note, Sending};
use node_hosts::{AnySigner, Event, Hosted, Hosts, Kit};
use rp_base::{NoMemory, Pid};

/// What is built on the hosted processes of a node: it reports their deliveries in its own words, takes lines of the script, and names
/// processes that are to be suspected on evidence.
///
/// A service has a history: the calls that it was asked, what it was shown, and its own answers, in order. Which histories a value has is its
/// own word, [`heard`](Service), and each call lengthens each of them by just this call and this answer. So of a run it can be said that
/// whatever was written, sent or taken for the service's sake is what it answered. A call that fails for want of memory counts for nothing:
/// the node stops then.
pub trait Service {
    /// What it was asked so far, with its answers.
    ghost heard: { Self → List Asked → Type 0 };

    /// Each has a history, be it that it was asked nothing yet.
    ghost begun: { (v : Self) → HeardBy heard v (λ h. Unit {0}) };

    /// How many bytes a line of the script that is for it has at most.
    ghost longest_line: { Self → ℕ };

    /// How many bytes a line of the script that is for it has at most. It is asked once, before the node opens.
    fn longest(&self) -> usize
        ensures { result ≡ longest_line self.now };

    /// The node opens: these are its processes, as their journal left them. What the service says first is appended to the lines.
    ///
    /// # Errors
    /// [`NoMemory`]; some more text may be after the lines then.
    fn start(&mut self, kit: &Kit, hosts: &Hosts, lines: &mut Vec<u8>) -> Result<(), NoMemory>
        requires { IsKit kit.now }
        ensures tells { (version : Version) (now : ℕ → Process) (h : List Asked) → heard self.old h
            → AreHosts (cast_of kit.now version) kit.now now None hosts.now → OnOk result (HasAnswered heard self.new h (cast_of kit.now version)
            (map now (cast_of kit.now version).hosted) Serves lines.old.items lines.new.items) }
        ensures lost { (h : List Asked) → heard self.old h → OnErr result (heard self.new h) }
        ensures more { GoesOn lines.old.items lines.new.items };

    /// A turn of this process, which has taken it, let out this note. What the service says of it is appended to the lines, after the note's
    /// own line.
    ///
    /// # Errors
    /// [`NoMemory`]; some more text may be after the lines then.
    fn noted(
        &mut self,
        process: &Hosted<AnySigner>,
        note: &Note,
        lines: &mut Vec<u8>,
    ) -> Result<(), NoMemory>
        ensures tells { (c : Cast) (p : ℕ) (now : Process) (h : List Asked) → heard self.old h → IsHosted c p now process.now
            → OnOk result (HasAnswered heard self.new h c (now ∷ []) (NotesOf p (note_of note.now)) lines.old.items lines.new.items) }
        ensures lost { (h : List Asked) → heard self.old h → OnErr result (heard self.new h) }
        ensures more { GoesOn lines.old.items lines.new.items };

    /// Whom this process of the kit's group, which has taken this event in a turn that let out these notes, is to suspect on evidence: one
    /// above the given process, if any is. It is asked again above each that it names.
    fn suspects(
        &mut self,
        kit: &Kit,
        process: &Hosted<AnySigner>,
        event: &Event<'_>,
        notes: &[Note],
        above: Option<Pid>,
    ) -> Option<Pid>
        ensures names { (version : Version) (p : ℕ) (now : Process) (h : List Asked) → heard self.old h
            → IsHosted (cast_of kit.now version) p now process.now → heard self.new (h ++ one_asked (cast_of kit.now version) (now ∷ [])
            (Asks p (event_of event.now) (map note_of notes.now) above) (named_by result)) }
        ensures rises { IfSome result (IsAbove above) };

    /// A line of the script for this process of the kit's group that is not in the node's own words. True: what the service says is
    /// appended to the lines, and what the process is to send to the sends; it goes to other processes of the roster, in frames of at most
    /// 61,000 bytes. False: the service has no such line.
    ///
    /// # Errors
    /// [`NoMemory`].
    fn word(
        &mut self,
        kit: &Kit,
        process: &Hosted<AnySigner>,
        line: &str,
        lines: &mut Vec<u8>,
        sends: &mut Vec<Sending>,
    ) -> Result<bool, NoMemory>
        ensures answers { (version : Version) (p : ℕ) (now : Process) (h : List Asked) → heard self.old h
            → IsHosted (cast_of kit.now version) p now process.now → IfOk result (AnswersLine heard self.new h (cast_of kit.now version) p now
            line.now lines.old.items lines.new.items sends.old.items sends.new.items) }
        ensures lost { (h : List Asked) → heard self.old h → OnErr result (heard self.new h) };
}
