//! Why a node ends.
ghost use Rattle.std.specs.Prelude.{◌≡◌, ◌++◌, ◌∷◌, [], codes, OnOk, OnErr};
ghost use Rattle.std.specs.Fmt.{decimal};
ghost use Rattle.text_defs.specs.Words.{line_text};
ghost use Rattle.kit_reading.specs.Faults.{fault_of};
ghost use Rattle.node_defs.specs.Lines as plain;
ghost use Rattle.node_text.specs.Views.{kit_stop, stop as stop_of};
ghost use Rattle.node_text.specs.declared.stops.Stop.TheVariants as stops;

use crate::words::{Word, push_line};
use kit_reading::KitFault;
use rp_base::NoMemory;

/// Why a node ends. Lines are counted from 1, over the whole input.
#[derive(Clone, Copy)]
pub enum Stop {
    /// The input was read to its end.
    Ended,

    /// No memory is left.
    NoMemory,

    /// The input failed.
    ReadFailed,

    /// The output failed.
    WriteFailed,

    /// The disk failed.
    DiskFailed,

    /// A port is not to be had.
    BindFailed,

    /// The input begins with no kit. That memory ran out for the kit is `NoMemory`, here too.
    BadKit(KitFault),

    /// This line is none of the script.
    BadLine(u64),

    /// This line is no snapshot.
    BadSnap(u64),

    /// The journal is another node's, at place 0, or what it has at this place is no entry of this node.
    BadJournal(u64),

    /// An entry of `entry` bytes has no room after `whole`, which are those up to and with the closed gate.
    Full { whole: u64, entry: u64 },
}

impl From<NoMemory> for Stop {
    ghost from_gives = { λ _ stop. stop ≡ stops.NoMemory };

    fn from(_refused: NoMemory) -> Stop {
        Stop::NoMemory
    }
}

// A line of the input that is to blame, and the word for it.
fn push_input_fault(out: &mut Vec<u8>, word: &[u8], line: u64) -> Result<(), NoMemory>
    ensures pushed { OnOk result (out.new.items ≡ out.old.items
        ++ line_text (codes "stop" ∷ codes "7" ∷ word.now ∷ decimal line ∷ [])) }
    ensures unchanged { OnErr result (out.new.items ≡ out.old.items) }
{
    push_line(
        out,
        b"stop",
        &[Word::Text(b"7"), Word::Text(word), Word::Number(line)],
    )
}

fn push_kit_fault(out: &mut Vec<u8>, fault: &KitFault) -> Result<(), NoMemory>
    ensures pushed { OnOk result (out.new.items ≡ out.old.items ++ plain.stop_line (kit_stop (fault_of fault.now))) }
    ensures unchanged { OnErr result (out.new.items ≡ out.old.items) }
{
    match fault {
        KitFault::Line { line } => push_input_fault(out, b"line", *line as u64),
        KitFault::Repeated { line } => push_input_fault(out, b"repeated", *line as u64),
        KitFault::Missing { line } => push_input_fault(out, b"missing", *line as u64),
        KitFault::KeyMismatch { line, .. } => push_input_fault(out, b"keymismatch", *line as u64),
        KitFault::NoMemory => Ok(()),
    }
}

fn kit_status(fault: &KitFault) -> u8
    ensures { result ≡ plain.status_of (kit_stop (fault_of fault.now)) }
{
    match fault {
        KitFault::NoMemory => 1,
        KitFault::Line { .. }
        | KitFault::Repeated { .. }
        | KitFault::Missing { .. }
        | KitFault::KeyMismatch { .. } => 7,
    }
}

impl Stop {
    /// The status that the program ends with, 0 to 9.
    pub fn status(&self) -> u8
        ensures { result ≡ plain.status_of (stop_of self.now) }
    {
        match self {
            Stop::Ended => 0,
            Stop::NoMemory => 1,
            Stop::ReadFailed => 3,
            Stop::WriteFailed => 4,
            Stop::DiskFailed => 5,
            Stop::BindFailed => 6,
            Stop::BadKit(fault) => kit_status(fault),
            Stop::BadLine(_) | Stop::BadSnap(_) => 7,
            Stop::BadJournal(_) => 8,
            Stop::Full { .. } => 9,
        }
    }

    /// Appends the last line that is written, which for some stops is none.
    ///
    /// # Errors
    /// [`NoMemory`]; nothing is appended then.
    pub fn push_line(&self, out: &mut Vec<u8>) -> Result<(), NoMemory>
        ensures pushed { OnOk result (out.new.items ≡ out.old.items ++ plain.stop_line (stop_of self.now)) }
        ensures unchanged { OnErr result (out.new.items ≡ out.old.items) }
    {
        match self {
            Stop::Ended | Stop::NoMemory | Stop::WriteFailed => Ok(()),
            Stop::ReadFailed => push_line(out, b"stop", &[Word::Text(b"3"), Word::Text(b"read")]),
            Stop::DiskFailed => push_line(out, b"stop", &[Word::Text(b"5"), Word::Text(b"disk")]),
            Stop::BindFailed => push_line(out, b"stop", &[Word::Text(b"6"), Word::Text(b"link")]),
            Stop::BadKit(fault) => push_kit_fault(out, fault),
            Stop::BadLine(line) => push_input_fault(out, b"line", *line),
            Stop::BadSnap(line) => push_input_fault(out, b"snap", *line),
            Stop::BadJournal(place) => push_line(
                out,
                b"stop",
                &[
                    Word::Text(b"8"),
                    Word::Text(b"journal"),
                    Word::Text(b"0"),
                    Word::Number(*place),
                ],
            ),
            Stop::Full { whole, entry } => push_line(
                out,
                b"stop",
                &[
                    Word::Text(b"9"),
                    Word::Text(b"full"),
                    Word::Number(*whole),
                    Word::Number(*entry),
                ],
            ),
        }
    }
}
