//! Why a run over the input of an audit stops, or over a kit and lines of evidence, and the line that says so.
ghost use Rattle.std.specs.Prelude.{◌≡◌, ◌++◌, ◌∷◌, [], codes, IfOk, OnOk};
ghost use Rattle.std.specs.Fmt.{decimal};
ghost use Rattle.text_defs.specs.Words.{space, line_feed};
ghost use Rattle.audit_input.specs.Stops.{fault_line, fault_status as status_in, of_audit, of_front, of_input, of_kit, status_of};
ghost use Rattle.audit_input.specs.declared.stops.Stop.TheVariants as stops;

use audit_sources::AuditFault;
use kit_reading::{FrontFault, InputFault, KitFault};
use rp_base::NoMemory;
use std::alloc::Global;
use text_codec::push_number;

/// What of the input is in the way. Lines are counted from 1, without the journals' bytes.
#[derive(Clone, Copy)]
pub enum Fault {
    /// The line is none of a kit, or none that may come before a journal, or none of evidence, or the input ends in it, before the line
    /// `go`, or within the line's journal.
    Line(usize),

    /// The line says what an earlier line of the kit says.
    Repeated(usize),

    /// A line of the kit is missing before this one.
    Missing(usize),

    /// The line has a secret whose public key is not the one on its key line.
    KeyMismatch(usize),

    /// No journal hosts the listed process of this number.
    Unhosted(u8),

    /// Two journals or more host the listed process of this number.
    Doubled(u8),

    /// The journal of this index is refused at this byte.
    Journal { journal: usize, place: u64 },

    /// The evidence in the line is not taken.
    Evidence(usize),
}

/// Why a run stops before its work is done.
#[derive(Clone, Copy)]
pub enum Stop {
    /// No memory is left.
    NoMemory,

    /// The input failed.
    Read,

    /// The output failed.
    Write,

    /// The input has a fault.
    Input(Fault),
}

impl From<NoMemory> for Stop {
    ghost from_gives = { λ _ stop. stop ≡ stops.NoMemory };

    fn from(_refused: NoMemory) -> Stop {
        Stop::NoMemory
    }
}

// Why there is no kit, or a line is none of a journal.
fn kit_stop(fault: KitFault) -> Stop
    ensures { result ≡ of_kit fault }
{
    match fault {
        KitFault::Line { line } => Stop::Input(Fault::Line(line)),
        KitFault::Repeated { line } => Stop::Input(Fault::Repeated(line)),
        KitFault::Missing { line } => Stop::Input(Fault::Missing(line)),
        KitFault::KeyMismatch { line, .. } => Stop::Input(Fault::KeyMismatch(line)),
        KitFault::NoMemory => Stop::NoMemory,
    }
}

impl From<FrontFault> for Stop {
    ghost from_gives = { λ fault stop. stop ≡ of_front fault };

    fn from(fault: FrontFault) -> Stop {
        match fault {
            FrontFault::Read => Stop::Read,
            FrontFault::Kit(fault) => kit_stop(fault),
        }
    }
}

impl From<InputFault> for Stop {
    ghost from_gives = { λ fault stop. stop ≡ of_input fault };

    fn from(fault: InputFault) -> Stop {
        match fault {
            InputFault::Read => Stop::Read,
            InputFault::NoMemory => Stop::NoMemory,
        }
    }
}

impl From<AuditFault> for Stop {
    ghost from_gives = { λ fault stop. stop ≡ of_audit fault };

    fn from(fault: AuditFault) -> Stop {
        match fault {
            AuditFault::Missing(p) => Stop::Input(Fault::Unhosted(p.get())),
            AuditFault::Repeated(p) => Stop::Input(Fault::Doubled(p.get())),
            AuditFault::Entry { journal, place } => Stop::Input(Fault::Journal { journal, place }),
            AuditFault::NoMemory => Stop::NoMemory,
        }
    }
}

// A space, and a number as the next word.
fn push_count(out: &mut Vec<u8>, n: u64) -> Result<(), NoMemory>
    ensures { OnOk result (out.new.items ≡ out.old.items ++ space ∷ decimal n) }
{
    out.push(b' ')?;
    push_number(out, n)
}

// The status, and the word of a fault.
fn begun(alloc: Global, status: u8, word: &[u8]) -> Result<Vec<u8>, NoMemory>
    ensures { IfOk result (λ text. text.items ≡ codes "stop" ++ (space ∷ decimal status ++ space ∷ word.now)) }
{
    let mut text = b"stop".to_vec(alloc)?;
    push_count(&mut text, status.into())?;
    text.push(b' ')?;
    text.extend_from_slice(word)?;
    Ok(text)
}

// The line of a fault of status 7, but for its line feed: a word and a number.
fn one_number(alloc: Global, word: &[u8], n: u64) -> Result<Vec<u8>, NoMemory>
    ensures { IfOk result (λ text. text.items ≡ codes "stop" ++ (space ∷ decimal 7 ++ (space ∷ word.now ++ space ∷ decimal n))) }
{
    let mut text = begun(alloc, 7, word)?;
    push_count(&mut text, n)?;
    Ok(text)
}

// The line of a journal that is refused, but for its line feed.
fn journal_line(alloc: Global, journal: usize, place: u64) -> Result<Vec<u8>, NoMemory>
    ensures { IfOk result (λ text. text.items
        ≡ codes "stop" ++ (space ∷ decimal 8 ++ (space ∷ codes "journal" ++ (space ∷ decimal journal ++ space ∷ decimal place)))) }
{
    let mut text = begun(alloc, 8, b"journal")?;
    push_count(&mut text, journal as u64)?;
    push_count(&mut text, place)?;
    Ok(text)
}

// The line of a fault of the input, but for its line feed.
fn fault_line(alloc: Global, fault: Fault) -> Result<Vec<u8>, NoMemory>
    ensures { IfOk result (λ text. text.items ++ line_feed ∷ [] ≡ fault_line fault) }
{
    match fault {
        Fault::Line(line) => one_number(alloc, b"line", line as u64),
        Fault::Repeated(line) => one_number(alloc, b"repeated", line as u64),
        Fault::Missing(line) => one_number(alloc, b"missing", line as u64),
        Fault::KeyMismatch(line) => one_number(alloc, b"keymismatch", line as u64),
        Fault::Unhosted(p) => one_number(alloc, b"unhosted", p.into()),
        Fault::Doubled(p) => one_number(alloc, b"doubled", p.into()),
        Fault::Journal { journal, place } => journal_line(alloc, journal, place),
        Fault::Evidence(line) => one_number(alloc, b"evidence", line as u64),
    }
}

// The status of a fault of the input: 8 where a journal is refused.
fn fault_status(fault: Fault) -> u8
    ensures { result ≡ status_in fault }
{
    match fault {
        Fault::Journal { .. } => 8,
        Fault::Line(_)
        | Fault::Repeated(_)
        | Fault::Missing(_)
        | Fault::KeyMismatch(_)
        | Fault::Unhosted(_)
        | Fault::Doubled(_)
        | Fault::Evidence(_) => 7,
    }
}

impl Fault {
    /// The line that says so.
    ///
    /// # Errors
    /// [`NoMemory`] where room for the line is refused.
    pub(crate) fn line(self, alloc: Global) -> Result<Vec<u8>, NoMemory>
        ensures { IfOk result (λ text. text.items ≡ fault_line self) }
    {
        let mut text = fault_line(alloc, self)?;
        text.push(b'\n')?;
        Ok(text)
    }
}

impl Stop {
    /// The status that the program ends with.
    pub fn status(self) -> u8
        ensures { result ≡ status_of self }
    {
        match self {
            Stop::NoMemory => 1,
            Stop::Read => 3,
            Stop::Write => 4,
            Stop::Input(fault) => fault_status(fault),
        }
    }
}
