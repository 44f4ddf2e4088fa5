//! Why a chain stops, and the line that says so.
ghost use Rattle.std.specs.Prelude.{◌≡◌, ◌++◌, ◌∷◌, [], codes, IfOk, OnOk, IsOk};
ghost use Rattle.std.specs.Fmt.{decimal};
ghost use Rattle.text_defs.specs.Words.{space, line_feed};
ghost use Rattle.chain_text_defs.specs.Chains.{stopped};
ghost use Rattle.chain_words.specs.Stops.{line_of, of_front, of_input, of_kit, status_of, words_of};
ghost use Rattle.chain_words.specs.declared.stops.Stop.TheVariants as stops;

use chain_check::ChainFault;
use kit_reading::{FrontFault, InputFault, KitFault};
use report_lines::frame_word;
use rp_base::NoMemory;
use std::alloc::Global;
use text_codec::push_number;

/// What of the input stops a chain. Lines are counted from 1, over the whole input.
#[derive(Clone, Copy)]
pub enum Fault {
    /// The line is none of a kit, or is no proof line, or the input ends in it or before the line `go`.
    Line(usize),

    /// The line says what an earlier line of the kit says.
    Repeated(usize),

    /// A line of the kit is missing before this one.
    Missing(usize),

    /// The line has a secret whose public key is not the one on its key line.
    KeyMismatch(usize),

    /// The proof in the line shows no view.
    Proof(usize, ChainFault),
}

/// Why a chain stops before the input's end.
#[derive(Clone, Copy)]
pub enum Stop {
    /// No memory is left.
    NoMemory,

    /// The input failed.
    Read,

    /// The output failed.
    Write,

    /// The input has a fault.
    Input(Fault),
}

impl From<NoMemory> for Stop {
    ghost from_gives = { λ _ stop. stop ≡ stops.NoMemory };

    fn from(_refused: NoMemory) -> Stop {
        Stop::NoMemory
    }
}

impl From<InputFault> for Stop {
    ghost from_gives = { λ fault stop. stop ≡ of_input fault };

    fn from(fault: InputFault) -> Stop {
        match fault {
            InputFault::Read => Stop::Read,
            InputFault::NoMemory => Stop::NoMemory,
        }
    }
}

// Why there is no kit.
fn kit_stop(fault: KitFault) -> Stop
    ensures { result ≡ of_kit fault }
{
    match fault {
        KitFault::Line { line } => Stop::Input(Fault::Line(line)),
        KitFault::Repeated { line } => Stop::Input(Fault::Repeated(line)),
        KitFault::Missing { line } => Stop::Input(Fault::Missing(line)),
        KitFault::KeyMismatch { line, .. } => Stop::Input(Fault::KeyMismatch(line)),
        KitFault::NoMemory => Stop::NoMemory,
    }
}

impl From<FrontFault> for Stop {
    ghost from_gives = { λ fault stop. stop ≡ of_front fault };

    fn from(fault: FrontFault) -> Stop {
        match fault {
            FrontFault::Read => Stop::Read,
            FrontFault::Kit(fault) => kit_stop(fault),
        }
    }
}

// A space, and a number as the next word.
fn push_count(out: &mut Vec<u8>, n: u64) -> Result<(), NoMemory>
    ensures { OnOk result (out.new.items ≡ out.old.items ++ space ∷ decimal n) }
{
    out.push(b' ')?;
    push_number(out, n)
}

// A space, and bytes as the next word.
fn push_word(out: &mut Vec<u8>, word: &[u8]) -> Result<(), NoMemory>
    ensures { OnOk result (out.new.items ≡ out.old.items ++ space ∷ word.now) }
{
    out.push(b' ')?;
    out.extend_from_slice(word)?;
    Ok(())
}

// The status, the word of a fault, and the number of the line that has it.
fn begun(alloc: Global, word: &[u8], line: usize) -> Result<Vec<u8>, NoMemory>
    ensures { IfOk result (λ text. text.items ≡ codes "stop 7" ++ (space ∷ word.now ++ space ∷ decimal line)) }
{
    let mut text = b"stop 7".to_vec(alloc)?;
    push_word(&mut text, word)?;
    push_count(&mut text, line as u64)?;
    Ok(text)
}

// The line of a proof that shows no view, but for its line feed.
fn proof_line(alloc: Global, line: usize, fault: ChainFault) -> Result<Vec<u8>, NoMemory>
    ensures { IfOk result (λ text. text.items ++ line_feed ∷ [] ≡ (stopped (words_of (Fault.Proof line fault))).written) }
{
    match fault {
        ChainFault::Frame(fault) => {
            let mut text = begun(alloc, b"frame", line)?;
            push_word(&mut text, frame_word(fault))?;
            Ok(text)
        }
        ChainFault::NotProof => begun(alloc, b"notproof", line),
        ChainFault::Few(count) => {
            let mut text = begun(alloc, b"few", line)?;
            push_count(&mut text, count.into())?;
            Ok(text)
        }
    }
}

// The line of a fault of the input, but for its line feed.
fn fault_line(alloc: Global, fault: Fault) -> Result<Vec<u8>, NoMemory>
    ensures { IfOk result (λ text. text.items ++ line_feed ∷ [] ≡ (stopped (words_of fault)).written) }
{
    match fault {
        Fault::Line(line) => begun(alloc, b"line", line),
        Fault::Repeated(line) => begun(alloc, b"repeated", line),
        Fault::Missing(line) => begun(alloc, b"missing", line),
        Fault::KeyMismatch(line) => begun(alloc, b"keymismatch", line),
        Fault::Proof(line, fault) => proof_line(alloc, line, fault),
    }
}

fn ended_line(alloc: Global, fault: Fault) -> Result<Vec<u8>, NoMemory>
    ensures { IfOk result (λ text. text.items ≡ (stopped (words_of fault)).written) }
{
    let mut text = fault_line(alloc, fault)?;
    text.push(b'\n')?;
    Ok(text)
}

impl Stop {
    /// The status that the program ends with.
    pub(crate) fn status(self) -> u8
        ensures { result ≡ status_of self }
    {
        match self {
            Stop::NoMemory => 1,
            Stop::Read => 3,
            Stop::Write => 4,
            Stop::Input(_) => 7,
        }
    }

    /// The line that says so, empty where none is written.
    ///
    /// # Errors
    /// [`NoMemory`], which does not come where no line is written.
    pub(crate) fn line(self, alloc: Global) -> Result<Vec<u8>, NoMemory>
        ensures line { IfOk result (λ text. text.items ≡ line_of self) }
        ensures write { self ≡ Stop.Write → IsOk result }
    {
        match self {
            Stop::NoMemory | Stop::Write => Ok(Vec::new(alloc)),
            Stop::Read => Ok(b"stop 3 read\n".to_vec(alloc)?),
            Stop::Input(fault) => ended_line(alloc, fault),
        }
    }
}
