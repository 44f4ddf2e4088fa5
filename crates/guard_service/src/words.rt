//! The line of a guard, as it is read, and the line that it writes.
ghost use Rattle.std.specs.Prelude.{◌≡◌, ◌++◌, ◌∷◌, [], IfOk, OnOk, OnErr};
ghost use Rattle.text_codec.specs.Views.{parts_left};
ghost use Rattle.guard_defs.specs.Lines as defs;
ghost use Rattle.guard_service.specs.Answers.{accused_in};
ghost use Rattle.guard_service.specs.Words.{accuse_text, accused_word};

use rp_base::{NoMemory, Pid};
use std::alloc::Global;
use text_codec::{Parts, process, push_number};

// ---- read

// Whom the word `accuse` and the one after it are to accuse.
fn accused_with(word: &[u8], named: &[u8]) -> Option<Pid>
    ensures { result ≡ defs.accused_by (word.now ∷ named.now ∷ []) }
{
    if word == b"accuse".as_slice() {
        process(named)
    } else {
        None
    }
}

// The same, where nothing follows.
#[tactic(auto, using(crate::proofs::Read::ended, crate::proofs::Read::longer))]
fn accused_with_only(word: &[u8], named: &[u8], words: Parts<'_>) -> Option<Pid>
    ensures { result ≡ defs.accused_by (word.now ∷ named.now ∷ parts_left words.entry) }
{
    if words.is_done() {
        accused_with(word, named)
    } else {
        None
    }
}

fn accused_after(word: &[u8], mut words: Parts<'_>) -> Option<Pid>
    ensures { result ≡ defs.accused_by (word.now ∷ parts_left words.entry) }
{
    match words.next() {
        Some(named) => accused_with_only(word, named, words),
        None => None,
    }
}

// Whom the words after a hosted process are to accuse.
fn accused_by(mut words: Parts<'_>) -> Option<Pid>
    ensures { result ≡ defs.accused_by (parts_left words.entry) }
{
    match words.next() {
        Some(word) => accused_after(word, words),
        None => None,
    }
}

/// Whom the line is to accuse, where it is a guard's: `P accuse Q`, with Q from 0 to 63. The node has asked whether P is hosted.
pub(crate) fn accused(line: &str) -> Option<Pid>
    ensures { result ≡ accused_in line.now }
{
    let mut words = Parts::words(line.as_bytes());
    words.next()?;
    accused_by(words)
}

// ---- written

// Appends whom it accuses, if it does.
fn push_accused(line: &mut Vec<u8>, accused: Option<Pid>) -> Result<(), NoMemory>
    ensures { OnOk result (line.new.items ≡ line.old.items ++ accused_word accused) }
{
    match accused {
        Some(q) => {
            push_number(line, q.get().into())?;
            Ok(())
        }
        None => {
            line.extend_from_slice(b"none")?;
            Ok(())
        }
    }
}

fn accuse_line(alloc: Global, me: Pid, accused: Option<Pid>) -> Result<Vec<u8>, NoMemory>
    ensures { IfOk result (λ line. line.items ≡ accuse_text me accused) }
{
    let mut line = Vec::new(alloc);
    line.extend_from_slice(b"accuse ")?;
    push_number(&mut line, me.get().into())?;
    line.extend_from_slice(b" ")?;
    push_accused(&mut line, accused)?;
    line.extend_from_slice(b"\n")?;
    Ok(line)
}

/// Appends that the process accuses that one, or that it keeps no conflict of it.
///
/// # Errors
/// [`NoMemory`]; nothing is appended then.
pub(crate) fn push_accuse(out: &mut Vec<u8>, me: Pid, accused: Option<Pid>) -> Result<(), NoMemory>
    ensures pushed { OnOk result (out.new.items ≡ out.old.items ++ accuse_text me accused) }
    ensures unchanged { OnErr result (out.new.items ≡ out.old.items) }
{
    let line = accuse_line(*out.allocator(), me, accused)?;
    out.extend_from_slice(line.as_slice())?;
    Ok(())
}
