//! The line that says why an input has no report.
ghost use Rattle.std.specs.Prelude.{◌≡◌, ◌++◌, ◌∷◌, [], codes, IfOk, OnOk};
ghost use Rattle.std.specs.Fmt.{decimal};
ghost use Rattle.text_defs.specs.Words.{space, line_feed};
ghost use Rattle.replay_defs.specs.Reports as plain;
ghost use Rattle.replay_run.specs.Faults as faults;
ghost use Rattle.replay_words.specs.Answers as reported;

use replay_defs::FaultKind;
use replay_run::ReplayFault;
use rp_base::NoMemory;
use std::alloc::Global;
use text_codec::push_number;

/// What is wrong with bytes that are no schedule.
fn schedule_word(kind: FaultKind) -> &'static [u8]
    ensures { result.now ≡ plain.schedule_word kind }
{
    match kind {
        FaultKind::Short => b"short",
        FaultKind::Magic => b"magic",
        FaultKind::Scheme => b"scheme",
        FaultKind::Roster => b"roster",
        FaultKind::Key => b"key",
        FaultKind::Tag => b"tag",
        FaultKind::Field => b"field",
        FaultKind::TooLong => b"toolong",
        FaultKind::TooMany => b"toomany",
    }
}

/// The status, and the word of a fault after it.
fn begun(alloc: Global, word: &[u8]) -> Result<Vec<u8>, NoMemory>
    ensures { IfOk result (λ line. line.items ≡ codes "stop 7 " ++ word.now) }
{
    let mut line = b"stop 7 ".to_vec(alloc)?;
    line.extend_from_slice(word)?;
    Ok(line)
}

/// A space, and a number as the next word.
fn push_word(line: &mut Vec<u8>, n: u64) -> Result<(), NoMemory>
    ensures { OnOk result (line.new.items ≡ line.old.items ++ space ∷ decimal n) }
{
    line.push(b' ')?;
    push_number(line, n)
}

/// The line of a fault, with its place or its numbers; its line feed is still to come.
#[tactic(auto, unfolding(crate::specs::Answers::stop_line))]
fn words_of(alloc: Global, fault: ReplayFault) -> Result<Vec<u8>, NoMemory>
    ensures { IfOk result (λ line. line.items ++ line_feed ∷ [] ≡ reported.stop_line (faults.fault fault)) }
{
    match fault {
        ReplayFault::Schedule(fault) => {
            let mut line = begun(alloc, schedule_word(fault.kind))?;
            push_word(&mut line, fault.place as u64)?;
            Ok(line)
        }
        ReplayFault::NoSuchFrame { event, frame, sent } => {
            let mut line = begun(alloc, b"frame")?;
            push_word(&mut line, event)?;
            push_word(&mut line, frame.into())?;
            push_word(&mut line, sent as u64)?;
            Ok(line)
        }
        ReplayFault::TooMuchSent { event, bytes } => {
            let mut line = begun(alloc, b"sent")?;
            push_word(&mut line, event)?;
            push_word(&mut line, bytes)?;
            Ok(line)
        }
    }
}

/// The line that says why an input has no report.
pub fn stop_line(alloc: Global, fault: ReplayFault) -> Result<Vec<u8>, NoMemory>
    ensures { IfOk result (λ line. line.items ≡ reported.stop_line (faults.fault fault)) }
{
    let mut line = words_of(alloc, fault)?;
    line.push(b'\n')?;
    Ok(line)
}
