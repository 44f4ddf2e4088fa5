//! The last words of a line: processes, members, an update or a batch.
ghost use Rattle.std.specs.Prelude.{◌≡◌, ◌++◌, ◌∷◌, length, map, IfOk, OnOk};
ghost use Rattle.std.specs.List.{flat_map};
ghost use Rattle.std.specs.Fmt.{decimal};
ghost use Rattle.text_defs.specs.Words.{space};
ghost use Rattle.rp_base.specs.Views.{update as update_of};
ghost use Rattle.statements.specs.Batches.{message_of};
ghost use Rattle.trace_defs.specs.Phrases.{process_words, update_words, message_word};

use crate::words::{Word, process_word, push_next};
use rp_base::{NoMemory, Pid, PidSet, Update};

fn push_numbers(out: &mut Vec<u8>, processes: PidSet) -> Result<(), NoMemory>
    ensures { OnOk result (out.new.items ≡ out.old.items ++ flat_map (λ w. space ∷ w) (map decimal processes)) }
{
    for process in processes.iter() {
        push_next(out, process_word(process))?;
    }
    Ok(())
}

// How many processes there are. More than fit into memory can't be counted.
fn count(processes: PidSet) -> Result<u64, NoMemory>
    ensures { IfOk result (λ n. n ≡ length processes) }
{
    let mut n = 0u64;
    for _process in processes.iter() {
        n = n.checked_add(1).ok_or(NoMemory)?;
    }
    Ok(n)
}

/// The processes of a set, as further words of a line.
pub fn push_processes(out: &mut Vec<u8>, processes: PidSet) -> Result<(), NoMemory>
    ensures { OnOk result (out.new.items ≡ out.old.items ++ flat_map (λ w. space ∷ w) (process_words processes)) }
{
    let n = count(processes)?;
    if n == 0 {
        return push_next(out, Word::Text(b"nobody"));
    }
    if n == 64 {
        return push_next(out, Word::Text(b"all"));
    }
    push_numbers(out, processes)
}

/// Members in rank order, as further words of a line.
pub fn push_members(out: &mut Vec<u8>, members: &[Pid]) -> Result<(), NoMemory>
    ensures { OnOk result (out.new.items ≡ out.old.items ++ flat_map (λ w. space ∷ w) (map decimal members.now)) }
{
    for member in members {
        push_next(out, process_word(*member))?;
    }
    Ok(())
}

/// An update, as further words of a line.
pub fn push_update(out: &mut Vec<u8>, update: Update) -> Result<(), NoMemory>
    ensures { OnOk result (out.new.items ≡ out.old.items ++ flat_map (λ w. space ∷ w) (update_words (update_of update))) }
{
    match update {
        Update::Remove(process) => {
            push_next(out, Word::Text(b"remove"))?;
            push_next(out, process_word(process))
        }
        Update::Add(process) => {
            push_next(out, Word::Text(b"add"))?;
            push_next(out, process_word(process))
        }
        Update::Renew => push_next(out, Word::Text(b"renew")),
    }
}

/// Messages, as further words of a line.
pub fn push_messages(out: &mut Vec<u8>, messages: &[(Pid, u16)]) -> Result<(), NoMemory>
    ensures { OnOk result (out.new.items ≡ out.old.items ++ flat_map (λ w. space ∷ w) (map message_word (map message_of messages.now))) }
{
    for (sender, number) in messages {
        let message = Word::Message(sender.get().into(), (*number).into());
        push_next(out, message)?;
    }
    Ok(())
}
