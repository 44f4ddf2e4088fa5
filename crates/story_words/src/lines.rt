//! A line about a process, and the line of an event.
ghost use Rattle.std.specs.Prelude.{◌≡◌, ◌++◌, ◌∷◌, codes, map, OnOk};
ghost use Rattle.std.specs.List.{join_with_byte};
ghost use Rattle.std.specs.Fmt.{decimal};
ghost use Rattle.text_defs.specs.Words.{space, line_text};
ghost use Rattle.rp_base.specs.Views.{update as update_of};
ghost use Rattle.trace_defs.specs.Phrases.{number_and_colon, payload_words, process_words, update_words, message_word};
ghost use Rattle.trace_defs.specs.Outcomes.{of_process};
ghost use Rattle.story_words.specs.Words.{spelled};

use crate::endings::{push_members, push_messages, push_processes, push_update};
use crate::payloads::push_payload;
use crate::words::{Word, end_line, process_word, push_more, push_next, push_word};
use rp_base::{NoMemory, Pid, PidSet, Update};
use stmt_codec::Batch;

/// The first words of a line about a process.
pub fn begin_said(out: &mut Vec<u8>, at: Pid, words: &[Word<'_>]) -> Result<(), NoMemory>
    ensures { OnOk result (out.new.items ≡ out.old.items ++ join_with_byte space (of_process at (map spelled words.now))) }
{
    push_word(out, Word::Text(b" "))?;
    push_next(out, process_word(at))?;
    push_more(out, words)?;
    Ok(())
}

/// A line about a process.
pub fn push_said(out: &mut Vec<u8>, at: Pid, words: &[Word<'_>]) -> Result<(), NoMemory>
    ensures { OnOk result (out.new.items ≡ out.old.items ++ line_text (of_process at (map spelled words.now))) }
{
    begin_said(out, at, words)?;
    end_line(out)?;
    Ok(())
}

/// A line about a process that ends with a payload.
pub fn said_with_payload(
    out: &mut Vec<u8>,
    at: Pid,
    words: &[Word<'_>],
    payload: &[u8],
) -> Result<(), NoMemory>
    ensures { OnOk result (out.new.items ≡ out.old.items
        ++ line_text (of_process at (map spelled words.now ++ payload_words payload.now))) }
{
    begin_said(out, at, words)?;
    push_payload(out, payload)?;
    end_line(out)?;
    Ok(())
}

/// A line about a process that ends with the processes of a set.
pub fn said_with_processes(
    out: &mut Vec<u8>,
    at: Pid,
    words: &[Word<'_>],
    processes: PidSet,
) -> Result<(), NoMemory>
    ensures { OnOk result (out.new.items ≡ out.old.items ++ line_text (of_process at (map spelled words.now ++ process_words processes))) }
{
    begin_said(out, at, words)?;
    push_processes(out, processes)?;
    end_line(out)?;
    Ok(())
}

/// A line about a process that ends with members in rank order.
pub fn said_with_members(
    out: &mut Vec<u8>,
    at: Pid,
    words: &[Word<'_>],
    members: &[Pid],
) -> Result<(), NoMemory>
    ensures { OnOk result (out.new.items ≡ out.old.items ++ line_text (of_process at (map spelled words.now ++ map decimal members.now))) }
{
    begin_said(out, at, words)?;
    push_members(out, members)?;
    end_line(out)?;
    Ok(())
}

/// A line about a process that ends with an update.
pub fn said_with_update(
    out: &mut Vec<u8>,
    at: Pid,
    words: &[Word<'_>],
    update: Update,
) -> Result<(), NoMemory>
    ensures { OnOk result (out.new.items ≡ out.old.items
        ++ line_text (of_process at (map spelled words.now ++ update_words (update_of update)))) }
{
    begin_said(out, at, words)?;
    push_update(out, update)?;
    end_line(out)?;
    Ok(())
}

/// A line about a process that ends with the messages of a batch.
pub fn said_with_batch(
    out: &mut Vec<u8>,
    at: Pid,
    words: &[Word<'_>],
    batch: &Batch,
) -> Result<(), NoMemory>
    ensures { OnOk result (out.new.items ≡ out.old.items
        ++ line_text (of_process at (map spelled words.now ++ map message_word batch.now))) }
{
    begin_said(out, at, words)?;
    push_messages(out, batch.messages())?;
    end_line(out)?;
    Ok(())
}

// The first words of the line of the event of this number.
fn begin_event(out: &mut Vec<u8>, n: u64, words: &[Word<'_>]) -> Result<(), NoMemory>
    ensures { OnOk result (out.new.items ≡ out.old.items
        ++ join_with_byte space (codes "event" ∷ number_and_colon n ∷ map spelled words.now)) }
{
    push_word(out, Word::Text(b"event"))?;
    push_next(out, Word::Head(n))?;
    push_more(out, words)?;
    Ok(())
}

/// The line of an event.
pub fn event_line(out: &mut Vec<u8>, n: u64, words: &[Word<'_>]) -> Result<(), NoMemory>
    ensures { OnOk result (out.new.items ≡ out.old.items ++ line_text (codes "event" ∷ number_and_colon n ∷ map spelled words.now)) }
{
    begin_event(out, n, words)?;
    end_line(out)?;
    Ok(())
}

/// The line of an event that ends with a payload.
pub fn event_with_payload(
    out: &mut Vec<u8>,
    n: u64,
    words: &[Word<'_>],
    payload: &[u8],
) -> Result<(), NoMemory>
    ensures { OnOk result (out.new.items ≡ out.old.items
        ++ line_text (codes "event" ∷ number_and_colon n ∷ (map spelled words.now ++ payload_words payload.now))) }
{
    begin_event(out, n, words)?;
    push_payload(out, payload)?;
    end_line(out)?;
    Ok(())
}

/// The line of an event that ends with the processes of a set.
pub fn event_with_processes(
    out: &mut Vec<u8>,
    n: u64,
    words: &[Word<'_>],
    processes: PidSet,
) -> Result<(), NoMemory>
    ensures { OnOk result (out.new.items ≡ out.old.items
        ++ line_text (codes "event" ∷ number_and_colon n ∷ (map spelled words.now ++ process_words processes))) }
{
    begin_event(out, n, words)?;
    push_processes(out, processes)?;
    end_line(out)?;
    Ok(())
}
