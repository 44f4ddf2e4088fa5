//! The lines of a report before those of the processes.
ghost use Rattle.std.specs.Prelude.{◌≡◌, ◌++◌, length, OnOk};
ghost use Rattle.replay_defs.specs.Worlds.{World};
ghost use Rattle.replay_defs.specs.Reports as plain;

use crate::words::{end_line, push_number_word};
use rp_base::NoMemory;

/// What the text is, and how many events there were.
pub fn push_head(out: &mut Vec<u8>, events: u64) -> Result<(), NoMemory>
    ensures { (w : World) → w.count ≡ events → OnOk result (out.new.items ≡ out.old.items ++ plain.head_lines w) }
{
    out.extend_from_slice(b"rampart report 1\nevents")?;
    push_number_word(out, events)?;
    end_line(out)?;
    Ok(())
}

/// How many steps were refused, as the short report says it.
pub fn push_refused_count(out: &mut Vec<u8>, refused: u64) -> Result<(), NoMemory>
    ensures { (w : World) → length w.refused ≡ refused → OnOk result (out.new.items ≡ out.old.items ++ plain.refused_count w) }
{
    out.extend_from_slice(b"refused")?;
    push_number_word(out, refused)?;
    end_line(out)?;
    Ok(())
}
