//! What became of a state that was offered, and its line.
ghost use Rattle.std.specs.Prelude.{◌≡◌, ◌+◌, ◌≤◌, ◌++◌, vec_len, vec_capacity, OnOk};
ghost use Rattle.store_defs.specs.Words.{offered_text};
ghost use Rattle.store_giving.specs.Offers.{word};

use rp_base::{NoMemory, Pid};
use store_defs::Taken;
use store_words::{append_count_line, append_line};

/// What became of a state that was offered.
#[derive(Clone, Copy, Debug, PartialEq, Eq)]
pub enum Offered {
    /// The bytes are no state record.
    Grammar,

    /// The process holds the store.
    Held,

    /// What the transfer makes of it; it is of another view also where the process is no member of its own.
    Offered(Taken),
}

const STATE: &[u8] = b"state";

/// The longest line: `state`, a process, `refused stranger`.
const LONGEST: usize = 32;

/// Makes room for the line that says what became of a state.
///
/// # Errors
/// [`NoMemory`] where it is refused.
pub fn reserve_offered(out: &mut Vec<u8>) -> Result<(), NoMemory>
    ensures room { OnOk result (vec_len out.new + 32 ≤ vec_capacity out.new) }
    ensures same { out.new.items ≡ out.old.items }
{
    out.reserve(LONGEST)?;
    Ok(())
}

/// Appends the line that says what became of a state, for which there is room.
pub(crate) fn append_offered(out: &mut Vec<u8>, me: Pid, offered: Offered)
    requires room { vec_len out.old + 32 ≤ vec_capacity out.old }
    ensures { out.new.items ≡ out.old.items ++ offered_text me (word offered) }
{
    match offered {
        Offered::Grammar => append_line(out, STATE, me, b"refused grammar"),
        Offered::Held => append_line(out, STATE, me, b"refused held"),
        Offered::Offered(taken) => append_taken(out, me, taken),
    }
}

// The line of what the transfer makes of a state.
fn append_taken(out: &mut Vec<u8>, me: Pid, taken: Taken)
    requires room { vec_len out.old + 32 ≤ vec_capacity out.old }
    ensures { out.new.items ≡ out.old.items ++ offered_text me (word (Offered.Offered taken)) }
{
    match taken {
        Taken::OtherView => append_line(out, STATE, me, b"refused view"),
        Taken::Stranger => append_line(out, STATE, me, b"refused stranger"),
        Taken::Unsigned => append_line(out, STATE, me, b"refused unsigned"),
        Taken::Known => append_line(out, STATE, me, b"refused known"),
        Taken::Ready => append_line(out, STATE, me, b"ready"),
        Taken::Counted(givers) => append_count_line(out, STATE, me, b"taken", givers),
    }
}
