//! Fields of an image, appended one after another.
ghost use Rattle.std.specs.Prelude.{◌≡◌, ◌++◌, ◌∷◌, OnOk};
ghost use Rattle.byte_defs.specs.Fields.{two_bytes, four_bytes, text};
ghost use Rattle.message_defs.specs.Updates.{update_numbers};
ghost use Rattle.message_defs.specs.Spelling.{value_bytes, ready_bytes};
ghost use Rattle.rp_base.specs.Views.{update as update_of, value as value_of};
ghost use Rattle.member_events.specs.Below.{report};

use rp_base::{NoMemory, Update, Value};

/// A number of two bytes.
pub(crate) fn push_short(out: &mut Vec<u8>, n: u16) -> Result<(), NoMemory>
    ensures { OnOk result (out.new.items ≡ out.old.items ++ two_bytes n) }
{
    out.extend_from_slice(&n.to_be_bytes())?;
    Ok(())
}

// The last two of its bytes.
fn last_two(len: usize) -> [u8; 2]
    ensures { result ≡ two_bytes len }
{
    let [_, _, _, _, _, _, high, low] = (len as u64).to_be_bytes();
    [high, low]
}

// The last four of its bytes.
fn last_four(len: usize) -> [u8; 4]
    ensures { result ≡ four_bytes len }
{
    let [_, _, _, _, highest, high, low, lowest] = (len as u64).to_be_bytes();
    [highest, high, low, lowest]
}

/// A length in two bytes: its last ones.
pub(crate) fn push_length(out: &mut Vec<u8>, len: usize) -> Result<(), NoMemory>
    ensures { OnOk result (out.new.items ≡ out.old.items ++ two_bytes len) }
{
    out.extend_from_slice(&last_two(len))?;
    Ok(())
}

/// A length in four bytes: its last ones.
pub(crate) fn push_long(out: &mut Vec<u8>, len: usize) -> Result<(), NoMemory>
    ensures { OnOk result (out.new.items ≡ out.old.items ++ four_bytes len) }
{
    out.extend_from_slice(&last_four(len))?;
    Ok(())
}

/// Two bytes of length, and the bytes.
pub(crate) fn push_text(out: &mut Vec<u8>, bytes: &[u8]) -> Result<(), NoMemory>
    ensures { OnOk result (out.new.items ≡ out.old.items ++ text bytes.now) }
{
    push_length(out, bytes.len())?;
    out.extend_from_slice(bytes)?;
    Ok(())
}

fn update_bytes(update: Update) -> [u8; 2]
    ensures { result ≡ update_numbers (update_of update) }
{
    match update {
        Update::Remove(p) => [1, p.get()],
        Update::Add(p) => [2, p.get()],
        Update::Renew => [3, 0],
    }
}

pub(crate) fn push_update(out: &mut Vec<u8>, update: Update) -> Result<(), NoMemory>
    ensures { OnOk result (out.new.items ≡ out.old.items ++ update_numbers (update_of update)) }
{
    out.extend_from_slice(&update_bytes(update))?;
    Ok(())
}

/// An update and a cut.
pub(crate) fn push_value(out: &mut Vec<u8>, value: Value) -> Result<(), NoMemory>
    ensures { OnOk result (out.new.items ≡ out.old.items ++ value_bytes (value_of value)) }
{
    push_update(out, value.update)?;
    push_short(out, value.cut)
}

/// 00, or 01 and a rank and a value.
pub(crate) fn push_decision(
    out: &mut Vec<u8>,
    decision: Option<(u8, Value)>,
) -> Result<(), NoMemory>
    ensures { OnOk result (out.new.items ≡ out.old.items ++ ready_bytes (report decision)) }
{
    let Some((rank, value)) = decision else {
        out.push(0)?;
        return Ok(());
    };
    out.extend_from_slice(&[1, rank])?;
    push_value(out, value)
}
