//! Lines that begin with a name and a process. What is appended has room before it is begun, so a line is appended whole or not at all.
ghost use Rattle.std.specs.Prelude.{◌≡◌, ◌+◌, ◌*◌, ◌≤◌, ◌++◌, ◌∷◌, [], length, vec_len, vec_capacity, OnOk, OnErr};
ghost use Rattle.std.specs.Fmt.{decimal};
ghost use Rattle.hex.specs.Hex.{encode_lower};
ghost use Rattle.text_defs.specs.Words.{line_text, space, line_feed};
ghost use Rattle.store_words.specs.Lines.{head_of};

use itoa::Buffer;
use rp_base::{NoMemory, Pid};

/// How many bytes a line has at most apart from its name and what is said: two spaces, the number of a process and the line feed.
pub const AROUND: usize = 5;

// Bytes for which there is room.
fn append(out: &mut Vec<u8>, bytes: &[u8])
    requires room { vec_len out.old + length bytes.now ≤ vec_capacity out.old }
    ensures items { out.new.items ≡ out.old.items ++ bytes.now }
    ensures capacity { vec_capacity out.old ≤ vec_capacity out.new }
{
    let Ok(()) = out.extend_from_slice(bytes) else {
        unreachable!();
    };
}

// The digits of bytes, for which there is room.
fn append_hex(out: &mut Vec<u8>, bytes: &[u8])
    requires room { vec_len out.old + 2 * length bytes.now ≤ vec_capacity out.old }
    ensures items { out.new.items ≡ out.old.items ++ encode_lower bytes.now }
    ensures length { vec_len out.new ≡ vec_len out.old + 2 * length bytes.now }
    ensures capacity { vec_capacity out.old ≤ vec_capacity out.new }
{
    let start = out.len();
    let Ok(()) = out.resize(start + 2 * bytes.len(), 0) else {
        unreachable!();
    };
    let Ok(()) = hex::encode_to_slice(bytes, &mut out[start..]) else {
        unreachable!();
    };
}

// The number of a process, for which there is room.
#[tactic(auto, using(crate::proofs::Written::short_process))]
fn append_process(out: &mut Vec<u8>, p: Pid)
    requires room { vec_len out.old + 2 ≤ vec_capacity out.old }
    ensures items { out.new.items ≡ out.old.items ++ decimal p }
    ensures short { vec_len out.new ≤ vec_len out.old + 2 }
    ensures capacity { vec_capacity out.old ≤ vec_capacity out.new }
{
    append(out, Buffer::new().format(u64::from(p.get())).as_bytes());
}

// The name and the process, and a space after each, for which there is room.
fn append_head(out: &mut Vec<u8>, name: &[u8], me: Pid)
    requires room { vec_len out.old + (length name.now + 4) ≤ vec_capacity out.old }
    ensures items { out.new.items ≡ out.old.items ++ head_of name.now me }
    ensures short { vec_len out.new ≤ vec_len out.old + (length name.now + 4) }
    ensures capacity { vec_capacity out.old ≤ vec_capacity out.new }
{
    append(out, name);
    append(out, b" ");
    append_process(out, me);
    append(out, b" ");
}

/// Appends the line of a process, for which there is room.
#[tactic(auto, using(crate::proofs::Written::line_written))]
pub fn append_line(out: &mut Vec<u8>, name: &[u8], me: Pid, said: &[u8])
    requires room { vec_len out.old + (length name.now + length said.now + 5) ≤ vec_capacity out.old }
    ensures { out.new.items ≡ out.old.items ++ line_text (name.now ∷ decimal me ∷ said.now ∷ []) }
{
    append_head(out, name, me);
    append(out, said);
    append(out, b"\n");
}

/// Appends the line of a process and bytes in hexadecimal, for which there is room.
#[tactic(auto, using(crate::proofs::Written::line_written))]
pub fn append_hex_line(out: &mut Vec<u8>, name: &[u8], me: Pid, bytes: &[u8])
    requires room { vec_len out.old + (length name.now + 2 * length bytes.now + 5) ≤ vec_capacity out.old }
    ensures { out.new.items ≡ out.old.items ++ line_text (name.now ∷ decimal me ∷ encode_lower bytes.now ∷ []) }
{
    append_head(out, name, me);
    append_hex(out, bytes);
    append(out, b"\n");
}

// A number, for which there is room.
#[tactic(auto, using(crate::proofs::Written::short_count))]
fn append_count(out: &mut Vec<u8>, count: u8)
    requires room { vec_len out.old + 3 ≤ vec_capacity out.old }
    ensures items { out.new.items ≡ out.old.items ++ decimal count }
    ensures short { vec_len out.new ≤ vec_len out.old + 3 }
    ensures capacity { vec_capacity out.old ≤ vec_capacity out.new }
{
    append(out, Buffer::new().format(u64::from(count)).as_bytes());
}

/// Appends the line of a process, a word and a number, for which there is room.
#[tactic(auto, using(crate::proofs::Written::count_written))]
pub fn append_count_line(out: &mut Vec<u8>, name: &[u8], me: Pid, said: &[u8], count: u8)
    requires room { vec_len out.old + (length name.now + length said.now + 9) ≤ vec_capacity out.old }
    ensures { out.new.items ≡ out.old.items ++ line_text (name.now ∷ decimal me ∷ said.now ∷ decimal count ∷ []) }
{
    append_head(out, name, me);
    append(out, said);
    append(out, b" ");
    append_count(out, count);
    append(out, b"\n");
}

/// Appends the line of a process.
///
/// # Errors
/// [`NoMemory`] where room for it is refused; nothing is appended then.
pub fn push_line(out: &mut Vec<u8>, name: &[u8], me: Pid, said: &[u8]) -> Result<(), NoMemory>
    ensures pushed { OnOk result (out.new.items ≡ out.old.items ++ line_text (name.now ∷ decimal me ∷ said.now ∷ [])) }
    ensures unchanged { OnErr result (out.new.items ≡ out.old.items) }
{
    let length = (name.len() + said.len())
        .checked_add(AROUND)
        .ok_or(NoMemory)?;
    out.reserve(length)?;
    append_line(out, name, me, said);
    Ok(())
}

/// Appends the line of a process and bytes in hexadecimal.
///
/// # Errors
/// [`NoMemory`] where room for it is refused; nothing is appended then.
pub fn push_hex_line(out: &mut Vec<u8>, name: &[u8], me: Pid, bytes: &[u8]) -> Result<(), NoMemory>
    ensures pushed { OnOk result (out.new.items ≡ out.old.items ++ line_text (name.now ∷ decimal me ∷ encode_lower bytes.now ∷ [])) }
    ensures unchanged { OnErr result (out.new.items ≡ out.old.items) }
{
    let length = (2 * bytes.len())
        .checked_add(name.len() + AROUND)
        .ok_or(NoMemory)?;
    out.reserve(length)?;
    append_hex_line(out, name, me, bytes);
    Ok(())
}
