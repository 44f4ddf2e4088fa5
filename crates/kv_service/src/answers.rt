// An answer is one byte, and after two of them a value.
ghost use Rattle.std.specs.Prelude.{◌≡◌, ◌+◌, ◌≤◌, ◌++◌, ◌∷◌, [], vec_len, vec_capacity, length, OnOk, OnErr};

use rp_base::NoMemory;

/// The command was carried out.
pub(crate) const DONE: u8 = 0;

/// The value of the key, which comes after this byte.
pub(crate) const VALUE: u8 = 1;

/// The store has no such key.
pub(crate) const ABSENT: u8 = 2;

/// The payload is no request.
pub(crate) const NO_COMMAND: u8 = 3;

/// The store has as many keys as it may, and this one is not among them.
pub(crate) const FULL: u8 = 4;

/// The value of the key is not the expected one; it comes after this byte.
pub(crate) const DIFFERS: u8 = 5;

/// Appends bytes for which there is room.
pub(crate) fn append(out: &mut Vec<u8>, bytes: &[u8])
    requires room { vec_len out.old + length bytes.now ≤ vec_capacity out.old }
    ensures items { out.new.items ≡ out.old.items ++ bytes.now }
    ensures capacity { vec_capacity out.old ≤ vec_capacity out.new }
{
    let Ok(()) = out.extend_from_slice(bytes) else {
        unreachable!();
    };
}

/// Answers with a byte, for which there is room.
pub(crate) fn say(answer: &mut Vec<u8>, what: u8)
    requires { vec_len answer.old + 1 ≤ vec_capacity answer.old }
    ensures { answer.new.items ≡ answer.old.items ++ what ∷ [] }
{
    append(answer, &[what]);
}

/// Answers with a byte and a value.
///
/// # Errors
/// [`NoMemory`] where room for them is refused; nothing is appended then.
pub(crate) fn say_value(answer: &mut Vec<u8>, what: u8, value: &[u8]) -> Result<(), NoMemory>
    ensures said { OnOk result (answer.new.items ≡ answer.old.items ++ what ∷ value.now) }
    ensures unchanged { OnErr result (answer.new.items ≡ answer.old.items) }
{
    answer.reserve(1 + value.len())?;
    append(answer, &[what]);
    append(answer, value);
    Ok(())
}
