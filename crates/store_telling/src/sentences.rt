//! Sentences that are told of one word.
ghost use Rattle.std.specs.Prelude.{◌≡◌};
ghost use Rattle.std.specs.Option.{option_copied};
ghost use Rattle.store_text_defs.specs.Meanings as plain;

/// Why a process has no reply to give.
pub(crate) fn no_reply(word: &[u8]) -> Option<&'static [u8]>
    ensures { option_copied result ≡ plain.no_reply word.now }
{
    if word == b"none".as_slice() {
        Some(b"the process does not hold the store")
    } else if word == b"spent".as_slice() {
        Some(b"the key of its replies is spent")
    } else {
        None
    }
}

/// Why a process has no state to give, or that it took one over.
pub(crate) fn no_state(word: &[u8]) -> Option<&'static [u8]>
    ensures { option_copied result ≡ plain.no_state word.now }
{
    if word == b"none".as_slice() {
        Some(b"the process did not hold the store when the view began")
    } else if word == b"spent".as_slice() {
        Some(b"the key of its states is spent")
    } else if word == b"ready".as_slice() {
        Some(b"enough members gave this state: the process holds the store")
    } else {
        None
    }
}

/// Why a state is refused.
pub(crate) fn refusal(word: &[u8]) -> Option<&'static [u8]>
    ensures { option_copied result ≡ plain.refusal word.now }
{
    if word == b"grammar".as_slice() {
        Some(b"refused: the bytes are no record of a state")
    } else if word == b"held".as_slice() {
        Some(b"refused: the process holds the store")
    } else if word == b"view".as_slice() {
        Some(b"refused: it is of another view, or the process is no member of its own")
    } else if word == b"stranger".as_slice() {
        Some(b"refused: its signer is no member")
    } else if word == b"unsigned".as_slice() {
        Some(b"refused: its signature is not valid under the key that was handed in, or none was")
    } else if word == b"known".as_slice() {
        Some(b"refused: its signer is counted")
    } else {
        None
    }
}

/// That there is no answer.
pub(crate) fn no_answer(word: &[u8]) -> Option<&'static [u8]>
    ensures { option_copied result ≡ plain.no_answer word.now }
{
    if word == b"none".as_slice() {
        Some(b"not enough members gave one answer")
    } else {
        None
    }
}
