//! An answer of the store, read from its bytes.
ghost use Rattle.std.specs.Prelude.{◌≡◌, option_map};
ghost use Rattle.store_text_defs.specs.Answers as plain;
ghost use Rattle.store_telling.specs.Views.{answer as view};

/// What the store answers to a request.
#[derive(Clone, Copy)]
pub(crate) enum Answer<'a> {
    Done,

    /// The key's value.
    Value(&'a [u8]),

    /// The store has no such key.
    Absent,

    /// The payload is no request.
    NoCommand,

    /// The store has as many keys as it may.
    Full,

    /// The key's value, which is not the expected one.
    Differs(&'a [u8]),
}

// An answer of one byte.
fn alone<'a>(answer: Answer<'a>, value: &'a [u8]) -> Option<Answer<'a>>
    ensures { option_map view result ≡ plain.alone (view answer.entry) value.now }
{
    if value.is_empty() { Some(answer) } else { None }
}

/// The answer that the bytes are, all of them; None exactly where they are none.
pub(crate) fn read_answer(bytes: &[u8]) -> Option<Answer<'_>>
    ensures { option_map view result ≡ plain.answer_of bytes.now }
{
    let [what, value @ ..] = bytes else {
        return None;
    };
    match *what {
        0 => alone(Answer::Done, value),
        1 => Some(Answer::Value(value)),
        2 => alone(Answer::Absent, value),
        3 => alone(Answer::NoCommand, value),
        4 => alone(Answer::Full, value),
        5 => Some(Answer::Differs(value)),
        _ => None,
    }
}
