ghost use Rattle.std.specs.Prelude.{◌≡◌};
ghost use Rattle.kit_lines.specs.FirstWords.{first_word_of};

/// The words that lines begin with.
#[derive(Clone, Copy, PartialEq, Eq)]
pub enum FirstWord {
    Rampart,
    Scheme,
    Group,
    Key,
    Genesis,
    Port,
    Host,
    Pair,
}

/// The first word of a line; None exactly where no line of a kit begins so.
pub fn first_word(word: &[u8]) -> Option<FirstWord>
    ensures { result ≡ first_word_of word.now }
{
    if word == b"rampart".as_slice() {
        Some(FirstWord::Rampart)
    } else if word == b"scheme".as_slice() {
        Some(FirstWord::Scheme)
    } else if word == b"group".as_slice() {
        Some(FirstWord::Group)
    } else if word == b"key".as_slice() {
        Some(FirstWord::Key)
    } else if word == b"genesis".as_slice() {
        Some(FirstWord::Genesis)
    } else if word == b"port".as_slice() {
        Some(FirstWord::Port)
    } else if word == b"host".as_slice() {
        Some(FirstWord::Host)
    } else if word == b"pair".as_slice() {
        Some(FirstWord::Pair)
    } else {
        None
    }
}
