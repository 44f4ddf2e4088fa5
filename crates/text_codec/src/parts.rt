//! The words of a line, and the lines of a text.
ghost use Rattle.std.specs.Prelude.{◌≡◌, ◌<◌, ◌==◌, ◌∷◌, [], length, IfSome};
ghost use Rattle.std.specs.List.{slice_split, position};
ghost use Rattle.std.specs.Option.{option_map_or};
ghost use Rattle.text_codec.specs.Views.{parts_left};

// The place of the first such byte.
fn place(text: &[u8], at: u8) -> Option<usize>
    ensures { result ≡ position (λ c. c == at) text.now }
{
    text.iter().position(|c| *c == at)
}

// The bytes before the first `at` and those after it; all of them and None where there is none.
fn cut(text: &[u8], at: u8) -> (&[u8], Option<&[u8]>)
    ensures split { slice_split (λ c. c == at) text.now
        ≡ result.0.now ∷ option_map_or (λ rest. slice_split (λ c. c == at) rest.now) result.1 [] }
    ensures shorter { IfSome result.1 (λ rest. length rest.now < length text.now) }
{
    match place(text, at) {
        Some(place) => (&text[..place], Some(&text[place + 1..])),
        None => (text, None),
    }
}

/// The parts of a text that are left to take, where it is cut at each byte of one kind: the words of a line, or the
/// lines of a text.
///
/// A text that ends with a line feed has an empty last part after it; a text with none is one part.
#[derive(Clone, Copy)]
pub struct Parts<'a> {
    at: u8,
    rest: Option<&'a [u8]>,
}

impl<'a> Parts<'a> {
    ghost use Rattle.text_defs.specs.Words.{words_of, parts_of};

    /// The words of a line (without its line feed), cut at each space.
    pub fn words(line: &'a [u8]) -> Parts<'a>
        ensures { parts_left result ≡ words_of line.now }
    {
        Parts {
            at: b' ',
            rest: Some(line),
        }
    }

    /// The parts of a text between its line feeds: its lines, and what comes after the last line feed.
    pub fn lines(text: &'a [u8]) -> Parts<'a>
        ensures { parts_left result ≡ parts_of text.now }
    {
        Parts {
            at: b'\n',
            rest: Some(text),
        }
    }

    /// Whether no part is left.
    pub fn is_done(&self) -> bool
        ensures { result ≡ (length (parts_left self.now) == 0) }
    {
        self.rest.is_none()
    }
}

impl<'a> Iterator for Parts<'a> {
    ghost use Rattle.std.specs.Iterator.{YieldsFirstBy, item_count};
    ghost use Rattle.text_codec.specs.Views.{part_view};

    type Item = &'a [u8];

    ghost next_gives = { YieldsFirstBy part_view parts_left };

    ghost remaining = { item_count parts_left };

    /// The next part; None exactly where none is left.
    fn next(&mut self) -> Option<&'a [u8]> {
        let (part, rest) = cut(self.rest?, self.at);
        self.rest = rest;
        Some(part)
    }
}
