//! What a process is handed, in words.
ghost use Rattle.std.specs.Prelude.{◌≡◌, ◌++◌, ◌∷◌, OnOk};
ghost use Rattle.std.specs.List.{flat_map};
ghost use Rattle.text_defs.specs.Words.{space};
ghost use Rattle.trace_defs.specs.Happenings.{handed_words};
ghost use Rattle.happenings.specs.Reported.{handed as handed_view};

use happenings::Handed;
use rp_base::NoMemory;
use story_words::{Word, process_word, push_more, push_next};

/// What a process is handed, as further words of a line.
pub(crate) fn push_handed(out: &mut Vec<u8>, handed: Handed) -> Result<(), NoMemory>
    ensures { OnOk result (out.new.items ≡ out.old.items ++ flat_map (λ w. space ∷ w) (handed_words (handed_view handed))) }
{
    match handed {
        Handed::Frame { number, from } => push_more(
            out,
            &[
                Word::Text(b"frame"),
                Word::Number(number),
                Word::Text(b"of"),
                process_word(from),
            ],
        ),
        Handed::Bytes { from } => push_more(
            out,
            &[Word::Text(b"bytes"), Word::Text(b"of"), process_word(from)],
        ),
        _ => push_next(out, Word::Text(b"it")),
    }
}
