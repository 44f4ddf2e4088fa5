//! The elements of the picture.
ghost use Rattle.std.specs.Prelude.{◌≡◌, ◌++◌, codes, OnOk};
ghost use Rattle.std.specs.Fmt.{decimal};
ghost use Rattle.std.specs.List.{flat_map};
ghost use Rattle.story_words.specs.Words.{spelled};
ghost use Rattle.picture_defs.specs.Elements as plain;
ghost use Rattle.picture_labels.specs.Views.{point};

use rp_base::{NoMemory, Pid};
use story_words::{Word, process_word, push_pieces};

/// A point of the picture: how far right of its left upper corner, and how far below, in pixels.
#[derive(Clone, Copy)]
pub struct Point {
    pub x: u64,
    pub y: u64,
}

/// A line of this class of the styles, from one point to another.
pub fn push_stroke(out: &mut Vec<u8>, class: &[u8], from: Point, to: Point) -> Result<(), NoMemory>
    ensures { OnOk result (out.new.items ≡ out.old.items ++ plain.stroke class.now (point from) (point to)) }
{
    push_pieces(
        out,
        &[
            Word::Text(b"<line class='"),
            Word::Text(class),
            Word::Text(b"' x1='"),
            Word::Number(from.x),
            Word::Text(b"' y1='"),
            Word::Number(from.y),
            Word::Text(b"' x2='"),
            Word::Number(to.x),
            Word::Text(b"' y2='"),
            Word::Number(to.y),
            Word::Text(b"'/>\n"),
        ],
    )
}

/// A dot of this class around a point. The radius is in pixels.
pub fn push_dot(out: &mut Vec<u8>, class: &[u8], at: Point, radius: u64) -> Result<(), NoMemory>
    ensures { OnOk result (out.new.items ≡ out.old.items ++ plain.dot class.now (point at) radius) }
{
    push_pieces(
        out,
        &[
            Word::Text(b"<circle class='"),
            Word::Text(class),
            Word::Text(b"' cx='"),
            Word::Number(at.x),
            Word::Text(b"' cy='"),
            Word::Number(at.y),
            Word::Text(b"' r='"),
            Word::Number(radius),
            Word::Text(b"'/>\n"),
        ],
    )
}

/// A bar of this class, by its left upper corner. Width and height are in pixels.
pub fn push_bar(
    out: &mut Vec<u8>,
    class: &[u8],
    at: Point,
    width: u64,
    height: u64,
) -> Result<(), NoMemory>
    ensures { OnOk result (out.new.items ≡ out.old.items ++ plain.bar class.now (point at) width height) }
{
    push_pieces(
        out,
        &[
            Word::Text(b"<rect class='"),
            Word::Text(class),
            Word::Text(b"' x='"),
            Word::Number(at.x),
            Word::Text(b"' y='"),
            Word::Number(at.y),
            Word::Text(b"' width='"),
            Word::Number(width),
            Word::Text(b"' height='"),
            Word::Number(height),
            Word::Text(b"'/>\n"),
        ],
    )
}

/// The beginning of a text of this class, by the left end of its base line. Words and spans follow, then `end_text`.
pub fn begin_text(out: &mut Vec<u8>, class: &[u8], at: Point) -> Result<(), NoMemory>
    ensures { OnOk result (out.new.items ≡ out.old.items ++ plain.text_begin class.now (point at)) }
{
    push_pieces(
        out,
        &[
            Word::Text(b"<text class='"),
            Word::Text(class),
            Word::Text(b"' x='"),
            Word::Number(at.x),
            Word::Text(b"' y='"),
            Word::Number(at.y),
            Word::Text(b"'>"),
        ],
    )
}

/// The end of a text that `begin_text` began.
pub fn end_text(out: &mut Vec<u8>) -> Result<(), NoMemory>
    ensures { OnOk result (out.new.items ≡ out.old.items ++ plain.text_end) }
{
    out.extend_from_slice(b"</text>\n")?;
    Ok(())
}

/// A whole text of this class, by the left end of its base line: these pieces, with nothing between them.
pub fn push_text(
    out: &mut Vec<u8>,
    class: &[u8],
    at: Point,
    pieces: &[Word<'_>],
) -> Result<(), NoMemory>
    ensures { OnOk result (out.new.items ≡ out.old.items ++ plain.text_at class.now (point at) (flat_map spelled pieces.now)) }
{
    begin_text(out, class, at)?;
    push_pieces(out, pieces)?;
    end_text(out)
}

fn push_spaced_one(out: &mut Vec<u8>, process: Pid) -> Result<(), NoMemory>
    ensures { OnOk result (out.new.items ≡ out.old.items ++ (codes " " ++ decimal process)) }
{
    push_pieces(out, &[Word::Text(b" "), process_word(process)])
}

/// The numbers of processes in the order of the list, each after a space.
pub fn push_spaced(out: &mut Vec<u8>, processes: &[Pid]) -> Result<(), NoMemory>
    ensures { OnOk result (out.new.items ≡ out.old.items ++ plain.spaced processes.now) }
{
    for process in processes {
        push_spaced_one(out, *process)?;
    }
    Ok(())
}
