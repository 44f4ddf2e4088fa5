ghost use Rattle.page.specs.Answers.{LiesIn};

/// Puts as much of the bytes as fits at the front of the room, and answers how many there are.
pub fn put(bytes: &[u8], room: &mut [u8]) -> usize
    ensures { LiesIn bytes.now room.new result }
{
    let whole = bytes.len();
    let n = whole.min(room.len());
    room[..n].copy_from_slice(&bytes[..n]);
    whole
}
