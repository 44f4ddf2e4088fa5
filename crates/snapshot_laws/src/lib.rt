//! That reading the image of a process and spelling it undo each other, as laws of the definitions.
#![tactic(auto)]

ghost use Rattle.snapshot_defs.specs.Laws.{ReadIsSpelled, SpelledIsRead, WrittenIsSecond, OldIsWritten};

/// Bytes that are read as an image are the image's spelling.
pub fn read_is_spelled()
    ensures { ReadIsSpelled }
{}

/// An image in its ranges is read of its spelling.
pub fn spelled_is_read()
    ensures { SpelledIsRead }
{}

/// What is written is the spelling in version 2.
pub fn written_is_second()
    ensures { WrittenIsSecond }
{}

/// An image that has a spelling in version 1 has one in version 2.
pub fn old_is_written()
    ensures { OldIsWritten }
{}
