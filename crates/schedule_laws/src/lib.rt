//! What holds of schedules and their bytes, as laws of the definitions.
#![tactic(auto)]

ghost use Rattle.schedule_laws.specs.Laws.{ReadIsSpelled, SpelledIsRead, ReadingIgnoresRest, FaultIsFinal, EndIsWhole};

/// Bytes that are read as a schedule are the schedule's spelling.
pub fn read_is_spelled()
    ensures { ReadIsSpelled }
{}

/// A schedule in its ranges is read of its spelling.
pub fn spelled_is_read()
    ensures { SpelledIsRead }
{}

/// A header or an event that was read is the same, whatever follows its bytes.
pub fn reading_ignores_rest()
    ensures { ReadingIgnoresRest }
{}

/// A fault that is found in an input on its way is that of the whole input, however it goes on.
pub fn fault_is_final()
    ensures { FaultIsFinal }
{}

/// The events that were given on the way and those that wait at the end are the schedule's.
pub fn end_is_whole()
    ensures { EndIsWhole }
{}
