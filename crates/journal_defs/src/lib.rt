//! Journals on plain bytes: how they are spelled and read, and what a crash leaves of them.
#![tactic(auto)]

ghost use Rattle.journal_defs.specs.Entries.{EntryIsSpelled, EntryIsRead};
ghost use Rattle.journal_defs.specs.Journals.{RecordIsSpelled, RecordIsRead, OneReading, EntryGoesOn, ClosedGateEnds, BrokenGateBreaks};
ghost use Rattle.journal_defs.specs.Journals.{EntryIsThere, GateIsThere, OneEntry, MarkedAgain};
ghost use Rattle.journal_defs.specs.Crashes.{TornBehindTheGate, WrittenBehindTheGate, TornGate, AtRestIsImage, OpeningIsImage, OpenedIsAtRest, OneImageSurvives, ImageReads};

/// The kind of a journal, which its magic says. A place holds one message in a journal of the first kind, and up to 16 in
/// one of the second.
#[derive(Clone, Copy, Debug, PartialEq, Eq)]
pub enum Version {
    /// The letters `RPJ1`.
    One,

    /// The letters `RPJ2`.
    Two,
}

/// A write after the closed gate leaves the entries, wherever it is torn.
pub fn torn_behind_the_gate()
    ensures { TornBehindTheGate }
{}

/// A write after the closed gate that was made leaves the whole entry there.
pub fn written_behind_the_gate()
    ensures { WrittenBehindTheGate }
{}

/// A write of the gate changes the gate alone.
pub fn torn_gate()
    ensures { TornGate }
{}

/// A journal at rest is well formed, and reads as its entries.
pub fn at_rest_is_image()
    ensures { AtRestIsImage }
{}

/// While the gate is opened, the journal is well formed, and reads as its entries or as one more.
pub fn opening_is_image()
    ensures { OpeningIsImage }
{}

/// With the gate open the journal is at rest, and has the entry.
pub fn opened_is_at_rest()
    ensures { OpenedIsAtRest }
{}

/// What a crash leaves of a run is what the next run may find.
pub fn one_image_survives()
    ensures { OneImageSurvives }
{}

/// A well formed image reads as its entries.
pub fn image_reads()
    ensures { ImageReads }
{}

/// Bytes that are read as an entry are its spelling, and it is in its ranges.
pub fn entry_is_spelled()
    ensures { EntryIsSpelled }
{}

/// The spelling of an entry in its ranges is read as it.
pub fn entry_is_read()
    ensures { EntryIsRead }
{}

/// What is read after an open gate is spelled so.
pub fn record_is_spelled()
    ensures { RecordIsSpelled }
{}

/// What is spelled after a gate is read as the entry.
pub fn record_is_read()
    ensures { RecordIsRead }
{}

/// With an entry after them, the entries lie before the next gate.
pub fn entry_goes_on()
    ensures { EntryGoesOn }
{}

/// A closed gate ends the reading.
pub fn closed_gate_ends()
    ensures { ClosedGateEnds }
{}

/// An open gate with no entry after it breaks the reading.
pub fn broken_gate_breaks()
    ensures { BrokenGateBreaks }
{}

/// Each entry of the reading is at its place.
pub fn entry_is_there()
    ensures { EntryIsThere }
{}

/// After the last one is a closed gate.
pub fn gate_is_there()
    ensures { GateIsThere }
{}

/// At each place is one entry at most.
pub fn one_entry()
    ensures { OneEntry }
{}

/// Bytes read as one list of entries at most.
pub fn one_reading()
    ensures { OneReading }
{}

/// Before a place that is marked are the entries that were there, where the bytes before it are those that were marked.
pub fn marked_again()
    ensures { MarkedAgain }
{}
