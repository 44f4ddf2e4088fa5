//! What a replay reads and writes, on plain data: schedules, the worlds that they make, and the reports of these.
#![tactic(auto)]

/// The signature scheme of a schedule's keys.
#[derive(Clone, Copy, Debug, PartialEq, Eq)]
pub enum Scheme {
    /// Plain keys, for rehearsals.
    Plain,

    /// LMS trees (RFC 8554, section 5).
    Lms,

    /// LMS trees in levels (RFC 8554, section 6).
    Hss,
}

/// What is wrong with bytes that are no schedule.
#[derive(Clone, Copy, Debug, PartialEq, Eq)]
pub enum FaultKind {
    /// The input ends in the field.
    Short,

    /// The first four bytes are not those of a schedule.
    Magic,

    /// A schedule that begins so has no such signature scheme.
    Scheme,

    /// A count, a process number, the order of processes or a role is wrong, or a genesis entry is not in the roster or is given twice.
    Roster,

    /// No key has this number of levels, this height or this one-time type.
    Key,

    /// No event has this tag.
    Tag,

    /// A process is not of the role that is asked for, or a number, a length or a statement is out of its limits.
    Field,

    /// The input passes 67,108,864 bytes.
    TooLong,

    /// The steps pass 1,000,000.
    TooMany,
}

/// A fault, given by how many bytes of the input are left where it is.
#[derive(Clone, Copy, PartialEq, Eq)]
pub struct Found {
    pub kind: FaultKind,
    pub left: usize,
}

/// A fault of an input, given by how many bytes come before it.
#[derive(Clone, Copy, Debug, PartialEq, Eq)]
pub struct Fault {
    pub kind: FaultKind,
    pub place: usize,
}
