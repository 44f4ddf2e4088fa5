//! Schedules as text, on plain data: the bytes of a line, what a text assembles to, and the text of a schedule.
#![tactic(auto)]

/// What was expected in a line of a story.
#[derive(Clone, Copy, Debug, PartialEq, Eq)]
pub enum Expected {
    /// A quote that ends the text.
    Quote,

    /// A quote or a backslash after a backslash.
    Escape,

    /// The line that begins a story.
    Group,

    /// A line of a process, of the group's scheme.
    Process,

    /// A line of a further process, or the members of the first view.
    Genesis,

    /// An event.
    Event,
    Submit,
    Raw,
    Pass,
    Drain,
    Lie,
    Suspect,
    Join,
    Renew,
    Tick,

    /// No more steps than a schedule has.
    Steps,

    /// No more bytes than a schedule has.
    Size,
}

/// A fault of a text: the number of its line, counted from 1, and what was expected there.
#[derive(Clone, Copy, Debug, PartialEq, Eq)]
pub struct StoryFault {
    pub line: usize,
    pub expected: Expected,
}

/// A line that was taken: its number, what it is, and how many bytes of the schedule it gives.
#[derive(Clone, Copy, PartialEq, Eq)]
pub struct Mark {
    pub line: usize,
    pub expected: Expected,
    pub size: usize,
}

/// Which lines may follow.
#[derive(Clone, Copy, PartialEq, Eq)]
pub enum Stage {
    /// The group's line.
    Opening,

    /// Lines of processes, and the members of the first view.
    Listing,

    /// Events.
    Running,
}

/// Where a byte of a line is.
#[derive(Clone, Copy, Debug, PartialEq, Eq)]
pub enum Place {
    /// Between words.
    Between,

    /// In a word.
    Bare,

    /// After the quote that begins a text.
    Opened,

    /// In a quoted text that has a byte.
    Quoted,

    /// After a backslash in a quoted text.
    Escaped,

    /// In a comment.
    Comment,
}
