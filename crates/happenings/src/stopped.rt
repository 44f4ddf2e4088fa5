//! Why a run stops.

/// Why an event stops a run, by the event's number, from 0.
#[derive(Clone, Copy, PartialEq, Eq)]
pub enum Stopped {
    /// A Pass names a frame that is not sent yet: `sent` frames were.
    NoSuchFrame { event: u64, frame: u32, sent: usize },

    /// The bytes of all frames pass 1,073,741,824: with the first frame that passes it they are `bytes`.
    TooMuchSent { event: u64, bytes: u64 },
}
