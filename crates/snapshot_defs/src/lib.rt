//! How the image of a process is read from bytes, in both versions, and where the first fault of the bytes is.
#![tactic(auto)]

/// The version of an image's bytes. It differs in what it holds of a delivered message.
#[derive(Clone, Copy, Debug, PartialEq, Eq)]
pub enum Version {
    /// As in a snapshot that begins with `RPN1`: without its place, which is its position in the list.
    One,

    /// As in a snapshot that begins with `RPN2`: its place is the first field.
    Two,
}
