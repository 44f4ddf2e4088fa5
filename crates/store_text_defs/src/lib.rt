//! The store in words, on plain data: the lines that ask for requests and what they become, and what lines about a store say.
#![tactic(auto)]

/// What is made of each line of an input.
#[derive(Clone, Copy, Debug, PartialEq, Eq)]
pub enum Filter {
    /// A request in words becomes the line that submits it.
    Assemble,

    /// A line about a store is followed by what it says.
    Tell,
}
