//! Schedules made, read and taken in pieces.
#![tactic(auto)]

#[cfg(test)]
mod making;
#[cfg(test)]
mod pieces;
#[cfg(test)]
mod reading;
