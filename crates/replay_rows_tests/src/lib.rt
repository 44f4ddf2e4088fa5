//! The examples' schedules, replayed: each whole report is the one beside it. Bytes that have no report, with the reason.
#![tactic(auto)]

#[cfg(test)]
mod asking;
#[cfg(test)]
mod data;
#[cfg(test)]
mod faults;
#[cfg(test)]
mod hostile;
#[cfg(test)]
mod large;
#[cfg(test)]
mod rows;
#[cfg(test)]
mod runs;
