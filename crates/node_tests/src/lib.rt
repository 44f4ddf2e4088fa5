//! Tests of what a node does on streams, a disk and a link in memory, from its kit to its last line.
#![tactic(auto)]

#[cfg(test)]
mod data;
#[cfg(test)]
mod faults;
#[cfg(test)]
mod resuming;
#[cfg(test)]
mod runs;
#[cfg(test)]
mod services;
#[cfg(test)]
mod stops;
