//! The programs, with streams in memory.
#![tactic(auto)]

#[cfg(test)]
mod chain_calls;
#[cfg(test)]
mod command_lines;
#[cfg(test)]
mod interop_calls;
#[cfg(test)]
mod large_examples;
#[cfg(test)]
mod node_calls;
#[cfg(test)]
mod rampart_calls;
#[cfg(test)]
mod resume_calls;
#[cfg(test)]
mod story_calls;
#[cfg(test)]
mod tutorial;
