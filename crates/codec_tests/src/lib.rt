//! Frames and statements, journals and the lines of a node, read, spelled and refused.
#![tactic(auto)]

#[cfg(test)]
mod claims;
#[cfg(test)]
mod frames;
#[cfg(test)]
mod images;
#[cfg(test)]
mod journals;
#[cfg(test)]
mod nodes;
