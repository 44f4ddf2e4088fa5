//! The picture of a run, as SVG: a column for each process, time downwards. Each function writes after the text so far.
//! On `NoMemory` the end of the text is left open, and the caller discards it.
#![tactic(auto)]

mod arrows;
mod bars;
mod edges;
mod labels;
mod legend;
mod names;
mod picture;
mod rows;

pub use picture::push_picture;
pub use story_trace::push_trace;
