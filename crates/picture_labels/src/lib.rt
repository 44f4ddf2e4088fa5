//! The elements of a picture of a run, their places, and the label of each thing that happens: its mark, and what came of it
//! in few words. Each function that writes does so after the text so far. On `NoMemory` the end of the text is left open,
//! and the caller discards it.
#![tactic(auto)]

mod elements;
mod labels;
mod layout;
mod short;
mod spans;

pub use elements::{
    Point, begin_text, end_text, push_bar, push_dot, push_spaced, push_stroke, push_text,
};
pub use labels::push_label;
pub use layout::{above, below, between, height, left_of, place, row, width};
pub use spans::push_one_span;
