//! The picture of a run, on plain data: the elements of an SVG, one after the other.
#![tactic(auto)]
