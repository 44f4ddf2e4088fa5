//! What a group costs: its cores that hand each other their frames, and the run of a schedule.
#![tactic(auto)]

pub mod cores;
pub mod replay;
