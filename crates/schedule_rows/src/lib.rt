//! Rows of schedules, computed through the definitions.
#![tactic(auto)]
