//! Conviction on plain data: whom claims convict, and by which two of them.
#![tactic(auto)]
