//! The protocol on plain data: views, processes, what an event makes of them, and the laws as statements.
#![tactic(auto)]
