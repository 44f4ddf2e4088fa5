//! What the program reads and writes of a chain of views, on plain data.
#![tactic(auto)]
