//! What an input begins with, on plain data: the lines of a kit, and the line that ends them.
#![tactic(auto)]
