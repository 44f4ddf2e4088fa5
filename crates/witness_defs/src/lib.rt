//! Evidence that travels, on plain data: the lines that say whom two signed claims convict, and what a judge takes of them.
#![tactic(auto)]
