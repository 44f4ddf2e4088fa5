//! The image of a process: what a snapshot keeps of it, how that is spelled and read, and the process that it gives back.
#![tactic(auto)]
