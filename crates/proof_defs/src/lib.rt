//! What `witness proofs` writes and `witness chain` reads, as definitions: lines that show the views of a group one after another.
#![tactic(auto)]
