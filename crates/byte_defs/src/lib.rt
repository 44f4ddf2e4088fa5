//! Words on lists and bytes that all definitions share.
#![tactic(auto)]
