//! What is read and written as lines of text, on plain data: words, numbers and bytes.
#![tactic(auto)]
