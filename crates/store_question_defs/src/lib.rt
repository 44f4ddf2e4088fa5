//! The input of `ask`, made of a kit and of lines that nodes which serve wrote, on plain data.
#![tactic(auto)]
