//! A guard on plain data: who is convicted by claims, whom a guard expels after a frame, and what it says.
#![tactic(auto)]
