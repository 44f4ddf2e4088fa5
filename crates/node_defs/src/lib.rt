//! A node on plain data: its script, the lines that it writes, what it does call by call, and what a stop leaves of it.
#![tactic(auto)]
