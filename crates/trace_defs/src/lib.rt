//! What a run of a schedule reports, on plain data: what happened, step by step, and the lines that say so.
#![tactic(auto)]
