//! What a run of a schedule reports, on plain data: what happens in each event, and the trace of it all.
#![tactic(auto)]
