//! What an audit reads, finds and writes, on plain data: journals of a group's processes, the family that they give, and who is convicted
//! by what was handed over.
#![tactic(auto)]
