//! Lemmas about the definitions of what is heard: members of lists, slots, who backs a statement, and what one claim more
//! changes. The laws and the code of pools both use them; there is no code here.
#![tactic(auto)]
