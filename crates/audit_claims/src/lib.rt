//! What the entries of journals bring to the tables of an audit: the claims of the frames that were handed over, of which the valid ones
//! are seen, and the claims that a process signed itself.
#![tactic(auto)]

mod handing;
mod known;
mod signing;

pub use claim_firsts::{Conviction, Firsts};
pub use claim_hearing::Judge;
pub use handing::see_frame;
pub use known::Known;
pub use signing::see_signed;
