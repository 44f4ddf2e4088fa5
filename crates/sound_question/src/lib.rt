//! The question of a group whether it is sound (docs/PROMISES.md): whether each view has a cause in the one before, whether the messages of
//! each sender are in order, whether what was delivered of a process is what it accepted, and whether places are delivered whole and
//! alike. Nothing is copied, and no memory is taken.
#![tactic(auto)]

mod acceptance;
mod causes;
mod order;
mod places;
mod soundness;

pub use accounts::Account;
pub use places::is_by_place;
pub use soundness::sound;
