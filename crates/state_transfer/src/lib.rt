//! What a joiner makes of the states that members of its view give: which state more than f of them gave first (docs/FORMATS.md,
//! «The store»).
#![tactic(auto)]

mod transfer;

pub use store_defs::Taken;
pub use transfer::Transfer;
