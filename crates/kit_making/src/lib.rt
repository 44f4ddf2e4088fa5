//! Kits made from a seed, for rehearsals and tests.
#![tactic(auto)]

mod making;

pub use kit_defs::KeyPlan;
pub use making::make_kit;
