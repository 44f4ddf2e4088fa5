//! The signatures of a group, which are all of one scheme: plain ones, for rehearsals, those of LMS trees, or those of trees in
//! levels.
#![tactic(auto)]

mod any_scheme;
mod any_signer;
mod making;
mod public_key;
mod secret;

pub use any_scheme::AnyScheme;
pub use any_signer::AnySigner;
pub use lms_hss::KeyFault;
pub use lms_ots::OtsType;
pub use making::levels_are_built;
pub use public_key::PublicKey;
pub use secret::Secret;
