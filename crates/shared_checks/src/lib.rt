//! The scheme of a group whose processes run side by side in one program: a signature that several of them look at is checked once.
#![tactic(auto)]

mod checked;
mod lately;
mod shared;
mod signer;

pub use shared::SharedScheme;
pub use signer::SharedSigner;
