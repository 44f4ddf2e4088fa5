//! Frames sealed for the process that they go to, and datagrams opened: a tag shows who speaks (docs/FORMATS.md,
//! «Datagrams»).
#![tactic(auto)]

mod datagram;
mod keys;
mod tag;

pub use datagram::{FRAME_BYTES, Opened, SEAL_BYTES, seal_into, unseal};
pub use keys::LinkKeys;
pub use link_defs::LinkFault;
pub use tag::hmac;
