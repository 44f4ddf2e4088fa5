//! What a kit gives a process that it hosts: the signer of its secret, the keys that it shares with the others, and its port; and the
//! roster of the group (docs/FORMATS.md, «Kits»).
#![tactic(auto)]

mod hosting;
mod link;
mod port;
mod signer;

pub use auth_link::LinkKeys;
pub use hosting::hosts_nobody;
pub use kit_file::{Kit, roster_of};
pub use link::link_keys;
pub use port::port_of;
pub use signer::signer_of;
