//! The state of a view: what a process that serves a store gives of it to those who join, and what a joiner makes of the states that others
//! give (docs/FORMATS.md, «The store»).
#![tactic(auto)]

mod giving;
mod handed;
mod offered;
mod spelling;
mod stores;

pub use accounts::Delivered;
pub use giving::Giving;
pub use kv_service::Store;
pub use offered::{Offered, reserve_offered};
pub use rp_base::{GroupId, NoMemory, Pid, Scheme};
pub use sig_scheme::PublicKey;
pub use store_defs::Taken;
pub use store_keys::LeafKey;
pub use stores::carried_out;
pub use view_table::View;
