//! The service of a node that serves a store: a server for each hosted process, which follows the notes of its process and answers lines of
//! the script (docs/FORMATS.md, «The store»).
#![tactic(auto)]

mod beginning;
mod hearing;
mod laws;
mod noting;
mod places;
mod servers;

pub use laws::{
    lines_are_the_kits, others_stay, own_calls_tell, own_changes, servers_are_the_kits,
};
pub use node_service::Service;
pub use servers::Servers;
