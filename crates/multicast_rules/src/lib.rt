//! The rules of a view that goes on: of Init, Echo, Order, Place and Keep the least statement that is due, and what is delivered
//! next (docs/PROTOCOL.md, «What is signed», «Settling»).
#![tactic(auto)]

mod counting;
mod deliveries;
mod echoes;
mod inits;
mod keeps;
mod orders;
mod places;
mod waiting;

pub use deliveries::{counts_of, deliverable};
pub use echoes::{echo_due, message_held};
pub use inits::init_due;
pub use keeps::keep_due;
pub use orders::order_due;
pub use places::place_due;
pub use pool_questions::{Certificate, Commit, Own, Pool};
pub use stmt_codec::Statement;
