//! Which claims go out: lists of claims as they go into frames, the certificates of a pool put into such a list, and what
//! goes beside the claims of a Bundle (docs/PROTOCOL.md, «What is sent»).
#![tactic(auto)]

mod beside;
mod certificates;
mod list;
mod order;

pub use beside::{put_base, put_orders, put_suggests};
pub use certificates::{put_certificate, put_places};
pub use claim_lists::{ClaimList, Conflicts};
pub use list::{Lent, SentClaims};
pub use pool_questions::{Commit, Pool};
