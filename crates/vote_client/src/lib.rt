//! What a client makes of the replies of a view's members: which answer more than f of them gave (docs/FORMATS.md, «The store»).
#![tactic(auto)]

mod content;
mod vote;

pub use content::Content;
pub use store_defs::Offer;
pub use vote::Vote;
