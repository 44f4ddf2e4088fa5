//! Two questions that a report answers of a group, by what its processes report of themselves (docs/PROMISES.md): whether each view is
//! bounded, and whether all agree. Nothing is copied, and no memory is taken.
#![tactic(auto)]

mod agreement;
mod bounds;
mod group;

pub use accounts::Account;
pub use agreement::{agree, same_view};
pub use bounds::bounded;
pub use group::{delivered_in, longest_in, longest_views, sequence_in};
