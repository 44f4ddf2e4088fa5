//! What is heard of a view: each claim gets its verdict, and each question about those that are heard is answered at once
//! (docs/PROTOCOL.md, «Hearing»).
#![tactic(auto)]

mod certificate;
mod hearing;
mod pool;
mod signed;
mod verdict;

pub use certificate::{Ack, CertKind, Certificate, Commit, Keep, Message, Place};
pub use hearing::WINDOW;
pub use own_place::Own;
pub use pool::Pool;
pub use pool_values::UpdateSet;
pub use signed::is_signed;
pub use verdict::Verdict;
