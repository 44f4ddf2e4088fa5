//! The word `ask`: a kit is read, and after it reply keys, a view and replies, and what more than f of the view's members answered to a
//! payload is written (docs/FORMATS.md, «The store»).
#![tactic(auto)]

mod asking;
mod counting;
mod question;
mod replies;
mod said;
mod stops;
mod words;

pub use asking::ask;
pub use rp_base::{Sink, Source};
