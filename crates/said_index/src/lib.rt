//! What a process said over all views, found by its bytes (docs/FORMATS.md, «Statements»). A process itself keeps what it signed in its
//! current view alone.
#![tactic(auto)]

mod index;
mod spelled;

pub use index::SaidIndex;
