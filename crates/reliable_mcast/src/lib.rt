//! What a process sends: how the claims that go out are packed into frames, and what is kept of the views that were left
//! (docs/PROTOCOL.md, «What is sent»; docs/FORMATS.md, «Packing»).
#![tactic(auto)]

mod archive;
mod frames;
mod sheet;

pub use archive::{Archive, Displaced};
pub use frames::Frames;
pub use sent_claims::{ClaimList, Conflicts};
pub use sheet::FrameKind;
