//! Frames read as groups that borrow the frame's bytes, and frames written claim by claim.
#![tactic(auto)]

mod groups;
mod layout;
mod reading;
mod writer;

pub use byte_fields::{
    bytes_at, put_bytes, put_u8, put_u16, put_u32, put_u64, u8_at, u16_at, u32_at, u64_at,
};
pub use groups::{FrameView, Group, Groups, Signatures};
pub use layout::{BUNDLE, FRAME_BYTES, PROOF, SIGNATURE_BYTES};
pub use message_defs::FrameFault;
pub use reading::split_frame;
pub use writer::{FrameWriter, write_want};
