//! Fields read from the front of bytes, and fields written at a place of bytes.
#![tactic(auto)]

mod fields;

pub use fields::{
    bytes_at, put_bytes, put_u8, put_u16, put_u32, put_u64, u8_at, u16_at, u32_at, u64_at,
};
