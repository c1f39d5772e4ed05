//! The chunk calls: one operation on all lanes of vectors of 128 bits, by operations on vectors alone.
mod bodies;
mod bytes;
mod halves;
mod words;

pub use bytes::{chunk_u8, lane_u8};
pub use halves::{chunk_u16, lane_u16};
pub use words::{chunk_u32, lane_u32};
