//! The integer operations of the vector extension on slices of elements of 8, 16 or 32 bits ("Vector Integer Arithmetic
//! Instructions" of the "V" extension).
#![tactic(auto)]

mod chunks;
mod elements;
mod kernels;
mod lane;
mod lanes_in_bytes;
mod operations;
mod resizing;

pub use chunks::{chunk_u8, chunk_u16, chunk_u32, lane_u8, lane_u16, lane_u32};
pub use kernels::{compare, compute, compute_carried, compute_carries, multiply_add};
pub use lane::Lane;
pub use lanes_in_bytes::{bytes_of_halves, bytes_of_words, halves_in, words_in};
pub use operations::{Op, has_chunk};
pub use resizing::{Narrow, cut, extend};
