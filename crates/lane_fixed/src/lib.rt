//! Fixed-point lanes: saturating sums and differences, averages, rounded products and shifts, and clips, each over whole
//! slices of elements of 8, 16 or 32 bits. A kernel that can saturate tells whether an active element did.
#![tactic(auto)]

mod chunk_lanes;
mod chunks;
mod elements;
mod flags;
mod kernels;
mod lane;
mod operations;
mod rounding;

pub use chunks::{chunk_u8, chunk_u16, chunk_u32};
pub use kernels::{clip, compute};
pub use lane::FixedLane;
pub use operations::{Op, RoundingMode, chunk_op};
