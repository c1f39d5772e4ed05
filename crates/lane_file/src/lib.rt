//! Operations on groups of registers where they lie: sixteen bytes at a time, by the chunk calls of lane_int and
//! lane_fixed.
#![tactic(auto)]

mod apart;
mod byte_lane;
mod chunks;
mod fixed_lanes;
mod fixed_point;
mod flags;
mod integer;
mod kernel;
mod known;
mod saturation;
mod second;
mod written;

pub use byte_lane::ByteLane;
pub use fixed_point::fixed;
pub use integer::{int, multiply_add};
pub use second::Second;
