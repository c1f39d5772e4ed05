//! Mask logic on chunks of whole bytes. Each byte has the bits of eight elements.
ghost use Rattle.std.specs.Prelude.{◌≡◌, ℕ, ◌<◌, slice_index};
ghost use lib.Lanes.{zip2};
ghost use Rattle.lane_masks.specs.Chunks.{byte_of, is_set};
ghost use Rattle.lane_masks.specs.Masks.{logic_of};

use rv_decode::LogicOp;
use std::simd::prelude::*;

/// What `op` makes of sixteen bytes of vs2, which are `values`, and of vs1's bytes `b`: each bit is that of `combine`
/// ("Vector Mask-Register Logical Instructions"). No operation reads vd's old bytes.
#[tactic(auto, unfolding(crate::specs::Chunks::byte_of))]
pub fn chunk_u8(op: LogicOp, values: u8x16, b: u8x16, _vd: u8x16) -> u8x16
    ensures bytes { result ≡ zip2 (byte_of op) values b }
    ensures bits { (i j : ℕ) → i < 16 → j < 8 → is_set j (slice_index result i)
        ≡ logic_of op (is_set j (slice_index values i)) (is_set j (slice_index b i)) }
{
    match op {
        LogicOp::And => values & b,
        LogicOp::Nand => !(values & b),
        LogicOp::Andn => values & !b,
        LogicOp::Xor => values ^ b,
        LogicOp::Or => values | b,
        LogicOp::Nor => !(values | b),
        LogicOp::Orn => values | !b,
        LogicOp::Xnor => !(values ^ b),
    }
}
