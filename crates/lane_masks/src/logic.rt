//! Mask logic.
ghost use Rattle.std.specs.Prelude.{◌≡◌, ℕ, ◌+◌, ◌<◌, ◌≤◌, false, length, slice_index, slice_index_or};
ghost use lib.Lanes.{zip2};
ghost use Rattle.lane_masks.specs.Chunks.{is_set};
ghost use Rattle.lane_masks.specs.Masks.{logic_of};

use crate::chunks::chunk_u8;
use rv_decode::LogicOp;
use std::simd::prelude::*;

#[tactic(auto, unfolding(crate::specs::Masks::logic_of))]
fn bit_of(op: LogicOp, a: bool, b: bool) -> bool
    ensures { result ≡ logic_of op a b }
{
    match op {
        LogicOp::And => a && b,
        LogicOp::Nand => !(a && b),
        LogicOp::Andn => a && !b,
        LogicOp::Xor => a != b,
        LogicOp::Or => a || b,
        LogicOp::Nor => !(a || b),
        LogicOp::Orn => a || !b,
        LogicOp::Xnor => a == b,
    }
}

/// Sixteen bits, from place `at` on, each as the lowest of a lane.
#[inline(always)]
fn lanes_at(bits: &[bool], at: usize) -> u8x16
    requires { at + 16 ≤ length bits.now }
    ensures { (k : ℕ) → k < 16
        → is_set 0 (slice_index result k) ≡ slice_index_or bits.now (at + k) false }
{
    let mut lanes = [0u8; 16];
    for k in 0..16 {
        lanes[k] = u8::from(bits[at + k]);
    }
    u8x16::from_array(lanes)
}

/// The bit in a lane.
#[inline(always)]
fn bit_in(lane: u8) -> bool
    ensures { result ≡ is_set 0 lane }
{
    lane % 2 == 1
}

/// Writes over each bit of `values`, which are vs2's, what `op` makes of it and of `b`'s bit, which is vs1's ("Vector
/// Mask-Register Logical Instructions"). Sixteen bits go by one chunk call, and those after the last such by themselves.
pub fn combine(op: LogicOp, values: &mut [bool], b: &[bool])
    requires { length b.now ≡ length values.old }
    ensures { values.new ≡ zip2 (logic_of op) values.old b.now }
{
    let mut at = 0;
    while values.len() - at >= 16 {
        let lanes = lanes_at(values, at);
        let results = chunk_u8(op, lanes, lanes_at(b, at), lanes);
        for k in 0..16 {
            values[at + k] = bit_in(results[k]);
        }
        at += 16;
    }
    for i in at..values.len() {
        values[i] = bit_of(op, values[i], b[i]);
    }
}
