//! The chunk calls on the elements that lie in sixteen bytes, the lowest byte of each first.
ghost use Rattle.std.specs.Prelude.{◌≡◌, ℕ, ◌*◌, ◌<◌};
ghost use Rattle.byteorder.specs.Endian.{little_from};
ghost use Rattle.lane_int.specs.Integer.{multiply_added};
ghost use Rattle.std.specs.Int.{w8, w16, w32};

use crate::fixed_lanes::{fixed_bytes, fixed_halves, fixed_words};
use lane_fixed::Op as FixedChunk;
use lane_int::{
    Lane, Op, bytes_of_halves, bytes_of_words, chunk_u8, chunk_u16, chunk_u32, halves_in, words_in,
};
use rv_decode::MultiplyAddOp;
use std::simd::prelude::*;

/// An element that lies in the bytes of registers: `u8`, `u16` or `u32`.
pub trait ByteLane: Lane {
    ghost use Rattle.std.specs.Prelude.{◌≡◌, ℕ, ◌*◌, ◌<◌};
    ghost use Rattle.byteorder.specs.Endian.{little_from};
    ghost use Rattle.lane_fixed.specs.Chunks.{lane_flag, lane_result};
    ghost use Rattle.lane_int.specs.Integer.{multiply_added};

    /// What `op` makes of the elements of vs2, which are `values`, of those of the second source, and of vd's old ones.
    fn added(op: MultiplyAddOp, values: u8x16, b: u8x16, old: u8x16) -> u8x16
        ensures { (j : ℕ) → j < Self.Lane.count
            → little_from (Self.Lane.size * j) Self.Lane.size result ≡ multiply_added op
            Self.Lane.width (little_from (Self.Lane.size * j) Self.Lane.size values)
            (little_from (Self.Lane.size * j) Self.Lane.size b)
            (little_from (Self.Lane.size * j) Self.Lane.size old) };

    /// What `op` makes of the elements of vs2 and of the second source, and all ones in those that saturate, 0 in the others.
    fn fixed(op: FixedChunk, values: u8x16, b: u8x16) -> (u8x16, u8x16)
        ensures results { (j : ℕ) → j < Self.Lane.count
            → little_from (Self.Lane.size * j) Self.Lane.size result.0
            ≡ lane_result op Self.Lane.width (little_from (Self.Lane.size * j) Self.Lane.size values)
            (little_from (Self.Lane.size * j) Self.Lane.size b) }
        ensures flags { (j : ℕ) → j < Self.Lane.count
            → little_from (Self.Lane.size * j) Self.Lane.size result.1
            ≡ lane_flag op Self.Lane.width (little_from (Self.Lane.size * j) Self.Lane.size values)
            (little_from (Self.Lane.size * j) Self.Lane.size b) };
}

impl ByteLane for u8 {
    #[inline(always)]
    fn added(op: MultiplyAddOp, values: u8x16, b: u8x16, old: u8x16) -> u8x16 {
        added_bytes(op, values, b, old)
    }

    #[inline(always)]
    fn fixed(op: FixedChunk, values: u8x16, b: u8x16) -> (u8x16, u8x16) {
        fixed_bytes(op, values, b)
    }
}

impl ByteLane for u16 {
    #[inline(always)]
    fn added(op: MultiplyAddOp, values: u8x16, b: u8x16, old: u8x16) -> u8x16 {
        added_halves(op, values, b, old)
    }

    #[inline(always)]
    fn fixed(op: FixedChunk, values: u8x16, b: u8x16) -> (u8x16, u8x16) {
        fixed_halves(op, values, b)
    }
}

impl ByteLane for u32 {
    #[inline(always)]
    fn added(op: MultiplyAddOp, values: u8x16, b: u8x16, old: u8x16) -> u8x16 {
        added_words(op, values, b, old)
    }

    #[inline(always)]
    fn fixed(op: FixedChunk, values: u8x16, b: u8x16) -> (u8x16, u8x16) {
        fixed_words(op, values, b)
    }
}

/// vmacc, vnmsac, vmadd and vnmsub of sixteen bytes.
#[inline(always)]
fn added_bytes(op: MultiplyAddOp, values: u8x16, b: u8x16, old: u8x16) -> u8x16
    ensures { (j : ℕ) → j < 16 → little_from (1 * j) 1 result
        ≡ multiply_added op w8 (little_from (1 * j) 1 values) (little_from (1 * j) 1 b)
        (little_from (1 * j) 1 old) }
{
    chunk_u8(Op::MultiplyAdd(op), values, b, old)
}

/// The same of the halves in them.
#[inline(always)]
fn added_halves(op: MultiplyAddOp, values: u8x16, b: u8x16, old: u8x16) -> u8x16
    ensures { (j : ℕ) → j < 8 → little_from (2 * j) 2 result
        ≡ multiply_added op w16 (little_from (2 * j) 2 values) (little_from (2 * j) 2 b)
        (little_from (2 * j) 2 old) }
{
    let lanes = halves_in(values);
    let others = halves_in(b);
    let before = halves_in(old);
    let results = chunk_u16(Op::MultiplyAdd(op), lanes, others, before);
    bytes_of_halves(results)
}

/// The same of the words in them.
#[inline(always)]
fn added_words(op: MultiplyAddOp, values: u8x16, b: u8x16, old: u8x16) -> u8x16
    ensures { (j : ℕ) → j < 4 → little_from (4 * j) 4 result
        ≡ multiply_added op w32 (little_from (4 * j) 4 values) (little_from (4 * j) 4 b)
        (little_from (4 * j) 4 old) }
{
    let lanes = words_in(values);
    let others = words_in(b);
    let before = words_in(old);
    let results = chunk_u32(Op::MultiplyAdd(op), lanes, others, before);
    bytes_of_words(results)
}
