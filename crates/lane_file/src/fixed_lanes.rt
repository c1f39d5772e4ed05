//! The chunk calls in fixed point on the elements that lie in sixteen bytes, the lowest byte of each first: the results, and
//! all ones in the elements that saturate.
ghost use Rattle.std.specs.Prelude.{◌≡◌, ℕ, ◌*◌, ◌<◌};
ghost use Rattle.std.specs.Int.{w8, w16, w32};
ghost use Rattle.byteorder.specs.Endian.{little_from};
ghost use Rattle.lane_fixed.specs.Chunks.{lane_flag, lane_result};

use lane_fixed::{Op, chunk_u8, chunk_u16, chunk_u32};
use lane_int::{bytes_of_halves, bytes_of_words, halves_in, words_in};
use std::simd::prelude::*;

/// Of sixteen bytes.
#[inline(always)]
pub(crate) fn fixed_bytes(op: Op, values: u8x16, b: u8x16) -> (u8x16, u8x16)
    ensures results { (j : ℕ) → j < 16 → little_from (1 * j) 1 result.0
        ≡ lane_result op w8 (little_from (1 * j) 1 values) (little_from (1 * j) 1 b) }
    ensures flags { (j : ℕ) → j < 16 → little_from (1 * j) 1 result.1
        ≡ lane_flag op w8 (little_from (1 * j) 1 values) (little_from (1 * j) 1 b) }
{
    chunk_u8(op, values, b, values)
}

/// Of the halves in them.
#[inline(always)]
pub(crate) fn fixed_halves(op: Op, values: u8x16, b: u8x16) -> (u8x16, u8x16)
    ensures results { (j : ℕ) → j < 8 → little_from (2 * j) 2 result.0
        ≡ lane_result op w16 (little_from (2 * j) 2 values) (little_from (2 * j) 2 b) }
    ensures flags { (j : ℕ) → j < 8 → little_from (2 * j) 2 result.1
        ≡ lane_flag op w16 (little_from (2 * j) 2 values) (little_from (2 * j) 2 b) }
{
    let lanes = halves_in(values);
    let others = halves_in(b);
    let both = chunk_u16(op, lanes, others, lanes);
    let results = bytes_of_halves(both.0);
    let flags = bytes_of_halves(both.1);
    (results, flags)
}

/// Of the words in them.
#[inline(always)]
pub(crate) fn fixed_words(op: Op, values: u8x16, b: u8x16) -> (u8x16, u8x16)
    ensures results { (j : ℕ) → j < 4 → little_from (4 * j) 4 result.0
        ≡ lane_result op w32 (little_from (4 * j) 4 values) (little_from (4 * j) 4 b) }
    ensures flags { (j : ℕ) → j < 4 → little_from (4 * j) 4 result.1
        ≡ lane_flag op w32 (little_from (4 * j) 4 values) (little_from (4 * j) 4 b) }
{
    let lanes = words_in(values);
    let others = words_in(b);
    let both = chunk_u32(op, lanes, others, lanes);
    let results = bytes_of_words(both.0);
    let flags = bytes_of_words(both.1);
    (results, flags)
}
