//! The widths that the kernels work on.
ghost use Rattle.std.specs.Prelude.{◌≡◌, ℕ, ◌||◌, pos};
ghost use Rattle.std.specs.Int.{saturate_signed, saturate_unsigned};
ghost use Rattle.lane_fixed.specs.Rounding.{low_bits};

use crate::chunks::{chunk_u8, chunk_u16, chunk_u32};
use crate::flags::or_flagged;
use crate::operations::Op;
use crate::rounding::low;
use std::simd::prelude::*;

/// An element of one width: `u8`, `u16` or `u32`.
pub trait FixedLane: Copy {
    ghost use Rattle.std.specs.Prelude.{ℕ, ◌≡◌, ◌≤◌, ◌<◌, ◌+◌, ◌^◌, ◌||◌, length, map, pos};
    ghost use Rattle.std.specs.Int.{Width, cast_signed, saturate_signed, saturate_unsigned};
    ghost use mir.Val.{bits};
    ghost use lib.Lanes.{chunk, put_chunk, zip2};
    ghost use Rattle.lane_fixed.specs.Rounding.{low_bits};
    ghost use Rattle.lane_fixed.specs.Chunks.{lane_result, lane_saturates};
    ghost use Rattle.lane_fixed.specs.FixedPoint.{any_active};

    // the width, the number that an element holds, and how many a chunk has
    ghost width: { Width };

    ghost number: { Self → ℕ };

    ghost count: { ℕ };

    /// The number of bits.
    fn bits() -> u32
        ensures meaning { result ≡ bits width }
        ensures some { 8 ≤ result }
        ensures few { result ≤ 32 };

    /// The element, zero-extended.
    fn unsigned(self) -> u32
        ensures { result ≡ number self };

    /// The element, sign-extended.
    fn signed(self) -> i32
        ensures { result ≡ cast_signed width (number self) };

    /// The element in the lowest bits of a number.
    fn low(value: i64) -> Self
        ensures { number result ≡ low_bits (bits width) value };

    /// The nearest unsigned number of this width.
    fn clip_unsigned(value: i64) -> i64
        ensures { result ≡ pos (saturate_unsigned width value) };

    /// The nearest signed number of this width.
    fn clip_signed(value: i64) -> i64
        ensures { result ≡ saturate_signed width value };

    /// How many elements a chunk call takes.
    fn count() -> usize
        ensures meaning { result ≡ count }
        ensures some { 1 ≤ result }
        ensures few { result ≤ 16 };

    /// Writes over a chunk of `values`, from `at` on, what a chunk call makes of it and of `b`'s, and answers `so_far`, or
    /// whether an active element of the chunk saturated.
    fn chunk(
        op: Op,
        values: &mut [Self],
        b: &[Self],
        active: &[bool],
        at: usize,
        so_far: bool,
    ) -> bool
        requires values_room { at + count ≤ length values.old }
        requires b_room { at + count ≤ length b.now }
        requires active_room { at + count ≤ length active.now }
        ensures results { map number values.new ≡ put_chunk at (map number values.old)
            (zip2 (lane_result op width) (chunk at count (map number values.old))
            (chunk at count (map number b.now))) }
        ensures saturated { result ≡ (so_far || any_active (lane_saturates op width)
            (chunk at count (map number values.old)) (chunk at count (map number b.now))
            (chunk at count active.now)) };
}

/// The body of `chunk`: `$call` on the `$lanes` of `values` and `b` from `at` on, `$count` of them.
macro_rules! by_chunk {
    (
        $call:ident, $lanes:ident, $count:literal,
        $op:ident, $values:ident, $b:ident, $active:ident, $at:ident, $so_far:ident
    ) => {{
        let lanes = $lanes::from_slice(&$values[$at..]);
        let (results, flags) = $call($op, lanes, $lanes::from_slice(&$b[$at..]), lanes);
        results.copy_to_slice(&mut $values[$at..]);
        let mask = flags.simd_ne($lanes::splat(0)).to_bitmask();
        or_flagged($so_far, mask, &flags.to_array(), &$active[$at..$at + $count])
    }};
}

impl FixedLane for u8 {
    ghost use Rattle.std.specs.Int.{w8};

    ghost width = { w8 };

    ghost number = { λ a. a };

    ghost count = { 16 };

    #[inline(always)]
    fn bits() -> u32 {
        8
    }

    #[inline(always)]
    fn unsigned(self) -> u32 {
        u32::from(self)
    }

    #[inline(always)]
    fn signed(self) -> i32 {
        i32::from(self.cast_signed())
    }

    #[inline(always)]
    fn low(value: i64) -> u8 {
        low(value, 8) as u8
    }

    #[inline(always)]
    fn clip_unsigned(value: i64) -> i64 {
        value.clamp(0, 0xff)
    }

    #[inline(always)]
    fn clip_signed(value: i64) -> i64 {
        value.clamp(-0x80, 0x7f)
    }

    #[inline(always)]
    fn count() -> usize {
        16
    }

    #[inline(always)]
    fn chunk(
        op: Op,
        values: &mut [u8],
        b: &[u8],
        active: &[bool],
        at: usize,
        so_far: bool,
    ) -> bool {
        by_chunk!(chunk_u8, u8x16, 16, op, values, b, active, at, so_far)
    }
}

impl FixedLane for u16 {
    ghost use Rattle.std.specs.Int.{w16};

    ghost width = { w16 };

    ghost number = { λ a. a };

    ghost count = { 8 };

    #[inline(always)]
    fn bits() -> u32 {
        16
    }

    #[inline(always)]
    fn unsigned(self) -> u32 {
        u32::from(self)
    }

    #[inline(always)]
    fn signed(self) -> i32 {
        i32::from(self.cast_signed())
    }

    #[inline(always)]
    fn low(value: i64) -> u16 {
        low(value, 16) as u16
    }

    #[inline(always)]
    fn clip_unsigned(value: i64) -> i64 {
        value.clamp(0, 0xffff)
    }

    #[inline(always)]
    fn clip_signed(value: i64) -> i64 {
        value.clamp(-0x8000, 0x7fff)
    }

    #[inline(always)]
    fn count() -> usize {
        8
    }

    #[inline(always)]
    fn chunk(
        op: Op,
        values: &mut [u16],
        b: &[u16],
        active: &[bool],
        at: usize,
        so_far: bool,
    ) -> bool {
        by_chunk!(chunk_u16, u16x8, 8, op, values, b, active, at, so_far)
    }
}

impl FixedLane for u32 {
    ghost use Rattle.std.specs.Int.{w32};

    ghost width = { w32 };

    ghost number = { λ a. a };

    ghost count = { 4 };

    #[inline(always)]
    fn bits() -> u32 {
        32
    }

    #[inline(always)]
    fn unsigned(self) -> u32 {
        self
    }

    #[inline(always)]
    fn signed(self) -> i32 {
        self.cast_signed()
    }

    #[inline(always)]
    fn low(value: i64) -> u32 {
        low(value, 32) as u32
    }

    #[inline(always)]
    fn clip_unsigned(value: i64) -> i64 {
        value.clamp(0, 0xffff_ffff)
    }

    #[inline(always)]
    fn clip_signed(value: i64) -> i64 {
        value.clamp(-0x8000_0000, 0x7fff_ffff)
    }

    #[inline(always)]
    fn count() -> usize {
        4
    }

    #[inline(always)]
    fn chunk(
        op: Op,
        values: &mut [u32],
        b: &[u32],
        active: &[bool],
        at: usize,
        so_far: bool,
    ) -> bool {
        by_chunk!(chunk_u32, u32x4, 4, op, values, b, active, at, so_far)
    }
}
