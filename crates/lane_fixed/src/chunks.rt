//! The kernels' operations on chunks of sixteen bytes, by operations of `std::simd` alone. Signed lanes are computed
//! with their top bit turned over, which makes them unsigned ones in the same order.
ghost use Rattle.std.specs.Prelude.{◌≡◌, ℕ, ◌+◌, ◌-◌, ◌*◌, ◌%◌, ◌^◌, ◌<◌, ◌≤◌, ◌==◌, nat_lt, pos};
ghost use Rattle.std.specs.Prelude.{◌+ℤ◌, ◌-ℤ◌, if◌then◌else◌};
ghost use Rattle.std.specs.Int.{w8, w16, w32, cast_signed, from_bool, saturate_signed};
ghost use mir.Val.{bits, hbits};
ghost use lib.Lanes.{zip2};
ghost use Rattle.lane_fixed.specs.Chunks.{AllFit, lane_flag, lane_result};
ghost use Rattle.lane_fixed.specs.Rounding.{low_bits, rounded, rounds_up};

use crate::chunk_lanes::Chunk;
use crate::operations::{Op, RoundingMode};
use std::simd::prelude::*;

/// The signed sum, clipped.
#[inline(always)]
fn signed_sum<T: Chunk>(a: T, b: T) -> T
    requires a_fits { AllFit T.width T.count (T.lane a) }
    requires b_fits { AllFit T.width T.count (T.lane b) }
    ensures { (i : ℕ) → i < T.count → T.lane result i
        ≡ low_bits (bits T.width) (saturate_signed T.width
        (cast_signed T.width (T.lane a i) +ℤ cast_signed T.width (T.lane b i))) }
{
    let raised = a.sum(T::top());
    let negated = T::zero().difference(b);
    let with_b = raised.saturating_sum(b);
    let without = raised.saturating_difference(negated);
    b.if_below(T::top(), with_b, without).sum(T::top())
}

/// The signed difference, clipped.
#[inline(always)]
fn signed_difference<T: Chunk>(a: T, b: T) -> T
    requires a_fits { AllFit T.width T.count (T.lane a) }
    requires b_fits { AllFit T.width T.count (T.lane b) }
    ensures { (i : ℕ) → i < T.count → T.lane result i
        ≡ low_bits (bits T.width) (saturate_signed T.width
        (cast_signed T.width (T.lane a i) -ℤ cast_signed T.width (T.lane b i))) }
{
    let raised = a.sum(T::top());
    let negated = T::zero().difference(b);
    let without = raised.saturating_difference(b);
    let with_b = raised.saturating_sum(negated);
    b.if_below(T::top(), without, with_b).sum(T::top())
}

/// A result that was clipped, and all ones where that is not the number before.
#[inline(always)]
fn flagged<T: Chunk>(clipped: T, wrapped: T) -> (T, T)
    ensures result { result.0 ≡ clipped }
    ensures flags { (i : ℕ) → i < T.count → T.lane result.1 i
        ≡ (if T.lane clipped i == T.lane wrapped i then 0 else 2 ^ bits T.width - 1) }
{
    (clipped, clipped.if_same(wrapped, T::zero(), T::ones()))
}

/// 1 where the rest is above the half of `power`, and where it is the half and `extra` is 1.
#[inline(always)]
fn at_half<T: Chunk>(rest: T, power: T, extra: T) -> T
    ensures { (i : ℕ) → i < T.count → T.lane rest i < T.lane power i → T.lane extra i ≤ 1
        → T.lane power i < 2 ^ bits T.width
        → T.lane result i
        ≡ from_bool (nat_lt (T.lane power i) (2 * T.lane rest i + T.lane extra i)) }
{
    power
        .difference(rest)
        .if_below(rest.sum(extra), T::one(), T::zero())
}

/// 1 where the mode rounds up: `floor` is left, and the bits that were lost held `rest`. `power` is 2 to their number.
#[inline(always)]
fn increment<T: Chunk>(mode: RoundingMode, floor: T, rest: T, power: T) -> T
    ensures { (i d : ℕ) → i < T.count → d < bits T.width → T.lane power i ≡ 2 ^ d
        → T.lane rest i < 2 ^ d
        → T.lane result i ≡ from_bool (rounds_up mode (pos (T.lane floor i)) (T.lane rest i) d) }
{
    let odd = floor.both(T::one());
    match mode {
        RoundingMode::NearestUp => at_half(rest, power, T::one()),
        RoundingMode::NearestEven => at_half(rest, power, odd),
        RoundingMode::Down => T::zero(),
        RoundingMode::Odd => rest.if_same(T::zero(), T::zero(), T::one().difference(odd)),
    }
}

/// Half of what the sum of the lanes is above twice `less`, rounded.
#[inline(always)]
fn average<T: Chunk>(mode: RoundingMode, a: T, b: T, less: T) -> T
    ensures { (i : ℕ) → i < T.count → T.lane less i < 2 ^ bits T.width
        → T.lane result i ≡ low_bits (bits T.width) (rounded mode
        (pos (T.lane a i + T.lane b i) -ℤ pos (T.lane less i * 2)) 1) }
{
    let differing = a.differing(b);
    let half = a.both(b).sum(differing.shifted(T::one()));
    let floor = half.difference(less);
    let rest = differing.both(T::one());
    floor.sum(increment(mode, floor, rest, T::one().power()))
}

/// What `a` is above `less`, shifted right by `b`, rounded. `less` has no bits that the shift loses.
#[inline(always)]
fn scaled<T: Chunk>(mode: RoundingMode, a: T, b: T, less: T) -> T
    ensures { (i j : ℕ) → i < T.count → T.lane less i < 2 ^ bits T.width
        → T.lane less i ≡ j * 2 ^ (T.lane b i % bits T.width)
        → T.lane result i ≡ low_bits (bits T.width) (rounded mode
        (pos (T.lane a i) -ℤ pos (T.lane less i)) (T.lane b i % bits T.width)) }
{
    let power = b.power();
    let floor = a.shifted(b).difference(less.shifted(b));
    let rest = a.both(power.difference(T::one()));
    floor.sum(increment(mode, floor, rest, power))
}

/// A lane with its top bit turned over.
#[inline(always)]
fn turned<T: Chunk>(a: T) -> T
    ensures { (i : ℕ) → i < T.count → T.lane result i
        ≡ (T.lane a i + 2 ^ hbits T.width) % 2 ^ bits T.width }
{
    a.sum(T::top())
}

/// Each operation of the chunk calls.
#[inline(always)]
fn computed<T: Chunk>(op: Op, a: T, b: T) -> (T, T)
    requires a_fits { AllFit T.width T.count (T.lane a) }
    requires b_fits { AllFit T.width T.count (T.lane b) }
    ensures results { (i : ℕ) → i < T.count → T.lane result.0 i
        ≡ lane_result op T.width (T.lane a i) (T.lane b i) }
    ensures flags { (i : ℕ) → i < T.count → T.lane result.1 i
        ≡ lane_flag op T.width (T.lane a i) (T.lane b i) }
{
    match op {
        Op::Saddu => flagged(a.saturating_sum(b), a.sum(b)),
        Op::Sadd => flagged(signed_sum(a, b), a.sum(b)),
        Op::Ssubu => flagged(a.saturating_difference(b), a.difference(b)),
        Op::Ssub => flagged(signed_difference(a, b), a.difference(b)),
        Op::Aaddu(mode) => (average(mode, a, b, T::zero()), T::zero()),
        Op::Aadd(mode) => (average(mode, turned(a), turned(b), T::top()), T::zero()),
        Op::Asubu(mode) => (average(mode, a, b, b), T::zero()),
        Op::Asub(mode) => (average(mode, turned(a), turned(b), turned(b)), T::zero()),
        Op::Ssrl(mode) => (scaled(mode, a, b, T::zero()), T::zero()),
        Op::Ssra(mode) => (scaled(mode, turned(a), b, T::top()), T::zero()),
    }
}

/// What `op` makes of sixteen elements of 8 bits: of vs2's, which are `values`, and of vs1's, the scalar's or the
/// immediate's, which are `b`. No operation reads vd's old elements. The first chunk has the results. The second has all
/// ones in each lane that saturates, and 0 in the others ("Vector Single-Width Saturating Add and Subtract", "Vector
/// Single-Width Averaging Add and Subtract", "Vector Single-Width Scaling Shift Instructions").
#[inline(always)]
pub fn chunk_u8(op: Op, values: u8x16, b: u8x16, _vd: u8x16) -> (u8x16, u8x16)
    ensures results { result.0 ≡ zip2 (lane_result op w8) values b }
    ensures flags { result.1 ≡ zip2 (lane_flag op w8) values b }
{
    computed(op, values, b)
}

/// What `op` makes of eight elements of 16 bits; otherwise as `chunk_u8`.
#[inline(always)]
pub fn chunk_u16(op: Op, values: u16x8, b: u16x8, _vd: u16x8) -> (u16x8, u16x8)
    ensures results { result.0 ≡ zip2 (lane_result op w16) values b }
    ensures flags { result.1 ≡ zip2 (lane_flag op w16) values b }
{
    computed(op, values, b)
}

/// What `op` makes of four elements of 32 bits; otherwise as `chunk_u8`.
#[inline(always)]
pub fn chunk_u32(op: Op, values: u32x4, b: u32x4, _vd: u32x4) -> (u32x4, u32x4)
    ensures results { result.0 ≡ zip2 (lane_result op w32) values b }
    ensures flags { result.1 ≡ zip2 (lane_flag op w32) values b }
{
    computed(op, values, b)
}
