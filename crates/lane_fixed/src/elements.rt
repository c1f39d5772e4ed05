//! One element.
ghost use Rattle.std.specs.Prelude.{◌≡◌, ◌≤◌, ◌<◌, ◌+◌, ◌*◌, ◌^◌, ◌%◌, ℤ, pos, unsigned_abs, ◌+ℤ◌};
ghost use Rattle.std.specs.Prelude.{◌-ℤ◌, ◌*ℤ◌};
ghost use Rattle.std.specs.Int.{cast_signed};
ghost use mir.Val.{bits};
ghost use Rattle.lane_fixed.specs.FixedPoint.{clip_element, clip_exact, clip_saturates, clip_to};
ghost use Rattle.lane_fixed.specs.FixedPoint.{clipped, dropped, element, exact, saturates};

use crate::lane::FixedLane;
use crate::operations::RoundingMode;
use crate::rounding::rounded;
use rv_decode::{ClipOp, FixedOp};

#[inline(always)]
fn unsigned_sum<T: FixedLane>(a: T, b: T) -> i64
    ensures value { result ≡ pos (T.number a) +ℤ pos (T.number b) }
    ensures room { unsigned_abs result ≤ 2 ^ 62 }
{
    i64::from(a.unsigned()) + i64::from(b.unsigned())
}

#[inline(always)]
fn signed_sum<T: FixedLane>(a: T, b: T) -> i64
    ensures value { result ≡ cast_signed T.width (T.number a) +ℤ cast_signed T.width (T.number b) }
    ensures room { unsigned_abs result ≤ 2 ^ 62 }
{
    i64::from(a.signed()) + i64::from(b.signed())
}

#[inline(always)]
fn unsigned_difference<T: FixedLane>(a: T, b: T) -> i64
    ensures value { result ≡ pos (T.number a) -ℤ pos (T.number b) }
    ensures room { unsigned_abs result ≤ 2 ^ 62 }
{
    i64::from(a.unsigned()) - i64::from(b.unsigned())
}

#[inline(always)]
fn signed_difference<T: FixedLane>(a: T, b: T) -> i64
    ensures value { result ≡ cast_signed T.width (T.number a) -ℤ cast_signed T.width (T.number b) }
    ensures room { unsigned_abs result ≤ 2 ^ 62 }
{
    i64::from(a.signed()) - i64::from(b.signed())
}

#[inline(always)]
fn signed_product<T: FixedLane>(a: T, b: T) -> i64
    ensures value { result ≡ cast_signed T.width (T.number a) *ℤ cast_signed T.width (T.number b) }
    ensures room { unsigned_abs result ≤ 2 ^ 62 }
{
    product(a.signed(), b.signed())
}

#[inline(always)]
fn product(a: i32, b: i32) -> i64
    ensures value { result ≡ a *ℤ b }
    ensures room { unsigned_abs result ≤ 2 ^ 62 }
{
    i64::from(a) * i64::from(b)
}

/// The element of an unsigned operation.
#[inline(always)]
fn unsigned_value<T: FixedLane>(a: T) -> i64
    ensures value { result ≡ pos (T.number a) }
    ensures room { unsigned_abs result ≤ 2 ^ 62 }
{
    i64::from(a.unsigned())
}

#[inline(always)]
fn signed_value<T: FixedLane>(a: T) -> i64
    ensures value { result ≡ cast_signed T.width (T.number a) }
    ensures room { unsigned_abs result ≤ 2 ^ 62 }
{
    i64::from(a.signed())
}

/// The exact number of an operation.
#[inline(always)]
#[tactic(auto, unfolding(crate::specs::FixedPoint::exact))]
fn exact<T: FixedLane>(op: FixedOp, a: T, b: T) -> i64
    ensures value { result ≡ exact op T.width (T.number a) (T.number b) }
    ensures room { unsigned_abs result ≤ 2 ^ 62 }
{
    match op {
        FixedOp::Saddu | FixedOp::Aaddu => unsigned_sum(a, b),
        FixedOp::Sadd | FixedOp::Aadd => signed_sum(a, b),
        FixedOp::Ssubu | FixedOp::Asubu => unsigned_difference(a, b),
        FixedOp::Ssub | FixedOp::Asub => signed_difference(a, b),
        FixedOp::Smul => signed_product(a, b),
        FixedOp::Ssrl => unsigned_value(a),
        FixedOp::Ssra => signed_value(a),
    }
}

/// How many of its lowest bits are rounded off.
#[inline(always)]
#[tactic(auto, unfolding(crate::specs::FixedPoint::dropped))]
fn dropped<T: FixedLane>(op: FixedOp, b: T) -> u32
    ensures value { result ≡ dropped op T.width (T.number b) }
    ensures few { result ≤ 32 }
{
    match op {
        FixedOp::Saddu | FixedOp::Sadd | FixedOp::Ssubu | FixedOp::Ssub => 0,
        FixedOp::Aaddu | FixedOp::Aadd | FixedOp::Asubu | FixedOp::Asub => 1,
        FixedOp::Smul => T::bits() - 1,
        FixedOp::Ssrl | FixedOp::Ssra => b.unsigned() % T::bits(),
    }
}

/// The number after it was clipped.
#[inline(always)]
#[tactic(auto, unfolding(crate::specs::FixedPoint::clipped))]
fn clipped<T: FixedLane>(op: FixedOp, value: i64) -> i64
    ensures { result ≡ clipped op T.width value }
{
    match op {
        FixedOp::Saddu | FixedOp::Ssubu => T::clip_unsigned(value),
        FixedOp::Sadd | FixedOp::Ssub | FixedOp::Smul => T::clip_signed(value),
        FixedOp::Aaddu
        | FixedOp::Aadd
        | FixedOp::Asubu
        | FixedOp::Asub
        | FixedOp::Ssrl
        | FixedOp::Ssra => value,
    }
}

/// What `op` makes of vs2's element `a` and of `b`, and whether it saturates.
#[inline(always)]
#[tactic(auto, unfolding(crate::specs::FixedPoint::element, crate::specs::FixedPoint::saturates, crate::specs::FixedPoint::unclipped))]
pub fn fixed<T: FixedLane>(op: FixedOp, mode: RoundingMode, a: T, b: T) -> (T, bool)
    ensures value { T.number result.0 ≡ element op mode T.width (T.number a) (T.number b) }
    ensures saturated { result.1 ≡ saturates op mode T.width (T.number a) (T.number b) }
{
    let value = rounded(mode, exact(op, a, b), dropped(op, b));
    let clipped = clipped::<T>(op, value);
    (T::low(clipped), clipped != value)
}

/// The number that is clipped.
#[inline(always)]
#[tactic(auto, unfolding(crate::specs::FixedPoint::clip_exact))]
fn clip_exact<W: FixedLane>(op: ClipOp, a: W) -> i64
    ensures value { result ≡ clip_exact op W.width (W.number a) }
    ensures room { unsigned_abs result ≤ 2 ^ 62 }
{
    match op {
        ClipOp::Clipu => unsigned_value(a),
        ClipOp::Clip => signed_value(a),
    }
}

#[inline(always)]
#[tactic(auto, unfolding(crate::specs::FixedPoint::clip_to))]
fn clip_to<N: FixedLane>(op: ClipOp, value: i64) -> i64
    ensures { result ≡ clip_to op N.width value }
{
    match op {
        ClipOp::Clipu => N::clip_unsigned(value),
        ClipOp::Clip => N::clip_signed(value),
    }
}

/// What `op` makes of vs2's wide element `a` and of `b`, and whether it saturates.
#[inline(always)]
#[tactic(auto, unfolding(crate::specs::FixedPoint::clip_element, crate::specs::FixedPoint::clip_saturates, crate::specs::FixedPoint::clip_unclipped))]
pub fn narrowed<W: FixedLane, N: FixedLane>(op: ClipOp, mode: RoundingMode, a: W, b: N) -> (N, bool)
    ensures value { N.number result.0
        ≡ clip_element op mode W.width N.width (W.number a) (N.number b) }
    ensures saturated { result.1
        ≡ clip_saturates op mode W.width N.width (W.number a) (N.number b) }
{
    let value = rounded(mode, clip_exact(op, a), b.unsigned() % W::bits());
    let clipped = clip_to::<N>(op, value);
    (N::low(clipped), clipped != value)
}
