//! The kernels: one operation over whole slices. Each matches its operation once, outside the loop, so that each loop knows its
//! own. What has a chunk call works by it, chunk after chunk, and by single elements after the last.
ghost use Rattle.std.specs.Prelude.{◌≡◌, length, map};
ghost use lib.Lanes.{zip2};
ghost use Rattle.lane_fixed.specs.FixedPoint.{any_active, clip_element, clip_saturates, element};
ghost use Rattle.lane_fixed.specs.FixedPoint.{saturates};
ghost use Rattle.lane_fixed.specs.Chunks.{lane_result, lane_saturates, mode_of, operation};

use crate::elements::{fixed, narrowed};
use crate::flags::or_active;
use crate::lane::FixedLane;
use crate::operations::{Op, RoundingMode};
use rv_decode::{ClipOp, FixedOp};

/// Writes over each element of `values`, which are vs2's, what `op` makes of it and of `b`'s element, and answers whether an
/// active element saturated ("Vector Single-Width Saturating Add and Subtract", "Vector Single-Width Averaging Add and
/// Subtract", "Vector Single-Width Fractional Multiply with Rounding and Saturation", "Vector Single-Width Scaling Shift
/// Instructions").
#[tactic(auto, using(crate::specs::ModeLemmas::each_mode))]
pub fn compute<T: FixedLane>(
    op: FixedOp,
    mode: RoundingMode,
    values: &mut [T],
    b: &[T],
    active: &[bool],
) -> bool
    requires b_len { length b.now ≡ length values.old }
    requires active_len { length active.now ≡ length values.old }
    ensures results { map T.number values.new
        ≡ zip2 (element op mode T.width) (map T.number values.old) (map T.number b.now) }
    ensures saturated { result
        ≡ any_active (saturates op mode T.width) (map T.number values.old)
        (map T.number b.now) active.now }
{
    match op {
        FixedOp::Saddu => compute_chunks(Op::Saddu, values, b, active),
        FixedOp::Sadd => compute_chunks(Op::Sadd, values, b, active),
        FixedOp::Ssubu => compute_chunks(Op::Ssubu, values, b, active),
        FixedOp::Ssub => compute_chunks(Op::Ssub, values, b, active),
        FixedOp::Aaddu => compute_chunks(Op::Aaddu(mode), values, b, active),
        FixedOp::Aadd => compute_chunks(Op::Aadd(mode), values, b, active),
        FixedOp::Asubu => compute_chunks(Op::Asubu(mode), values, b, active),
        FixedOp::Asub => compute_chunks(Op::Asub(mode), values, b, active),
        FixedOp::Smul => compute_each(FixedOp::Smul, mode, values, b, active),
        FixedOp::Ssrl => compute_chunks(Op::Ssrl(mode), values, b, active),
        FixedOp::Ssra => compute_chunks(Op::Ssra(mode), values, b, active),
    }
}

/// The kernel's operation.
#[inline(always)]
fn operation(op: Op) -> FixedOp
    ensures { result ≡ operation op }
{
    match op {
        Op::Saddu => FixedOp::Saddu,
        Op::Sadd => FixedOp::Sadd,
        Op::Ssubu => FixedOp::Ssubu,
        Op::Ssub => FixedOp::Ssub,
        Op::Aaddu(_) => FixedOp::Aaddu,
        Op::Aadd(_) => FixedOp::Aadd,
        Op::Asubu(_) => FixedOp::Asubu,
        Op::Asub(_) => FixedOp::Asub,
        Op::Ssrl(_) => FixedOp::Ssrl,
        Op::Ssra(_) => FixedOp::Ssra,
    }
}

/// How it rounds.
#[inline(always)]
fn mode_of(op: Op) -> RoundingMode
    ensures { result ≡ mode_of op }
{
    match op {
        Op::Saddu | Op::Sadd | Op::Ssubu | Op::Ssub => RoundingMode::Down,
        Op::Aaddu(mode)
        | Op::Aadd(mode)
        | Op::Asubu(mode)
        | Op::Asub(mode)
        | Op::Ssrl(mode)
        | Op::Ssra(mode) => mode,
    }
}

/// The loop over chunks, and that over the elements after the last of them.
#[inline(always)]
fn compute_chunks<T: FixedLane>(op: Op, values: &mut [T], b: &[T], active: &[bool]) -> bool
    requires b_len { length b.now ≡ length values.old }
    requires active_len { length active.now ≡ length values.old }
    ensures results { map T.number values.new
        ≡ zip2 (lane_result op T.width) (map T.number values.old) (map T.number b.now) }
    ensures saturated { result
        ≡ any_active (lane_saturates op T.width) (map T.number values.old)
        (map T.number b.now) active.now }
{
    let mut is_saturated = false;
    let mut at = 0;
    while values.len() - at >= T::count() {
        is_saturated = T::chunk(op, values, b, active, at, is_saturated);
        at += T::count();
    }
    for i in at..values.len() {
        let (value, is_clipped) = fixed(operation(op), mode_of(op), values[i], b[i]);
        values[i] = value;
        is_saturated = or_active(is_saturated, active[i], is_clipped);
    }
    is_saturated
}

/// The loop over single elements.
#[inline(always)]
fn compute_each<T: FixedLane>(
    op: FixedOp,
    mode: RoundingMode,
    values: &mut [T],
    b: &[T],
    active: &[bool],
) -> bool
    requires b_len { length b.now ≡ length values.old }
    requires active_len { length active.now ≡ length values.old }
    ensures results { map T.number values.new
        ≡ zip2 (element op mode T.width) (map T.number values.old) (map T.number b.now) }
    ensures saturated { result
        ≡ any_active (saturates op mode T.width) (map T.number values.old)
        (map T.number b.now) active.now }
{
    let mut is_saturated = false;
    for i in 0..values.len() {
        let (value, is_clipped) = fixed(op, mode, values[i], b[i]);
        values[i] = value;
        is_saturated = or_active(is_saturated, active[i], is_clipped);
    }
    is_saturated
}

/// Writes into `results` what `op` makes of each wide element of `a`, which are vs2's, and of `b`'s element, and answers
/// whether an active element saturated ("Vector Narrowing Fixed-Point Clip Instructions").
pub fn clip<W: FixedLane, N: FixedLane>(
    op: ClipOp,
    mode: RoundingMode,
    a: &[W],
    b: &[N],
    active: &[bool],
    results: &mut [N],
) -> bool
    requires a_len { length a.now ≡ length results.old }
    requires b_len { length b.now ≡ length results.old }
    requires active_len { length active.now ≡ length results.old }
    ensures results { map N.number results.new
        ≡ zip2 (clip_element op mode W.width N.width) (map W.number a.now) (map N.number b.now) }
    ensures saturated { result
        ≡ any_active (clip_saturates op mode W.width N.width) (map W.number a.now)
        (map N.number b.now) active.now }
{
    match op {
        ClipOp::Clipu => clip_each(ClipOp::Clipu, mode, a, b, active, results),
        ClipOp::Clip => clip_each(ClipOp::Clip, mode, a, b, active, results),
    }
}

/// The loop of `clip`.
#[inline(always)]
fn clip_each<W: FixedLane, N: FixedLane>(
    op: ClipOp,
    mode: RoundingMode,
    a: &[W],
    b: &[N],
    active: &[bool],
    results: &mut [N],
) -> bool
    requires a_len { length a.now ≡ length results.old }
    requires b_len { length b.now ≡ length results.old }
    requires active_len { length active.now ≡ length results.old }
    ensures results { map N.number results.new
        ≡ zip2 (clip_element op mode W.width N.width) (map W.number a.now) (map N.number b.now) }
    ensures saturated { result
        ≡ any_active (clip_saturates op mode W.width N.width) (map W.number a.now)
        (map N.number b.now) active.now }
{
    let mut is_saturated = false;
    for i in 0..results.len() {
        let (value, is_clipped) = narrowed(op, mode, a[i], b[i]);
        results[i] = value;
        is_saturated = or_active(is_saturated, active[i], is_clipped);
    }
    is_saturated
}
