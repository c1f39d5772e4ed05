//! The fixed-point kernels.
ghost use Rattle.std.specs.Prelude.{◌≤◌};

use crate::tests::assertions::assert_same;
use crate::tests::lanes::lengths::{LENGTHS, MOST, bits, bytes, halves, numbers};
use lane_fixed::{FixedLane, RoundingMode, clip, compute};
use rv_decode::{ClipOp, FixedOp};
use std::process::Abort;

pub(crate) const FIXED_OPERATIONS: [FixedOp; 11] = [
    FixedOp::Saddu,
    FixedOp::Sadd,
    FixedOp::Ssubu,
    FixedOp::Ssub,
    FixedOp::Aaddu,
    FixedOp::Aadd,
    FixedOp::Asubu,
    FixedOp::Asub,
    FixedOp::Smul,
    FixedOp::Ssrl,
    FixedOp::Ssra,
];

const CLIPS: [ClipOp; 2] = [ClipOp::Clipu, ClipOp::Clip];

pub(crate) const MODES: [RoundingMode; 4] = [
    RoundingMode::NearestUp,
    RoundingMode::NearestEven,
    RoundingMode::Down,
    RoundingMode::Odd,
];

#[test]
fn fixed_point_at_each_length(rt: HostRuntime) {
    try_operations(&rt, &bytes(1), &bytes(2));
    try_operations(&rt, &halves(1), &halves(2));
    try_operations(&rt, &numbers(1), &numbers(2));
    try_clips(&rt, &halves(1), &bytes(2));
    try_clips(&rt, &numbers(1), &halves(2));
}

/// Each operation at each length and in each mode, masked and not, on elements of one width.
fn try_operations<T: FixedLane + PartialEq>(rt: impl Abort + Copy, a: &[T; MOST], b: &[T; MOST]) {
    let (all, some) = ([true; MOST], bits(3));
    for k in 0..LENGTHS.len() {
        let n = LENGTHS[k].min(MOST);
        for j in 0..FIXED_OPERATIONS.len() {
            for m in 0..MODES.len() {
                try_operation(rt, FIXED_OPERATIONS[j], MODES[m], a, b, &all, n);
                try_operation(rt, FIXED_OPERATIONS[j], MODES[m], a, b, &some, n);
            }
        }
    }
}

fn try_operation<T: FixedLane + PartialEq>(
    rt: impl Abort + Copy,
    op: FixedOp,
    mode: RoundingMode,
    a: &[T; MOST],
    b: &[T; MOST],
    active: &[bool; MOST],
    n: usize,
)
    requires { n ≤ 512 }
{
    let mut values = *a;
    let saturated = compute(op, mode, &mut values[..n], &b[..n], &active[..n]);
    let mut ones = *a;
    let is_any = compute_ones(op, mode, &mut ones, b, active, n);
    assert_same!(rt; saturated, is_any);
    assert_same!(rt; &values[..], &ones[..]);
}

/// Computes the elements one by one, over what they are, and tells whether an active one saturates.
fn compute_ones<T: FixedLane>(
    op: FixedOp,
    mode: RoundingMode,
    values: &mut [T; MOST],
    b: &[T; MOST],
    active: &[bool; MOST],
    n: usize,
) -> bool
    requires { n ≤ 512 }
{
    let (values, b, active) = (&mut values[..], &b[..], &active[..]);
    let mut is_any = false;
    for i in 0..n {
        let (one, b, active) = (&mut values[i..i + 1], &b[i..i + 1], &active[i..i + 1]);
        let saturates = compute(op, mode, one, b, active);
        is_any = is_any || saturates;
    }
    is_any
}

/// Each clip at each length and in each mode, masked and not.
fn try_clips<W: FixedLane, N: FixedLane + PartialEq>(
    rt: impl Abort + Copy,
    a: &[W; MOST],
    b: &[N; MOST],
) {
    let (all, some) = ([true; MOST], bits(3));
    for k in 0..LENGTHS.len() {
        let n = LENGTHS[k].min(MOST);
        for j in 0..CLIPS.len() {
            for m in 0..MODES.len() {
                try_clip(rt, CLIPS[j], MODES[m], a, b, &all, n);
                try_clip(rt, CLIPS[j], MODES[m], a, b, &some, n);
            }
        }
    }
}

fn try_clip<W: FixedLane, N: FixedLane + PartialEq>(
    rt: impl Abort + Copy,
    op: ClipOp,
    mode: RoundingMode,
    a: &[W; MOST],
    b: &[N; MOST],
    active: &[bool; MOST],
    n: usize,
)
    requires { n ≤ 512 }
{
    let mut results = *b;
    let saturated = clip(op, mode, &a[..n], &b[..n], &active[..n], &mut results[..n]);
    let mut ones = *b;
    let is_any = clip_ones(op, mode, a, b, active, &mut ones, n);
    assert_same!(rt; saturated, is_any);
    assert_same!(rt; &results[..], &ones[..]);
}

/// Clips the elements one by one, and tells whether an active one saturates.
fn clip_ones<W: FixedLane, N: FixedLane>(
    op: ClipOp,
    mode: RoundingMode,
    a: &[W; MOST],
    b: &[N; MOST],
    active: &[bool; MOST],
    ones: &mut [N; MOST],
    n: usize,
) -> bool
    requires { n ≤ 512 }
{
    let (a, b, active, ones) = (&a[..], &b[..], &active[..], &mut ones[..]);
    let mut is_any = false;
    for i in 0..n {
        let (a, b, active) = (&a[i..i + 1], &b[i..i + 1], &active[i..i + 1]);
        let saturates = clip(op, mode, a, b, active, &mut ones[i..i + 1]);
        is_any = is_any || saturates;
    }
    is_any
}
