//! Whether an active element of a body saturates. The registers are read alone, before an operation writes to them: `a` is
//! the place of vs2's first byte.
ghost use Rattle.std.specs.Prelude.{◌≡◌, ℕ, ◌+◌, ◌*◌, ◌/◌, ◌<◌, ◌≤◌, ◌⊎◌, ◌||◌, false, slice_index};
ghost use Rattle.lane_fixed.specs.Chunks.{lane_saturates};
ghost use Rattle.lane_fixed.specs.FixedPoint.{any_active};
ghost use Rattle.vreg_groups.specs.Elements.{active_of, elements_of};
ghost use Rattle.vreg_groups.specs.Group.{IsSize};
ghost use Rattle.lane_file.specs.InPlace.{HasRoom, IsSecondWithin, any_of, clips, holds_at};
ghost use Rattle.lane_file.specs.InPlace.{second_list};

use crate::byte_lane::ByteLane;
use crate::flags::{active_flags, first_flags};
use crate::second::{Second, other, place_of};
use lane_fixed::Op;
use rv_decode::Reg;
use std::simd::prelude::*;
use vreg_groups::{Agnostic, Group, VregFile, written_lanes};

/// Whether an active element of a group and of `b` saturates.
pub(crate) fn any_saturated<E: ByteLane, const VLENB: usize>(
    registers: &VregFile<VLENB>,
    group: &Group<VLENB>,
    op: Op,
    vs2: Reg,
    b: Second<E>,
    masked: bool,
) -> bool
    requires first { vs2 ≡ group.now.first }
    requires size { E.Lane.size ≡ group.now.bytes }
    requires sizes { IsSize E.Lane.size }
    requires b_inside { IsSecondWithin group.now.count b }
    ensures { result ≡ any_active (lane_saturates op E.Lane.width)
        (elements_of VLENB group.now.bytes vs2 group.now.vl registers.now)
        (second_list VLENB group.now.bytes E.Lane.number group.now.vl b registers.now)
        (active_of VLENB masked group.now.vl registers.now) }
{
    let _room = group.count() * VLENB;
    let n = E::size() * group.vl();
    if clips(op) {
        in_body(registers, op, place_of(vs2, VLENB), b, n, masked)
    } else {
        false
    }
}

/// Whether an operation clips: what does not never saturates.
#[inline(always)]
fn clips(op: Op) -> bool
    ensures { result ≡ clips op }
{
    match op {
        Op::Saddu | Op::Sadd | Op::Ssubu | Op::Ssub => true,
        Op::Aaddu(_) | Op::Aadd(_) | Op::Asubu(_) | Op::Asub(_) | Op::Ssrl(_) | Op::Ssra(_) =>
            false,
    }
}

/// Whether one of the first `n` bytes' elements does: each operation that clips has a loop of its own.
#[inline(always)]
fn in_body<E: ByteLane, const VLENB: usize>(
    registers: &VregFile<VLENB>,
    op: Op,
    a: usize,
    b: Second<E>,
    n: usize,
    masked: bool,
) -> bool
    requires size { (E.Lane.size ≡ 1) ⊎ (E.Lane.size ≡ 2) ⊎ (E.Lane.size ≡ 4) }
    requires vlenb { VLENB ≤ 64 }
    requires a_room { a + 16 * ((n + 15) / 16) ≤ 32 * VLENB }
    requires b_room { HasRoom VLENB b (16 * ((n + 15) / 16)) }
    requires bits_room { 16 * ((n + 15) / 16) ≤ 8 * VLENB }
    ensures { (k : ℕ) → E.Lane.size * k ≡ n → result ≡ any_of (holds_at VLENB E.Lane.size
        E.Lane.number (lane_saturates op E.Lane.width) a b masked registers.now) k }
{
    match op {
        Op::Saddu => in_known_body(registers, Op::Saddu, a, b, n, masked),
        Op::Sadd => in_known_body(registers, Op::Sadd, a, b, n, masked),
        Op::Ssubu => in_known_body(registers, Op::Ssubu, a, b, n, masked),
        Op::Ssub => in_known_body(registers, Op::Ssub, a, b, n, masked),
        Op::Aaddu(_) | Op::Aadd(_) | Op::Asubu(_) | Op::Asub(_) | Op::Ssrl(_) | Op::Ssra(_) => {
            in_known_body(registers, op, a, b, n, masked)
        }
    }
}

/// The same of an operation that is known where it is called.
#[inline(always)]
fn in_known_body<E: ByteLane, const VLENB: usize>(
    registers: &VregFile<VLENB>,
    op: Op,
    a: usize,
    b: Second<E>,
    n: usize,
    masked: bool,
) -> bool
    requires size { (E.Lane.size ≡ 1) ⊎ (E.Lane.size ≡ 2) ⊎ (E.Lane.size ≡ 4) }
    requires vlenb { VLENB ≤ 64 }
    requires a_room { a + 16 * ((n + 15) / 16) ≤ 32 * VLENB }
    requires b_room { HasRoom VLENB b (16 * ((n + 15) / 16)) }
    requires bits_room { 16 * ((n + 15) / 16) ≤ 8 * VLENB }
    ensures { (k : ℕ) → E.Lane.size * k ≡ n → result ≡ any_of (holds_at VLENB E.Lane.size
        E.Lane.number (lane_saturates op E.Lane.width) a b masked registers.now) k }
{
    let count = n / 16;
    let before = in_chunks(registers, op, a, b, count, masked);
    if 16 * count < n {
        let last = in_part(registers, op, a, b, count, n - 16 * count, masked);
        either(before, last)
    } else {
        before
    }
}

/// Whether an element of the first chunks does.
#[inline(always)]
fn in_chunks<E: ByteLane, const VLENB: usize>(
    registers: &VregFile<VLENB>,
    op: Op,
    a: usize,
    b: Second<E>,
    count: usize,
    masked: bool,
) -> bool
    requires size { (E.Lane.size ≡ 1) ⊎ (E.Lane.size ≡ 2) ⊎ (E.Lane.size ≡ 4) }
    requires vlenb { VLENB ≤ 64 }
    requires a_room { a + 16 * count ≤ 32 * VLENB }
    requires b_room { HasRoom VLENB b (16 * count) }
    requires bits_room { 16 * count ≤ 8 * VLENB }
    ensures { result ≡ any_of (holds_at VLENB E.Lane.size E.Lane.number
        (lane_saturates op E.Lane.width) a b masked registers.now) (E.Lane.count * count) }
{
    let mut is_any = false;
    for m in 0..count {
        let here = in_part(registers, op, a, b, m, 16, masked);
        is_any = either(is_any, here);
    }
    is_any
}

/// Whether one of two is so.
#[inline(always)]
fn either(a: bool, b: bool) -> bool
    ensures { result ≡ (a || b) }
{
    a || b
}

/// Whether an element of the first `n` bytes of chunk `m` does.
#[inline(always)]
fn in_part<E: ByteLane, const VLENB: usize>(
    registers: &VregFile<VLENB>,
    op: Op,
    a: usize,
    b: Second<E>,
    m: usize,
    n: usize,
    masked: bool,
) -> bool
    requires size { (E.Lane.size ≡ 1) ⊎ (E.Lane.size ≡ 2) ⊎ (E.Lane.size ≡ 4) }
    requires vlenb { VLENB ≤ 64 }
    requires some { n ≤ 16 }
    requires a_room { a + 16 * m + 16 ≤ 32 * VLENB }
    requires b_room { HasRoom VLENB b (16 * m + 16) }
    requires bits_room { 16 * m + 16 ≤ 8 * VLENB }
    ensures { (k : ℕ) → E.Lane.size * k ≡ n → result ≡ any_of (λ j. holds_at VLENB E.Lane.size
        E.Lane.number (lane_saturates op E.Lane.width) a b masked registers.now
        (E.Lane.count * m + j)) k }
{
    let values = registers.sixteen(a + 16 * m);
    let others = other(registers, b, 16 * m);
    let flags = active_flags::<E, VLENB>(registers, masked, m);
    let both = E::fixed(op, values, others);
    let none = u8x16::splat(0);
    let lanes = written_lanes(flags, first_flags(n), both.1, none, Agnostic::Keep);
    is_set(lanes)
}

/// Whether a byte is not 0.
#[inline(always)]
fn is_set(lanes: u8x16) -> bool
    ensures none { result ≡ false → (k : ℕ) → k < 16 → slice_index lanes k ≡ 0 }
    ensures all { ((k : ℕ) → k < 16 → slice_index lanes k ≡ 0) → result ≡ false }
{
    lanes.simd_ne(u8x16::splat(0)).to_bitmask() != 0
}
