//! An operation on the body of a group, sixteen bytes at a time. `d` is the place of vd's first byte in the
//! registers, and `a` that of vs2's.
ghost use Rattle.std.specs.Prelude.{◌≡◌, ℕ, ◌+◌, ◌*◌, ◌/◌, ◌<◌, ◌≤◌, ◌⊎◌, true, false, length, slice_index};
ghost use Rattle.byteorder.specs.Endian.{little_from};
ghost use Rattle.vreg_groups.specs.NewElements.{filled};
ghost use Rattle.lane_file.specs.InPlace.{Apart, HasRoom, IsDone, IsKept, IsSecondApart};
ghost use Rattle.lane_file.specs.InPlace.{target};

use crate::byte_lane::ByteLane;
use crate::flags::{active_flags, first_flags};
use crate::kernel::Kernel;
use crate::known::KnownChunks;
use crate::second::{Second, other};
use std::simd::prelude::*;
use vreg_groups::{Agnostic, VregFile, written_lanes};

/// The operation on `n` bytes: whole chunks, and of one more the bytes that are left.
#[inline(always)]
pub(crate) fn body<E: ByteLane, K: KnownChunks<VLENB>, const VLENB: usize>(
    registers: &mut VregFile<VLENB>,
    op: K,
    d: usize,
    a: usize,
    b: Second<E>,
    n: usize,
    masked: bool,
    inactive: Agnostic,
)
    requires call { K.Kernel.has_call op ≡ true }
    requires size { (E.Lane.size ≡ 1) ⊎ (E.Lane.size ≡ 2) ⊎ (E.Lane.size ≡ 4) }
    requires vlenb { VLENB ≤ 64 }
    requires d_room { d + 16 * ((n + 15) / 16) ≤ 32 * VLENB }
    requires a_room { a + 16 * ((n + 15) / 16) ≤ 32 * VLENB }
    requires b_room { HasRoom VLENB b (16 * ((n + 15) / 16)) }
    requires bits_room { 16 * ((n + 15) / 16) ≤ 8 * VLENB }
    requires a_apart { Apart d a (16 * ((n + 15) / 16)) }
    requires b_apart { IsSecondApart VLENB d b (16 * ((n + 15) / 16)) }
    requires mask_stays { masked ≡ true → VLENB ≤ d }
    ensures done { IsDone E.Lane.size d
        (target VLENB E.Lane.size E.Lane.number (K.Kernel.answer op E.Lane.width) d a b masked inactive
        registers.old) n
        registers.new }
    ensures kept { IsKept d n registers.old registers.new }
{
    let count = n / 16;
    if masked {
        whole_chunks(registers, op, d, a, b, count, true, inactive);
    } else {
        op.known_chunks::<E>(registers, d, a, b, count, inactive);
    }
    if 16 * count < n {
        part(
            registers,
            op,
            d,
            a,
            b,
            count,
            n - 16 * count,
            masked,
            inactive,
        );
    }
}

/// The chunks all of whose bytes are of the body.
#[inline(always)]
pub(crate) fn whole_chunks<E: ByteLane, K: Kernel, const VLENB: usize>(
    registers: &mut VregFile<VLENB>,
    op: K,
    d: usize,
    a: usize,
    b: Second<E>,
    count: usize,
    masked: bool,
    inactive: Agnostic,
)
    requires call { K.Kernel.has_call op ≡ true }
    requires size { (E.Lane.size ≡ 1) ⊎ (E.Lane.size ≡ 2) ⊎ (E.Lane.size ≡ 4) }
    requires vlenb { VLENB ≤ 64 }
    requires d_room { d + 16 * count ≤ 32 * VLENB }
    requires a_room { a + 16 * count ≤ 32 * VLENB }
    requires b_room { HasRoom VLENB b (16 * count) }
    requires bits_room { 16 * count ≤ 8 * VLENB }
    requires a_apart { Apart d a (16 * count) }
    requires b_apart { IsSecondApart VLENB d b (16 * count) }
    requires mask_stays { masked ≡ true → VLENB ≤ d }
    ensures done { IsDone E.Lane.size d
        (target VLENB E.Lane.size E.Lane.number (K.Kernel.answer op E.Lane.width) d a b masked inactive
        registers.old) (16 * count)
        registers.new }
    ensures kept { IsKept d (16 * count) registers.old registers.new }
{
    for m in 0..count {
        if masked {
            part(registers, op, d, a, b, m, 16, true, inactive);
        } else {
            whole(registers, op, d, a, b, m, inactive);
        }
    }
}

/// Chunk `m`, where all elements are active.
#[inline(always)]
fn whole<E: ByteLane, K: Kernel, const VLENB: usize>(
    registers: &mut VregFile<VLENB>,
    op: K,
    d: usize,
    a: usize,
    b: Second<E>,
    m: usize,
    inactive: Agnostic,
)
    requires call { K.Kernel.has_call op ≡ true }
    requires vlenb { VLENB ≤ 64 }
    requires d_room { d + 16 * m + 16 ≤ 32 * VLENB }
    requires a_room { a + 16 * m + 16 ≤ 32 * VLENB }
    requires b_room { HasRoom VLENB b (16 * m + 16) }
    ensures done { (j : ℕ) → j < E.Lane.count
        → little_from (d + 16 * m + E.Lane.size * j) E.Lane.size registers.new
        ≡ target VLENB E.Lane.size E.Lane.number (K.Kernel.answer op E.Lane.width) d a b false inactive
        registers.old
        (E.Lane.count * m + j) }
    ensures kept { IsKept (d + 16 * m) 16 registers.old registers.new }
{
    let _ = inactive;
    let values = registers.sixteen(a + 16 * m);
    let others = other(registers, b, 16 * m);
    let before = registers.sixteen(d + 16 * m);
    let results = op.results::<E>(values, others, before);
    registers.set_sixteen(d + 16 * m, results);
}

/// The first `n` bytes of chunk `m`, where the active elements alone get results.
#[inline(always)]
fn part<E: ByteLane, K: Kernel, const VLENB: usize>(
    registers: &mut VregFile<VLENB>,
    op: K,
    d: usize,
    a: usize,
    b: Second<E>,
    m: usize,
    n: usize,
    masked: bool,
    inactive: Agnostic,
)
    requires call { K.Kernel.has_call op ≡ true }
    requires size { (E.Lane.size ≡ 1) ⊎ (E.Lane.size ≡ 2) ⊎ (E.Lane.size ≡ 4) }
    requires vlenb { VLENB ≤ 64 }
    requires some { n ≤ 16 }
    requires d_room { d + 16 * m + 16 ≤ 32 * VLENB }
    requires a_room { a + 16 * m + 16 ≤ 32 * VLENB }
    requires b_room { HasRoom VLENB b (16 * m + 16) }
    requires bits_room { 16 * m + 16 ≤ 8 * VLENB }
    ensures done { (j : ℕ) → j < E.Lane.count → E.Lane.size * j + E.Lane.size ≤ n
        → little_from (d + 16 * m + E.Lane.size * j) E.Lane.size registers.new
        ≡ target VLENB E.Lane.size E.Lane.number (K.Kernel.answer op E.Lane.width) d a b masked inactive
        registers.old
        (E.Lane.count * m + j) }
    ensures kept { IsKept (d + 16 * m) n registers.old registers.new }
{
    let values = registers.sixteen(a + 16 * m);
    let others = other(registers, b, 16 * m);
    let old = registers.sixteen(d + 16 * m);
    let flags = active_flags::<E, VLENB>(registers, masked, m);
    let results = op.results::<E>(values, others, old);
    let lanes = written_lanes(flags, first_flags(n), results, old, inactive);
    registers.set_sixteen(d + 16 * m, lanes);
}
